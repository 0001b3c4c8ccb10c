//! How many pages of a file are kept in memory.
ghost use Rattle.std.specs.Prelude.{◌≡◌, IfOk};
ghost use Rattle.store_file.specs.FileOptions.{IsWithin, kept_pages};

use std::fs;
use std::io::{self, Read};

/// As many as the library keeps where nobody asks for another number. It reserves memory for all of
/// them when it opens a file, 8 MB here.
pub const LEAST_PAGES: usize = 2_000;

/// 128 MiB. `MemoryMax` is twice the size of the file and 256 MB more: what the rows hold takes up
/// to that size, and the pages never more than it, so that 256 MB are left for all else.
pub const MOST_PAGES: usize = 32_768;

// The size of a page.
const PAGE: u64 = 4_096;

// What a database with pages of this size begins with.
const HEADER: &[u8] = b"SQLite format 3\0\x10\0";

/// How many pages are kept of a file of this many bytes: all that it has, within both limits. Page
/// n has the place n modulo this number, so with all of them none displaces another.
pub fn pages_for(len: u64) -> usize
    ensures { result ≡ kept_pages len }
{
    let most = MOST_PAGES as u64;
    let pages = (len / PAGE).min(most) as usize;
    pages.max(LEAST_PAGES)
}

/// How many pages of this file are kept in memory. Of one that can't be read, or has pages of
/// another size, which only another program makes, it is the least number. Ask before the file is
/// opened as a database.
pub fn pages_of(rt: &HostRuntime, path: &str) -> usize
    ensures { IsWithin result }
{
    match pages_found(rt, path) {
        Ok(pages) => pages,
        Err(_) => LEAST_PAGES,
    }
}

fn pages_found(rt: &HostRuntime, path: &str) -> io::Result<usize>
    ensures { IfOk result IsWithin }
{
    let found = fs::metadata(rt, path)?;
    let pages = pages_for(found.len());
    if pages == LEAST_PAGES || !found.is_file() || !has_known_pages(rt, path)? {
        return Ok(LEAST_PAGES);
    }
    Ok(pages)
}

// Whether the header says that pages have the size that this module counts in.
fn has_known_pages(rt: &HostRuntime, path: &str) -> io::Result<bool> {
    let mut head = Vec::new(rt.alloc());
    fs::open(rt, path)?
        .take(HEADER.len() as u64)
        .read_to_end(&mut head)?;
    Ok(head.as_slice() == HEADER)
}
