//! What a line sends: paths, owners, bytes and lists.

use crate::words::push_all;
use room_ace::{Owners, SentList, Which, read_list, read_name};
use room_rows::{Bytes, Path, read_path};
use std::alloc::Global;
use std::test::Fail;

/// All letters of a mask, for which `ALL` stands in a script.
pub(crate) const ALL_LETTERS: &str = "rwanNxDtThHdcCoy";

/// The path of this text.
pub fn path_of(alloc: Global, text: &str) -> Result<Path, Fail> {
    Ok(read_path(alloc, text.as_bytes())?)
}

/// The owners of a text as `root:staff`.
pub fn owners_of(alloc: Global, text: &str) -> Result<Owners, Fail> {
    let (owner, group) = text.split_once(":").ok_or("no owners")?;
    Ok(Owners {
        owner: read_name(alloc, owner)?,
        group: read_name(alloc, group)?,
    })
}

/// The bytes of a text.
pub(crate) fn bytes_of(alloc: Global, text: &str) -> Result<Bytes, Fail> {
    Ok(Bytes::from_vec(Vec::from_slice(alloc, text.as_bytes())?))
}

/// This many bytes.
pub(crate) fn many_bytes(alloc: Global, count: &str) -> Result<Bytes, Fail> {
    let count = count.parse::<usize>()?;
    Ok(Bytes::from_vec(vec![in alloc; 0x78u8; count]?))
}

/// The list of this name, `dacl` or `sacl`.
pub(crate) fn which_of(text: &str) -> Which {
    if text == "sacl" {
        Which::Sacl
    } else {
        Which::Dacl
    }
}

// Adds a line of a list as a caller sends it.
fn push_line(whole: &mut String, line: &str) -> Result<(), Fail> {
    match line.strip_suffix("ALL") {
        None => push_all(whole, &[line, "\n"]),
        Some(front) => push_all(whole, &[front, ALL_LETTERS, "\n"]),
    }
}

// The text of a list as a caller sends it.
fn sent_text(alloc: Global, text: &str) -> Result<String, Fail> {
    let mut whole = String::new(alloc);
    'lines: for line in text.split(" / ") {
        push_line(&mut whole, line)?;
    }
    Ok(whole)
}

/// The list of a text in a script.
pub fn sent_of(alloc: Global, text: &str) -> Result<SentList, Fail> {
    let whole = sent_text(alloc, text)?;
    Ok(read_list(alloc, whole.as_bytes())?)
}
