//! A connection to a file and to its log.
ghost use Rattle.std.specs.Prelude.{◌≡◌, ◌↔◌, ◌⊎◌, None, true, false, IsTrue, IfOk, IfErr, IfSome};
ghost use Rattle.sqlite_wal.specs.Files.{image_at};
ghost use Rattle.sqlite_std_file.specs.File.{file_is_usable, IsFresh};
ghost use Rattle.sqlite_store.specs.FileStore.{view};
ghost use Rattle.sqlite.specs.State.{HasCleanDisk};
ghost use Rattle.sqlite.specs.Held.{IsNew};
ghost use Rattle.sqlite.specs.Start.{FindsIn};
ghost use Rattle.sqlite.specs.Opening.{is_open_error};
ghost use Rattle.sqlite.specs.Files.{FailsToOpenFiles, IsBlankAs, IsCleanLeft, IsOpened};
ghost use Rattle.sqlite.specs.Files.{LeavesFiles, file_state};
ghost use Rattle.store_file.specs.FileOptions.{HasUsual, IsHashed};

use sqlite::{Connection, Error, ErrorCode, Leftover, Options};
use sqlite_disk::{Files, Start};
use sqlite_std_file::{FileFrom, OpenError};
use sqlite_store::FileStore;
use std::hash::{BuildHasher, RandomState};
use std::io::ErrorKind;

/// A connection to the file and to its log.
pub type FileConnection<S> = Connection<FileStore<FileFrom<S>>>;

/// Why a file isn't open, with what is left of it and of its log where they were opened.
pub type OpenFailure<S> = (Error, Option<Leftover<FileFrom<S>>>);

const NO_MEMORY: Error = Error::SqliteFailure(ErrorCode::OutOfMemory);

const BUSY: Error = Error::SqliteFailure(ErrorCode::DatabaseBusy);

const CANNOT_OPEN: Error = Error::SqliteFailure(ErrorCode::CannotOpen);

// The library's own: how many written pages of a transaction are kept in memory, and how long the
// log grows before it is copied into the file.
const SPILL_PAGES: usize = 2_000;

const CHECKPOINT_FRAMES: usize = 1_000;

/// Opens the file, or makes it, as `Connection::open_from` does, with this many pages in memory.
pub fn open_with<S: Start>(
    rt: &HostRuntime,
    path: &str,
    start: S,
    pages: usize,
) -> Result<FileConnection<S>, OpenFailure<S>>
    ensures named { IfErr result (λ e. IsTrue (is_open_error e.0)) }
    ensures opened { IfOk result (λ c. HasCleanDisk (file_state c) → IsOpened c) }
    ensures found { IfOk result (λ c. HasCleanDisk (file_state c)
        → FindsIn (image_at S.Start) (file_state c)) }
    ensures plain { IfOk result (λ c. HasCleanDisk (file_state c)
        → IsBlankAs false (image_at S.Start) → (view c.store).has_sums ≡ false) }
    ensures fresh { IfOk result IsNew }
    ensures guarded { IfOk result (λ c. HasCleanDisk (file_state c)
        → (file_state c).IsShielded) }
    ensures unopened { IfErr result (λ e. e.1 ≡ None
        → (e.0 ≡ CANNOT_OPEN) ⊎ ((e.0 ≡ NO_MEMORY) ⊎ (e.0 ≡ BUSY))) }
    ensures cause { IfErr result (λ e. IfSome e.1 (λ left. (files : _)
        × IsFresh true files.log × IsFresh false files.db
        × (IsCleanLeft left → FailsToOpenFiles files left e.0 × LeavesFiles files left))) }
{
    let files = match open_pair(rt, path, start) {
        Ok(files) => files,
        Err(error) => return Err((error, None)),
    };
    let options = match options_for(rt, pages) {
        Ok(options) => options,
        Err(error) => return Err((error, None)),
    };
    // no clause of the library says with which options it opened
    prove!(is_usual(&options, pages));
    match Connection::open_files(rt.alloc(), files, options) {
        Ok(mut conn) => {
            conn.set_clock(rt);
            Ok(conn)
        }
        Err((error, left)) => Err((error, Some(left))),
    }
}

// Opens the file and its log, and makes those that are missing.
fn open_pair<S: Start>(rt: &HostRuntime, path: &str, start: S) -> Result<Files<FileFrom<S>>, Error>
    ensures named { IfErr result (λ e. IsTrue (is_open_error e)) }
    ensures log { IfOk result (λ files. IsTrue (file_is_usable S.Start files.log)) }
    ensures db { IfOk result (λ files. IsTrue (file_is_usable S.Start files.db)) }
    ensures fresh { IfOk result (λ files. IsFresh true files.log × IsFresh false files.db) }
    ensures kind { IfErr result (λ e. (e ≡ CANNOT_OPEN) ⊎ ((e ≡ NO_MEMORY) ⊎ (e ≡ BUSY))) }
{
    match sqlite_std_file::open(rt, path, start) {
        Ok(files) => Ok(files),
        Err(OpenError::OutOfMemory) => Err(NO_MEMORY),
        Err(OpenError::Busy) => Err(BUSY),
        Err(OpenError::Io(error)) if error.kind() == ErrorKind::OutOfMemory => Err(NO_MEMORY),
        Err(_) => Err(CANNOT_OPEN),
    }
}

// The library's options with this many pages, and a random number for the log.
fn options_for(rt: &HostRuntime, pages: usize) -> Result<Options, Error>
    ensures ok { IfOk result (HasUsual pages) }
    ensures salted { IfOk result (λ options. IsHashed options.seed) }
    ensures err { IfErr result (λ e. e ≡ CANNOT_OPEN) }
{
    let random = match RandomState::new(rt) {
        Ok(random) => random,
        Err(_) => return Err(CANNOT_OPEN),
    };
    Ok(with_pages(Options::new(random.hash_one(&0u8)), pages))
}

fn with_pages(options: Options, pages: usize) -> Options
    ensures { result ≡ record options { cache_pages = pages } }
{
    Options {
        cache_pages: pages,
        ..options
    }
}

// Whether these are the library's own options, but for the pages in memory, which are as many as
// these, and the number for the log.
fn is_usual(options: &Options, pages: usize) -> bool
    ensures { IsTrue result ↔ HasUsual pages options.now }
{
    options.cache_pages == pages
        && options.spill_pages == SPILL_PAGES
        && options.checkpoint_frames == CHECKPOINT_FRAMES
}
