//! A copy of a file in memory, opened as a database.
ghost use Rattle.std.specs.Prelude.{◌≡◌, [], IfOk, true, IsTrue};
ghost use Rattle.sqlite_wal.specs.Recovery.{Image};
ghost use Rattle.sqlite.specs.State.{HasCleanDisk};
ghost use Rattle.sqlite.specs.Held.{IsNew};
ghost use Rattle.sqlite.specs.Start.{FindsIn};
ghost use Rattle.sqlite.specs.Files.{file_state};
ghost use Rattle.sqlite_disk.specs.Memory.{memory_bytes, memory_is_usable};

use sqlite::{Connection, Error, ErrorCode, Options};
use sqlite_disk::{Disk, Files, Memory};
use sqlite_store::FileStore;
use std::alloc::Global;

/// Opens a copy of these bytes, which are those of a file that has no log. Nothing is written but
/// in memory. The error is `OutOfMemory`, or why the bytes are no database.
pub fn open_copy(alloc: Global, bytes: &[u8]) -> Result<Connection<FileStore<Memory>>, Error>
    ensures found { IfOk result (λ conn. HasCleanDisk (file_state conn)
        → FindsIn (record { log = []; db = bytes.now }) (file_state conn)) }
    ensures fresh { IfOk result IsNew }
{
    let db = copy_of(alloc, bytes)?;
    let log = Memory::new(alloc);
    match Connection::open_files(alloc, Files { log, db }, Options::new(1)) {
        Ok(conn) => Ok(conn),
        Err((error, _left)) => Err(error),
    }
}

fn copy_of(alloc: Global, bytes: &[u8]) -> Result<Memory, Error>
    ensures copied { IfOk result (λ file. memory_bytes file ≡ bytes.now) }
    ensures usable { IfOk result (λ file. IsTrue (memory_is_usable file)) }
{
    let mut file = Memory::new(alloc);
    match file.write_at(0, bytes) {
        Ok(()) => Ok(file),
        Err(_) => Err(Error::SqliteFailure(ErrorCode::OutOfMemory)),
    }
}
