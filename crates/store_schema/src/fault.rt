//! Why a room was not made, opened or upgraded.
ghost use Rattle.std.specs.Prelude.{◌≡◌};
ghost use Rattle.store_schema.specs.Making.{create_fault_of};
ghost use Rattle.store_schema.specs.Opening.{IsCalled, IsFailure, failure_as, keeper_failure_as};
ghost use Rattle.store_schema.specs.Opening.{open_fault_of};

use room_rows::{KeepFault, Text, Unsound};
use sqlite::{Error, ErrorCode};

/// Why no room was made. The tables are then as they were.
#[derive(Clone, Copy, Debug, PartialEq, Eq)]
pub enum CreateFault {
    /// Out of memory.
    Memory,
    /// The database failed, or isn't empty.
    Db,
}

pub(crate) fn create_fault(error: &Error) -> CreateFault
    ensures { result ≡ create_fault_of error.now }
{
    match error {
        Error::SqliteFailure(ErrorCode::OutOfMemory) => CreateFault::Memory,
        _ => CreateFault::Db,
    }
}

/// Why a database was not opened as a room. Nothing in it is then changed.
#[derive(Clone, Copy, Debug, PartialEq, Eq)]
pub enum OpenFault {
    /// `meta` can't be asked for the row `rooms`, has none, or holds no whole number there.
    NotRooms,
    /// The schema's number is below that of this version.
    OldVersion(i64),
    /// The schema's number is above that of this version.
    NewVersion(i64),
    /// The database failed; or the schema has the number that is expected, and the tables, indexes,
    /// views or triggers are other ones than a room is made with.
    Db,
    /// Out of memory.
    Memory,
}

/// Why a room of schema 1 was not upgraded to schema 2. The tables are then as they were.
#[derive(Drop)]
pub enum MigrateFault {
    /// The database holds no room of schema 1, it failed, or memory ran out.
    Opening(OpenFault),
    /// The rows aren't sound.
    Unsound {
        /// Where the first fault is.
        path: Text,
        /// Which test finds it.
        why: Unsound,
    },
}

/// The fault for a query that failed. A text that isn't understood names a table or a column that
/// isn't there.
pub(crate) fn open_fault(error: &Error) -> OpenFault
    ensures called { IsCalled error.now result }
    ensures fault { result ≡ open_fault_of error.now }
{
    match error {
        Error::SqlInputError(_) => OpenFault::NotRooms,
        Error::SqliteFailure(ErrorCode::OutOfMemory) => OpenFault::Memory,
        _ => OpenFault::Db,
    }
}

/// The fault for a database that holds a room, and fails.
pub(crate) fn failure_of(error: &Error) -> OpenFault
    ensures failure { IsFailure result }
    ensures fault { result ≡ failure_as error.now }
{
    match error {
        Error::SqliteFailure(ErrorCode::OutOfMemory) => OpenFault::Memory,
        _ => OpenFault::Db,
    }
}

/// The fault for a keeper that fails.
pub(crate) fn keeper_failure(fault: KeepFault) -> OpenFault
    ensures failure { IsFailure result }
    ensures fault { result ≡ keeper_failure_as fault }
{
    match fault {
        KeepFault::Memory => OpenFault::Memory,
        _ => OpenFault::Db,
    }
}
