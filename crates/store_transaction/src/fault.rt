//! Why a store gives no answer.
ghost use Rattle.std.specs.Prelude.{◌≡◌};
ghost use Rattle.store_transaction.specs.Transaction.{commit_fault, fault_as};

use room_rows::KeepFault;
use sqlite::Error;
use store_tables::wants_memory;

/// Why the store gave no answer. The tables then mean what they meant.
#[derive(Clone, Copy, Debug, PartialEq, Eq)]
pub enum StoreFault {
    /// Out of memory.
    Memory,
    /// The database failed, or the connection is in a transaction of its owner.
    Db,
    /// There is no root, a row can't be read, or something that belongs to it is missing.
    Damaged,
}

/// The fault of a store for that of its keeper.
pub(crate) fn fault_of(fault: KeepFault) -> StoreFault
    ensures { result ≡ fault_as fault }
{
    match fault {
        KeepFault::Memory => StoreFault::Memory,
        KeepFault::Store => StoreFault::Db,
        KeepFault::NoRoot => StoreFault::Damaged,
        KeepFault::Damaged { .. } => StoreFault::Damaged,
    }
}

/// The fault of a store whose commit fails with this error.
pub fn commit_fault(error: Error) -> StoreFault
    ensures { result ≡ commit_fault error }
{
    if wants_memory(error) {
        StoreFault::Memory
    } else {
        StoreFault::Db
    }
}
