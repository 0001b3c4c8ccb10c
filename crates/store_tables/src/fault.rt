//! Why the database failed.
ghost use Rattle.std.specs.Prelude.{◌≡◌, ◌≤◌, Err, IfErr, IfOk, MatchResult, None, Ok, OnOk, true};
ghost use Rattle.room_rows.specs.Keep.{HasCause, blamed_by, capped};
ghost use Rattle.store_tables.specs.Seeing.{Nowhere, all_changed, fault_for, wants_memory};

use room_rows::{KeepFault, failed};
use sqlite::{Error, ErrorCode};

/// Whether memory for the database's own work ran out, which is no fault of the database.
pub fn wants_memory(error: Error) -> bool
    ensures { result ≡ wants_memory error }
{
    match error {
        Error::SqliteFailure(ErrorCode::OutOfMemory) => true,
        _ => false,
    }
}

/// A keeper's fault for an error of the database. It blames no row.
pub fn fault_for(error: Error) -> KeepFault
    ensures fault { result ≡ fault_for error }
    ensures unblamed { blamed_by result ≡ None }
{
    if wants_memory(error) {
        KeepFault::Memory
    } else {
        KeepFault::Store
    }
}

// The same, counted as a failure unless memory ran out.
fn blamed(error: Error, failures: &mut u64) -> KeepFault
    ensures fault { result ≡ fault_for error }
    ensures cause { HasCause (capped failures.old) (capped failures.new) Nowhere result }
    ensures uncounted { wants_memory error ≡ true → failures.new ≡ failures.old }
    ensures no_less { failures.old ≤ failures.new }
{
    if wants_memory(error) {
        KeepFault::Memory
    } else {
        failed(failures)
    }
}

/// What came of a statement. An error is told as a keeper's fault, and counted.
pub(crate) fn or_blamed<T>(done: Result<T, Error>, failures: &mut u64) -> Result<T, KeepFault>
    ensures told { MatchResult done (λ answer. result ≡ Ok answer)
        (λ error. result ≡ Err (fault_for error)) }
    ensures answer { IfOk result (λ answer. done ≡ Ok answer) }
    ensures cause { IfErr result (HasCause (capped failures.old) (capped failures.new) Nowhere) }
    ensures unfailed { OnOk result (failures.new ≡ failures.old) }
    ensures no_less { failures.old ≤ failures.new }
{
    match done {
        Ok(answer) => Ok(answer),
        Err(error) => Err(blamed(error, failures)),
    }
}

/// What came of a statement that had to change so many rows.
pub(crate) fn wrote_all(
    done: Result<usize, Error>,
    wanted: u64,
    failures: &mut u64,
) -> Result<(), KeepFault>
    ensures answer { result ≡ all_changed wanted done }
    ensures cause { IfErr result (HasCause (capped failures.old) (capped failures.new) Nowhere) }
    ensures unfailed { OnOk result (failures.new ≡ failures.old) }
    ensures no_less { failures.old ≤ failures.new }
{
    match done {
        Ok(count) if count as u64 == wanted => Ok(()),
        Ok(_) => Err(failed(failures)),
        Err(error) => Err(blamed(error, failures)),
    }
}

/// What came of a statement that had to change one row.
pub(crate) fn wrote_one(done: Result<usize, Error>, failures: &mut u64) -> Result<(), KeepFault>
    ensures answer { result ≡ all_changed 1 done }
    ensures cause { IfErr result (HasCause (capped failures.old) (capped failures.new) Nowhere) }
    ensures unfailed { OnOk result (failures.new ≡ failures.old) }
    ensures no_less { failures.old ≤ failures.new }
{
    wrote_all(done, 1, failures)
}
