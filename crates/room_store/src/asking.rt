//! Whether a connection is shut.
ghost use Rattle.std.specs.Prelude.{◌≡◌, false};
ghost use Rattle.sqlite.specs.Held.{state};
ghost use Rattle.room_store.specs.Asks.{Asks, says_shut, told_by};

use sqlite::{Alter, Connection, Error, ErrorCode};
use store_transaction::{StoreFault, commit_fault};

/// Whether a fault of the disk has shut the connection. A statement is prepared, and not run. At an
/// error it isn't known.
pub(crate) fn test_shut<S: Alter>(conn: &mut Connection<S>) -> Result<bool, StoreFault>
    requires { conn.old.in_transaction ≡ false }
    ensures { Asks (state S.Store conn.old) (state S.Store conn.new) result }
{
    // Gives a proof that nothing waits to be committed.
    let _settled = conn.is_autocommit();
    match conn.prepare("SELECT 1") {
        Ok(statement) => {
            drop(statement);
            Ok(false)
        }
        Err(error) => told_by(error),
    }
}

// What an error tells: that the connection is shut, or that it isn't known.
fn told_by(error: Error) -> Result<bool, StoreFault>
    ensures { result ≡ told_by error }
{
    if says_shut(error) {
        Ok(true)
    } else {
        Err(commit_fault(error))
    }
}

// Whether the error is that of a connection that is shut.
fn says_shut(error: Error) -> bool
    ensures { result ≡ says_shut error }
{
    match error {
        Error::SqliteFailure(ErrorCode::Closed) => true,
        _ => false,
    }
}
