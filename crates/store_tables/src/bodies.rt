//! The bytes of documents, replaced.
ghost use Rattle.std.specs.Prelude.{◌≡◌};
ghost use Rattle.sqlite.specs.Held.{state};
ghost use Rattle.store_tables.specs.Trust.{HasBody, Puts};

use crate::fault::{or_blamed, wrote_one};
use crate::keeper::Keeper;
use crate::statements::{delete_bytes, insert_bytes, update_bytes};
use room_rows::KeepFault;
use sqlite::Alter;

// From so many bytes on, a DELETE and an INSERT take less time than an UPDATE, which copies the new
// bytes through the query that finds the row, and they use the pages of the old bytes again.
// Smaller documents gain nothing by it.
const LARGE: usize = 64 * 1024;

// Takes the bytes of a document out, and puts others in.
fn replace_bytes<S: Alter>(
    keeper: &mut Keeper<'_, '_, S>,
    id: u64,
    bytes: &[u8],
) -> Result<(), KeepFault>
    ensures same_reference { keeper.new.tx.ghost_name ≡ keeper.old.tx.ghost_name }
    ensures same_lender { keeper.new.tx.now.conn.ghost_name ≡ keeper.old.tx.now.conn.ghost_name }
    ensures unwritten { keeper.new.writes ≡ keeper.old.writes }
    ensures puts { Puts (state S.Store keeper.old.tx.now.conn.now)
        (state S.Store keeper.new.tx.now.conn.now) keeper.old.failures keeper.new.failures
        result (λ _. HasBody id bytes.now) }
{
    wrote_one(delete_bytes(keeper.tx, id), &mut keeper.failures)?;
    or_blamed(insert_bytes(keeper.tx, id, bytes), &mut keeper.failures)?;
    Ok(())
}

/// Replaces the bytes of a document, and doesn't count it.
pub(crate) fn fill_bytes<S: Alter>(
    keeper: &mut Keeper<'_, '_, S>,
    id: u64,
    bytes: &[u8],
) -> Result<(), KeepFault>
    ensures same_reference { keeper.new.tx.ghost_name ≡ keeper.old.tx.ghost_name }
    ensures same_lender { keeper.new.tx.now.conn.ghost_name ≡ keeper.old.tx.now.conn.ghost_name }
    ensures unwritten { keeper.new.writes ≡ keeper.old.writes }
    ensures puts { Puts (state S.Store keeper.old.tx.now.conn.now)
        (state S.Store keeper.new.tx.now.conn.now) keeper.old.failures keeper.new.failures
        result (λ _. HasBody id bytes.now) }
{
    let is_large = bytes.len() >= LARGE;
    if is_large {
        return replace_bytes(keeper, id, bytes);
    }
    let done = update_bytes(keeper.tx, id, bytes);
    wrote_one(done, &mut keeper.failures)
}
