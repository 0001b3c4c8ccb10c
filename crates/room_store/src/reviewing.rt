//! The review of a part of the room with its own pairs, inside a transaction.
ghost use Rattle.std.specs.Prelude.{◌≡◌};
ghost use Rattle.sqlite.specs.Held.{state};
ghost use Rattle.room_store.specs.Reviews.{IsReviewOf};
ghost use Rattle.store_tables.specs.Carries.{CallsInside, HasDamagedRow, Reading};

use room_review::{Reviewed, Scope};
use room_rows::KeepFault;
use sqlite::{Alter, Transaction};
use std::alloc::Global;
use store_admin::all_members;
use store_transaction::review_inside;

/// The review, inside the transaction, with the pairs that the tables hold.
pub(crate) fn review_all<S: Alter>(
    alloc: Global,
    tx: &mut Transaction<'_, S>,
    question: &Scope,
) -> Result<Reviewed, KeepFault>
    ensures same_reference { tx.new.conn.ghost_name ≡ tx.old.conn.ghost_name }
    ensures carries { CallsInside (state S.Store tx.old.conn.now) (state S.Store tx.new.conn.now)
        result HasDamagedRow (Reading (IsReviewOf question.now)) }
{
    let pairs = all_members(alloc, tx)?;
    review_inside(alloc, tx, pairs.as_slice(), question)
}
