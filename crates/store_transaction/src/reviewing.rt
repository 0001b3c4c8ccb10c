//! The review of a part of the room, inside a transaction.
ghost use Rattle.std.specs.Prelude.{◌≡◌};
ghost use Rattle.sqlite.specs.Held.{state};
ghost use Rattle.store_tables.specs.Carries.{CallsInside, HasDamagedRow, Reading};
ghost use Rattle.store_transaction.specs.Reviews.{IsReviewBy};

use room_ace::Name;
use room_review::{Reviewed, Scope, review};
use room_rows::KeepFault;
use sqlite::{Alter, Transaction};
use std::alloc::Global;
use store_tables::{Keeper, RecentLists};

// The review, by the keeper.
fn review_by<S: Alter>(
    alloc: Global,
    keeper: &mut Keeper<'_, '_, S>,
    pairs: &[(Name, Name)],
    question: &Scope,
) -> Result<Reviewed, KeepFault>
    ensures same_reference { keeper.new.tx.ghost_name ≡ keeper.old.tx.ghost_name }
    ensures same_lender { keeper.new.tx.now.conn.ghost_name ≡ keeper.old.tx.now.conn.ghost_name }
    ensures carries { CallsInside (state S.Store keeper.old.tx.now.conn.now)
        (state S.Store keeper.new.tx.now.conn.now) result HasDamagedRow
        (Reading (IsReviewBy pairs.now question.now)) }
{
    review(alloc, keeper, pairs, question)
}

/// The review, inside the transaction, by these pairs.
pub fn review_inside<S: Alter>(
    alloc: Global,
    tx: &mut Transaction<'_, S>,
    pairs: &[(Name, Name)],
    question: &Scope,
) -> Result<Reviewed, KeepFault>
    ensures same_reference { tx.new.conn.ghost_name ≡ tx.old.conn.ghost_name }
    ensures carries { CallsInside (state S.Store tx.old.conn.now) (state S.Store tx.new.conn.now)
        result HasDamagedRow (Reading (IsReviewBy pairs.now question.now)) }
{
    let mut lists = RecentLists::new();
    let mut keeper = Keeper {
        alloc,
        tx,
        lists: &mut lists,
        failures: 0,
        writes: 0,
    };
    review_by(alloc, &mut keeper, pairs, question)
}
