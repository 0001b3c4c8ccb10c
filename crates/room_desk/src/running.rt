//! Requests carried out one after another.
ghost use Rattle.std.specs.Prelude.{◌≡◌, ◌+◌, [], ◌∷◌, ◌++◌, IfOk, OnOk};
ghost use Rattle.room_rows.specs.Keep.{IsDamaged};
ghost use Rattle.room_judge.specs.Closed.{Performs};
ghost use Rattle.room_judge.specs.Judged.{DoesUpTo, DoesWithin};
ghost use Rattle.room_desk.specs.Called.{ReadsFew, calls_for, hands_down};
ghost use Rattle.room_desk.specs.InTurn.{
  IsDamagedAfter,
  RunsAll,
  WritesInTurn,
  calls_for_all,
  some_hands_down,
};
ghost use Rattle.room_desk.specs.Counted.{extent_of};
ghost use Rattle.room_judge.specs.Extent.{Unsaid};

use crate::performing::perform;
use room_ace::Name;
use room_machine::{Reply, Request};
use room_rows::{Keep, KeepFault};
use std::alloc::{AllocError, Global};

/// A request with its caller and its moment.
#[derive(Drop)]
pub struct Asked {
    /// The caller, who is anonymous without a name.
    pub user: Option<Name>,
    /// The moment, in seconds from 1970-01-01 00:00 UTC.
    pub moment: i64,
    /// The request.
    pub request: Request,
}

/// Carries out the requests in turn, and returns their replies in the same order. From sound rows
/// these are a run of the room machine, and the rows are sound again. The first fault of the keeper
/// ends it: what the keeper holds then depends on the transaction around the call alone. `Damaged`
/// names a damaged row of those that the requests before it left. What is written and read is
/// bounded by the sum of what `perform` writes and reads for each.
pub fn perform_all<K: Keep>(
    alloc: Global,
    keep: &mut K,
    asked: &[Asked],
) -> Result<Vec<Reply>, KeepFault>
    ensures done { DoesUpTo K.Keep keep.old keep.new result Unsaid (IsDamagedAfter asked.now)
        (λ old replies new. RunsAll asked.now old replies.items new) }
    ensures few { IfOk result
        (λ replies. WritesInTurn K.Keep asked.now replies.items keep.old keep.new) }
    ensures counted { ReadsFew K.Keep (some_hands_down asked.now) (calls_for_all asked.now)
        keep.old keep.new result }
{
    let mut replies = Vec::new(alloc);
    'requests: for one in asked {
        let reply = perform_one(alloc, keep, one)?;
        add_reply(&mut replies, reply)?;
    }
    Ok(replies)
}

// Carries out one request.
fn perform_one<K: Keep>(alloc: Global, keep: &mut K, asked: &Asked) -> Result<Reply, KeepFault>
    ensures done { DoesWithin K.Keep keep.old keep.new result (extent_of asked.now.request)
        IsDamaged (Performs asked.now.user asked.now.moment asked.now.request) }
    ensures counted { ReadsFew K.Keep (hands_down asked.now.request)
        (calls_for asked.now.request + 1) keep.old keep.new result }
{
    perform(
        alloc,
        keep,
        asked.user.as_ref(),
        asked.moment,
        &asked.request,
    )
}

// Adds a reply after the others.
fn add_reply(replies: &mut Vec<Reply>, reply: Reply) -> Result<(), AllocError>
    ensures { OnOk result (replies.new.items ≡ replies.old.items ++ reply ∷ []) }
{
    replies.push(reply)?;
    Ok(())
}
