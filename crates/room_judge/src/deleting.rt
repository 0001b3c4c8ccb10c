//! The deletion rule, with its records.
ghost use Rattle.std.specs.Prelude.{◌≡◌, ◌≤◌, [], ◌∷◌};
ghost use Rattle.room_entry.specs.Rights.{delete};
ghost use Rattle.room_rows.specs.Keep.{IsNever};
ghost use Rattle.room_machine.specs.Judge.{of_deletion, records_of_checks};
ghost use Rattle.room_machine.specs.Plan.{Deletion};
ghost use Rattle.room_judge.specs.Halted.{Grants, Judges, Tries};
ghost use Rattle.room_judge.specs.Judged.{Does, is_deletable, second_right, with_notes};
ghost use Rattle.room_judge.specs.Stored.{found_site};

use crate::arrival::Found;
use crate::asker::Ask;
use crate::checking::{Checked, granted, note_check};
use crate::halt::Halt;
use room_ace::Mask;
use room_eval::{DeleteVerdict, Verdict, may_delete};
use room_rows::{Keep, KeepFault};

// Whether the object may be deleted.
fn is_deletable(verdict: &DeleteVerdict) -> bool
    ensures { result ≡ is_deletable verdict.now }
{
    match verdict {
        DeleteVerdict::Granted { by_add: _ } => true,
        DeleteVerdict::AtTarget { place: _ } => false,
        DeleteVerdict::AtParent { bits: _, place: _ } => false,
    }
}

// The right that the second check of a deletion asks of the parent.
fn second_right(verdict: &DeleteVerdict) -> Mask
    ensures { result ≡ second_right verdict.now }
{
    match verdict {
        DeleteVerdict::Granted { by_add: true } => Mask::write_data(),
        DeleteVerdict::Granted { by_add: false } => Mask::delete_child(),
        DeleteVerdict::AtTarget { place: _ } => Mask::delete_child(),
        DeleteVerdict::AtParent { bits, place: _ } => *bits,
    }
}

// An object that is to leave its folder, and what the deletion rule says of it.
#[derive(Drop)]
struct Leaving<'a> {
    ask: &'a Ask<'a>,
    target: &'a Found,
    folder: &'a Found,
    verdict: &'a DeleteVerdict,
}

// Nothing where the rule grants, and else the denial.
fn deletable(leaving: &Leaving<'_>) -> Result<(), Halt>
    ensures { Grants result (of_deletion
        (found_site leaving.now.ask.now.path.now leaving.now.target.now)
        (found_site leaving.now.ask.now.path.now leaving.now.folder.now) leaving.now.verdict.now) }
{
    match leaving.verdict {
        DeleteVerdict::Granted { by_add: _ } => Ok(()),
        DeleteVerdict::AtTarget { place } => {
            let bits = Mask::delete();
            let place = Some(*place);
            let denied = Verdict::Denied { bits, place };
            granted(leaving.ask, leaving.target, &denied)
        }
        DeleteVerdict::AtParent { bits, place } => {
            let bits = *bits;
            let place = *place;
            let denied = Verdict::Denied { bits, place };
            granted(leaving.ask, leaving.folder, &denied)
        }
    }
}

// Notes the records of the two checks of a deletion with this verdict.
fn note_deletion<K: Keep>(keep: &mut K, leaving: &Leaving<'_>) -> Result<(), KeepFault>
    ensures done { Does K.Keep keep.old keep.new result IsNever (λ old _ new. new ≡ with_notes old
        (records_of_checks leaving.now.ask.now.asker.now.caller
        leaving.now.ask.now.asker.now.moment (is_deletable leaving.now.verdict.now)
        ((found_site leaving.now.ask.now.path.now leaving.now.target.now, delete ∷ []) ∷ (
          found_site leaving.now.ask.now.path.now leaving.now.folder.now,
          second_right leaving.now.verdict.now,
        ) ∷ []))) }
    ensures counted { K.reads keep.new ≤ K.reads keep.old }
{
    let granted = is_deletable(leaving.verdict);
    let first = Checked {
        ask: leaving.ask,
        found: leaving.target,
        bits: Mask::delete(),
        granted,
    };
    note_check(keep, &first)?;
    let second = Checked {
        ask: leaving.ask,
        found: leaving.folder,
        bits: second_right(leaving.verdict),
        granted,
    };
    note_check(keep, &second)
}

/// The deletion rule on an object and its folder. The records of its two checks, of DELETE on the
/// object and of the right that decides on the folder, are noted.
pub fn check_deletion<K: Keep>(
    keep: &mut K,
    ask: &Ask<'_>,
    target: &Found,
    folder: &Found,
) -> Result<(), Halt>
    ensures done { Tries K.Keep keep.old keep.new result IsNever
        (Judges ask.now.asker.now (Deletion (found_site ask.now.path.now target.now)
        (found_site ask.now.path.now folder.now) ∷ [])) }
    ensures counted { K.reads keep.new ≤ K.reads keep.old }
{
    let verdict = may_delete(
        target.node.dacl.full(),
        &target.node.owners,
        folder.node.dacl.full(),
        &folder.node.owners,
        &ask.asker.caller,
    );
    let leaving = Leaving {
        ask,
        target,
        folder,
        verdict: &verdict,
    };
    note_deletion(keep, &leaving)?;
    deletable(&leaving)
}
