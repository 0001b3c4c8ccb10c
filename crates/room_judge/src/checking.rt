//! One check of bits on an object, and the records that it calls for.
ghost use Rattle.std.specs.Prelude.{◌≡◌, ◌-◌, ◌≤◌, [], ◌∷◌, IfOk, option_and_then, slice_get};
ghost use Rattle.room_rows.specs.Keep.{IsNever};
ghost use Rattle.room_machine.specs.Judge.{kind_at, of_verdict, record_at, records_of};
ghost use Rattle.room_machine.specs.Plan.{Check};
ghost use Rattle.room_judge.specs.Halted.{Grants, Judges, Tries};
ghost use Rattle.room_judge.specs.Judged.{Does, is_grant, with_notes};
ghost use Rattle.room_judge.specs.Stored.{found_site};

use crate::arrival::Found;
use crate::asker::{Ask, copy_user};
use crate::halt::Halt;
use room_ace::{Entry, EntryKind, Mask};
use room_eval::{Verdict, decide, events};
use room_machine::Reply;
use room_rows::{AuditRow, Keep, KeepFault, RecordKind, Text};
use std::alloc::AllocError;

// One check on the object at the end of a walk, with its outcome.
#[derive(Drop)]
pub(crate) struct Checked<'a> {
    pub ask: &'a Ask<'a>,
    pub found: &'a Found,
    pub bits: Mask,
    pub granted: bool,
}

// Nothing where the verdict on the object's dacl grants, and else the denial.
pub(crate) fn granted(ask: &Ask<'_>, found: &Found, verdict: &Verdict) -> Result<(), Halt>
    ensures { Grants result (of_verdict (found_site ask.now.path.now found.now) verdict.now) }
{
    match verdict {
        Verdict::Granted => Ok(()),
        Verdict::Denied { bits, place } => {
            let entry = entry_copy(found.node.dacl.full(), *place)?;
            Err(Halt::Refused(Reply::Denied {
                at: ask.path.front(ask.alloc, found.depth)?,
                bits: *bits,
                place: *place,
                entry,
            }))
        }
    }
}

// The entry at the place, counted from 1.
fn entry_copy(entries: &[Entry], place: Option<usize>) -> Result<Option<Entry>, AllocError>
    ensures { IfOk result
        (λ entry. entry ≡ option_and_then (λ place. slice_get entries.now (place - 1)) place) }
{
    match place {
        None => Ok(None),
        Some(place) => match entries.get(place.saturating_sub(1)) {
            None => Ok(None),
            Some(entry) => Ok(Some(entry.clone()?)),
        },
    }
}

// Whether all that was asked is granted.
fn is_grant(verdict: Verdict) -> bool
    ensures { result ≡ is_grant verdict }
{
    match verdict {
        Verdict::Granted => true,
        Verdict::Denied { bits: _, place: _ } => false,
    }
}

// The kind of a record that the entry at the place calls for.
fn record_kind(entries: &[Entry], place: usize) -> RecordKind
    ensures { result ≡ kind_at entries.now place }
{
    match entries.get(place.saturating_sub(1)) {
        None => RecordKind::Audit,
        Some(entry) => match entry.kind() {
            EntryKind::Alarm => RecordKind::Alarm,
            EntryKind::Allow | EntryKind::Deny | EntryKind::Audit => RecordKind::Audit,
        },
    }
}

// The record of a check that the entry at this place of the object's sacl calls for.
fn row_of(checked: &Checked<'_>, place: usize) -> Result<AuditRow, AllocError>
    ensures { IfOk result
        (λ row. row ≡ record_at checked.now.ask.now.asker.now.caller
        checked.now.ask.now.asker.now.moment checked.now.granted
        (found_site checked.now.ask.now.path.now checked.now.found.now, checked.now.bits) place) }
{
    let ask = checked.ask;
    let user = copy_user(&ask.asker.caller.user)?;
    Ok(AuditRow {
        at: ask.asker.moment,
        user,
        path: Text::from_string(ask.path.front_text(ask.alloc, checked.found.depth)?),
        bits: checked.bits,
        granted: checked.granted,
        place,
        kind: record_kind(checked.found.node.sacl.full(), place),
    })
}

// Notes the records of one check.
pub(crate) fn note_check<K: Keep>(keep: &mut K, checked: &Checked<'_>) -> Result<(), KeepFault>
    ensures done { Does K.Keep keep.old keep.new result IsNever
        (λ old _ new. new ≡ with_notes old
        (records_of checked.now.ask.now.asker.now.caller checked.now.ask.now.asker.now.moment
        checked.now.granted
        (found_site checked.now.ask.now.path.now checked.now.found.now, checked.now.bits))) }
    ensures counted { K.reads keep.new ≤ K.reads keep.old }
{
    let places = events(
        checked.ask.alloc,
        checked.found.node.sacl.full(),
        &checked.ask.asker.caller,
        &checked.found.node.owners,
        checked.bits,
        checked.granted,
    )?;
    'places: for place in places.as_slice() {
        let row = row_of(checked, *place)?;
        keep.note(row)?;
    }
    Ok(())
}

/// One check of these bits on the object.
pub fn check<K: Keep>(keep: &mut K, ask: &Ask<'_>, found: &Found, mask: Mask) -> Result<(), Halt>
    ensures done { Tries K.Keep keep.old keep.new result IsNever
        (Judges ask.now.asker.now (Check (found_site ask.now.path.now found.now) mask ∷ [])) }
    ensures counted { K.reads keep.new ≤ K.reads keep.old }
{
    let verdict = decide(
        found.node.dacl.full(),
        &ask.asker.caller,
        &found.node.owners,
        mask,
    );
    let checked = Checked {
        ask,
        found,
        bits: mask,
        granted: is_grant(verdict),
    };
    note_check(keep, &checked)?;
    granted(ask, found, &verdict)
}
