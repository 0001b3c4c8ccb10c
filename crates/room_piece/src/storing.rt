//! What is stored of an object's list.
ghost use Rattle.std.specs.Prelude.{◌≡◌, ◌||◌, not, None, Some, IfOk, MatchResult};
ghost use Rattle.room_entry.specs.Same.{same_entries};
ghost use Rattle.room_entry.specs.declared.object.Which.TheVariants.{Dacl};
ghost use Rattle.room_ace.specs.Sent.{inherited_of, limit_fault, own_of};
ghost use Rattle.room_machine.specs.Changed.{passed_held};
ghost use Rattle.room_rows.specs.Held.{full_of, is_linked};
ghost use Rattle.room_rows.specs.Pass.{pass};
ghost use Rattle.room_desk.specs.Setting.{fault_in};
ghost use Rattle.room_piece.specs.Refusing.{Blames};
ghost use Rattle.room_piece.specs.Storing.{
  IsWithin,
  list_fault,
  listed,
  misfit,
  passing,
  root_list,
  root_misfit,
  silent,
  whole,
};

use crate::refusal::{Refusal, RefusalWhy, refused_for};
use room_ace::{
    Entries, Entry, EntryFlags, EntryKind, Failure, ListFlags, Mask, ObjKind, SentList, Which, Who,
    first_bad_entry,
};
use room_inherit::{pass, stores};
use room_machine::Reason;
use room_question::{Listed, Object};
use room_rows::Held;
use std::alloc::{AllocError, Global};

/// A list without entries that is passed on.
pub(crate) fn silent(alloc: Global) -> Held
    ensures { result ≡ silent }
{
    let flags = ListFlags {
        auto: true,
        protect: false,
    };
    Held::inherited(flags, Entries::new(alloc))
}

// What stands for a list that isn't known: everybody passes, and nothing is passed down.
fn passing(alloc: Global) -> Result<Held, AllocError>
    ensures { IfOk result (λ held. held ≡ passing) }
{
    let none = EntryFlags {
        file_inherit: false,
        directory_inherit: false,
        no_propagate_inherit: false,
        inherit_only: false,
        successful_access: false,
        failed_access: false,
        identifier_group: false,
        inherited: false,
    };
    let mut own = Entries::new(alloc);
    own.push(Entry::new(EntryKind::Allow, none, Who::Everyone, Mask::execute()))?;
    let flags = ListFlags {
        auto: false,
        protect: true,
    };
    Held::new(flags, own, Entries::new(alloc))
}

// The list of a new object below one that has this list.
pub(crate) fn passed_held(alloc: Global, kind: ObjKind, above: &Held) -> Result<Held, AllocError>
    ensures { IfOk result (λ held. held ≡ passed_held kind above.now) }
{
    let passed = pass(alloc, kind, above.full())?;
    let flags = ListFlags {
        auto: above.flags().auto,
        protect: false,
    };
    Ok(Held::inherited(flags, passed))
}

// The entries without INHERITED.
fn own_of(sent: &SentList) -> Result<Entries, AllocError>
    ensures { IfOk result (λ own. own ≡ own_of sent.now.entries) }
{
    let mut own = sent.entries().copy()?.into_vec();
    own.retain(
        |entry|
            ensures { result ≡ not entry.now.flags.inherited }
        { !entry.flags().inherited },
    );
    Ok(Entries::from_vec(own))
}

// The entries with INHERITED.
fn inherited_of(sent: &SentList) -> Result<Entries, AllocError>
    ensures { IfOk result (λ inherited. inherited ≡ inherited_of sent.now.entries) }
{
    let mut inherited = sent.entries().copy()?.into_vec();
    inherited.retain(
        |entry|
            ensures { result ≡ entry.now.flags.inherited }
        { entry.flags().inherited },
    );
    Ok(Entries::from_vec(inherited))
}

// The whole list, as it was answered.
fn whole(sent: &SentList) -> Result<Held, AllocError>
    ensures { IfOk result (λ held. held ≡ whole sent.now) }
{
    let own = own_of(sent)?;
    let inherited = inherited_of(sent)?;
    Held::new(sent.flags(), own, inherited)
}

// Whether the list of an object of this kind, if it follows the one above, has the inherited
// entries that this passes.
fn agrees(alloc: Global, kind: ObjKind, held: &Held, above: &Held) -> Result<bool, AllocError>
    ensures { IfOk result (λ agrees. agrees ≡ (not (is_linked held.now (Some above.now))
        || same_entries held.now.inh (pass kind (full_of above.now)))) }
{
    let is_linked = !held.flags().protect && above.flags().auto;
    if !is_linked {
        return Ok(true);
    }
    let passed = pass(alloc, kind, above.full())?;
    Ok(stores(held, &passed))
}

// Why the list may not stand on an object of this kind below one with this list.
fn fault_of(
    alloc: Global,
    kind: ObjKind,
    sent: &SentList,
    held: &Held,
    above: &Held,
) -> Result<Option<RefusalWhy>, AllocError>
    ensures fault { IfOk result (λ fault. fault ≡ list_fault kind sent.now held.now above.now) }
    ensures within { limit_fault sent.now.entries ≡ None }
{
    match bad_entry(kind, sent) {
        Some(why) => Ok(Some(RefusalWhy::Room(why))),
        None => {
            if agrees(alloc, kind, held, above)? {
                Ok(None)
            } else {
                Ok(Some(RefusalWhy::NotPassedDown))
            }
        }
    }
}

// The first entry that may not stand in the dacl of an object of this kind.
fn bad_entry(kind: ObjKind, sent: &SentList) -> Option<Reason>
    ensures fault { result ≡ fault_in 1 Dacl kind sent.now.entries }
    ensures within { limit_fault sent.now.entries ≡ None }
{
    match first_bad_entry(sent.entries().as_slice(), Which::Dacl, kind) {
        None => None,
        Some(fault) => Some(Reason::BadList {
            place: fault.place,
            fault: fault.why,
        }),
    }
}

// The list that was answered of an object below one that has this list.
fn whole_below(
    alloc: Global,
    object: &Object,
    sent: &SentList,
    above: &Held,
) -> Result<Held, Failure<Refusal>>
    ensures { MatchResult result
        (λ held. (held ≡ whole sent.now) × (limit_fault sent.now.entries ≡ None)
        × (list_fault object.now.kind sent.now (whole sent.now) above.now ≡ None))
        (Blames (λ refusal. (refusal.line ≡ object.now.line)
        × (list_fault object.now.kind sent.now (whole sent.now) above.now ≡ Some refusal.why))) }
{
    let held = whole(sent)?;
    match fault_of(alloc, object.kind, sent, &held, above)? {
        None => Ok(held),
        Some(why) => Err(refused_for(object.line, why)),
    }
}

/// What is stored of the list of an object below one that has this list.
pub(crate) fn list_below(
    alloc: Global,
    object: &Object,
    above: &Held,
) -> Result<Held, Failure<Refusal>>
    ensures { MatchResult result
        (λ held. (held ≡ listed object.now.list object.now.kind above.now)
        × IsWithin object.now.list × (misfit object.now above.now ≡ None))
        (Blames (λ refusal. (refusal.line ≡ object.now.line)
        × (misfit object.now above.now ≡ Some refusal.why))) }
{
    match &object.list {
        Listed::Follows => Ok(passed_held(alloc, object.kind, above)?),
        Listed::Unread => Ok(passing(alloc)?),
        Listed::Text(sent) => whole_below(alloc, object, sent, above),
    }
}

/// What is stored of the root's list.
pub(crate) fn list_of_root(alloc: Global, root: &Object) -> Result<Held, Failure<Refusal>>
    ensures { MatchResult result
        (λ held. (held ≡ root_list root.now.list) × IsWithin root.now.list
        × (root_misfit root.now ≡ None))
        (Blames (λ refusal. (refusal.line ≡ root.now.line)
        × (root_misfit root.now ≡ Some refusal.why))) }
{
    match &root.list {
        Listed::Follows => Ok(silent(alloc)),
        Listed::Unread => Ok(passing(alloc)?),
        Listed::Text(sent) => match bad_entry(ObjKind::Folder, sent) {
            Some(why) => Err(refused_for(root.line, RefusalWhy::Room(why))),
            None => Ok(whole(sent)?),
        },
    }
}
