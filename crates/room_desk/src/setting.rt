//! The request that sets a list.
ghost use Rattle.std.specs.Prelude.{◌≡◌, ◌↔◌, ◌+◌, IfOk, IsTrue, [], length};
ghost use Rattle.std.specs.Option.{option_copied};
ghost use Rattle.room_rows.specs.Held.{with_held};
ghost use Rattle.room_rows.specs.Keep.{IsDamaged};
ghost use Rattle.room_judge.specs.Halted.{RepliesUpTo, Serves, TriesUpTo, replied, settled};
ghost use Rattle.room_judge.specs.Judged.{DoesUpTo};
ghost use Rattle.room_desk.specs.Carrying.{HasLoopFrom, IsCarriedFrom, IsUnreadableIfHeld};
ghost use Rattle.room_desk.specs.Carrying.{StandsRooted};
ghost use Rattle.room_desk.specs.Setting.{
  Beneath,
  FailsToSet,
  IsNewInh,
  IsSet,
  IsSetOrRefused,
  IsStored,
  IsWrittenDown,
  SetsOn,
  entries_marked,
  fault_in,
  inh_under,
  list_of,
};
ghost use Rattle.room_machine.specs.declared.request.Request.TheVariants.{SetList};
ghost use Rattle.room_desk.specs.Called.{ReadsBeside};
ghost use Rattle.room_desk.specs.Counted.{EachList, OneAndBoth, OneAndEach, Provided};
ghost use Rattle.room_inherit.specs.Spread.{Holds};

use crate::carrying::carry_from;
use room_ace::{Entries, Entry, ListFlags, Mask, ObjKind, SentList, Which, first_bad_entry};
use room_inherit::pass;
use room_judge::{Ask, Asker, Found, Halt, check, refused, to_pair};
use room_machine::{Reason, Reply};
use room_rows::{Held, Keep, KeepFault, Node, Path};
use std::alloc::{AllocError, Global};

/// The list that is sent for the object at a path, and what the object is in. The root is in
/// nothing.
#[derive(Drop)]
pub(crate) struct Setting<'p, 't, 'a, 's> {
    pub(crate) path: &'p Path,
    pub(crate) target: &'t Found,
    pub(crate) above: Option<&'a Node>,
    pub(crate) which: Which,
    pub(crate) sent: &'s SentList,
}

/// Sets one of an object's lists, and carries it down.
pub(crate) fn set_list<K: Keep>(
    keep: &mut K,
    ask: &Ask<'_>,
    which: Which,
    sent: &SentList,
) -> Result<Reply, Halt>
    ensures done { TriesUpTo K.Keep keep.old keep.new result OneAndBoth IsDamaged
        (Serves ask.now.asker.now (SetList ask.now.path.now which sent.now)) }
    ensures counted { IfOk (settled result)
        (λ _. ReadsBeside K.Keep (length ask.now.path.now + 3) keep.old keep.new) }
{
    if ask.path.is_root() {
        return set_root(keep, ask, which, sent);
    }
    let pair = to_pair(keep, ask)?;
    let above = Some(&pair.folder.node);
    let setting = Setting {
        path: ask.path,
        target: &pair.target,
        above,
        which,
        sent,
    };
    set_allowed(ask.alloc, keep, ask.asker, &setting)
}

// Sets the list of the root, which has nothing above it.
fn set_root<K: Keep>(
    keep: &mut K,
    ask: &Ask<'_>,
    which: Which,
    sent: &SentList,
) -> Result<Reply, Halt>
    requires { ask.now.path.now ≡ [] }
    ensures done { TriesUpTo K.Keep keep.old keep.new result OneAndBoth IsDamaged
        (Serves ask.now.asker.now (SetList ask.now.path.now which sent.now)) }
    ensures counted { IfOk (settled result) (λ _. ReadsBeside K.Keep 3 keep.old keep.new) }
{
    let node = keep.root()?;
    let root = Found { node, depth: 0 };
    let setting = Setting {
        path: ask.path,
        target: &root,
        above: None,
        which,
        sent,
    };
    set_allowed(ask.alloc, keep, ask.asker, &setting)
}

// Sets the list of the object that the walk came to, where the caller may write it.
fn set_allowed<K: Keep>(
    alloc: Global,
    keep: &mut K,
    asker: &Asker,
    setting: &Setting<'_, '_, '_, '_>,
) -> Result<Reply, Halt>
    ensures done { TriesUpTo K.Keep keep.old keep.new result
        (Provided (StandsRooted setting.now.target.now.node) (OneAndEach setting.now.which))
        (FailsToSet asker.now setting.now.path.now setting.now.target.now
        (option_copied setting.now.above))
        (λ old outcome new. SetsOn asker.now setting.now.path.now setting.now.which
        setting.now.sent.now setting.now.target.now (option_copied setting.now.above) old
        (replied outcome) new) }
    ensures counted { IfOk (settled result) (λ _. ReadsBeside K.Keep 2 keep.old keep.new) }
{
    let mask = Mask::write_acl();
    let ask = Ask {
        alloc,
        asker,
        path: setting.path,
    };
    check(keep, &ask, setting.target, mask)?;
    Ok(set_found(alloc, keep, setting)?)
}

/// Sets the list of the object that was found at the path, unless an entry may not stand there.
pub(crate) fn set_found<K: Keep>(
    alloc: Global,
    keep: &mut K,
    setting: &Setting<'_, '_, '_, '_>,
) -> Result<Reply, KeepFault>
    ensures done { RepliesUpTo K.Keep keep.old keep.new result
        (Provided (StandsRooted setting.now.target.now.node) (OneAndEach setting.now.which))
        (IsUnreadableIfHeld setting.now.target.now.node)
        (Beneath (option_copied setting.now.above) setting.now.target.now.node (IsSetOrRefused
        setting.now.path.now setting.now.which setting.now.sent.now setting.now.target.now.node)) }
    ensures counted { IfOk result (λ _. ReadsBeside K.Keep 2 keep.old keep.new) }
{
    let kind = setting.target.node.kind;
    let fault = bad_entry(setting.sent.entries().as_slice(), setting.which, kind);
    match fault {
        Some(why) => Ok(refused(alloc, setting.path, setting.path.names().len(), why)?),
        None => {
            set_at(alloc, keep, setting)?;
            Ok(Reply::Done)
        }
    }
}

// The first entry that may not stand in the list, by its place from 1 on.
fn bad_entry(entries: &[Entry], which: Which, kind: ObjKind) -> Option<Reason>
    ensures { result ≡ fault_in 1 which kind entries.now }
{
    match first_bad_entry(entries, which, kind) {
        None => None,
        Some(fault) => Some(Reason::BadList {
            place: fault.place,
            fault: fault.why,
        }),
    }
}

// Sets the list of an object, and carries it down where it passes entries on. Where the list is
// what it was, nothing is written.
fn set_at<K: Keep>(
    alloc: Global,
    keep: &mut K,
    setting: &Setting<'_, '_, '_, '_>,
) -> Result<(), KeepFault>
    ensures done { DoesUpTo K.Keep keep.old keep.new result
        (Provided (StandsRooted setting.now.target.now.node) (OneAndEach setting.now.which))
        (IsUnreadableIfHeld setting.now.target.now.node)
        (Beneath (option_copied setting.now.above) setting.now.target.now.node (λ old _ new. IsSet
        setting.now.which setting.now.sent.now setting.now.target.now.node old new)) }
    ensures quiet { IsStored setting.now.which setting.now.sent.now setting.now.target.now.node
        (option_copied setting.now.above) → IfOk result
        (λ _. K.writes keep.new ≡ K.writes keep.old) }
    ensures counted { IfOk result (λ _. ReadsBeside K.Keep 2 keep.old keep.new) }
{
    let inh = new_inh(alloc, setting)?;
    let own = sent_entries(alloc, setting.sent, false)?;
    let flags = setting.sent.flags();
    if is_same_list(setting.target.node.held(setting.which), flags, &own, &inh) {
        return Ok(());
    }
    let held = Held::new(flags, own, inh)?;
    write_list(alloc, keep, setting, held)
}

// Writes the list, and carries it down where it passes entries on.
fn write_list<K: Keep>(
    alloc: Global,
    keep: &mut K,
    setting: &Setting<'_, '_, '_, '_>,
    held: Held,
) -> Result<(), KeepFault>
    ensures done { DoesUpTo K.Keep keep.old keep.new result
        (Provided (StandsRooted setting.now.target.now.node) (OneAndEach setting.now.which))
        (IsUnreadableIfHeld setting.now.target.now.node)
        (IsWrittenDown setting.now.which setting.now.target.now.node held) }
    ensures counted { IfOk result (λ _. ReadsBeside K.Keep 2 keep.old keep.new) }
{
    keep.set_held(setting.target.node.id, setting.which, &held)?;
    if held.flags().auto {
        carry_on(alloc, keep, setting, held)
    } else {
        Ok(())
    }
}

// Passes down the list that the object has now.
fn carry_on<K: Keep>(
    alloc: Global,
    keep: &mut K,
    setting: &Setting<'_, '_, '_, '_>,
    held: Held,
) -> Result<(), KeepFault>
    ensures done { DoesUpTo K.Keep keep.old keep.new result
        (Provided (Holds (with_held setting.now.which held setting.now.target.now.node))
        (EachList setting.now.which))
        (HasLoopFrom (with_held setting.now.which held setting.now.target.now.node))
        (IsCarriedFrom setting.now.which
        (with_held setting.now.which held setting.now.target.now.node)) }
    ensures counted { IfOk result (λ _. ReadsBeside K.Keep 2 keep.old keep.new) }
{
    let mut start = setting.target.node.copy()?;
    start.set_held(setting.which, held);
    carry_from(alloc, keep, &start, setting.which)
}

// Whether a list has these flags and entries.
fn is_same_list(held: &Held, flags: ListFlags, own: &Entries, inh: &Entries) -> bool
    ensures { IsTrue result ↔ (list_of flags own.now inh.now ≡ held.now) }
{
    flags == held.flags() && own.is_same(held.own()) && inh.is_same(held.inh())
}

// The inherited entries to be stored: where the sent flags leave the list linked, what the object
// above passes, and otherwise the sent entries that have the flag.
fn new_inh(alloc: Global, setting: &Setting<'_, '_, '_, '_>) -> Result<Entries, AllocError>
    ensures { IfOk result (IsNewInh setting.now.which setting.now.sent.now
        setting.now.target.now.node (option_copied setting.now.above)) }
{
    let sent = setting.sent;
    match setting.above {
        None => sent_entries(alloc, sent, true),
        Some(parent) => {
            inh_under(
                alloc,
                setting.target.node.kind,
                parent.held(setting.which),
                sent,
            )
        }
    }
}

// The inherited entries to be stored under an object that has this list.
fn inh_under(
    alloc: Global,
    kind: ObjKind,
    above: &Held,
    sent: &SentList,
) -> Result<Entries, AllocError>
    ensures { IfOk result (λ entries. entries ≡ inh_under sent.now kind above.now) }
{
    let is_linked = !sent.flags().protect && above.flags().auto;
    if is_linked {
        pass(alloc, kind, above.full())
    } else {
        sent_entries(alloc, sent, true)
    }
}

// The sent entries with or without the flag of inherited ones, in order.
fn sent_entries(alloc: Global, sent: &SentList, inherited: bool) -> Result<Entries, AllocError>
    ensures { IfOk result (λ entries. entries ≡ entries_marked inherited sent.now.entries) }
{
    let mut entries = Entries::new(alloc);
    'sent: for entry in sent.entries().as_slice() {
        if entry.flags().inherited == inherited {
            entries.push(entry.clone()?)?;
        }
    }
    Ok(entries)
}
