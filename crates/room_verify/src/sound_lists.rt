//! Whether the lists of an object are sound.
ghost use Rattle.std.specs.Prelude.{◌≡◌, is_none, not};
ghost use Rattle.std.specs.List.{list_all};
ghost use Rattle.room_entry.specs.Valid.{entry_fault};
ghost use Rattle.room_rows.specs.Sound.{has_sound_lists, is_sound_held};

use room_ace::{Entry, MOST_OWN, ObjKind, Which, valid};
use room_rows::{Held, Node};

/// Whether both lists are within the limit, with INHERITED on the inherited entries alone, and with
/// entries that may stand there.
pub(crate) fn has_sound_lists(node: &Node) -> bool
    ensures { result ≡ has_sound_lists node.now }
{
    is_sound_held(Which::Dacl, node.kind, &node.dacl)
        && is_sound_held(Which::Sacl, node.kind, &node.sacl)
}

fn is_sound_held(which: Which, kind: ObjKind, held: &Held) -> bool
    ensures { result ≡ is_sound_held which kind held.now }
{
    let own = held.own();
    let inh = held.inh();
    own.len() <= MOST_OWN
        && are_own(own)
        && are_inherited(inh)
        && are_valid(own, which, kind)
        && are_valid(inh, which, kind)
}

// Whether no entry has INHERITED.
fn are_own(entries: &[Entry]) -> bool
    ensures { result ≡ list_all (λ entry. not entry.flags.inherited) entries.now }
{
    entries.iter().all(|entry| !entry.flags().inherited)
}

// Whether each entry has INHERITED.
fn are_inherited(entries: &[Entry]) -> bool
    ensures { result ≡ list_all (λ entry. entry.flags.inherited) entries.now }
{
    entries.iter().all(|entry| entry.flags().inherited)
}

// Whether each entry may stand in such a list of such an object.
fn are_valid(entries: &[Entry], which: Which, kind: ObjKind) -> bool
    ensures { result ≡ list_all (λ entry. is_none (entry_fault entry which kind)) entries.now }
{
    entries.iter().all(|entry| is_valid(entry, which, kind))
}

fn is_valid(entry: &Entry, which: Which, kind: ObjKind) -> bool
    ensures { result ≡ is_none (entry_fault entry.now which kind) }
{
    valid(entry, which, kind).is_ok()
}
