//! What a list says of all rights, in one pass.
ghost use Rattle.std.specs.Prelude.{◌≡◌, filter};
ghost use Rattle.room_entry.specs.Bits.{all_bits};
ghost use Rattle.room_eval.specs.Verdict.{is_allowed, ruling_of};
ghost use Rattle.room_review.specs.Standing.{is_denied};

use room_ace::{Caller, Entry, EntryKind, Mask, Owners};
use room_eval::bears_on;

/// The rights that a list allows a caller, and those that it denies.
#[derive(Drop)]
pub(crate) struct Ruled {
    pub(crate) allowed: Mask,
    pub(crate) denied: Mask,
}

/// What the list says of all rights. The first entry that bears on a right rules it, so one pass
/// rules them all.
pub(crate) fn rule_all(entries: &[Entry], caller: &Caller, owners: &Owners) -> Ruled
    ensures allowed { result.allowed ≡ filter (λ right.
        is_allowed (ruling_of entries.now caller.now owners.now right)) all_bits }
    ensures denied { result.denied ≡ filter (λ right.
        is_denied (ruling_of entries.now caller.now owners.now right)) all_bits }
{
    let mut allowed = Mask::empty();
    let mut denied = Mask::empty();
    let mut unruled = Mask::all();
    for (index, entry) in entries.iter().enumerate() {
        if !bears_on(entry, caller, owners, unruled) {
            continue;
        }
        let ruled = unruled.shared_with(entry.mask());
        unruled = unruled.without(entry.mask());
        match entry.kind() {
            EntryKind::Allow => allowed = allowed.union(ruled),
            EntryKind::Deny => denied = denied.union(ruled),
            EntryKind::Audit | EntryKind::Alarm => {}
        }
    }
    allowed.is_known();
    denied.is_known();
    Ruled { allowed, denied }
}
