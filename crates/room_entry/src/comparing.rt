//! Whether entries are the same.
ghost use Rattle.std.specs.Prelude.{◌≡◌, ◌∷◌, ◌<◌, length};
ghost use Rattle.room_entry.specs.Pieces.{same_text};
ghost use Rattle.room_entry.specs.Same.{same_entries, same_entry, who_key};
ghost use Rattle.room_entry.specs.Letters.{flags_text, kind_text};

use crate::entry::{Entry, EntryKind, Who};
use crate::flags::EntryFlags;
use crate::items::Items;

impl Items<Entry> {
    /// Whether these are the entries of the slice, in the same order.
    pub fn is_same(&self, other: &[Entry]) -> bool
        ensures { result ≡ same_entries self.now other.now }
    {
        same_lists(self.as_slice(), other)
    }
}

fn same_lists(entries: &[Entry], others: &[Entry]) -> bool
    ensures { result ≡ same_entries entries.now others.now }
{
    if entries.len() != others.len() {
        return false;
    }
    'places: for i in 0..entries.len() {
        if !is_same_entry(&entries[i], &others[i]) {
            return false;
        }
    }
    true
}

fn is_same_entry(entry: &Entry, other: &Entry) -> bool
    ensures { result ≡ same_entry entry.now other.now }
{
    is_same_kind(entry.kind(), other.kind())
        && is_same_flags(entry.flags(), other.flags())
        && is_same_who(entry.who(), other.who())
        && entry.mask().is_same(other.mask())
}

fn is_same_kind(kind: EntryKind, other: EntryKind) -> bool
    ensures { result ≡ same_text (kind_text kind) (kind_text other) }
{
    kind == other
}

fn is_same_flags(flags: EntryFlags, other: EntryFlags) -> bool
    ensures { result ≡ same_text (flags_text flags) (flags_text other) }
{
    flags == other
}

fn is_same_who(who: &Who, other: &Who) -> bool
    ensures { result ≡ same_text (who_key who.now) (who_key other.now) }
{
    let (rank, name) = key_parts(who);
    let (other_rank, other_name) = key_parts(other);
    rank == other_rank && name == other_name
}

// A number for the kind of who, and the name, if it has one.
fn key_parts(who: &Who) -> (u8, &str)
    ensures { result.0 ∷ result.1.now ≡ who_key who.now }
{
    match who {
        Who::Owner => (0, ""),
        Who::Group => (1, ""),
        Who::Everyone => (2, ""),
        Who::Anonymous => (3, ""),
        Who::Authenticated => (4, ""),
        Who::User(name) => (5, name.as_str()),
        Who::Members(name) => (6, name.as_str()),
    }
}
