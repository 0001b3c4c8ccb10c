//! Which entries may stand in a list.
ghost use Rattle.std.specs.Prelude.{◌≡◌, Ok, Err, MatchOption};
ghost use Rattle.room_entry.specs.Valid.{entry_fault, first_bad_entry};

use crate::entry::Entry;
use crate::fault::{EntryFault, ListFault};
use crate::object::{ObjKind, Which};

/// Whether the entry may stand in the list of this kind, on an object of this kind, or the first
/// rule that it breaks.
pub fn valid(entry: &Entry, which: Which, kind: ObjKind) -> Result<(), ListFault>
    ensures { MatchOption (entry_fault entry.now which kind)
        (result ≡ Ok tt) (λ fault. result ≡ Err fault) }
{
    match fault_of(entry, which, kind) {
        None => Ok(()),
        Some(fault) => Err(fault),
    }
}

/// The first of the entries that may not stand in the list of this kind, on an object of this kind.
pub fn first_bad_entry(entries: &[Entry], which: Which, kind: ObjKind) -> Option<EntryFault>
    ensures { result ≡ first_bad_entry 1 which kind entries.now }
{
    for (index, entry) in entries.iter().enumerate() {
        match fault_of(entry, which, kind) {
            None => {}
            Some(why) => {
                return Some(EntryFault {
                    place: index + 1,
                    why,
                });
            }
        }
    }
    None
}

fn fault_of(entry: &Entry, which: Which, kind: ObjKind) -> Option<ListFault>
    ensures { result ≡ entry_fault entry.now which kind }
{
    let flags = entry.flags();
    let asks = entry.kind().asks_records();
    let inherits = flags.file_inherit || flags.directory_inherit;
    if asks != (which == Which::Sacl) {
        return Some(ListFault::WrongKind);
    }
    if !asks && (flags.successful_access || flags.failed_access) {
        return Some(ListFault::AccessFlag);
    }
    if flags.inherit_only && !inherits {
        return Some(ListFault::InheritOnlyAlone);
    }
    if kind == ObjKind::Document && (inherits || flags.no_propagate_inherit || flags.inherit_only) {
        return Some(ListFault::InheritanceOnDocument);
    }
    None
}
