//! Which records a check calls for.
ghost use Rattle.std.specs.Prelude.{◌≡◌, IfOk};
ghost use Rattle.room_eval.specs.Events.{events_of, is_event_of};

use crate::evaluation::speaks_of;
use room_ace::{Caller, Entry, Mask, Owners};
use std::alloc::{AllocError, Global};

/// The places of the entries of audit and alarm that a check with this outcome calls for, rising.
/// Places count from 1.
pub fn events(
    alloc: Global,
    sacl: &[Entry],
    caller: &Caller,
    owners: &Owners,
    asked: Mask,
    granted: bool,
) -> Result<Vec<usize>, AllocError>
    ensures { IfOk result (λ places.
        places.items ≡ events_of sacl.now caller.now owners.now asked granted) }
{
    let mut places = Vec::new(alloc);
    for (index, entry) in sacl.iter().enumerate() {
        if is_event(entry, caller, owners, asked, granted) {
            places.push(index + 1)?;
        }
    }
    Ok(places)
}

// Whether a check with this outcome calls for the entry. Names are compared last, since that takes
// longest.
fn is_event(entry: &Entry, caller: &Caller, owners: &Owners, asked: Mask, granted: bool) -> bool
    ensures { result ≡ is_event_of entry.now caller.now owners.now asked granted }
{
    let flags = entry.flags();
    let wanted = if granted {
        flags.successful_access
    } else {
        flags.failed_access
    };
    asked.shares(entry.mask())
        && entry.kind().asks_records()
        && wanted
        && speaks_of(entry, caller, owners)
}
