//! Whether an entry speaks of a caller.
ghost use Rattle.std.specs.Prelude.{◌≡◌};
ghost use Rattle.room_entry.specs.Matching.{is_match};

use crate::entry::{Entry, Who};
use crate::parties::{Caller, Owners};

/// Whether the entry matches the caller at an object of these owners, whether it is in force there
/// or not.
pub fn matches(entry: &Entry, caller: &Caller, owners: &Owners) -> bool
    ensures { result ≡ is_match entry.now caller.now owners.now }
{
    match entry.who() {
        Who::Owner => caller.is_user(&owners.owner),
        Who::Group => caller.is_in(&owners.group),
        Who::Everyone => true,
        Who::Anonymous => caller.user.is_none(),
        Who::Authenticated => caller.user.is_some(),
        Who::User(name) => caller.is_user(name),
        Who::Members(name) => caller.is_in(name),
    }
}
