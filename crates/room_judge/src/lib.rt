//! Walks and checks over a keeper, judged as they go: what is refused or denied ends them with
//! `Refused`, a fault of the keeper or of memory with `Fault`. The records that a check calls for
//! are noted either way.
#![tactic(auto)]

mod arrival;
mod asker;
mod checking;
mod deleting;
mod halt;
mod spotting;
mod walking;

pub use arrival::{Both, Found, Under};
pub use asker::{Ask, Asker, caller_of};
pub use checking::check;
pub use deleting::check_deletion;
pub use halt::{Halt, refused};
pub use spotting::{to_pair, to_pair_from, to_spot};
pub use walking::{check_kind, pass_through, reach, reach_kind, walk_along, walk_from, walk_to};
