//! Who may do what: the rights of each caller at the objects of a room, as a room would answer.
#![tactic(auto)]

mod gathering;
mod granting;
pub mod laws;
mod parties;
mod question;
mod reviewing;
mod sheet;
pub mod standing;
mod telling;
mod users;

pub use gathering::gather_below;
pub use parties::{Party, everybody};
pub use question::{Reviewed, Scope};
pub use reviewing::review;
pub use users::{Users, stranger_to};
