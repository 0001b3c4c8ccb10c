//! A request, or an operator's reset, inside a transaction over the tables of a room.
#![tactic(auto)]

mod resetting;
mod running;

pub use resetting::reset_inside;
pub use running::{RequestBy, end_look, perform_inside};
