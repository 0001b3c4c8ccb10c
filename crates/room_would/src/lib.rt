//! The answer to a question on a room: what callers may do before a change and after it.
#![tactic(auto)]

mod answering;
mod asking;
mod fault;
mod laws;
mod limits;
mod lists;
mod looking;
mod names;
mod parties;
mod paths;

pub use answering::would;
pub use fault::{WouldFault, WouldWhy};
pub use laws::would_is_the_review;
pub use limits::MOST_TURNS;
