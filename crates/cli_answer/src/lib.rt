//! What the subcommands that do one task on a database answer: the outcome, its line and its
//! status, and how both are printed.
#![tactic(auto)]

mod after;
mod counting;
pub mod laws;
mod lines;
mod outcome;
mod telling;

pub use after::{after_fetch, after_reply, after_review, not_made, not_migrated};
pub use counting::count_groups;
pub use outcome::{Outcome, TaskAnswer};
pub use telling::tell;
