//! The subcommands that do one task on a database and end.
#![tactic(auto)]

mod acting;
mod doing;
mod opened;

pub use acting::{act, act_on};
