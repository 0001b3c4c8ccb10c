//! The rows of a room in the tables of a SQLite database.
#![tactic(auto)]

mod bodies;
mod columns;
mod fault;
mod inherited;
mod keeper;
mod reading;
mod recent;
mod seen;
mod statements;

pub use crate::fault::{fault_for, wants_memory};
pub use crate::keeper::Keeper;
pub use crate::reading::{name_of, text_at, value_at};
pub use crate::recent::RecentLists;
