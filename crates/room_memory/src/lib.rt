//! A keeper in memory.
#![tactic(auto)]

mod bodies;
mod lists;
mod memory;
mod objects;
mod places;

pub use lists::Records;
pub use memory::MemKeep;
