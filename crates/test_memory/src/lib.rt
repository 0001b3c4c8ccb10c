//! A desk over the keeper in memory.
#![tactic(auto)]

mod mem_desk;

pub use mem_desk::MemDesk;
