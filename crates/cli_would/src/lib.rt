//! A question on a room, read from a reader, and its answer written to a writer. It needs no room.
#![tactic(auto)]

mod answering;
mod reply;

pub use answering::tell_would;
