//! Connections as scripts, for tests: what is sent, what has to come back, and how the connection
//! ends, at any desk, over readers and writers that pass bytes piece by piece and can be made to
//! fail. There are no tests here, so that it is proved once for all crates of tests.
#![tactic(auto)]

mod going_on;
mod pieces;
mod scripts;
mod spelling;
mod stopping;

pub use going_on::{is_short, play, play_at};
pub use pieces::{Pieces, Sink};
pub use scripts::{PUT_TWICE, Talk, agrees, bytes_at, converse, same_bytes};
pub use stopping::{Stop, stop_at_read, stop_at_write, stopped, tried};
