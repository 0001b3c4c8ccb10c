//! What a command takes of the system: its words, what it is given to read, the file of a room.
#![tactic(auto)]

mod files;
mod given;
mod unopened;

pub use files::{close, connect, make_file, take_away, test_room};
pub use given::{check, task_for, words_of, would};
