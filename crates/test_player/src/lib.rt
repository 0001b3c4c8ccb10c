//! Scripts for tests of rooms: in each line who asks what, and, after an arrow, the expected
//! answer.
//!
//! In a script `-` is a caller without a name, ` / ` parts the lines of a list, and `ALL` stands
//! for all letters of a mask. Some callers are none: `operator` takes steps by the paths of
//! objects, `keeper` makes the keeper's calls by their numbers, and `room` takes those of a room in
//! memory. There are no tests here, so that the player is proved once for all crates of tests.
#![tactic(auto)]

mod asking;
mod faults;
mod keeping;
mod objects;
mod operating;
mod playing;
mod records;
mod replying;
mod room;
mod sending;
mod tally;
mod words;
mod writing;

pub use asking::{Spoken, spoken_in};
pub use faults::{Plan, count_line, failing, faults_along, play_failing, stop_at_faults};
pub use objects::held_of;
pub use playing::{answer_to, play, play_all};
pub use records::push_records;
pub use replying::{push_entries, push_reply};
pub use room::{Room, empty_keep, keep_after, open_keep, plays, room_of};
pub use sending::{owners_of, path_of, sent_of};
pub use tally::{Calls, Tally};
pub use words::{agree, push, push_all};
