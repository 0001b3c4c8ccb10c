//! The judging of one list from the bytes of an input: who asks, at which object, for what, and the
//! text of the list. It needs no room.
#![tactic(auto)]

mod answering;
mod fault;
mod headers;
mod judging;
mod question;

pub use answering::{answer, tell_check};
pub use fault::{InputFault, InputWhy};
pub use judging::{CheckReply, Judged, check};
pub use question::{Question, read_question};
