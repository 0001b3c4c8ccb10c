//! The text that answers a question on a room: what callers may do before a change and after it.
#![tactic(auto)]

mod answer;

pub use answer::{Answer, Row};
