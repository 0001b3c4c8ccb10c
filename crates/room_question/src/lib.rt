//! The text of a question on a room: a piece of it, who may be asking, and what is to change.
#![tactic(auto)]

mod draft;
mod fault;
mod laws;
mod limits;
mod lines;
mod names;
mod question;
mod reading;
mod saying;
mod seen;
mod words;

pub use fault::{QuestionFault, QuestionWhy};
pub use laws::objects_stand;
pub use limits::{MOST_MEMBERS, MOST_PARTS, MOST_QUESTION, MOST_SUPPOSED};
pub use question::{Change, Listed, Look, Moving, Object, Owner, Question, Setting, Supposed};
pub use reading::read_question;
