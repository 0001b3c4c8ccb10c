//! A piece of a room in memory, built of a question, and changed as the room would be.
#![tactic(auto)]

mod building;
mod changing;
mod coming;
mod laws;
mod marking;
mod owning;
mod piece;
mod refusal;
mod storing;
mod walking;

pub use building::build;
pub use changing::change;
pub use laws::changed_as_asked;
pub use piece::Piece;
pub use refusal::{Refusal, RefusalWhy};
