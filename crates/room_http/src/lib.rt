//! The bytes of a connection: cut into messages, answered by a desk one after another.
#![tactic(auto)]

mod connection;
mod cut;
mod ended;
mod fields;
pub mod laws;
mod next;
mod refusal;
mod respond;
mod response;
mod write;

pub use connection::serve;
pub use ended::{Cause, Ended, ServeFault};
pub use refusal::Refusal;
pub use respond::answer;
pub use response::{Answer, Lost};
