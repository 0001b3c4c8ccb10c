//! The room machine: requests, replies, and the step that leads from one content to the next.
#![tactic(auto)]

mod desk;
pub mod laws;
mod reply;
mod request;

pub use desk::{Desk, DeskFault};
pub use reply::{Reason, Reply, Rulings};
pub use request::Request;
pub use room_rows::Listing;
