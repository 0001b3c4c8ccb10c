//! The walk below an object; a room as text: all objects with their lists, and all pairs; and one
//! document, by its path.
#![tactic(auto)]

mod dumping;
mod fetching;
pub mod laws;
mod lines;
mod members;
mod visiting;

pub use dumping::dump;
pub use fetching::{Fetched, fetch};
pub use members::push_members;
pub use visiting::{Below, Visit};
