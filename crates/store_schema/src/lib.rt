//! What makes, recognizes and upgrades the tables of a room.
#![tactic(auto)]

mod adopting;
mod fault;
mod first_rows;
mod founding;
pub mod laws;
mod migrating;
mod migrating_rows;
mod recognizing;
mod tables;
mod version;

pub use adopting::adopt;
pub use fault::{CreateFault, MigrateFault, OpenFault};
pub use founding::create;
pub use migrating::migrate;
