//! The subcommand `serve` on an open database: its room, served at an address.
#![tactic(auto)]

mod hosting;

pub use hosting::{host, host_on};
