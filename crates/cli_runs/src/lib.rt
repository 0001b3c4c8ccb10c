//! Laws over what `serve` does on a database.
#![tactic(auto)]

pub mod laws;
