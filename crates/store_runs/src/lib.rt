//! Laws over runs, of the calls of stores.
#![tactic(auto)]

pub mod laws;
