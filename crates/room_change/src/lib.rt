//! What a change makes of a room, and of what each caller may do in it.
#![tactic(auto)]

pub mod laws;
