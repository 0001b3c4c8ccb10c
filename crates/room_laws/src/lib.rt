//! What happens behind a folder isn't seen by who is barred from it, and who may do what changes by
//! few events, each with the right that was granted for it.
#![tactic(auto)]

pub mod laws;
