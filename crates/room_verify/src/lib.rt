//! Whether the stored rows of a room are sound, by seven tests; and the full lists that the stored
//! ones have to equal, computed from the root.
#![tactic(auto)]

mod all_nodes;
mod bodies;
mod from_root;
mod kept_alone;
mod kept_law;
pub mod laws;
mod loops;
mod objects;
mod report;
mod sound_lists;
mod tree;
mod true_path;
mod verifying;

pub use from_root::lists_from_root;
pub use verifying::{verify, verify_kept};
