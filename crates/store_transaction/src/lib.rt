//! A transaction over the tables of a room: how it begins and ends, and what is read inside one.
#![tactic(auto)]

mod ending;
mod fault;
mod fetching;
mod reviewing;
mod transaction;
mod verifying;

pub use ending::{give_up, if_open, still_open};
pub use fault::{StoreFault, commit_fault};
pub use fetching::fetch_inside;
pub use reviewing::review_inside;
pub use transaction::{begin, finish};
pub use verifying::verify_rows;
