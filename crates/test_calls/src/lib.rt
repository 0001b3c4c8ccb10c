//! Scripts for tests of stores: in each line who asks what, and, after an arrow, what has to be
//! answered.
//!
//! A line that begins with a caller is a request, as in the scripts of `test_player`. One that
//! begins with `operator` is what its operator asks, one with `store` makes any other call of the
//! store or of its opening, one with `sql` runs statements on the tables, and one with `rows` asks
//! them. In answers `|` stands for the end of a line. There are no tests here, so that the player
//! is proved once for all that play.
#![tactic(auto)]

mod calling;
mod drive;
mod kept;
mod opening;
mod outage;
mod scene;
mod tables;
mod words;

pub use outage::Outage;
pub use scene::{OPEN, Scene};
