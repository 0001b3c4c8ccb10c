//! Databases whose power is cut after each of their writes and syncs.

use crate::grounds::Ground;
use crate::lines::{Place, play_lines};
use std::alloc::Global;
use std::test::Fail;
use test_calls::Outage;

/// Plays lines over a new database, after these scripts, which meet no power cut.
pub fn play_in_outage(
    alloc: Global,
    first: &[&str],
    part: &str,
    place: &mut Place,
) -> Result<(), Fail> {
    let mut outage = Outage::new(alloc);
    'scripts: for script in first {
        outage.prepare(alloc, *script)?;
    }
    play_lines(alloc, &mut outage, part, place)
}

impl Ground for Outage {
    fn take(&mut self, alloc: Global, line: &str) -> Result<(), Fail> {
        self.play(alloc, line)
    }

    fn converse(&mut self, _alloc: Global, _talk: &str) -> Result<(), Fail> {
        Err(Fail::new("no connection is played over this"))
    }
}
