//! Rooms in the tables of a database in memory.

use crate::grounds::Ground;
use crate::lines::{Place, play_lines};
use sqlite::{Connection, MemStore};
use std::alloc::Global;
use std::test::Fail;
use test_calls::Scene;
use test_talk::play_at;

/// Plays lines over a new database, after the first ones.
pub fn play_in_store(
    alloc: Global,
    first: &[&str],
    part: &str,
    place: &mut Place,
) -> Result<(), Fail> {
    let mut scene = Scene::over(Connection::open_in_memory(alloc)?);
    scene.play_all(alloc, first)?;
    play_lines(alloc, &mut scene, part, place)
}

impl Ground for Scene<MemStore> {
    fn take(&mut self, alloc: Global, line: &str) -> Result<(), Fail> {
        self.play(alloc, line)
    }

    fn converse(&mut self, alloc: Global, talk: &str) -> Result<(), Fail> {
        let moment = self.moment();
        play_at(alloc, self.store(alloc)?, moment, talk)
    }
}
