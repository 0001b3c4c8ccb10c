//! What scripts are played over.

use crate::lines::Place;
use crate::memory::{play_counted, play_in_room, play_stopping};
use crate::outage::play_in_outage;
use crate::store::play_in_store;
use std::alloc::Global;
use std::test::Fail;
use test_calls::OPEN;
use test_player::{empty_keep, open_keep};

/// What lines are played over.
pub trait Ground {
    /// Plays a line, which has to be answered as it says.
    fn take(&mut self, alloc: Global, line: &str) -> Result<(), Fail>;

    /// Plays a connection, which has to go as its lines say.
    fn converse(&mut self, alloc: Global, talk: &str) -> Result<(), Fail>;
}

const CREATED: &str = "store Create => done";

/// Plays lines over a new ground of this name.
pub fn play_part(alloc: Global, ground: &str, part: &str, place: &mut Place) -> Result<(), Fail> {
    match ground {
        "memory" => play_in_room(alloc, open_keep(alloc)?, part, place),
        "new memory" => play_in_room(alloc, empty_keep(alloc)?, part, place),
        "counted memory" => play_counted(alloc, part, place),
        "failing memory" => play_stopping(alloc, part, place),
        "store" => play_in_store(alloc, &[CREATED, OPEN], part, place),
        "new store" => play_in_store(alloc, &[CREATED], part, place),
        "empty database" => play_in_store(alloc, &[], part, place),
        "store with power cuts" => play_in_outage(alloc, &[CREATED, OPEN], part, place),
        "empty database with power cuts" => play_in_outage(alloc, &[], part, place),
        _ => Err(Fail::new("nothing has this name")),
    }
}
