//! Rooms in memory.

use crate::grounds::Ground;
use crate::lines::{Place, play_lines};
use std::alloc::Global;
use std::test::Fail;
use test_memory::MemDesk;
use test_player::{Room, Tally, count_line, open_keep, play, stop_at_faults};
use test_talk::play_at;
use test_tree::MemKeep;

/// Plays lines in a room over this keeper.
pub fn play_in_room(
    alloc: Global,
    keep: MemKeep,
    part: &str,
    place: &mut Place,
) -> Result<(), Fail> {
    let mut room = Room::new(keep);
    play_lines(alloc, &mut room, part, place)
}

impl Ground for Room {
    fn take(&mut self, alloc: Global, line: &str) -> Result<(), Fail> {
        self.play(alloc, line)
    }

    fn converse(&mut self, alloc: Global, talk: &str) -> Result<(), Fail> {
        let mut desk = MemDesk::new(self.keep().copy()?);
        play_at(alloc, &mut desk, self.moment(), talk)?;
        self.set_keep(desk.into_keep());
        Ok(())
    }
}

fn no_connection() -> Result<(), Fail> {
    Err(Fail::new("no connection is played over this"))
}

/// Plays lines over an open room whose calls are counted.
pub fn play_counted(alloc: Global, part: &str, place: &mut Place) -> Result<(), Fail> {
    let mut tally = Tally::of(open_keep(alloc)?);
    play_lines(alloc, &mut tally, part, place)
}

// After ` # ` in a line stands how often it makes which calls.
impl Ground for Tally<MemKeep> {
    fn take(&mut self, alloc: Global, line: &str) -> Result<(), Fail> {
        if line.contains(" # ") {
            return count_line(alloc, self, line);
        }
        play(alloc, self, 1000, line)
    }

    fn converse(&mut self, _alloc: Global, _talk: &str) -> Result<(), Fail> {
        no_connection()
    }
}

// A room in which each request is first stopped at each fault in turn.
#[derive(Drop)]
struct Stopping {
    room: Room,
}

/// Plays lines in an open room in which each request is first stopped at each fault in turn.
pub fn play_stopping(alloc: Global, part: &str, place: &mut Place) -> Result<(), Fail> {
    let mut ground = Stopping {
        room: Room::new(open_keep(alloc)?),
    };
    play_lines(alloc, &mut ground, part, place)
}

impl Ground for Stopping {
    fn take(&mut self, alloc: Global, line: &str) -> Result<(), Fail> {
        stop_at_faults(alloc, self.room.keep(), line)?;
        self.room.play(alloc, line)
    }

    fn converse(&mut self, _alloc: Global, _talk: &str) -> Result<(), Fail> {
        no_connection()
    }
}
