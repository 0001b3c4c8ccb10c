//! Rooms in memory that begin with their root alone.

use crate::objects::held_of;
use crate::playing::push_told;
use crate::records::push_records;
use crate::sending::owners_of;
use crate::words::{agree, cut, push};
use room_ace::{Name, read_name};
use std::alloc::{AllocError, Global};
use std::test::Fail;
use test_tree::MemKeep;

/// A keeper whose root has these lists, and is root's and of the group staff.
pub fn room_of(alloc: Global, dacl: &str, sacl: &str) -> Result<MemKeep, Fail> {
    let owners = owners_of(alloc, "root:staff")?;
    let dacl = held_of(alloc, dacl)?;
    let sacl = held_of(alloc, sacl)?;
    Ok(MemKeep::new(alloc, &owners, &dacl, &sacl)?)
}

/// A keeper of a room in which all may pass and root may do anything.
pub fn open_keep(alloc: Global) -> Result<MemKeep, Fail> {
    room_of(alloc, "list:a / A::EVERYONE@:x / A:fd:root:ALL", "list:a")
}

/// A keeper of a room as it is made, in which its owner may do anything.
pub fn empty_keep(alloc: Global) -> Result<MemKeep, Fail> {
    room_of(alloc, "list:a / A:fd:OWNER@:ALL", "list:a")
}

/// The keeper of an open room after these scripts.
pub fn keep_after(alloc: Global, scripts: &[&str]) -> Result<MemKeep, Fail> {
    let mut room = Room::new(open_keep(alloc)?);
    room.play_all(alloc, scripts)?;
    Ok(room.into_keep())
}

/// Plays scripts one after the other in an open room, at the moment 1000.
pub fn plays(alloc: Global, scripts: &[&str]) -> Result<(), Fail> {
    let mut room = Room::new(open_keep(alloc)?);
    room.play_all(alloc, scripts)
}

/// A room in memory, and the moment of what is asked in it. In its scripts `room` is no caller: it
/// sets the moment, pairs groups with users, and prints the records.
#[derive(Drop)]
pub struct Room {
    keep: MemKeep,
    moment: i64,
}

impl Room {
    /// The room of this keeper, at the moment 1000.
    pub fn new(keep: MemKeep) -> Room {
        Room { keep, moment: 1000 }
    }

    /// The room's keeper.
    pub fn into_keep(self) -> MemKeep {
        self.keep
    }

    /// What is kept.
    pub fn keep(&self) -> &MemKeep {
        &self.keep
    }

    /// From now on this is kept.
    pub fn set_keep(&mut self, keep: MemKeep) {
        self.keep = keep;
    }

    /// The moment of what is asked.
    pub fn moment(&self) -> i64 {
        self.moment
    }

    /// Plays scripts one after the other.
    pub fn play_all(&mut self, alloc: Global, scripts: &[&str]) -> Result<(), Fail> {
        'scripts: for script in scripts {
            self.play(alloc, *script)?;
        }
        Ok(())
    }

    /// Plays a script. The error is the first line whose answer isn't the expected one.
    pub fn play(&mut self, alloc: Global, script: &str) -> Result<(), Fail> {
        'lines: for line in script.lines() {
            self.play_line(alloc, line)?;
        }
        Ok(())
    }

    fn play_line(&mut self, alloc: Global, line: &str) -> Result<(), Fail> {
        let (asked, wanted) = line.split_once(" => ").ok_or("no arrow")?;
        let told = self.answer_to(alloc, asked)?;
        agree(asked, told.as_str(), wanted)
    }

    fn answer_to(&mut self, alloc: Global, asked: &str) -> Result<String, Fail> {
        let mut told = String::new(alloc);
        self.push_told(alloc, asked, &mut told)?;
        Ok(told)
    }

    fn push_told(&mut self, alloc: Global, asked: &str, told: &mut String) -> Result<(), Fail> {
        let (who, words) = cut(asked);
        match who {
            "room" => self.step(alloc, words, told),
            _ => push_told(alloc, &mut self.keep, self.moment, asked, told),
        }
    }

    // Takes the room's own step of these words.
    fn step(&mut self, alloc: Global, words: &str, told: &mut String) -> Result<(), Fail> {
        let (verb, rest) = cut(words);
        match verb {
            "At" => self.moment = rest.parse::<i64>()?,
            "Join" => self.join(alloc, rest)?,
            "Leave" => self.leave(alloc, rest)?,
            "Records" => return self.push_notes(told),
            _ => return Err(Fail::new("no such step of a room")),
        }
        push(told, "done")
    }

    // Adds the records, or a word where there are none.
    fn push_notes(&self, told: &mut String) -> Result<(), Fail> {
        match self.keep.notes() {
            [] => push(told, "none"),
            notes => push_records(told, notes),
        }
    }

    // Pairs a group with a user.
    fn join(&mut self, alloc: Global, words: &str) -> Result<(), Fail> {
        let (group, user) = cut(words);
        let group = read_name(alloc, group)?;
        let user = read_name(alloc, user)?;
        Ok(self.pair(&group, &user)?)
    }

    fn pair(&mut self, group: &Name, user: &Name) -> Result<(), AllocError> {
        self.keep.join(group, user)
    }

    // Removes the pair.
    fn leave(&mut self, alloc: Global, words: &str) -> Result<(), Fail> {
        let (group, user) = cut(words);
        let group = read_name(alloc, group)?;
        let user = read_name(alloc, user)?;
        self.keep.leave(&group, &user);
        Ok(())
    }
}
