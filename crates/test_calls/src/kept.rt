//! What a power cut leaves of a database file and of its log.

use crate::drive::{Change, Drive, Step, overwrite, resize};
use sqlite_disk::Files;
use std::alloc::{AllocError, Global};

/// The bytes of a database file and of its log.
#[derive(Drop)]
pub(crate) struct Contents {
    pub log: Vec<u8>,
    pub db: Vec<u8>,
}

/// What is left of the changes that weren't synced, in the order in which they were made to both
/// files. A half is one of the newest write, after all that came before it.
#[derive(Clone, Copy)]
pub(crate) enum Kept {
    All,
    Nothing,
    FirstHalf,
    SecondHalf,
    NewestAlone,
    AllButOldest,
    LogAlone,
    DatabaseAlone,
}

/// In this order: what differs only if two changes weren't synced comes last.
pub(crate) static EACH: [Kept; 8] = [
    Kept::All,
    Kept::Nothing,
    Kept::FirstHalf,
    Kept::SecondHalf,
    Kept::NewestAlone,
    Kept::AllButOldest,
    Kept::LogAlone,
    Kept::DatabaseAlone,
];

impl Kept {
    pub(crate) fn as_str(self) -> &'static str {
        match self {
            Kept::All => "all",
            Kept::Nothing => "nothing",
            Kept::FirstHalf => "the newest one by its first half",
            Kept::SecondHalf => "the newest one by its second half",
            Kept::NewestAlone => "the newest one alone",
            Kept::AllButOldest => "all but the oldest one",
            Kept::LogAlone => "those of the log alone",
            Kept::DatabaseAlone => "those of the database file alone",
        }
    }
}

// What is left of one change.
#[derive(Clone, Copy)]
enum Part {
    Whole,
    FirstHalf,
    SecondHalf,
    Nothing,
}

fn whole_if(is_left: bool) -> Part {
    if is_left { Part::Whole } else { Part::Nothing }
}

/// A power cut after so many changes and syncs of both files, with the first and the last change
/// that weren't synced by then. Both are 0 if all were.
#[derive(Clone, Copy)]
pub(crate) struct PowerCut {
    moment: u64,
    oldest: u64,
    newest: u64,
}

impl PowerCut {
    /// The power cut of these files at this moment.
    pub(crate) fn at(moment: u64, files: &Files<Drive>) -> PowerCut {
        let mut cut = PowerCut {
            moment,
            oldest: 0,
            newest: 0,
        };
        cut.look_at(files.log.changes());
        cut.look_at(files.db.changes());
        cut
    }

    fn look_at(&mut self, changes: &[Change]) {
        'changes: for change in changes {
            self.look_at_one(change);
        }
    }

    fn look_at_one(&mut self, change: &Change) {
        if change.made > self.moment || self.has_synced(change) {
            return;
        }
        if self.newest == 0 || change.made < self.oldest {
            self.oldest = change.made;
        }
        if change.made > self.newest {
            self.newest = change.made;
        }
    }

    fn has_synced(&self, change: &Change) -> bool {
        match change.synced {
            Some(synced) => synced <= self.moment,
            None => false,
        }
    }

    /// How many ways to keep something differ.
    pub(crate) fn ways(&self) -> usize {
        if self.newest == 0 {
            1
        } else if self.newest == self.oldest {
            4
        } else {
            EACH.len()
        }
    }

    fn part(&self, kept: Kept, change: &Change, is_log: bool) -> Part {
        if change.made > self.moment {
            return Part::Nothing;
        }
        if self.has_synced(change) {
            return Part::Whole;
        }
        let is_newest = change.made == self.newest;
        match kept {
            Kept::FirstHalf if is_newest => Part::FirstHalf,
            Kept::SecondHalf if is_newest => Part::SecondHalf,
            Kept::All | Kept::FirstHalf | Kept::SecondHalf => Part::Whole,
            Kept::Nothing => Part::Nothing,
            Kept::NewestAlone => whole_if(is_newest),
            Kept::AllButOldest => whole_if(change.made != self.oldest),
            Kept::LogAlone => whole_if(is_log),
            Kept::DatabaseAlone => whole_if(!is_log),
        }
    }
}

/// What these files hold after the power cut, where they held this first.
pub(crate) fn left_by(
    alloc: Global,
    cut: &PowerCut,
    kept: Kept,
    first: &Contents,
    files: &Files<Drive>,
) -> Result<Contents, AllocError> {
    let mut left = first.copy(alloc)?;
    change_all(&mut left.log, cut, kept, files.log.changes(), true)?;
    change_all(&mut left.db, cut, kept, files.db.changes(), false)?;
    Ok(left)
}

fn change_all(
    file: &mut Vec<u8>,
    cut: &PowerCut,
    kept: Kept,
    changes: &[Change],
    is_log: bool,
) -> Result<(), AllocError> {
    'changes: for change in changes {
        change_part(file, &change.step, cut.part(kept, change, is_log))?;
    }
    Ok(())
}

fn change_part(file: &mut Vec<u8>, step: &Step, part: Part) -> Result<(), AllocError> {
    match (step, part) {
        (_, Part::Nothing) => Ok(()),
        (Step::Write { at, bytes }, _) => write_part(file, *at, bytes.as_slice(), part),
        (Step::Resize(len), _) => resize(file, *len),
    }
}

fn write_part(file: &mut Vec<u8>, at: usize, bytes: &[u8], part: Part) -> Result<(), AllocError> {
    let half = bytes.len() / 2;
    match part {
        Part::Whole => overwrite(file, at, bytes),
        Part::FirstHalf => overwrite(file, at, &bytes[..half]),
        Part::SecondHalf => overwrite(file, at.saturating_add(half), &bytes[half..]),
        Part::Nothing => Ok(()),
    }
}

impl Contents {
    /// Two files that are empty.
    pub(crate) fn none(alloc: Global) -> Contents {
        Contents {
            log: Vec::new(alloc),
            db: Vec::new(alloc),
        }
    }

    /// All that these files hold, synced or not.
    pub(crate) fn of(files: Files<Drive>) -> Contents {
        Contents {
            log: files.log.into_bytes(),
            db: files.db.into_bytes(),
        }
    }

    pub(crate) fn copy(&self, alloc: Global) -> Result<Contents, AllocError> {
        let log = copied(alloc, self.log.as_slice())?;
        let db = copied(alloc, self.db.as_slice())?;
        Ok(Contents { log, db })
    }
}

/// These bytes once more.
pub(crate) fn copied(alloc: Global, bytes: &[u8]) -> Result<Vec<u8>, AllocError> {
    let mut copy = Vec::new(alloc);
    copy.extend_from_slice(bytes)?;
    Ok(copy)
}
