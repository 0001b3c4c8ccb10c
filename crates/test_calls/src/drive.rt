//! A file in memory that notes its changes, so that what a power cut leaves of them can be told
//! afterwards.
//!
//! What may be left is said here of a file that loses nothing, which is all that a database has to
//! know to use it. The tests make the losses themselves, of what was noted.
ghost use Rattle.std.specs.Prelude.{◌≡◌, length, true, false, refl, is_ok, OnOk, OnErr};
ghost use Rattle.sqlite_disk.specs.Disk.{Holds, Torn, Mixed, Cut, CountsFault};
ghost use Rattle.sqlite_disk.specs.Refusal.{finds_no_room};

use sqlite_disk::{Disk, Tally, digest_of};
use std::alloc::{AllocError, Global};
use std::cell::Cell;
use std::io;
use std::rc::Rc;

/// How many changes and syncs there were of a database file and of its log.
pub(crate) type Clock = Rc<Cell<u64>>;

/// What was done to a file.
#[derive(Drop)]
pub(crate) enum Step {
    Write { at: usize, bytes: Vec<u8> },
    Resize(usize),
}

/// A step, the moment when it was taken, and the moment of the first sync after it.
#[derive(Drop)]
pub(crate) struct Change {
    pub step: Step,
    pub made: u64,
    pub synced: Option<u64>,
}

/// A file, and its changes since it was there.
#[derive(Drop)]
pub(crate) struct Drive {
    bytes: Vec<u8>,
    changes: Vec<Change>,
    clock: Clock,
    faults: u64,
    caught: u64,
}

impl Drive {
    /// A file of these bytes, which can't be lost.
    pub(crate) fn new(alloc: Global, bytes: Vec<u8>, clock: Clock) -> Drive {
        Drive {
            bytes,
            changes: Vec::new(alloc),
            clock,
            faults: 0,
            caught: 0,
        }
    }

    /// The changes, the oldest first.
    pub(crate) fn changes(&self) -> &[Change] {
        self.changes.as_slice()
    }

    /// All bytes, synced or not.
    pub(crate) fn into_bytes(self) -> Vec<u8> {
        let Drive {
            bytes,
            changes: _,
            clock: _,
            faults: _,
            caught: _,
        } = self;
        bytes
    }
}

impl Disk for Drive {
    ghost seen = { λ d. d.bytes.items };

    ghost may_leave = { λ d left. left ≡ d.bytes.items };

    ghost is_usable = { λ _. true };

    ghost faults = { λ d. d.faults };

    ghost is_clean = { λ _. true };

    ghost tally_of = { λ d. record { caught = d.caught; refused = 0 } };

    ghost key_of = { λ _. 0 };

    ghost is_fair = { λ _ _. true };

    ghost fair_if_clean = { λ _ _ _. refl };

    ghost seen_may_stay = { λ _. refl };

    ghost is_mixing = { λ _. true };

    // As for the file of a program, most commits sync once.
    fn mixes(&self) -> bool {
        true
    }

    fn key(&self) -> u64 {
        0
    }

    fn tally(&self) -> Tally {
        Tally {
            caught: self.caught,
            refused: 0,
        }
    }

    fn may_be_used(&self) -> bool {
        true
    }

    fn len(&mut self) -> io::Result<usize> {
        Ok(self.bytes.len())
    }

    fn read_at(&mut self, at: usize, buf: &mut [u8]) -> io::Result<()> {
        if at > self.bytes.len() || buf.len() > self.bytes.len() - at {
            return Err(io::ErrorKind::UnexpectedEof.into());
        }
        buf.copy_from_slice(&self.bytes[at..at + buf.len()]);
        Ok(())
    }

    fn read_checked(&mut self, key: u64, want: u64, at: usize, buf: &mut [u8]) -> io::Result<()> {
        self.read_at(at, buf)?;
        if digest_of(key, buf) != want {
            self.faults = self.faults.saturating_add(1);
            self.caught = self.caught.saturating_add(1);
            return Err(io::ErrorKind::InvalidData.into());
        }
        Ok(())
    }

    fn write_at(&mut self, at: usize, bytes: &[u8]) -> io::Result<()> {
        count(
            note_write(&mut self.changes, &self.clock, at, bytes),
            &mut self.faults,
        )?;
        count(overwrite(&mut self.bytes, at, bytes), &mut self.faults)
    }

    fn set_len(&mut self, len: usize) -> io::Result<()> {
        count(
            note(&mut self.changes, &self.clock, Step::Resize(len)),
            &mut self.faults,
        )?;
        count(resize(&mut self.bytes, len), &mut self.faults)
    }

    fn sync(&mut self) -> io::Result<()> {
        let now = tick(&self.clock);
        'changes: for change in self.changes.iter_mut() {
            change.settle(now);
        }
        Ok(())
    }
}

impl Change {
    // This was synced at this moment, unless it was already.
    fn settle(&mut self, now: u64) {
        if self.synced.is_none() {
            self.synced = Some(now);
        }
    }
}

fn tick(clock: &Clock) -> u64 {
    let now = clock.get().saturating_add(1);
    clock.set(now);
    now
}

fn note_write(
    changes: &mut Vec<Change>,
    clock: &Clock,
    at: usize,
    bytes: &[u8],
) -> Result<(), AllocError> {
    let mut copy = Vec::new(*changes.allocator());
    copy.extend_from_slice(bytes)?;
    note(changes, clock, Step::Write { at, bytes: copy })
}

fn note(changes: &mut Vec<Change>, clock: &Clock, step: Step) -> Result<(), AllocError> {
    changes.push(Change {
        step,
        made: tick(clock),
        synced: None,
    })?;
    Ok(())
}

fn count(outcome: Result<(), AllocError>, faults: &mut u64) -> io::Result<()>
    ensures variant { is_ok result ≡ is_ok outcome }
    ensures kind { finds_no_room result ≡ false }
    ensures faults { CountsFault result faults.old faults.new }
{
    if outcome.is_err() {
        *faults = faults.saturating_add(1);
        return Err(io::Error::from(io::ErrorKind::OutOfMemory));
    }
    Ok(())
}

/// Sets the length. What is new is zeros.
pub(crate) fn resize(file: &mut Vec<u8>, len: usize) -> Result<(), AllocError>
    ensures len { OnOk result (length file.new.items ≡ len) }
    ensures others { Cut len file.old.items file.new.items }
{
    file.resize(len, 0)
}

/// Writes bytes at a place, which may lie behind the end.
pub(crate) fn overwrite(file: &mut Vec<u8>, at: usize, bytes: &[u8]) -> Result<(), AllocError>
    ensures written { OnOk result (Holds file.new.items at bytes.now) }
    ensures others { Torn at (length bytes.now) file.old.items file.new.items }
    ensures mixed { Mixed at bytes.now file.old.items file.new.items }
{
    let end = at.checked_add(bytes.len()).ok_or(AllocError)?;
    if end > file.len() {
        resize(file, end)?;
    }
    file[at..end].copy_from_slice(bytes);
    Ok(())
}
