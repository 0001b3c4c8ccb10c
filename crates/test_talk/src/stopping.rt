//! Connections that a reader or a writer stops.
use crate::going_on::is_short;
use crate::pieces::{Pieces, Sink};
use crate::scripts::{Talk, agrees, bytes_at, converse};
use room_http::{Cause, ServeFault};
use room_machine::Desk;
use std::alloc::Global;
use std::test::Fail;

// More reads or writes than a connection of a script makes.
const ALL: usize = 100_000;

/// What stopped a connection, and whether a message was acted on before that.
#[derive(Clone, Copy)]
pub enum Stop {
    /// Nothing: it went to its end.
    None,
    /// The reader or the writer.
    At { acted: bool },
}

// The failure of a test whose connection ended in another way than expected.
fn other(talk: &Talk) -> Fail {
    if is_short(talk) {
        return Fail::new("want of memory");
    }
    Fail::new(format_args!("{:?}", talk.end))
}

/// Tests that this ended the connection.
pub fn stopped(talk: &Talk, answered: u64, acted: bool, cause: Cause) -> Result<(), Fail> {
    let fault = ServeFault {
        answered,
        acted,
        cause,
    };
    if talk.end == Err(fault) {
        return Ok(());
    }
    Err(other(talk))
}

/// Plays a script over a reader that returns a byte at a time and fails after `reads` reads, and
/// over this writer.
pub fn tried<D: Desk>(
    alloc: Global,
    desk: &mut D,
    script: &str,
    reads: usize,
    sink: Sink,
) -> Result<Talk, Fail> {
    let input = bytes_at(alloc, script, ">")?;
    let mut reader = Pieces::failing(input.as_slice(), 1, reads);
    converse(alloc, desk, 1000, &mut reader, sink)
}

/// Plays a script over a writer that takes a byte at a time, and after `writes` writes fails, or
/// takes no byte. What was written has to be a front of what the script says.
pub fn stop_at_write<D: Desk>(
    alloc: Global,
    desk: &mut D,
    script: &str,
    writes: usize,
    fails: bool,
) -> Result<Stop, Fail> {
    let talk = tried(alloc, desk, script, ALL, Sink::of(alloc, 1, writes, fails))?;
    went(alloc, script, &talk, Cause::Write)
}

/// Plays a script over a reader that returns a byte at a time, and fails after `reads` reads.
pub fn stop_at_read<D: Desk>(
    alloc: Global,
    desk: &mut D,
    script: &str,
    reads: usize,
) -> Result<Stop, Fail> {
    let talk = tried(alloc, desk, script, reads, Sink::new(alloc))?;
    went(alloc, script, &talk, Cause::Read)
}

// What stopped the connection, which has to be this cause, or nothing.
fn went(alloc: Global, script: &str, talk: &Talk, cause: Cause) -> Result<Stop, Fail> {
    match talk.end {
        Ok(_) if is_short(talk) => Err(other(talk)),
        Ok(_) => {
            agrees(alloc, script, talk)?;
            Ok(Stop::None)
        }
        Err(fault) if fault.cause == cause => {
            begins(alloc, script, talk)?;
            Ok(Stop::At {
                acted: fault.acted || fault.answered > 0,
            })
        }
        Err(_) => Err(other(talk)),
    }
}

// Tests that what was written is a front of what the script says.
fn begins(alloc: Global, script: &str, talk: &Talk) -> Result<(), Fail> {
    let wanted = bytes_at(alloc, script, "<")?;
    if wanted.as_slice().starts_with(talk.sent.written()) {
        return Ok(());
    }
    Err(other(talk))
}
