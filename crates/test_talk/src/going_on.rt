//! Scripts played at a desk, where memory may run out once.
//!
//! Out of memory is reported, and never looks like another answer: the whole replies before it are
//! those of the script, and on a connection after it the rest of the script is answered as it says.
use crate::pieces::{Pieces, Sink};
use crate::scripts::{Talk, agrees, agrees_from, bytes_from, converse};
use crate::spelling::push_spelled;
use room_http::{Cause, Ended};
use room_machine::Desk;
use std::alloc::Global;
use std::test::Fail;

// The reply of a desk that has a fault, such as out of memory.
const STORE_FAULT: &[u8] =
    b"HTTP/1.1 500 Internal Server Error\r\nContent-Type: application/json\r\nContent-Length: 15\r\nConnection: close\r\n\r\n{\"why\":\"store\"}";

// No read returns more bytes than this.
const PIECE: usize = 100_000;

/// Plays a script at a desk, at the moment 1000.
pub fn play<D: Desk>(alloc: Global, desk: &mut D, script: &str) -> Result<(), Fail> {
    play_at(alloc, desk, 1000, script)
}

/// Plays a script at a desk, at a moment.
pub fn play_at<D: Desk>(
    alloc: Global,
    desk: &mut D,
    moment: i64,
    script: &str,
) -> Result<(), Fail> {
    let talk = talk_from(alloc, desk, moment, script, 0)?;
    if !is_short(&talk) || script.contains("500 Internal Server Error") {
        return agrees(alloc, script, &talk);
    }
    let next = next_message(alloc, script, &talk)?;
    drop(talk);
    go_on(alloc, desk, moment, script, next)?;
    Err(Fail::new("want of memory"))
}

// The connection of the messages of a script that come after the first `first` ones.
fn talk_from<D: Desk>(
    alloc: Global,
    desk: &mut D,
    moment: i64,
    script: &str,
    first: usize,
) -> Result<Talk, Fail> {
    let input = bytes_from(alloc, script, ">", first)?;
    let mut reader = Pieces::new(input.as_slice(), PIECE);
    converse(alloc, desk, moment, &mut reader, Sink::new(alloc))
}

/// Whether memory ran out and so ended a connection, outside the desk or in it.
pub fn is_short(talk: &Talk) -> bool {
    match talk.end {
        Err(fault) => fault.cause == Cause::Memory,
        Ok(Ended::Closed) => talk.sent.written().ends_with(STORE_FAULT),
        Ok(_) => false,
    }
}

// The message of a script to go on with once memory ran out: the one that it came to, or the one
// after that where the desk has acted on it.
fn next_message(alloc: Global, script: &str, talk: &Talk) -> Result<usize, Fail> {
    let mut rest = talk.sent.written();
    let count = whole_replies(alloc, script, &mut rest)?;
    match talk.end {
        Ok(_) if rest == STORE_FAULT => Ok(count),
        Err(fault) if rest.is_empty() && fault.answered == count as u64 => {
            Ok(count.saturating_add(usize::from(fault.acted)))
        }
        _ => Err(Fail::new(format_args!("{:?} behind {count} replies", talk.end))),
    }
}

// Counts the replies of a script that stand whole at the front of the bytes, and drops them.
fn whole_replies(alloc: Global, script: &str, rest: &mut &[u8]) -> Result<usize, Fail> {
    let mut count = 0;
    'lines: for line in script.lines() {
        if let Some(text) = line.strip_prefix("<") {
            if !drop_reply(alloc, text, rest)? {
                return Ok(count);
            }
            count = count.saturating_add(1);
        }
    }
    Ok(count)
}

// Drops a reply from the front of the bytes, if it stands there.
fn drop_reply(alloc: Global, text: &str, rest: &mut &[u8]) -> Result<bool, Fail> {
    let mut reply = Vec::new(alloc);
    push_spelled(&mut reply, text)?;
    match rest.strip_prefix(reply.as_slice()) {
        Some(behind) => {
            *rest = behind;
            Ok(true)
        }
        None => Ok(false),
    }
}

// Plays the messages of a script that come after the first `first` ones.
fn go_on<D: Desk>(
    alloc: Global,
    desk: &mut D,
    moment: i64,
    script: &str,
    first: usize,
) -> Result<(), Fail> {
    if bytes_from(alloc, script, ">", first)?.is_empty() {
        return Ok(());
    }
    let talk = talk_from(alloc, desk, moment, script, first)?;
    agrees_from(alloc, script, first, &talk)
}
