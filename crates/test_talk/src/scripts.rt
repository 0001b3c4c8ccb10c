//! Connections as scripts. A line `>` is sent, a line `<` has to come back, and a line `=` says how
//! the connection ends.
use crate::pieces::Sink;
use crate::spelling::push_spelled;
use http_message::Routes;
use room_http::{Ended, ServeFault, serve};
use room_machine::Desk;
use std::alloc::Global;
use std::io::{Read, Write};
use std::test::Fail;

/// A document is put two times.
pub const PUT_TWICE: &str = "\
>PUT /doc/f HTTP/1.1|Room-User: root|Content-Length: 5||hello
<HTTP/1.1 201 Created|Content-Length: 0||
>PUT /doc/f HTTP/1.1|Room-User: root|Content-Length: 5||hello
<HTTP/1.1 204 No Content||
=Clean
";

/// What a connection sent back, and how it ended.
#[derive(Drop)]
pub struct Talk {
    pub sent: Sink,
    pub end: Result<Ended, ServeFault>,
}

/// The bytes of the lines with this mark.
pub fn bytes_at(alloc: Global, script: &str, mark: &str) -> Result<Vec<u8>, Fail> {
    bytes_from(alloc, script, mark, 0)
}

/// The bytes of the lines with this mark, without the first `first` ones.
pub(crate) fn bytes_from(
    alloc: Global,
    script: &str,
    mark: &str,
    first: usize,
) -> Result<Vec<u8>, Fail> {
    let mut bytes = Vec::new(alloc);
    let mut passed = 0;
    'lines: for line in script.lines() {
        if let Some(text) = line.strip_prefix(mark) {
            if passed < first {
                passed += 1;
            } else {
                push_spelled(&mut bytes, text)?;
            }
        }
    }
    Ok(bytes)
}

/// Serves a connection at a moment.
pub fn converse<R: Read, D: Desk>(
    alloc: Global,
    desk: &mut D,
    moment: i64,
    reader: &mut R,
    sink: Sink,
) -> Result<Talk, Fail> {
    let mut sent = sink;
    let end = serve_once(alloc, desk, moment, reader, &mut sent)?;
    Ok(Talk { sent, end })
}

fn serve_once<R: Read, W: Write, D: Desk>(
    alloc: Global,
    desk: &mut D,
    moment: i64,
    reader: &mut R,
    writer: &mut W,
) -> Result<Result<Ended, ServeFault>, Fail> {
    let routes = Routes::new(alloc)?;
    Ok(serve(&routes, desk, moment, reader, writer))
}

/// Tests that a connection went as the script says.
pub fn agrees(alloc: Global, script: &str, talk: &Talk) -> Result<(), Fail> {
    agrees_from(alloc, script, 0, talk)
}

/// Tests that a connection went as the script says after its first `first` messages.
pub(crate) fn agrees_from(
    alloc: Global,
    script: &str,
    first: usize,
    talk: &Talk,
) -> Result<(), Fail> {
    let wanted = bytes_from(alloc, script, "<", first)?;
    same_bytes(talk.sent.written(), wanted.as_slice())?;
    ends(script, talk.end)
}

/// Tests that the bytes are the expected ones. The first line that differs is told.
pub fn same_bytes(told: &[u8], wanted: &[u8]) -> Result<(), Fail> {
    if told == wanted {
        return Ok(());
    }
    let told = str::from_utf8(told).unwrap_or("no text");
    let wanted = str::from_utf8(wanted).unwrap_or("no text");
    same_lines(told, wanted)?;
    Err(Fail::new(format_args!("{told:?}, where wanted is {wanted:?}")))
}

fn same_lines(told: &str, wanted: &str) -> Result<(), Fail> {
    let mut replies = 0u64;
    'lines: for (told, wanted) in told.split("\r\n").zip(wanted.split("\r\n")) {
        if wanted.contains("HTTP/1.1 ") {
            replies = replies.saturating_add(1);
        }
        if told != wanted {
            let why = format_args!("{told:?} in reply {replies}, where wanted is {wanted:?}");
            return Err(Fail::new(why));
        }
    }
    Ok(())
}

fn ends(script: &str, end: Result<Ended, ServeFault>) -> Result<(), Fail> {
    let wanted = match script.split_once("\n=") {
        Some((_, wanted)) => wanted.trim(),
        None => "no end",
    };
    if end_word(end) == wanted {
        return Ok(());
    }
    Err(Fail::new(format_args!("{end:?}, where wanted is {wanted}")))
}

fn end_word(end: Result<Ended, ServeFault>) -> &'static str {
    match end {
        Ok(Ended::Clean) => "Clean",
        Ok(Ended::Cut) => "Cut",
        Ok(Ended::Closed) => "Closed",
        Err(_) => "fault",
    }
}
