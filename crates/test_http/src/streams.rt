//! Streams that are cut into pieces, as long as they may be, or stopped by a reader or a writer.
use crate::rooms::{has_line, open_store};
use room_http::{Cause, Ended};
use room_store::Store;
use sqlite::MemStore;
use std::alloc::{AllocError, Global};
use std::test::Fail;
use test_talk::{
    PUT_TWICE, Pieces, Sink, Stop, Talk, agrees, bytes_at, converse, is_short, play, stop_at_read,
    stop_at_write, stopped, tried,
};

const REMOVED: &str = "\
>DELETE /object/f HTTP/1.1|Room-User: root||
<HTTP/1.1 204 No Content||
=Clean
";

const NOT_THERE: &str = "\
>DELETE /object/f HTTP/1.1|Room-User: root||
<HTTP/1.1 404 Not Found|Content-Type: application/json|Content-Length: 27||{\"at\":\"/f\",\"why\":\"no-such\"}
=Clean
";

// The line of the document that PUT_TWICE puts.
const DOCUMENT: &str = "document root staff 5 /f";

// More writes than a connection makes.
const ALL: usize = 100_000;

// Puts a document two times, by bytes that come in a first piece of this length and then in pieces
// of another, and removes it.
fn puts_in_pieces(
    alloc: Global,
    store: &mut Store<MemStore>,
    input: &[u8],
    first: usize,
    step: usize,
) -> Result<(), Fail> {
    let mut reader = Pieces::first(input, first, step);
    let talk = converse(alloc, store, 1000, &mut reader, Sink::new(alloc))?;
    if is_short(&talk) {
        return Err(Fail::new("want of memory"));
    }
    agrees(alloc, PUT_TWICE, &talk)?;
    play(alloc, store, REMOVED)
}

// The same for each length of the first piece, and a byte at a time.
fn puts_in_all_pieces(
    alloc: Global,
    store: &mut Store<MemStore>,
    input: &[u8],
) -> Result<(), Fail> {
    'cuts: for first in 1..input.len() {
        puts_in_pieces(alloc, store, input, first, 1000)?;
    }
    puts_in_pieces(alloc, store, input, 1, 1)
}

#[test]
fn put_twice(rt: HostRuntime) -> Result<(), Fail> {
    let input = bytes_at(rt.alloc(), PUT_TWICE, ">")?;
    let mut store = open_store(rt.alloc())?;
    puts_in_all_pieces(rt.alloc(), &mut store, input.as_slice())
}

// Adds as many bytes as a document may have.
fn push_most(bytes: &mut Vec<u8>) -> Result<(), AllocError> {
    'bytes: for _ in 0..1_048_576 {
        bytes.push(b'x')?;
    }
    Ok(())
}

// A document is put with as many bytes as it may have, and read.
fn largest_sent(alloc: Global) -> Result<Vec<u8>, AllocError> {
    let head = b"PUT /doc/f HTTP/1.1\r\nRoom-User: root\r\nContent-Length: 1048576\r\n\r\n";
    let mut bytes = Vec::from_slice(alloc, head)?;
    push_most(&mut bytes)?;
    bytes.extend_from_slice(b"GET /doc/f HTTP/1.1\r\nRoom-User: root\r\n\r\n")?;
    Ok(bytes)
}

fn largest_told(alloc: Global) -> Result<Vec<u8>, AllocError> {
    let made =
        b"HTTP/1.1 201 Created\r\nContent-Length: 0\r\n\r\nHTTP/1.1 200 OK\r\nContent-Type: application/octet-stream\r\nContent-Length: 1048576\r\n\r\n";
    let mut bytes = Vec::from_slice(alloc, made)?;
    push_most(&mut bytes)?;
    Ok(bytes)
}

// A connection of these bytes to an open room.
fn answered(alloc: Global, input: &[u8]) -> Result<Talk, Fail> {
    let mut store = open_store(alloc)?;
    let mut reader = Pieces::new(input, 100_000);
    converse(alloc, &mut store, 1000, &mut reader, Sink::new(alloc))
}

// That a connection of these bytes has these replies, and ends so.
fn answers(alloc: Global, input: &[u8], wanted: &[u8], end: Ended) -> Result<(), Fail> {
    let talk = answered(alloc, input)?;
    if is_short(&talk) {
        return Err(Fail::new("want of memory"));
    }
    if talk.end != Ok(end) || talk.sent.written() != wanted {
        return Err(Fail::new(format_args!("{:?}", talk.end)));
    }
    Ok(())
}

#[test]
fn largest_body(rt: HostRuntime) -> Result<(), Fail> {
    let sent = largest_sent(rt.alloc())?;
    let told = largest_told(rt.alloc())?;
    answers(rt.alloc(), sent.as_slice(), told.as_slice(), Ended::Clean)?;
    let part = &sent.as_slice()[..sent.len().min(1_000_000)];
    answers(rt.alloc(), part, b"", Ended::Cut)
}

// Whether a script went to its end. The document has to be there exactly where a message was acted
// on, and is then removed.
fn went(alloc: Global, store: &mut Store<MemStore>, stop: Stop) -> Result<bool, Fail> {
    match stop {
        Stop::None => {
            play(alloc, store, REMOVED)?;
            return Ok(true);
        }
        Stop::At { acted: true } => play(alloc, store, REMOVED)?,
        Stop::At { acted: false } => play(alloc, store, NOT_THERE)?,
    }
    Ok(false)
}

fn stop_at_writes(alloc: Global, store: &mut Store<MemStore>, fails: bool) -> Result<(), Fail> {
    'writes: for writes in 0..500 {
        let stop = stop_at_write(alloc, store, PUT_TWICE, writes, fails)?;
        if went(alloc, store, stop)? {
            return Ok(());
        }
    }
    Err(Fail::from("no end"))
}

fn stop_at_reads(alloc: Global, store: &mut Store<MemStore>) -> Result<(), Fail> {
    'reads: for reads in 0..500 {
        let stop = stop_at_read(alloc, store, PUT_TWICE, reads)?;
        if went(alloc, store, stop)? {
            return Ok(());
        }
    }
    Err(Fail::from("no end"))
}

#[test]
fn put_twice_stopped_at_each_read(rt: HostRuntime) -> Result<(), Fail> {
    let mut store = open_store(rt.alloc())?;
    stop_at_reads(rt.alloc(), &mut store)
}

#[test]
fn put_twice_stopped_at_each_write(rt: HostRuntime) -> Result<(), Fail> {
    let mut store = open_store(rt.alloc())?;
    stop_at_writes(rt.alloc(), &mut store, true)?;
    stop_at_writes(rt.alloc(), &mut store, false)
}

// The first write fails behind the step of its message.
fn first_write(alloc: Global, store: &mut Store<MemStore>) -> Result<(), Fail> {
    let talk = tried(alloc, store, PUT_TWICE, ALL, Sink::of(alloc, ALL, 0, true))?;
    stopped(&talk, 0, true, Cause::Write)
}

#[test]
fn first_write_fails(rt: HostRuntime) -> Result<(), Fail> {
    let mut store = open_store(rt.alloc())?;
    first_write(rt.alloc(), &mut store)?;
    assert!(rt; has_line(rt.alloc(), &mut store, DOCUMENT)?);
    Ok(())
}
