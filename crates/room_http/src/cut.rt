//! The bytes of a reader, read until a head or a body is whole.
ghost use Rattle.std.specs.Prelude.{◌≡◌, ◌+◌, ◌<◌, ◌≤◌, [], length, drop, true, false, Ok, IfErr};
ghost use Rattle.std.specs.Prelude.{IfOk, OnOk, OnErr, max, not, ◌==◌};
ghost use Rattle.std.specs.List.{filter, position};
ghost use Rattle.std.specs.Io.KnownBytes.{IsAtEnd};
ghost use Rattle.httparse.specs.Ascii.{line_feed};
ghost use Rattle.httparse.specs.Grammar.{HasNoRequest, MayBecomeRequest};
ghost use Rattle.httparse.specs.Pieces.{is_newline};
ghost use Rattle.httparse.specs.Spans.{RequestExceeds};
ghost use Rattle.room_http.specs.Limits.{chunk_size, max_fields, max_head, read_size};
ghost use Rattle.room_http.specs.Spans.{Came, HeadCame, HeadNear, Loses, Scans, ScansWindow};
ghost use Rattle.room_http.specs.Spans.{StopsBody, StopsReading};

use crate::ended::Cause;
use crate::refusal::Refusal;
use httparse::spans::{HeaderSpan, RequestSpans, parse_request};
use httparse::{Error, Status};
use std::alloc::Global;
use std::io::Read;
use std::mem;

const READ_SIZE: usize = 16_384;

const CHUNK_SIZE: usize = 65_536;

const MAX_HEAD: usize = 16_384;

pub(crate) const MAX_FIELDS: usize = 64;

// The parts of a head.
pub(crate) type Spans = [HeaderSpan; MAX_FIELDS];

// What came of a connection and isn't answered yet, with room for the bytes of one read.
#[derive(Drop)]
pub(crate) struct Inbox {
    pub alloc: Global,
    pub buf: Vec<u8>,
    pub chunk: [u8; CHUNK_SIZE],
}

// Reads at most `room` bytes through the chunk, and appends them. Zero bytes come only at the end
// of the input.
fn read_into<R: Read>(
    r: &mut R,
    buf: &mut Vec<u8>,
    chunk: &mut [u8],
    room: usize,
) -> Result<bool, Cause>
    requires some { 0 < room }
    requires within { room ≤ length chunk.old }
    ensures came { IfOk result (λ some. Came
        (R.remaining r.old) (R.remaining r.new) buf.old.items buf.new.items) }
    ensures more { result ≡ Ok true → length buf.old.items < length buf.new.items }
    ensures end { result ≡ Ok false
        → (buf.new.items ≡ buf.old.items) × IsAtEnd (R.remaining r.new) }
    ensures size { length buf.new.items ≤ length buf.old.items + room }
    ensures lost { IfErr result (Loses room (R.remaining r.old) (R.remaining r.new)) }
    ensures err { OnErr result (buf.new.items ≡ buf.old.items) }
{
    let part = &mut chunk[..room];
    match r.read(part) {
        Ok(count) => {
            let piece = &part[..count];
            if piece.is_empty() {
                return Ok(false);
            }
            match buf.extend_from_slice(piece) {
                Ok(()) => Ok(true),
                Err(_) => Err(Cause::Memory),
            }
        }
        Err(_) => Err(Cause::Read),
    }
}

impl Inbox {
    // Nothing came yet.
    pub(crate) fn new(alloc: Global) -> Inbox
        ensures { result.buf.items ≡ [] }
    {
        Inbox {
            alloc,
            buf: Vec::new(alloc),
            chunk: [0; CHUNK_SIZE],
        }
    }

    // Reads at most `room` bytes into this inbox, as `read_into` does.
    fn fill<R: Read>(&mut self, r: &mut R, room: usize) -> Result<bool, Cause>
        requires some { 0 < room }
        requires within { room ≤ chunk_size }
        ensures came { IfOk result (λ some. Came
            (R.remaining r.old) (R.remaining r.new) self.old.buf.items self.new.buf.items) }
        ensures more { result ≡ Ok true → length self.old.buf.items < length self.new.buf.items }
        ensures end { result ≡ Ok false
            → (self.new.buf.items ≡ self.old.buf.items) × IsAtEnd (R.remaining r.new) }
        ensures size { length self.new.buf.items ≤ length self.old.buf.items + room }
        ensures lost { IfErr result (Loses room (R.remaining r.old) (R.remaining r.new)) }
        ensures err { OnErr result (self.new.buf.items ≡ self.old.buf.items) }
    {
        // Two fields behind one reference can't be lent at once.
        let mut buf = mem::replace(&mut self.buf, Vec::new(self.alloc));
        let filled = read_into(r, &mut buf, &mut self.chunk, room);
        self.buf = buf;
        filled
    }

    // Drops `count` bytes from the front.
    pub(crate) fn drop_front(&mut self, count: usize)
        requires { count ≤ length self.old.buf.items }
        ensures { self.new.buf.items ≡ drop count self.old.buf.items }
    {
        let rest = self.buf.len() - count;
        self.buf.rotate_left(count);
        self.buf.truncate(rest);
    }

    // Reads until a head is there, none can be, or the input ends.
    pub(crate) fn read_head<R: Read>(
        &mut self,
        r: &mut R,
        spans: &mut Spans,
    ) -> Result<HeadRead, Cause>
        ensures came { OnOk result
            (Came (R.remaining r.old) (R.remaining r.new) self.old.buf.items self.new.buf.items) }
        ensures lost { IfErr result
            (StopsReading (R.remaining r.old) (R.remaining r.new) self.old.buf.items) }
        ensures head { IfOk result (HeadCame self.new.buf.items spans.new (R.remaining r.new)) }
        ensures near { length self.old.buf.items < read_size
            → IfOk result (HeadNear self.new.buf.items) }
    {
        'reading: loop {
            match scan_head(self.buf.as_slice(), spans) {
                HeadScan::Whole(head) => return Ok(HeadRead::Found(head)),
                HeadScan::Refused(refusal) => return Ok(HeadRead::NotHead(refusal)),
                HeadScan::Part => {}
            }
            match self.fill(r, READ_SIZE) {
                Ok(true) => {}
                Ok(false) => return Ok(HeadRead::Ended),
                Err(cause) => return Err(cause),
            }
        }
    }

    // Reads until `total` bytes are there, or the input ends.
    pub(crate) fn read_body<R: Read>(&mut self, r: &mut R, total: usize) -> Result<bool, Cause>
        ensures came { OnOk result
            (Came (R.remaining r.old) (R.remaining r.new) self.old.buf.items self.new.buf.items) }
        ensures lost { IfErr result
            (StopsBody (R.remaining r.old) (R.remaining r.new) self.old.buf.items total) }
        ensures near { length self.old.buf.items < total + read_size
            → length self.new.buf.items < total + read_size }
        ensures whole { result ≡ Ok true → total ≤ length self.new.buf.items }
        ensures cut { result ≡ Ok false
            → (length self.new.buf.items < total) × IsAtEnd (R.remaining r.new) }
    {
        // Without this room the buffer grows step by step.
        let wanting = total.saturating_sub(self.buf.len());
        let _ = self.buf.reserve(wanting);
        'reading: while self.buf.len() < total {
            let room = room_for(total - self.buf.len());
            match self.fill(r, room) {
                Ok(true) => {}
                Ok(false) => return Ok(false),
                Err(cause) => return Err(cause),
            }
        }
        Ok(true)
    }
}

fn is_newline(byte: u8) -> bool
    ensures { result ≡ is_newline byte }
{
    byte == b'\r' || byte == b'\n'
}

// Where a head begins, after the empty lines in front of it.
fn head_start(bytes: &[u8]) -> Option<usize>
    ensures { result ≡ position (λ byte. not (is_newline byte)) bytes.now }
{
    bytes.iter().position(|byte| !is_newline(*byte))
}

// How many lines end in the bytes.
fn ended_lines(bytes: &[u8]) -> usize
    ensures { result ≡ length (filter (λ byte. byte == line_feed) bytes.now) }
{
    bytes.iter().filter(|byte| **byte == b'\n').count()
}

// Whether bytes that may become a head have more whole fields than the limit: the parser stops at
// the first of them, but its contract doesn't say so.
fn has_too_many(window: &[u8]) -> bool
    ensures few { result ≡ false → ¬ (RequestExceeds max_fields window.now) }
    ensures many { result ≡ true → HasNoRequest window.now → MayBecomeRequest window.now
        → RequestExceeds max_fields window.now }
{
    match head_start(window) {
        Some(start) => ended_lines(&window[start..]) > MAX_FIELDS + 1,
        None => false,
    }
}

// What the front of the bytes is: a whole head, a part of one, or no head.
#[derive(Clone, Copy)]
enum HeadScan {
    Whole(RequestSpans),
    Part,
    Refused(Refusal),
}

// Parses a head in the bytes where one may stand.
fn scan_window(window: &[u8], spans: &mut [HeaderSpan]) -> HeadScan
    requires room { length spans.old ≡ max_fields }
    requires short { length window.now ≤ max_head }
    ensures { ScansWindow window.now spans.new result }
{
    match parse_request(window, spans) {
        Ok(Status::Complete(head)) => HeadScan::Whole(head),
        Ok(Status::Partial) if window.len() < MAX_HEAD && !has_too_many(window) => HeadScan::Part,
        Ok(Status::Partial) => HeadScan::Refused(Refusal::TooManyFields),
        Err(Error::TooManyHeaders) => HeadScan::Refused(Refusal::TooManyFields),
        Err(_) => HeadScan::Refused(Refusal::BadHead),
    }
}

// Parses a head within the limits.
fn scan_head(buf: &[u8], spans: &mut Spans) -> HeadScan
    ensures { Scans buf.now spans.new result }
{
    scan_window(&buf[..buf.len().min(MAX_HEAD)], spans)
}

// How reading a head ended: with a head, with the end of the input, or with other bytes.
#[derive(Clone, Copy)]
pub(crate) enum HeadRead {
    Found(RequestSpans),
    Ended,
    NotHead(Refusal),
}

// How many bytes are read at once where so many are wanting. What comes after a body may come with
// it, but not more of that than one read for a head takes.
fn room_for(wanting: usize) -> usize
    ensures some { 0 < result }
    ensures within { result ≤ chunk_size }
    ensures near { result ≤ max read_size wanting }
{
    wanting.max(READ_SIZE).min(CHUNK_SIZE)
}
