//! A connection, over any reader, writer and desk.
ghost use Rattle.std.specs.Prelude.{◌≡◌, ◌<◌, ◌≤◌, ◌+◌, ◌||◌, ◌==◌, ℕ, List, length, drop};
ghost use Rattle.std.specs.Prelude.{Option, Some, None, Ok, Err, true, false, IfOk, IfErr, OnOk};
ghost use Rattle.std.specs.Io.KnownBytes.{Appends};
ghost use Rattle.http_message.specs.Asked.{request_of};
ghost use Rattle.http_message.specs.Close.{asks_close};
ghost use Rattle.room_http.specs.Limits.{max_messages, read_size};
ghost use Rattle.room_http.specs.Text.{refusal_reply};
ghost use Rattle.room_http.specs.Serve.{Connects, Serves, Stops, seen};
ghost use Rattle.room_http.specs.Exchange.{Exchanges, WholeNext};
ghost use Rattle.room_http.specs.Tell.{StopsWithin, Tells};

use crate::cut::Inbox;
use crate::ended::{Cause, Ended, ServeFault};
use crate::next::{NextMessage, Upcoming};
use crate::refusal::{Refusal, refusal_bytes, store_bytes};
use crate::respond::{Call, respond};
use crate::response::{Lost, Response};
use crate::write::{write_reply, write_text};
use http_message::{Head, Routes, asks_close};
use room_machine::Desk;
use std::alloc::Global;
use std::io::{Read, Write};

const MAX_MESSAGES: u64 = 10_000;

// What stopped an exchange.
#[derive(Clone, Copy)]
pub(crate) struct ExchangeFault {
    pub acted: bool,
    pub cause: Cause,
}

// What was written whole.
#[derive(Clone, Copy)]
pub(crate) enum Wrote {
    // The reply to the message.
    Answered,
    // That the desk failed.
    Failed,
}

// A connection so far: how many of its messages were answered, and what came after them.
#[derive(Drop)]
pub(crate) struct Connection {
    pub answered: u64,
    pub inbox: Inbox,
}

// What came of writing this, after the desk took a step or without one.
fn after_writing(wrote: Result<(), Cause>, told: Wrote, acted: bool) -> Result<Wrote, ExchangeFault>
    ensures ok { OnOk wrote (result ≡ Ok told) }
    ensures err { IfErr wrote (λ why. result ≡ Err (record { acted = acted; cause = why })) }
{
    match wrote {
        Ok(()) => Ok(told),
        Err(cause) => Err(ExchangeFault { acted, cause }),
    }
}

// Writes the text of a response.
fn tell<W: Write>(w: &mut W, response: Result<Response, Lost>) -> Result<Wrote, ExchangeFault>
    ensures { Tells response (W.contents w.old) (W.contents w.new) result }
{
    match response {
        Ok(Response::Refused(text)) => {
            after_writing(write_text(w, text.as_slice()), Wrote::Answered, false)
        }
        Ok(Response::Replied(text)) => after_writing(write_reply(w, &text), Wrote::Answered, true),
        Ok(Response::Fault) => after_writing(write_text(w, store_bytes()), Wrote::Failed, false),
        Err(lost) => Err(ExchangeFault {
            acted: lost.acted,
            cause: Cause::Memory,
        }),
    }
}

// Whether the reply to the message after `answered` others ends the connection.
fn says_close(head: &Head, answered: u64) -> bool
    requires { answered < max_messages }
    ensures { result ≡ (asks_close head.now || ((answered + 1) == max_messages)) }
{
    asks_close(head) || answered + 1 == MAX_MESSAGES
}

// Answers the message at the front of the bytes, and drops it from there if the connection stays
// open.
fn take_message<W: Write, D: Desk>(
    call: &Call<'_>,
    desk: &mut D,
    w: &mut W,
    connection: &mut Connection,
    next: NextMessage,
) -> Result<Option<Ended>, ExchangeFault>
    requires few { connection.old.answered < max_messages }
    requires next { WholeNext connection.old.inbox.buf.items next }
    ensures { (left : Option (List ℕ))
        → length connection.old.inbox.buf.items < next.end + read_size
        → Exchanges D.Desk call.now.moment connection.old.answered
        (seen left (W.contents w.old) desk.old) (seen left (W.contents w.new) desk.new)
        connection.old.inbox.buf.items connection.new result }
{
    let close = says_close(&next.head, connection.answered);
    let body = &connection.inbox.buf[next.start..next.end];
    let response = respond(call, desk, &next.head, body, close);
    let told = match tell(w, response) {
        Ok(told) => told,
        Err(halt) => return Err(halt),
    };
    match told {
        Wrote::Failed => Ok(Some(Ended::Closed)),
        Wrote::Answered => Ok(behind_reply(connection, next.end, close)),
    }
}

// What a whole reply leaves of the connection: its end, or the bytes after the message.
fn behind_reply(connection: &mut Connection, end: usize, close: bool) -> Option<Ended>
    requires few { connection.old.answered < max_messages }
    requires within { end ≤ length connection.old.inbox.buf.items }
    ensures closes { close ≡ true → result ≡ Some Ended.Closed }
    ensures stays { close ≡ false → (result ≡ None)
        × (connection.new.inbox.buf.items ≡ drop end connection.old.inbox.buf.items) }
    ensures counts { close ≡ false → connection.new.answered ≡ connection.old.answered + 1 }
{
    if !close {
        connection.inbox.drop_front(end);
        connection.answered += 1;
        return None;
    }
    Some(Ended::Closed)
}

// Writes the reply to what is refused.
fn refuse<W: Write>(
    alloc: Global,
    w: &mut W,
    refusal: Refusal,
) -> Result<Option<Ended>, ExchangeFault>
    ensures ok { IfOk result (λ ended. (ended ≡ Some Ended.Closed)
        × Appends (W.contents w.old) (W.contents w.new) (refusal_reply refusal)) }
    ensures err { IfErr result (λ stop. (stop.acted ≡ false)
        × StopsWithin (W.contents w.old) (W.contents w.new) (refusal_reply refusal) stop.cause) }
{
    let Ok(text) = refusal_bytes(alloc, refusal) else {
        return Err(ExchangeFault {
            acted: false,
            cause: Cause::Memory,
        });
    };
    match write_text(w, text.as_slice()) {
        Ok(()) => Ok(Some(Ended::Closed)),
        Err(cause) => Err(ExchangeFault {
            acted: false,
            cause,
        }),
    }
}

// Reads, answers and writes once.
fn exchange<R: Read, W: Write, D: Desk>(
    call: &Call<'_>,
    desk: &mut D,
    r: &mut R,
    w: &mut W,
    connection: &mut Connection,
) -> Result<Option<Ended>, ExchangeFault>
    requires { connection.old.answered < max_messages }
    ensures { length connection.old.inbox.buf.items < read_size
        → Exchanges D.Desk call.now.moment connection.old.answered
        (seen (R.remaining r.old) (W.contents w.old) desk.old)
        (seen (R.remaining r.new) (W.contents w.new) desk.new)
        connection.old.inbox.buf.items connection.new result }
{
    let next = match connection.inbox.next_message(r) {
        Ok(next) => next,
        Err(cause) => {
            return Err(ExchangeFault {
                acted: false,
                cause,
            });
        }
    };
    match next {
        Upcoming::Whole(next) => take_message(call, desk, w, connection, next),
        Upcoming::Refused(refusal) => refuse(connection.inbox.alloc, w, refusal),
        Upcoming::Clean => Ok(Some(Ended::Clean)),
        Upcoming::Cut => Ok(Some(Ended::Cut)),
    }
}

/// Answers the messages of a connection, one after another, until it ends: 10,000 at most. They are
/// asked at this moment, in seconds from 1970-01-01 00:00 UTC. The first error of the reader or the
/// writer, or of memory, is the error, with what was done before.
pub fn serve<R: Read, W: Write, D: Desk>(
    routes: &Routes,
    desk: &mut D,
    moment: i64,
    r: &mut R,
    w: &mut W,
) -> Result<Ended, ServeFault>
    ensures connects { Connects D.Desk moment
        (seen (R.remaining r.old) (W.contents w.old) desk.old)
        (seen (R.remaining r.new) (W.contents w.new) desk.new) }
    ensures serves { IfOk result (Serves D.Desk moment
        (seen (R.remaining r.old) (W.contents w.old) desk.old)
        (seen (R.remaining r.new) (W.contents w.new) desk.new)) }
    ensures stops { IfErr result (Stops D.Desk moment
        (seen (R.remaining r.old) (W.contents w.old) desk.old)
        (seen (R.remaining r.new) (W.contents w.new) desk.new)) }
{
    let call = Call { routes, moment };
    let mut connection = Connection {
        answered: 0,
        inbox: Inbox::new(routes.alloc()),
    };
    'messages: loop {
        let answered = connection.answered;
        match exchange(&call, desk, r, w, &mut connection) {
            Ok(None) => {}
            Ok(Some(ended)) => return Ok(ended),
            Err(halt) => {
                return Err(ServeFault {
                    answered,
                    acted: halt.acted,
                    cause: halt.cause,
                });
            }
        }
    }
}
