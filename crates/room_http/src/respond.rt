//! The answer to one whole message.
ghost use Rattle.std.specs.Option.{option_copied};
ghost use Rattle.std.specs.Prelude.{Ok};
ghost use Rattle.http_message.specs.Asked.{request_of};
ghost use Rattle.room_http.specs.Answer.{AnswersMessage, Delivers, JoinsText, RefusesMessage};
ghost use Rattle.room_http.specs.Answer.{Responds};

use crate::response::{Answer, Lost, Response};
use http_message::{Head, HttpFault, ReplyText, Routes, fault_bytes, reply_text, request_of};
use room_ace::{Failure, Name};
use room_machine::{Desk, Reply, Request};
use std::alloc::Global;

/// How messages are answered: by this table of routes, at this moment.
#[derive(Drop)]
pub(crate) struct Call<'a> {
    pub routes: &'a Routes,
    pub moment: i64,
}

/// Answers a whole message at a moment, in seconds from 1970-01-01 00:00 UTC, from the test of its
/// method on. With `close` the reply says that the connection ends. The error is that memory ran
/// out.
pub fn answer<D: Desk>(
    routes: &Routes,
    desk: &mut D,
    moment: i64,
    head: &Head,
    body: &[u8],
    close: bool,
) -> Result<Answer, Lost>
    ensures { AnswersMessage D.Desk moment desk.old desk.new close
        (request_of head.now body.now) result }
{
    match respond(&Call { routes, moment }, desk, head, body, close)? {
        Response::Refused(text) => Ok(Answer::Text(text)),
        Response::Replied(text) => joined(text),
        Response::Fault => Ok(Answer::Fault),
    }
}

// The text of the desk's reply, in one piece.
fn joined(text: ReplyText) -> Result<Answer, Lost>
    ensures { JoinsText text result }
{
    match text.into_vec() {
        Ok(text) => Ok(Answer::Text(text)),
        Err(_) => Err(Lost { acted: true }),
    }
}

// Answers a whole message, and says whether the desk was asked.
pub(crate) fn respond<D: Desk>(
    call: &Call<'_>,
    desk: &mut D,
    head: &Head,
    body: &[u8],
    close: bool,
) -> Result<Response, Lost>
    ensures { Responds D.Desk call.now.moment desk.old desk.new close
        (request_of head.now body.now) result }
{
    match request_of(call.routes, head, body) {
        Ok((caller, request)) => ask(call, desk, caller.as_ref(), &request, close),
        Err(Failure::Fault(fault)) => refused(call.routes.alloc(), fault, close),
        Err(Failure::OutOfMemory) => Err(Lost { acted: false }),
    }
}

// The text of the first test that fails.
fn refused(alloc: Global, fault: HttpFault, close: bool) -> Result<Response, Lost>
    ensures { RefusesMessage fault close result }
{
    match fault_bytes(alloc, fault, close) {
        Ok(text) => Ok(Response::Refused(text)),
        Err(_) => Err(Lost { acted: false }),
    }
}

// Asks the desk.
fn ask<D: Desk>(
    call: &Call<'_>,
    desk: &mut D,
    caller: Option<&Name>,
    request: &Request,
    close: bool,
) -> Result<Response, Lost>
    ensures { Responds D.Desk call.now.moment desk.old desk.new close
        (Ok (option_copied caller.entry, request.now)) result }
{
    let Call { routes, moment } = call;
    let alloc = routes.alloc();
    match desk.run(alloc, caller, *moment, request) {
        Ok(reply) => delivered(alloc, reply, close),
        Err(_) => Ok(Response::Fault),
    }
}

// The text of the desk's reply.
fn delivered(alloc: Global, reply: Reply, close: bool) -> Result<Response, Lost>
    ensures { Delivers reply close result }
{
    match reply_text(alloc, reply, close) {
        Ok(text) => Ok(Response::Replied(text)),
        Err(_) => Err(Lost { acted: true }),
    }
}
