//! The next message of a stream.
ghost use Rattle.std.specs.Prelude.{◌≡◌, ◌+◌, ◌<◌, length, OnOk, IfErr, IfOk};
ghost use Rattle.room_http.specs.Limits.{read_size};
ghost use Rattle.room_http.specs.Spans.{Came, SpansHead, StopsReading};
ghost use Rattle.room_http.specs.Exchange.{ComesNear, Coming};

use crate::cut::{HeadRead, Inbox, MAX_FIELDS};
use crate::ended::Cause;
use crate::fields::{copied_head, declared_size};
use crate::refusal::Refusal;
use http_message::Head;
use httparse::spans::{EMPTY_HEADER_SPAN, HeaderSpan, RequestSpans};
use std::io::Read;

// A whole message at the front of the bytes: its head, and where its body lies.
#[derive(Drop)]
pub(crate) struct NextMessage {
    pub head: Head,
    pub start: usize,
    pub end: usize,
}

// What stands at the front of the bytes.
#[derive(Drop)]
pub(crate) enum Upcoming {
    Clean,
    Cut,
    Refused(Refusal),
    Whole(NextMessage),
}

impl Inbox {
    // Reads until a message is complete or refused, or the input ends.
    pub(crate) fn next_message<R: Read>(&mut self, r: &mut R) -> Result<Upcoming, Cause>
        ensures near { length self.old.buf.items < read_size
            → IfOk result (ComesNear self.new.buf.items) }
        ensures came { OnOk result
            (Came (R.remaining r.old) (R.remaining r.new) self.old.buf.items self.new.buf.items) }
        ensures lost { length self.old.buf.items < read_size
            → IfErr result (StopsReading
            (R.remaining r.old) (R.remaining r.new) self.old.buf.items) }
        ensures next { IfOk result (Coming self.new.buf.items (R.remaining r.new)) }
    {
        let mut spans = [EMPTY_HEADER_SPAN; MAX_FIELDS];
        match self.read_head(r, &mut spans)? {
            HeadRead::Found(parts) => self.next_behind(r, &spans, parts),
            HeadRead::NotHead(refusal) => Ok(Upcoming::Refused(refusal)),
            HeadRead::Ended if self.buf.is_empty() => Ok(Upcoming::Clean),
            HeadRead::Ended => Ok(Upcoming::Cut),
        }
    }

    // Reads the body after the head at the front of the bytes.
    fn next_behind<R: Read>(
        &mut self,
        r: &mut R,
        spans: &[HeaderSpan],
        parts: RequestSpans,
    ) -> Result<Upcoming, Cause>
        requires { SpansHead self.old.buf.items spans.now parts }
        ensures near { length self.old.buf.items < parts.len + read_size
            → IfOk result (ComesNear self.new.buf.items) }
        ensures came { OnOk result
            (Came (R.remaining r.old) (R.remaining r.new) self.old.buf.items self.new.buf.items) }
        ensures lost { length self.old.buf.items < parts.len + read_size
            → IfErr result (StopsReading
            (R.remaining r.old) (R.remaining r.new) self.old.buf.items) }
        ensures next { IfOk result (Coming self.new.buf.items (R.remaining r.new)) }
    {
        let Ok(head) = copied_head(self.alloc, &self.buf[..parts.len], spans, parts) else {
            return Err(Cause::Memory);
        };
        let size = match declared_size(head.fields.as_slice()) {
            Ok(size) => size,
            Err(refusal) => return Ok(Upcoming::Refused(refusal)),
        };
        let end = parts.len + size;
        match self.read_body(r, end) {
            Ok(true) => Ok(Upcoming::Whole(NextMessage {
                head,
                start: parts.len,
                end,
            })),
            Ok(false) => Ok(Upcoming::Cut),
            Err(cause) => Err(cause),
        }
    }
}
