//! The text of a reply, beside the document that it hands out.
ghost use Rattle.std.specs.Prelude.{◌≡◌, ◌++◌, IfOk};
ghost use Rattle.http_message.specs.Reply.{bytes_form, octets, reply_text};

use crate::form::{HEAD_ROOM, Parts, print_head};
use crate::reply::{bytes_reply, reply_bytes};
use http::StatusCode;
use room_machine::Reply;
use room_rows::Bytes;
use std::alloc::{AllocError, Global};
use std::marker::Model;

// A document of at least that many bytes is sent as it lies in memory: a second write costs less
// than a copy.
const LONG: usize = 65_536;

/// The text of a reply. A long document isn't copied into it, but stands beside what comes before
/// it. A contract sees the bytes of the whole text.
#[derive(Drop)]
pub struct ReplyText {
    front: Vec<u8>,
    rest: Bytes,
}

impl Model for ReplyText {
    ghost use Rattle.std.specs.Prelude.{◌++◌, List, ℕ};

    ghost Value = { List ℕ };

    ghost view = { λ t. t.front.items ++ t.rest };
}

impl ReplyText {
    /// The two parts of the text, one of which may be empty.
    pub fn parts(&self) -> (&[u8], &[u8])
        ensures { result.0.now ++ result.1.now ≡ self.now }
    {
        (self.front.as_slice(), self.rest.as_slice())
    }

    /// The text in one piece.
    pub fn into_vec(self) -> Result<Vec<u8>, AllocError>
        ensures { IfOk result (λ text. text.items ≡ self) }
    {
        let ReplyText { mut front, rest } = self;
        front.extend_from_slice(rest.as_slice())?;
        Ok(front)
    }
}

// The text in one piece.
fn one_piece(alloc: Global, text: Vec<u8>) -> ReplyText
    ensures { result ≡ text.items }
{
    ReplyText {
        front: Vec::new(alloc),
        rest: Bytes::from_vec(text),
    }
}

/// The text of a reply: status line, fields and body. With `close` it says that the connection
/// ends.
pub fn reply_text(alloc: Global, reply: Reply, close: bool) -> Result<ReplyText, AllocError>
    ensures { IfOk result (λ text. text ≡ reply_text reply close) }
{
    match reply {
        Reply::Bytes(bytes) => document_text(alloc, bytes, close),
        reply => {
            let text = reply_bytes(alloc, &reply, close)?;
            Ok(one_piece(alloc, text))
        }
    }
}

fn document_text(alloc: Global, bytes: Bytes, close: bool) -> Result<ReplyText, AllocError>
    ensures { IfOk result (λ text. text ≡ bytes_form octets bytes close) }
{
    if bytes.as_slice().len() < LONG {
        let text = bytes_reply(alloc, bytes.as_slice(), close)?;
        return Ok(one_piece(alloc, text));
    }
    let front = document_front(alloc, bytes.as_slice(), close)?;
    Ok(ReplyText { front, rest: bytes })
}

// What comes before the bytes of a document.
fn document_front(alloc: Global, bytes: &[u8], close: bool) -> Result<Vec<u8>, AllocError>
    ensures { IfOk result (λ front. front.items ++ bytes.now ≡ bytes_form octets bytes.now close) }
{
    let parts = Parts {
        kind: Some(b"application/octet-stream"),
        allow: None,
        body: Some(bytes),
    };
    print_head(alloc, StatusCode::OK, &parts, close, HEAD_ROOM)
}
