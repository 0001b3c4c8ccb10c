//! The text of a reply.
ghost use Rattle.std.specs.Prelude.{◌≡◌, IfOk, None, option_map};
ghost use Rattle.room_ace.specs.Lists.{list_text};
ghost use Rattle.http_message.specs.Form.{json_form, reply_form};
ghost use Rattle.http_message.specs.Bodies.{attr_data, denied_data, bad_text, line_data};
ghost use Rattle.http_message.specs.Bodies.{names_data, refused_data, rulings_data, why_data};
ghost use Rattle.http_message.specs.Reply.{allow_form, bytes_form, fault_text, octets, plain_text};
ghost use Rattle.http_message.specs.Reply.{reason_status, reply_text};

use crate::data::{
    push_attr, push_denied, push_line, push_names, push_refused, push_why, rulings_value, started,
};
use crate::fault::HttpFault;
use crate::form::{Parts, print_json, print_reply};
use crate::reply_texts::{bad_path, bad_text};
use http::StatusCode;
use room_ace::{Entry, LineFault, ListFlags, Mask, ObjKind, Owners, print_list};
use room_eval::Ruling;
use room_machine::{Reason, Reply};
use room_rows::{Path, Text};
use std::alloc::{AllocError, Global};

// What most bodies need, and what a child of a short name needs. More is found where it is wanted.
const ROOM: usize = 128;

const NAME_ROOM: usize = 48;

/// The text of a reply: status line, fields and body. With `close` it says that the connection
/// ends.
pub fn reply_bytes(alloc: Global, reply: &Reply, close: bool) -> Result<Vec<u8>, AllocError>
    ensures { IfOk result (λ text. text.items ≡ reply_text reply.now close) }
{
    match reply {
        Reply::Bytes(bytes) => bytes_reply(alloc, bytes.as_slice(), close),
        Reply::Names(children) => names_reply(alloc, children.as_slice(), close),
        Reply::Lists(flags, entries) => list_reply(alloc, *flags, entries.as_slice(), close),
        Reply::Attr(kind, owners) => attr_reply(alloc, *kind, owners, close),
        Reply::Rulings(rulings) => rulings_reply(alloc, rulings.as_slice(), close),
        Reply::Made => print_plain(alloc, StatusCode::CREATED, Some(&[]), close),
        Reply::Done => print_plain(alloc, StatusCode::NO_CONTENT, None, close),
        Reply::Denied {
            at,
            bits,
            place,
            entry,
        } => denied_reply(alloc, at, *bits, *place, entry.as_ref(), close),
        Reply::Refused { at, why } => refused_reply(alloc, at, why, close),
    }
}

// A reply of bytes of a type.
fn print_bytes<'a>(
    alloc: Global,
    kind: &'a [u8],
    body: &'a [u8],
    close: bool,
) -> Result<Vec<u8>, AllocError>
    ensures { IfOk result (λ text. text.items ≡ bytes_form kind.now body.now close) }
{
    let parts = Parts {
        kind: Some(kind),
        allow: None,
        body: Some(body),
    };
    print_reply(alloc, StatusCode::OK, &parts, close)
}

// A reply whose body, if it has one, has no type.
fn print_plain(
    alloc: Global,
    status: StatusCode,
    body: Option<&[u8]>,
    close: bool,
) -> Result<Vec<u8>, AllocError>
    ensures { IfOk result (λ text. text.items
        ≡ reply_form status None None (option_map (λ b. b.now) body.entry) close) }
{
    let parts = Parts {
        kind: None,
        allow: None,
        body,
    };
    print_reply(alloc, status, &parts, close)
}

// A reply of a document's bytes.
pub(crate) fn bytes_reply(alloc: Global, bytes: &[u8], close: bool) -> Result<Vec<u8>, AllocError>
    ensures { IfOk result (λ text. text.items ≡ bytes_form octets bytes.now close) }
{
    print_bytes(alloc, b"application/octet-stream", bytes, close)
}

fn list_reply(
    alloc: Global,
    flags: ListFlags,
    entries: &[Entry],
    close: bool,
) -> Result<Vec<u8>, AllocError>
    ensures { IfOk result (λ text. text.items
        ≡ bytes_form plain_text (list_text flags entries.now) close) }
{
    let list = print_list(alloc, flags, entries)?;
    print_bytes(alloc, b"text/plain", list.as_bytes(), close)
}

fn names_reply(
    alloc: Global,
    children: &[(Text, ObjKind)],
    close: bool,
) -> Result<Vec<u8>, AllocError>
    ensures { IfOk result (λ text. text.items ≡ json_form 200 (names_data children.now) close) }
{
    let mut out = started(alloc, children.len().saturating_mul(NAME_ROOM))?;
    push_names(&mut out, children)?;
    print_json(alloc, StatusCode::OK, out.into_inner(), close)
}

fn attr_reply(
    alloc: Global,
    kind: ObjKind,
    owners: &Owners,
    close: bool,
) -> Result<Vec<u8>, AllocError>
    ensures { IfOk result (λ text. text.items ≡ json_form 200 (attr_data kind owners.now) close) }
{
    let mut out = started(alloc, ROOM)?;
    push_attr(&mut out, kind, owners)?;
    print_json(alloc, StatusCode::OK, out.into_inner(), close)
}

fn rulings_reply(
    alloc: Global,
    rulings: &[(Mask, Ruling)],
    close: bool,
) -> Result<Vec<u8>, AllocError>
    ensures { IfOk result (λ text. text.items ≡ json_form 200 (rulings_data rulings.now) close) }
{
    let value = rulings_value(alloc, rulings)?;
    let body = value.to_vec(alloc)?;
    print_json(alloc, StatusCode::OK, body, close)
}

fn denied_reply(
    alloc: Global,
    path: &Path,
    bits: Mask,
    place: Option<usize>,
    entry: Option<&Entry>,
    close: bool,
) -> Result<Vec<u8>, AllocError>
    ensures { IfOk result (λ text. text.items
        ≡ json_form 403
        (denied_data path.now bits place (option_map (λ e. e.now) entry.entry))
        close) }
{
    let mut out = started(alloc, ROOM)?;
    push_denied(alloc, &mut out, path, bits, place, entry)?;
    print_json(alloc, StatusCode::FORBIDDEN, out.into_inner(), close)
}

fn refused_reply(
    alloc: Global,
    path: &Path,
    why: &Reason,
    close: bool,
) -> Result<Vec<u8>, AllocError>
    ensures { IfOk result (λ text. text.items
        ≡ json_form (reason_status why.now) (refused_data path.now why.now) close) }
{
    let mut out = started(alloc, ROOM)?;
    push_refused(alloc, &mut out, path, why)?;
    print_json(alloc, reason_status(why), out.into_inner(), close)
}

fn reason_status(why: &Reason) -> StatusCode
    ensures { result ≡ reason_status why.now }
{
    match why {
        Reason::NoSuch => StatusCode::NOT_FOUND,
        Reason::BadList { .. } => StatusCode::UNPROCESSABLE_ENTITY,
        Reason::TooLarge => StatusCode::PAYLOAD_TOO_LARGE,
        Reason::NotFolder => StatusCode::CONFLICT,
        Reason::WrongKind => StatusCode::CONFLICT,
        Reason::Exists => StatusCode::CONFLICT,
        Reason::NotEmpty => StatusCode::CONFLICT,
        Reason::Root => StatusCode::CONFLICT,
        Reason::Loop => StatusCode::CONFLICT,
    }
}

/// The text that tells why a whole message is refused. With `close` it says that the connection
/// ends.
pub fn fault_bytes(alloc: Global, fault: HttpFault, close: bool) -> Result<Vec<u8>, AllocError>
    ensures { IfOk result (λ text. text.items ≡ fault_text fault close) }
{
    match fault {
        HttpFault::UnknownMethod => print_allow(alloc, b"DELETE, GET, POST, PUT", close),
        HttpFault::OtherMethod(route) => print_allow(alloc, route.allow().as_bytes(), close),
        HttpFault::BadTarget => print_why(alloc, StatusCode::BAD_REQUEST, "bad-target", close),
        HttpFault::NoRoute => print_why(alloc, StatusCode::NOT_FOUND, "no-route", close),
        HttpFault::BadPath(fault) => {
            print_why(alloc, StatusCode::BAD_REQUEST, bad_path(fault), close)
        }
        HttpFault::BadMask => print_why(alloc, StatusCode::BAD_REQUEST, "bad-target A4", close),
        HttpFault::BadUser => print_why(alloc, StatusCode::BAD_REQUEST, "bad-user", close),
        HttpFault::BadBody => print_why(alloc, StatusCode::BAD_REQUEST, "bad-body", close),
        HttpFault::BadList(fault) => print_line(alloc, fault, close),
    }
}

// A reply that says which methods are allowed.
fn print_allow(alloc: Global, allow: &[u8], close: bool) -> Result<Vec<u8>, AllocError>
    ensures { IfOk result (λ text. text.items ≡ allow_form allow.now close) }
{
    let parts = Parts {
        kind: None,
        allow: Some(allow),
        body: Some(&[]),
    };
    print_reply(alloc, StatusCode::METHOD_NOT_ALLOWED, &parts, close)
}

/// A reply of a status that says why.
pub fn print_why(
    alloc: Global,
    status: StatusCode,
    why: &str,
    close: bool,
) -> Result<Vec<u8>, AllocError>
    ensures { IfOk result (λ text. text.items ≡ json_form status (why_data why.now) close) }
{
    let mut out = started(alloc, ROOM)?;
    push_why(&mut out, why)?;
    print_json(alloc, status, out.into_inner(), close)
}

// A reply that says which line of a list text is refused.
fn print_line(alloc: Global, fault: LineFault, close: bool) -> Result<Vec<u8>, AllocError>
    ensures { IfOk result (λ text. text.items
        ≡ json_form 422 (line_data fault.line (bad_text fault.why)) close) }
{
    let mut out = started(alloc, ROOM)?;
    push_line(&mut out, fault.line, bad_text(fault.why))?;
    print_json(
        alloc,
        StatusCode::UNPROCESSABLE_ENTITY,
        out.into_inner(),
        close,
    )
}
