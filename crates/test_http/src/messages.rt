//! Messages and replies that no connection to a room has: heads that aren't cut out of bytes, and
//! replies that a room doesn't give.
use http_message::{Field, Fields, Head, HttpFault, Routes, asks_close, reply_bytes, request_of};
use room_ace::{Entry, Failure, Mask, Name, read_entry, read_mask};
use room_machine::{Reply, Request};
use room_rows::{Bytes, Path, read_path};
use std::alloc::{AllocError, Global};
use std::test::Fail;
use test_talk::same_bytes;

fn bytes_of(alloc: Global, bytes: &[u8]) -> Result<Bytes, AllocError> {
    Ok(Bytes::from_vec(Vec::from_slice(alloc, bytes)?))
}

fn field_of(alloc: Global, name: &[u8], value: &[u8]) -> Result<Field, AllocError> {
    let name = bytes_of(alloc, name)?;
    let value = bytes_of(alloc, value)?;
    Ok(Field { name, value })
}

fn fields_of(alloc: Global, name: &[u8], value: &[u8]) -> Result<Fields, AllocError> {
    let mut items = Vec::new(alloc);
    items.push(field_of(alloc, name, value)?)?;
    Ok(Fields::from_vec(items))
}

// The head of a message that reads, of one field.
pub(crate) fn head_of(
    alloc: Global,
    target: &[u8],
    name: &[u8],
    value: &[u8],
) -> Result<Head, AllocError> {
    let target = bytes_of(alloc, target)?;
    let fields = fields_of(alloc, name, value)?;
    Ok(Head {
        method: bytes_of(alloc, b"GET")?,
        target,
        minor: 1,
        fields,
    })
}

fn asked(
    alloc: Global,
    head: &Head,
) -> Result<Result<(Option<Name>, Request), Failure<HttpFault>>, Fail> {
    let routes = Routes::new(alloc)?;
    Ok(request_of(&routes, head, b""))
}

// A target that isn't UTF-8 is refused.
fn refuses_target(alloc: Global, target: &[u8]) -> Result<(), Fail> {
    let head = head_of(alloc, target, b"Room-User", b"root")?;
    match asked(alloc, &head)? {
        Err(Failure::Fault(HttpFault::BadTarget)) => Ok(()),
        Err(Failure::OutOfMemory) => Err(Fail::new("out of memory")),
        _ => Err(Fail::new("not bad-target")),
    }
}

// On a connection no head is found in such bytes. An overlong slash is no UTF-8.
#[test]
fn targets_that_are_no_text(rt: HostRuntime) -> Result<(), Fail> {
    refuses_target(rt.alloc(), b"/doc/\xff")?;
    refuses_target(rt.alloc(), b"/doc/a\xc0\xaf")
}

fn is_alice(caller: Option<Name>) -> Result<(), Fail> {
    match caller {
        Some(name) => same_bytes(name.as_str().as_bytes(), b"alice"),
        None => Err(Fail::new("no name")),
    }
}

// The field with this value names alice.
fn names_alice(alloc: Global, value: &[u8]) -> Result<(), Fail> {
    let head = head_of(alloc, b"/doc/f", b"ROOM-USER", value)?;
    match asked(alloc, &head)? {
        Ok(asked) => is_alice(asked.0),
        Err(Failure::OutOfMemory) => Err(Fail::new("out of memory")),
        Err(Failure::Fault(_)) => Err(Fail::new("refused")),
    }
}

// The field with this value ends the connection.
fn closes(alloc: Global, value: &[u8]) -> Result<(), Fail> {
    let head = head_of(alloc, b"/doc/f", b"Connection", value)?;
    if asks_close(&head) {
        return Ok(());
    }
    Err(Fail::new("it stays"))
}

// The blanks at the ends of a value, which a connection drops before.
#[test]
fn blanks_round_values(rt: HostRuntime) -> Result<(), Fail> {
    names_alice(rt.alloc(), b"\t alice \t")?;
    closes(rt.alloc(), b"\tclose\t")
}

// The denial of several bits, which no request asks for at once.
fn denial(path: Path, bits: Mask, entry: Entry) -> Reply {
    Reply::Denied {
        at: path,
        bits,
        place: Some(30),
        entry: Some(entry),
    }
}

fn denial_of(alloc: Global, path: &str, bits: &str, text: &str) -> Result<Reply, Fail> {
    let bits = read_mask(bits)?;
    let entry = read_entry(alloc, text)?;
    Ok(denial(read_path(alloc, path.as_bytes())?, bits, entry))
}

const DENIED: &[u8] = b"HTTP/1.1 403 Forbidden\r\n\
Content-Type: application/json\r\n\
Content-Length: 53\r\n\
\r\n\
{\"at\":\"/\",\"bits\":\"wDd\",\"entry\":30,\"text\":\"D:g:a:wDd\"}";

#[test]
fn several_bits_denied(rt: HostRuntime) -> Result<(), Fail> {
    let reply = denial_of(rt.alloc(), "/", "dDw", "D:g:a:wDd")?;
    let text = reply_bytes(rt.alloc(), &reply, false)?;
    same_bytes(text.as_slice(), DENIED)
}
