//! One message, answered without a connection.
use crate::failing::FaultyDesk;
use crate::messages::head_of;
use http_message::Routes;
use room_http::{Answer, answer};
use room_machine::Desk;
use std::alloc::Global;
use std::test::Fail;
use test_memory::MemDesk;
use test_player::open_keep;
use test_talk::same_bytes;

// The answer where root reads this document, in a reply that ends its connection.
fn answered<D: Desk>(alloc: Global, desk: &mut D, target: &[u8]) -> Result<Answer, Fail> {
    let routes = Routes::new(alloc)?;
    let head = head_of(alloc, target, b"Room-User", b"root")?;
    match answer(&routes, desk, 1000, &head, b"", true) {
        Ok(answer) => Ok(answer),
        Err(_) => Err(Fail::new("out of memory")),
    }
}

fn answers(alloc: Global, target: &[u8], wanted: &[u8]) -> Result<(), Fail> {
    let mut desk = MemDesk::new(open_keep(alloc)?);
    match answered(alloc, &mut desk, target)? {
        Answer::Text(text) => same_bytes(text.as_slice(), wanted),
        Answer::Fault => Err(Fail::new("a fault")),
    }
}

const NO_SUCH: &[u8] = b"HTTP/1.1 404 Not Found\r\n\
Content-Type: application/json\r\n\
Content-Length: 27\r\n\
Connection: close\r\n\
\r\n\
{\"at\":\"/f\",\"why\":\"no-such\"}";

#[test]
fn a_reply_of_the_desk(rt: HostRuntime) -> Result<(), Fail> {
    answers(rt.alloc(), b"/doc/f", NO_SUCH)
}

const NO_ROUTE: &[u8] = b"HTTP/1.1 404 Not Found\r\n\
Content-Type: application/json\r\n\
Content-Length: 18\r\n\
Connection: close\r\n\
\r\n\
{\"why\":\"no-route\"}";

#[test]
fn a_message_that_a_test_refuses(rt: HostRuntime) -> Result<(), Fail> {
    answers(rt.alloc(), b"/nope", NO_ROUTE)
}

#[test]
fn a_fault_of_the_desk(rt: HostRuntime) -> Result<(), Fail> {
    let mut desk = FaultyDesk::new(rt.alloc())?;
    match answered(rt.alloc(), &mut desk, b"/doc/f")? {
        Answer::Fault => Ok(()),
        Answer::Text(_) => Err(Fail::new("a text")),
    }
}
