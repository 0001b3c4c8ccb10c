//! A client that waits for each reply before it says more.
use http_message::Routes;
use room_http::{Ended, serve};
use std::alloc::Global;
use std::cell::Cell;
use std::io;
use std::io::{Read, Write};
use std::test::Fail;
use test_memory::MemDesk;
use test_player::open_keep;
use test_talk::same_bytes;

const ASKED: &[u8] = b"GET /nope HTTP/1.1\r\n\r\n";

const REPLY: &[u8] = b"\
HTTP/1.1 404 Not Found\r\nContent-Type: application/json\r\nContent-Length: 18\r\n\r\n\
{\"why\":\"no-route\"}";

// What the client says. A read fails where not all is heard that is due.
#[derive(Drop)]
struct Mouth<'a> {
    messages: u32,
    due: usize,
    heard: &'a Cell<usize>,
}

impl Read for Mouth<'_> {
    fn read(&mut self, buf: &mut [u8]) -> io::Result<usize> {
        if self.heard.get() != self.due {
            return Err(io::Error::from(io::ErrorKind::WouldBlock));
        }
        if self.messages == 0 {
            return Ok(0);
        }
        self.messages -= 1;
        self.due = self.due.saturating_add(REPLY.len());
        let mut message = ASKED;
        message.read(buf)
    }
}

// What the client hears.
#[derive(Drop)]
struct Ear<'a> {
    bytes: Vec<u8>,
    heard: &'a Cell<usize>,
}

impl Write for Ear<'_> {
    fn write(&mut self, buf: &[u8]) -> io::Result<usize> {
        let count = self.bytes.write(buf)?;
        self.heard.set(self.heard.get().saturating_add(count));
        Ok(count)
    }

    fn flush(&mut self) -> io::Result<()> {
        Ok(())
    }
}

// A whole message is answered before the reader is asked again.
#[test]
fn each_reply_comes_before_the_next_read(rt: HostRuntime) -> Result<(), Fail> {
    let alloc = rt.alloc();
    let mut desk = MemDesk::new(open_keep(alloc)?);
    waits(alloc, &mut desk)
}

fn waits(alloc: Global, desk: &mut MemDesk) -> Result<(), Fail> {
    let routes = Routes::new(alloc)?;
    let heard = Cell::new(0);
    let mut mouth = Mouth {
        messages: 3,
        due: 0,
        heard: &heard,
    };
    let mut ear = Ear {
        bytes: Vec::new(alloc),
        heard: &heard,
    };
    let end = serve(&routes, desk, 1000, &mut mouth, &mut ear);
    if end != Ok(Ended::Clean) {
        return Err(Fail::new(format_args!("{end:?}")));
    }
    let mut wanted = Vec::new(alloc);
    'replies: for _ in 0..3 {
        wanted.extend_from_slice(REPLY)?;
    }
    same_bytes(ear.bytes.as_slice(), wanted.as_slice())
}
