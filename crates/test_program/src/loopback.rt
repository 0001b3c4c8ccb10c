//! Connections over loopback at a room in memory.
ghost use Rattle.std.specs.Prelude.{⊤};

use crate::meeting::{
    DONE, Full, MADE, PUT, connects, gets, grows_impatient, listening, listens, sends, serves,
    serves_untold,
};
use cli_listen::{Moments, Seconds, ServingFault, serve_on};
use std::io::Write;
use std::test::Fail;
use test_memory::MemDesk;
use test_player::open_keep;

const BAD_HEAD: &[u8] = b"\
HTTP/1.1 400 Bad Request\r\nContent-Type: application/json\r\nContent-Length: 18\r\n\
Connection: close\r\n\r\n{\"why\":\"bad-head\"}";

#[test]
fn http_over_loopback(rt: HostRuntime) -> Result<(), Fail> {
    let listener = listens(&rt)?;
    let client = sends(&rt, &listener, PUT)?;
    let mut desk = MemDesk::new(open_keep(rt.alloc())?);
    let mut clock = Seconds::of(&rt);
    serves(rt.alloc(), &mut desk, &mut clock, &listener, 1, "")?;
    gets(rt.alloc(), client, MADE)
}

#[test]
fn the_next_is_served_after_garbage(rt: HostRuntime) -> Result<(), Fail> {
    let listener = listens(&rt)?;
    let first = sends(&rt, &listener, b"no head\r\n\r\n")?;
    let second = sends(&rt, &listener, PUT)?;
    let mut desk = MemDesk::new(open_keep(rt.alloc())?);
    let mut clock = Seconds::of(&rt);
    serves(rt.alloc(), &mut desk, &mut clock, &listener, 2, "")?;
    gets(rt.alloc(), first, BAD_HEAD)?;
    gets(rt.alloc(), second, MADE)
}

#[test]
fn what_one_makes_the_next_finds(rt: HostRuntime) -> Result<(), Fail> {
    let listener = listens(&rt)?;
    let first = sends(&rt, &listener, PUT)?;
    let second = sends(&rt, &listener, PUT)?;
    let mut desk = MemDesk::new(open_keep(rt.alloc())?);
    let mut clock = Seconds::of(&rt);
    serves(rt.alloc(), &mut desk, &mut clock, &listener, 2, "")?;
    gets(rt.alloc(), first, MADE)?;
    gets(rt.alloc(), second, DONE)
}

#[test]
fn a_client_that_says_nothing(rt: HostRuntime) -> Result<(), Fail> {
    let listener = listens(&rt)?;
    grows_impatient(&listener)?;
    let first = connects(&rt, &listener)?;
    let second = sends(&rt, &listener, PUT)?;
    let mut desk = MemDesk::new(open_keep(rt.alloc())?);
    let told = "connection 1: read fault\n";
    let mut clock = Seconds::of(&rt);
    serves(rt.alloc(), &mut desk, &mut clock, &listener, 2, told)?;
    gets(rt.alloc(), first, b"")?;
    gets(rt.alloc(), second, MADE)
}

#[test]
fn a_client_that_is_gone(rt: HostRuntime) -> Result<(), Fail> {
    let listener = listens(&rt)?;
    let first = sends(&rt, &listener, PUT)?;
    {
        let mut gone = connects(&rt, &listener)?;
        'messages: for _ in 0..200 {
            gone.write_all(PUT)?;
        }
    }
    let third = sends(&rt, &listener, PUT)?;
    let mut desk = MemDesk::new(open_keep(rt.alloc())?);
    let told = "connection 2: write fault\n";
    let mut clock = Seconds::of(&rt);
    serves(rt.alloc(), &mut desk, &mut clock, &listener, 3, told)?;
    gets(rt.alloc(), first, MADE)?;
    gets(rt.alloc(), third, DONE)
}

#[test]
fn a_fault_that_cannot_be_told(rt: HostRuntime) -> Result<(), Fail> {
    let listener = listens(&rt)?;
    grows_impatient(&listener)?;
    let _silent = connects(&rt, &listener)?;
    let second = sends(&rt, &listener, PUT)?;
    let mut desk = MemDesk::new(open_keep(rt.alloc())?);
    let mut clock = Seconds::of(&rt);
    let end = serves_untold(rt.alloc(), &mut desk, &mut clock, &listener, 2)?;
    assert!(rt; end == Err(ServingFault::File));
    gets(rt.alloc(), second, MADE)
}

#[test]
fn a_port_that_cannot_be_told(rt: HostRuntime) -> Result<(), Fail> {
    let listener = listens(&rt)?;
    let mut desk = MemDesk::new(open_keep(rt.alloc())?);
    let mut err = Vec::new(rt.alloc());
    let mut clock = Seconds::of(&rt);
    let end = serve_on(
        rt.alloc(),
        &mut desk,
        &mut clock,
        &mut listening(&listener, 1)?,
        &mut Full,
        &mut err,
    );
    assert!(rt; end == Err(ServingFault::File));
    assert!(rt; err.is_empty());
    Ok(())
}

#[test]
fn a_listener_that_does_not_wait(rt: HostRuntime) -> Result<(), Fail> {
    let listener = listens(&rt)?;
    listener.set_nonblocking(true)?;
    let mut desk = MemDesk::new(open_keep(rt.alloc())?);
    let mut clock = Seconds::of(&rt);
    let end = serves_untold(rt.alloc(), &mut desk, &mut clock, &listener, 1)?;
    assert!(rt; end == Err(ServingFault::Net));
    Ok(())
}

const READS: &[u8] = b"GET /doc/f HTTP/1.1\r\nRoom-User: root\r\n\r\n";

// A document of which each reading is recorded, and a reading of it.
const RECORDED: &[u8] = b"\
PUT /doc/f HTTP/1.1\r\nRoom-User: root\r\n\r\n\
PUT /sacl/f HTTP/1.1\r\nRoom-User: root\r\nContent-Length: 24\r\n\r\nlist:a\nU:SF:EVERYONE@:r\n\
GET /doc/f HTTP/1.1\r\nRoom-User: root\r\n\r\n";

// A clock that goes on by a second with each reading.
#[derive(Drop)]
struct Steps {
    moment: i64,
}

impl Moments for Steps {
    ghost told = { λ _ _. ⊤ };

    fn next(&mut self) -> i64 {
        self.moment = self.moment.saturating_add(1);
        self.moment
    }
}

// The clock is read once for each connection, and its requests have that moment.
#[test]
fn each_connection_has_its_moment(rt: HostRuntime) -> Result<(), Fail> {
    let listener = listens(&rt)?;
    let _first = sends(&rt, &listener, RECORDED)?;
    let _second = sends(&rt, &listener, READS)?;
    let mut desk = MemDesk::new(open_keep(rt.alloc())?);
    let mut clock = Steps { moment: 1000 };
    serves(rt.alloc(), &mut desk, &mut clock, &listener, 2, "")?;
    let notes = desk.keep().notes();
    assert_eq!(rt; notes.len(), 2);
    assert_eq!(rt; notes[0].at, 1001);
    assert_eq!(rt; notes[1].at, 1002);
    Ok(())
}
