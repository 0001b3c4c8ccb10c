//! Readers, writers and desks that fail.
ghost use Rattle.std.specs.Prelude.{◌≡◌, ⊤, refl};
ghost use Rattle.test_memory.specs.Memory.{content_in};
ghost use Rattle.room_memory.specs.Memory.{rows_in};

use room_ace::Name;
use room_http::Cause;
use room_machine::{Desk, DeskFault, Reply, Request};
use std::alloc::Global;
use std::test::Fail;
use test_memory::MemDesk;
use test_player::open_keep;
use test_talk::{
    PUT_TWICE, Pieces, Sink, Stop, Talk, agrees, bytes_at, converse, is_short, play, stop_at_read,
    stop_at_write, stopped, tried,
};

const READ_BACK: &str = "\
>GET /doc/f HTTP/1.1|Room-User: root||
<HTTP/1.1 200 OK|Content-Type: application/octet-stream|Content-Length: 5||hello
=Clean
";

const NO_ROUTE: &str = "\
>GET /nope HTTP/1.1||
<HTTP/1.1 404 Not Found|Content-Type: application/json|Content-Length: 18||{\"why\":\"no-route\"}
=Clean
";

const TOO_LARGE: &str = "\
>PUT /doc/f HTTP/1.1|Room-User: root|Content-Length: 1048577||
<HTTP/1.1 413 Payload Too Large|Content-Type: application/json|Content-Length: 19|Connection: close||{\"why\":\"too-large\"}
=Closed
";

const STILL_SENT: &str = "\
>PUT /doc/f HTTP/1.1|Room-User: root|Content-Length: 1048577||^100000 x^
<HTTP/1.1 413 Payload Too Large|Content-Type: application/json|Content-Length: 19|Connection: close||{\"why\":\"too-large\"}
=Closed
";

const STORE_FAULT: &str = "\
>GET /doc/f HTTP/1.1|Room-User: root||
<HTTP/1.1 500 Internal Server Error|Content-Type: application/json|Content-Length: 15|Connection: close||{\"why\":\"store\"}
>GET /nope HTTP/1.1||
=Closed
";

const ALL: usize = 100_000;

#[test]
fn first_write_fails(rt: HostRuntime) -> Result<(), Fail> {
    let alloc = rt.alloc();
    let mut desk = MemDesk::new(open_keep(alloc)?);
    first_write(alloc, &mut desk)
}

fn first_write(alloc: Global, desk: &mut MemDesk) -> Result<(), Fail> {
    let talk = tried(alloc, desk, PUT_TWICE, ALL, Sink::of(alloc, ALL, 0, true))?;
    stopped(&talk, 0, true, Cause::Write)?;
    play(alloc, desk, READ_BACK)
}

// A writer that takes less than it was given has not failed.
#[test]
fn a_writer_takes_a_byte_at_a_time(rt: HostRuntime) -> Result<(), Fail> {
    let alloc = rt.alloc();
    let mut desk = MemDesk::new(open_keep(alloc)?);
    let sink = Sink::of(alloc, 1, ALL, true);
    let talk = tried(alloc, &mut desk, PUT_TWICE, ALL, sink)?;
    agrees(alloc, PUT_TWICE, &talk)
}

#[test]
fn second_reply_write_fails(rt: HostRuntime) -> Result<(), Fail> {
    let alloc = rt.alloc();
    let mut desk = MemDesk::new(open_keep(alloc)?);
    let talk = tried(
        alloc,
        &mut desk,
        PUT_TWICE,
        ALL,
        Sink::of(alloc, ALL, 1, false),
    )?;
    stopped(&talk, 1, true, Cause::Write)
}

#[test]
fn read_fails_in_body(rt: HostRuntime) -> Result<(), Fail> {
    let alloc = rt.alloc();
    let mut desk = MemDesk::new(open_keep(alloc)?);
    let talk = tried(alloc, &mut desk, PUT_TWICE, 126, Sink::new(alloc))?;
    stopped(&talk, 1, false, Cause::Read)
}

// A connection over a reader that gives some bytes once, and then fails.
fn read_once(alloc: Global, input: &[u8]) -> Result<Talk, Fail> {
    let mut desk = MemDesk::new(open_keep(alloc)?);
    let mut reader = Pieces::failing(input, 1_000, 1);
    converse(alloc, &mut desk, 1000, &mut reader, Sink::new(alloc))
}

// A body that is too large isn't read: the reply comes while it is still being sent.
#[test]
fn too_large_a_body_is_still_being_sent(rt: HostRuntime) -> Result<(), Fail> {
    let input = bytes_at(rt.alloc(), STILL_SENT, ">")?;
    let talk = read_once(rt.alloc(), input.as_slice())?;
    if is_short(&talk) {
        return Err(Fail::new("want of memory"));
    }
    agrees(rt.alloc(), STILL_SENT, &talk)
}

#[test]
fn no_route_write_fails(rt: HostRuntime) -> Result<(), Fail> {
    let alloc = rt.alloc();
    let mut desk = MemDesk::new(open_keep(alloc)?);
    let talk = tried(
        alloc,
        &mut desk,
        NO_ROUTE,
        ALL,
        Sink::of(alloc, ALL, 0, true),
    )?;
    stopped(&talk, 0, false, Cause::Write)
}

// What stops a connection of an open room where so many writes pass.
fn one_write(alloc: Global, script: &str, writes: usize, fails: bool) -> Result<Stop, Fail> {
    let mut desk = MemDesk::new(open_keep(alloc)?);
    stop_at_write(alloc, &mut desk, script, writes, fails)
}

// Stops a connection at each write in turn, until it goes to its end.
fn stop_at_writes(alloc: Global, script: &str, fails: bool) -> Result<(), Fail> {
    'writes: for writes in 0..500 {
        if let Stop::None = one_write(alloc, script, writes, fails)? {
            return Ok(());
        }
    }
    Err(Fail::from("no end"))
}

// What stops a connection of an open room where so many reads pass.
fn one_read(alloc: Global, script: &str, reads: usize) -> Result<Stop, Fail> {
    let mut desk = MemDesk::new(open_keep(alloc)?);
    stop_at_read(alloc, &mut desk, script, reads)
}

// Stops a connection at each read in turn, until it goes to its end.
fn stop_at_reads(alloc: Global, script: &str) -> Result<(), Fail> {
    'reads: for reads in 0..500 {
        if let Stop::None = one_read(alloc, script, reads)? {
            return Ok(());
        }
    }
    Err(Fail::from("no end"))
}

#[test]
fn fails_at_each_read_and_write(rt: HostRuntime) -> Result<(), Fail> {
    let scripts = [PUT_TWICE, NO_ROUTE, TOO_LARGE];
    'scripts: for script in &scripts {
        stop_at_reads(rt.alloc(), *script)?;
        stop_at_writes(rt.alloc(), *script, true)?;
        stop_at_writes(rt.alloc(), *script, false)?;
    }
    Ok(())
}

// A desk that answers nothing but faults.
#[derive(Drop)]
pub(crate) struct FaultyDesk {
    desk: MemDesk,
    faults: u64,
}

impl FaultyDesk {
    pub(crate) fn new(alloc: Global) -> Result<FaultyDesk, Fail> {
        let desk = MemDesk::new(open_keep(alloc)?);
        Ok(FaultyDesk { desk, faults: 0 })
    }
}

impl Desk for FaultyDesk {
    ghost content = { λ s room. content_in s.desk.keep ≡ room };

    ghost formed = { λ _. ⊤ };

    ghost stored = { λ s rows. rows_in s.desk.keep ≡ rows };

    ghost sound = { λ _. ⊤ };

    ghost trusted = { λ _. ⊤ };

    ghost shut = { λ _. ⊤ };

    ghost faults = { λ s. s.faults };

    ghost Outlasts = { λ _ _ _ _. ⊤ };

    fn run(
        &mut self,
        _alloc: Global,
        _caller: Option<&Name>,
        _at: i64,
        _request: &Request,
    ) -> Result<Reply, DeskFault> {
        self.faults = self.faults.saturating_add(1);
        Err(DeskFault)
    }

    fn is_shut(&mut self) -> Result<bool, DeskFault> {
        Ok(true)
    }

    ghost keeps = { λ s. (content_in s.desk.keep, refl) };

    ghost holds = { λ s _. (rows_in s.desk.keep, refl) };

    ghost laws = { record {
      itself = λ _. tt;
      on = λ _ _ _ _ _ _ _ _ _. tt;
    } };
}

#[test]
fn desk_always_faults(rt: HostRuntime) -> Result<(), Fail> {
    let alloc = rt.alloc();
    let mut desk = FaultyDesk::new(alloc)?;
    tells_fault(alloc, &mut desk)
}

// That the desk's fault is told and ends the connection. Want of memory outside the desk is no
// such fault.
fn tells_fault(alloc: Global, desk: &mut FaultyDesk) -> Result<(), Fail> {
    let talk = tried(alloc, desk, STORE_FAULT, ALL, Sink::new(alloc))?;
    if let Err(fault) = talk.end
        && fault.cause == Cause::Memory
    {
        return Err(Fail::new("want of memory"));
    }
    agrees(alloc, STORE_FAULT, &talk)
}
