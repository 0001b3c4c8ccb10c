//! Connections over a desk in memory, and the desk alone.

use crate::job::Job;
use crate::messages::{bytes_of, stream};
use crate::pieces::{Counter, Pieces};
use crate::script::documents_script;
use crate::timing::Times;
use crate::workloads::{Message, messages};
use http_message::Routes;
use room_http::{Ended, serve};
use room_machine::{Desk, DeskFault};
use std::alloc::Global;
use std::test::Fail;
use std::time::Instant;
use test_memory::MemDesk;
use test_player::{Spoken, keep_after, spoken_in};
use test_tree::MemKeep;

// One connection is soon over, and other work may disturb it.
const CONNECTIONS: u32 = 10;

/// Serves connections of messages, on each up to as many messages as there are rounds, and prints
/// the time of one message: with the desk's own work, what the desk takes alone, and what remains.
pub fn run(rt: &HostRuntime, job: &Job<'_>) -> Result<(), Fail> {
    for message in messages() {
        if job.wants(message.title) {
            time(rt, message, job.rounds.min(message.most))?;
        }
    }
    Ok(())
}

fn time(rt: &HostRuntime, message: &Message, count: u32) -> Result<(), Fail> {
    let mut desk = MemDesk::new(keep_for(rt.alloc(), message)?);
    time_at(rt, &mut desk, message, count)
}

fn keep_for(alloc: Global, message: &Message) -> Result<MemKeep, Fail> {
    let script = documents_script(alloc, message.documents)?;
    keep_after(alloc, &[script.as_str()])
}

fn time_at(
    rt: &HostRuntime,
    desk: &mut MemDesk,
    message: &Message,
    count: u32,
) -> Result<(), Fail> {
    let mut served = Times::none();
    let sent = serve_message(rt, desk, message, count, &mut served)?;
    let mut alone = Times::none();
    ask_message(rt, desk, message, count, &mut alone)?;
    let title = message.title;
    let all = served.least();
    let alone = alone.least();
    let beside = all.saturating_sub(alone);
    eprintln!(rt; "{title}: {all} ns a message, the desk alone {alone} ns, beside it {beside} ns")?;
    Ok(println!(rt; "{title}: {count} messages, {sent} bytes sent back")?)
}

// Serves connections of the same message, and answers how many bytes were sent back on one.
fn serve_message(
    rt: &HostRuntime,
    desk: &mut MemDesk,
    message: &Message,
    count: u32,
    times: &mut Times,
) -> Result<usize, Fail> {
    let bytes = bytes_of(rt.alloc(), message)?;
    let step = message.step.unwrap_or(bytes.len());
    serve_copies(rt, desk, bytes.as_slice(), step, count, times)
}

fn serve_copies(
    rt: &HostRuntime,
    desk: &mut MemDesk,
    message: &[u8],
    step: usize,
    count: u32,
    times: &mut Times,
) -> Result<usize, Fail> {
    let bytes = stream(rt.alloc(), message, count)?;
    serve_bytes(rt, desk, bytes.as_slice(), step, count, times)
}

fn serve_bytes(
    rt: &HostRuntime,
    desk: &mut MemDesk,
    bytes: &[u8],
    step: usize,
    count: u32,
    times: &mut Times,
) -> Result<usize, Fail> {
    let routes = Routes::new(rt.alloc())?;
    serve_all(rt, &routes, desk, bytes, step, count, times)
}

fn serve_all(
    rt: &HostRuntime,
    routes: &Routes,
    desk: &mut MemDesk,
    bytes: &[u8],
    step: usize,
    count: u32,
    times: &mut Times,
) -> Result<usize, Fail> {
    let mut sent = 0;
    for _ in 0..CONNECTIONS {
        let start = Instant::now(rt)?;
        sent = serve_once(routes, desk, bytes, step)?;
        times.add(rt, start, count)?;
    }
    Ok(sent)
}

// Serves a connection, and answers how many bytes were sent back.
fn serve_once(
    routes: &Routes,
    desk: &mut MemDesk,
    bytes: &[u8],
    step: usize,
) -> Result<usize, Fail> {
    let mut reader = Pieces::new(bytes, step);
    let mut writer = Counter::new();
    match ended(routes, desk, &mut reader, &mut writer) {
        "clean" => Ok(writer.taken()),
        other => Err(Fail::new(other)),
    }
}

// How a connection ended, in a function without a contract.
fn ended(
    routes: &Routes,
    desk: &mut MemDesk,
    reader: &mut Pieces<'_>,
    writer: &mut Counter,
) -> &'static str {
    match serve(routes, desk, 1000, reader, writer) {
        Ok(Ended::Clean) => "clean",
        Ok(Ended::Cut) => "the connection was cut off",
        Ok(Ended::Closed) => "the connection was closed",
        Err(_) => "the connection ended by a fault",
    }
}

// Asks the desk the same request as often.
fn ask_message(
    rt: &HostRuntime,
    desk: &mut MemDesk,
    message: &Message,
    count: u32,
    times: &mut Times,
) -> Result<(), Fail> {
    let spoken = spoken_in(rt.alloc(), message.asked)?;
    ask_desk(rt, desk, &spoken, count, times)
}

fn ask_desk(
    rt: &HostRuntime,
    desk: &mut MemDesk,
    spoken: &Spoken,
    count: u32,
    times: &mut Times,
) -> Result<(), Fail> {
    for _ in 0..CONNECTIONS {
        let start = Instant::now(rt)?;
        ask_all(rt.alloc(), desk, spoken, count)?;
        times.add(rt, start, count)?;
    }
    Ok(())
}

fn ask_all(
    alloc: Global,
    desk: &mut MemDesk,
    spoken: &Spoken,
    count: u32,
) -> Result<(), DeskFault> {
    for _ in 0..count {
        desk.run(alloc, spoken.caller.as_ref(), 1000, &spoken.request)?;
    }
    Ok(())
}
