//! Requests that are timed, whatever answers them.

use crate::job::Job;
use crate::timing::Times;
use crate::workloads::requests;
use room_machine::Reply;
use std::alloc::Global;
use std::test::Fail;
use std::time::Instant;
use test_player::{Spoken, spoken_in};

/// What answers requests: a keeper, a store or a desk.
pub trait Answers {
    /// The answer in a word, or the fault as an error of the program.
    fn answer(&mut self, alloc: Global, spoken: &Spoken) -> Result<&'static str, Fail>;
}

/// What a reply says, in a word.
pub fn word_for(reply: &Reply) -> &'static str {
    match reply {
        Reply::Bytes(_) => "bytes",
        Reply::Names(_) => "names",
        Reply::Made => "made",
        Reply::Done => "done",
        Reply::Denied { .. } => "denied",
        _ => "another reply",
    }
}

// A request that is timed, and one that undoes it.
#[derive(Drop)]
struct Both {
    asked: Spoken,
    back: Spoken,
}

/// Asks all requests of the job.
pub fn ask_all<A: Answers>(rt: &HostRuntime, room: &mut A, job: &Job<'_>) -> Result<(), Fail> {
    for (title, asked, back) in requests() {
        if job.wants(*title) {
            ask(rt, room, job, *title, (*asked, *back))?;
        }
    }
    Ok(())
}

fn ask<A: Answers>(
    rt: &HostRuntime,
    room: &mut A,
    job: &Job<'_>,
    title: &str,
    (asked, back): (&str, &str),
) -> Result<(), Fail> {
    let both = both_in(rt.alloc(), asked, back)?;
    repeat(rt, room, job.rounds, title, &both)
}

fn both_in(alloc: Global, asked: &str, back: &str) -> Result<Both, Fail> {
    let asked = spoken_in(alloc, asked)?;
    Ok(Both {
        asked,
        back: spoken_in(alloc, back)?,
    })
}

// Asks two requests in turn, and prints the answer of the first and its times.
fn repeat<A: Answers>(
    rt: &HostRuntime,
    room: &mut A,
    rounds: u32,
    title: &str,
    both: &Both,
) -> Result<(), Fail> {
    let mut times = Times::none();
    let mut answer = "nothing";
    for _ in 0..rounds {
        if times.are_enough() {
            break;
        }
        let start = Instant::now(rt)?;
        answer = room.answer(rt.alloc(), &both.asked)?;
        times.add(rt, start, 1)?;
        room.answer(rt.alloc(), &both.back)?;
    }
    times.tell(rt, title)?;
    Ok(println!(rt; "{title}: {answer}")?)
}
