//! Times work of the rooms: `test_speed SUITE ROUNDS BELOW OBJECTS [WORKLOAD]`.
//!
//! A room is made by a script, as the tests make theirs, whatever keeps it: in memory, over a file,
//! or over a connection.
#![tactic(auto)]

mod file;
mod input;
mod job;
mod memory;
mod messages;
mod pieces;
mod requests;
mod script;
mod serving;
mod timing;
mod workloads;

use crate::job::{Job, job_of};
use std::env;
use std::test::Fail;

/// Does the workloads of a suite, or of all. Answers are printed on standard output, and times on
/// standard error, since they differ from run to run.
fn main(rt: HostRuntime) -> Result<(), Fail> {
    let words: Vec<String> = env::args(&rt)?.skip(1).collect(rt.alloc())?;
    run_words(&rt, words.as_slice())
}

fn run_words(rt: &HostRuntime, words: &[String]) -> Result<(), Fail> {
    let job = job_of(words)?;
    run(rt, &job)
}

fn run(rt: &HostRuntime, job: &Job<'_>) -> Result<(), Fail> {
    match job.suite {
        "input" => input::run(rt, job),
        "memory" => memory::run(rt, job),
        "http" => serving::run(rt, job),
        "store" => file::run(rt, job),
        "all" => {
            input::run(rt, job)?;
            memory::run(rt, job)?;
            serving::run(rt, job)?;
            file::run(rt, job)
        }
        _ => Err(Fail::new("the suites are input, memory, http, store and all")),
    }
}
