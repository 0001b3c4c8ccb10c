//! Work over a keeper in memory.

use crate::job::Job;
use crate::requests::{Answers, ask_all, word_for};
use crate::script::room_script;
use crate::timing::Times;
use room_ace::Which;
use room_desk::perform;
use room_inherit::spread;
use room_rows::{KeepFault, Path, Report, walk};
use room_verify::verify;
use std::alloc::Global;
use std::test::Fail;
use std::time::Instant;
use test_player::{Spoken, keep_after, path_of, play};
use test_tree::MemKeep;

impl Answers for MemKeep {
    fn answer(&mut self, alloc: Global, spoken: &Spoken) -> Result<&'static str, Fail> {
        Ok(performed(alloc, self, spoken)?)
    }
}

fn performed(
    alloc: Global,
    keep: &mut MemKeep,
    spoken: &Spoken,
) -> Result<&'static str, KeepFault> {
    let caller = spoken.caller.as_ref();
    Ok(word_for(&perform(alloc, keep, caller, 1000, &spoken.request)?))
}

/// Does the workloads over a room in memory.
pub fn run(rt: &HostRuntime, job: &Job<'_>) -> Result<(), Fail> {
    let mut keep = made(rt.alloc(), job)?;
    over(rt, &mut keep, job)
}

fn made(alloc: Global, job: &Job<'_>) -> Result<MemKeep, Fail> {
    let script = room_script(alloc, job)?;
    keep_after(alloc, &[script.as_str()])
}

// Workloads that change lists come last.
fn over(rt: &HostRuntime, keep: &mut MemKeep, job: &Job<'_>) -> Result<(), Fail> {
    ask_all(rt, keep, job)?;
    if job.wants("walk") {
        walk_down(rt, keep, job.rounds)?;
    }
    if job.wants("verify") {
        test_rows(rt, keep)?;
    }
    if job.wants("spread") {
        carry_down(rt, keep)?;
    }
    Ok(())
}

// Walks to an object of depth 6.
fn walk_down(rt: &HostRuntime, keep: &mut MemKeep, rounds: u32) -> Result<(), Fail> {
    let path = path_of(rt.alloc(), "/f/f/f/f/f/g")?;
    walk_along(rt, keep, rounds, &path)
}

fn walk_along(rt: &HostRuntime, keep: &mut MemKeep, rounds: u32, path: &Path) -> Result<(), Fail> {
    let mut times = Times::none();
    let mut found = 0;
    for _ in 0..rounds {
        let start = Instant::now(rt)?;
        found = walk_once(rt.alloc(), keep, path)?;
        times.add(rt, start, 1)?;
    }
    times.tell(rt, "walk")?;
    Ok(println!(rt; "walk: {found} objects")?)
}

// How many objects are found, in a function without a contract.
fn walk_once(alloc: Global, keep: &mut MemKeep, path: &Path) -> Result<usize, KeepFault> {
    Ok(walk(alloc, keep, path)?.chain.len())
}

fn test_rows(rt: &HostRuntime, keep: &mut MemKeep) -> Result<(), Fail> {
    let mut times = Times::none();
    let start = Instant::now(rt)?;
    let report = tested(rt.alloc(), keep)?;
    times.add(rt, start, 1)?;
    times.tell(rt, "verify")?;
    Ok(println!(rt; "verify: {report}")?)
}

fn tested(alloc: Global, keep: &mut MemKeep) -> Result<&'static str, KeepFault> {
    Ok(report_word(&verify(alloc, keep)?))
}

/// The report on the rows, in a word.
pub fn report_word(report: &Report) -> &'static str {
    match report {
        Report::Sound => "sound",
        Report::Fault { .. } => "a fault",
    }
}

// Sets a list at the root alone, and prints the time in which it reaches all objects.
fn carry_down(rt: &HostRuntime, keep: &mut MemKeep) -> Result<(), Fail> {
    let held = "operator Hold / dacl list:a / A:fd:alice:r / A:fd:OWNER@:rwax => done";
    play(rt.alloc(), keep, 1000, held)?;
    let mut times = Times::none();
    let start = Instant::now(rt)?;
    let changed = carried(rt.alloc(), keep)?;
    times.add(rt, start, 1)?;
    times.tell(rt, "spread")?;
    Ok(println!(rt; "spread: {changed} changed")?)
}

// How many lists are changed, in a function without a contract.
fn carried(alloc: Global, keep: &mut MemKeep) -> Result<u64, Fail> {
    match spread(alloc, keep, 1, Which::Dacl) {
        Ok(done) => Ok(done.changed),
        Err(_) => Err(Fail::new("the keeper failed")),
    }
}
