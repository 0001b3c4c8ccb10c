//! What reads input, and keeps no room.

use crate::job::Job;
use crate::script::push_pairs;
use crate::timing::Times;
use cli_check::check;
use room_import::read_groups;
use std::alloc::{AllocError, Global};
use std::fmt::Write;
use std::test::Fail;
use std::time::Instant;
use test_player::push;

/// Judges a list of `objects` entries of which the last decides, and one of 1,024 entries for a
/// caller in as many groups; and reads a group file of as many rows.
pub fn run(rt: &HostRuntime, job: &Job<'_>) -> Result<(), Fail> {
    if job.wants("check") {
        last_decides(rt, job)?;
    }
    if job.wants("caller") {
        many_groups(rt, job)?;
    }
    if job.wants("groups") {
        group_file(rt, job)?;
    }
    Ok(())
}

fn last_decides(rt: &HostRuntime, job: &Job<'_>) -> Result<(), Fail> {
    let input = input_of(rt.alloc(), job.objects)?;
    judge(rt, job.rounds, "check", input.as_str())
}

// The list names groups other than the caller's.
fn many_groups(rt: &HostRuntime, job: &Job<'_>) -> Result<(), Fail> {
    let input = input_with_groups(rt.alloc(), job.objects)?;
    judge(rt, job.rounds, "caller", input.as_str())
}

fn judge(rt: &HostRuntime, rounds: u32, title: &str, input: &str) -> Result<(), Fail> {
    let mut times = Times::none();
    for _ in 0..rounds {
        if times.are_enough() {
            break;
        }
        let start = Instant::now(rt)?;
        judge_once(rt.alloc(), input)?;
        times.add(rt, start, 1)?;
    }
    times.tell(rt, title)?;
    let text = judged(rt.alloc(), input)?;
    Ok(println!(rt; "{title}: {text}")?)
}

fn judge_once(alloc: Global, input: &str) -> Result<(), AllocError> {
    judged(alloc, input)?;
    Ok(())
}

// The answer to the input, in a function without a contract.
fn judged(alloc: Global, input: &str) -> Result<String, AllocError> {
    Ok(check(alloc, input.as_bytes())?.text)
}

// An input whose entries speak of somebody else, but for the last.
fn input_of(alloc: Global, entries: usize) -> Result<String, AllocError> {
    let mut input = String::from_str(
        alloc,
        "caller: alice\ngroups:\nowners: root:staff\nask: r\nlist:\n",
    )?;
    for _ in 1..entries {
        input.push_str("A:I:bob:r\n")?;
    }
    input.push_str("A:I:alice:r\n")?;
    Ok(input)
}

// An input of a caller in groups with short names, of which about 240,000 fit into it, and whose
// entries speak of other groups.
fn input_with_groups(alloc: Global, groups: usize) -> Result<String, AllocError> {
    let mut input = String::from_str(alloc, "caller: alice\ngroups: g")?;
    push_groups(&mut input, groups)?;
    input.push_str("\nowners: root:staff\nask: r\nlist:\n")?;
    for _ in 0..1024 {
        input.push_str("A:gI:-:r\n")?;
    }
    Ok(input)
}

fn push_groups(input: &mut String, groups: usize) -> Result<(), AllocError> {
    for number in 1..groups {
        push_group(input, number)?;
    }
    Ok(())
}

fn push_group(input: &mut String, number: usize) -> Result<(), AllocError> {
    write!(input, ",{:03x}", number % 4096)
}

fn group_file(rt: &HostRuntime, job: &Job<'_>) -> Result<(), Fail> {
    let file = file_of(rt.alloc(), job.objects)?;
    read_rows(rt, job.rounds, file.as_str())
}

fn file_of(alloc: Global, rows: usize) -> Result<String, Fail> {
    let mut file = String::new(alloc);
    push(&mut file, "group,user")?;
    push_pairs(&mut file, "\n", rows)?;
    Ok(file)
}

fn read_rows(rt: &HostRuntime, rounds: u32, file: &str) -> Result<(), Fail> {
    let mut times = Times::none();
    let mut pairs = 0;
    for _ in 0..rounds {
        if times.are_enough() {
            break;
        }
        let start = Instant::now(rt)?;
        pairs = pairs_in(rt.alloc(), file)?;
        times.add(rt, start, 1)?;
    }
    times.tell(rt, "groups")?;
    Ok(println!(rt; "groups: {pairs} pairs")?)
}

// How many pairs are read.
fn pairs_in(alloc: Global, file: &str) -> Result<usize, Fail> {
    match read_groups(alloc, file.as_bytes()) {
        Ok(pairs) => Ok(pairs.len()),
        Err(_) => Err(Fail::new("the group file was refused")),
    }
}
