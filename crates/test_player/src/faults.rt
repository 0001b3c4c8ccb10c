//! Scripts over keepers in memory whose calls fail, and over those whose calls are counted.

use crate::playing::{answer_to, play, play_all};
use crate::room::{Room, keep_after};
use crate::tally::{Calls, Tally, expect_calls};
use std::alloc::Global;
use std::test::Fail;
use test_tree::{FailKeep, MemKeep};

// The moment of what is asked.
const AT: i64 = 1000;

// No line makes more calls than this.
const MOST_CALLS: u64 = 400;

/// Which calls fail: the first `passing` pass, and the next one fails, alone or with all later
/// ones.
#[derive(Clone, Copy)]
pub struct Plan {
    pub passing: u64,
    pub alone: bool,
}

/// A keeper whose calls fail by this plan.
pub fn failing<K>(keeper: K, plan: Plan) -> FailKeep<K> {
    if plan.alone {
        FailKeep::once(keeper, plan.passing)
    } else {
        FailKeep::new(keeper, plan.passing)
    }
}

/// Plays scripts over the room that the first ones leave, where calls fail by a plan, and then the
/// last ones over the same room without failures.
pub fn play_failing(
    alloc: Global,
    made: &[&str],
    plan: Plan,
    scripts: &[&str],
    after: &[&str],
) -> Result<(), Fail> {
    let mut failing = failing(keep_after(alloc, made)?, plan);
    play_all(alloc, &mut failing, AT, scripts)?;
    let mut room = Room::new(failing.into_keeper());
    room.play_all(alloc, after)
}

/// Plays a line, and counts its calls. The expected counts stand after ` # `; where nothing stands
/// there, nothing may be written.
pub fn count_line(alloc: Global, tally: &mut Tally<MemKeep>, line: &str) -> Result<(), Fail> {
    let (line, wanted) = line
        .split_once(" # ")
        .unwrap_or((line, "writes 0, records 0"));
    tally.calls = Calls::none();
    play(alloc, tally, AT, line)?;
    expect_calls(&tally.calls, line, wanted)
}

/// Which lines of a script are answered by the fault, in order, over the room that the first ones
/// leave, where calls fail by a plan.
pub fn faults_along(
    alloc: Global,
    made: &[&str],
    plan: Plan,
    script: &str,
) -> Result<Vec<bool>, Fail> {
    let mut failing = failing(keep_after(alloc, made)?, plan);
    line_faults(alloc, &mut failing, script)
}

fn line_faults(
    alloc: Global,
    failing: &mut FailKeep<MemKeep>,
    script: &str,
) -> Result<Vec<bool>, Fail> {
    let mut faults = Vec::new(alloc);
    'lines: for line in script.lines() {
        faults.push(is_fault(alloc, failing, line)?)?;
    }
    Ok(faults)
}

fn is_fault(alloc: Global, failing: &mut FailKeep<MemKeep>, line: &str) -> Result<bool, Fail> {
    let (asked, _) = line.split_once(" => ").ok_or("no arrow")?;
    let told = answer_to(alloc, failing, AT, asked)?;
    Ok(told.as_str() == "fault Store")
}

// How a line ends whose keeper may fail.
#[derive(Clone, Copy, PartialEq, Eq)]
enum End {
    /// At the fault, which is the answer.
    Stopped,
    /// Without a fault.
    Served,
    /// Otherwise.
    Astray,
}

// The end of a line that made `made` calls, where `calls` could be made before the fault.
fn end_of(told: &str, wanted: &str, made: u64, calls: u64) -> End {
    if told == "fault Store" && made == calls {
        End::Stopped
    } else if told == wanted && made <= calls {
        End::Served
    } else {
        End::Astray
    }
}

fn end_over(
    alloc: Global,
    failing: &mut FailKeep<Tally<MemKeep>>,
    line: &str,
    calls: u64,
) -> Result<End, Fail> {
    let (asked, wanted) = line.split_once(" => ").ok_or("no arrow")?;
    let told = answer_to(alloc, failing, AT, asked)?;
    let made = failing.keeper().calls.all();
    Ok(end_of(told.as_str(), wanted, made, calls))
}

// The end of a line over a copy of the keeper, where calls fail by this plan.
fn end_at(alloc: Global, keep: &MemKeep, line: &str, plan: Plan) -> Result<End, Fail> {
    let mut failing = failing(Tally::of(keep.copy()?), plan);
    end_over(alloc, &mut failing, line, plan.passing)
}

// The end where the call after `passing` others fails, alone and with all later ones. Both have to
// be the same.
fn end_after(alloc: Global, keep: &MemKeep, line: &str, passing: u64) -> Result<End, Fail> {
    let alone = end_at(
        alloc,
        keep,
        line,
        Plan {
            passing,
            alone: true,
        },
    )?;
    let lasting = end_at(
        alloc,
        keep,
        line,
        Plan {
            passing,
            alone: false,
        },
    )?;
    if alone == lasting {
        Ok(alone)
    } else {
        Ok(End::Astray)
    }
}

// Tests that the line stops at each fault in turn, until there is none, and makes at least one
// call.
fn stop_line(alloc: Global, keep: &MemKeep, line: &str) -> Result<(), Fail> {
    'calls: for calls in 0..MOST_CALLS {
        match end_after(alloc, keep, line, calls)? {
            End::Stopped => {}
            End::Served if calls > 0 => return Ok(()),
            _ => return Err(Fail::new(format_args!("{line}, where {calls} calls pass"))),
        }
    }
    Err(Fail::new(format_args!("{line} makes too many calls")))
}

// Whether the line is a request, the operator's reset, or a spread.
fn is_asked(line: &str) -> bool {
    match line.split_once(" ") {
        Some(("operator", step)) => step.starts_with("Reset "),
        Some(("keeper", call)) => call.starts_with("Spread"),
        Some((who, _)) => who != "room",
        None => false,
    }
}

/// That the line, where it asks something, stops at each fault in turn over copies of what is kept.
pub fn stop_at_faults(alloc: Global, keep: &MemKeep, line: &str) -> Result<(), Fail> {
    if is_asked(line) {
        stop_line(alloc, keep, line)?;
    }
    Ok(())
}
