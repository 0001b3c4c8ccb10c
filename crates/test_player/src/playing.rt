//! Scripts played on the rows of a keeper.

use crate::asking::{Spoken, spoken_in};
use crate::keeping::call;
use crate::operating::operate;
use crate::replying::{push_fault, push_reply};
use crate::words::{agree, cut};
use room_desk::perform;
use room_machine::Reply;
use room_rows::{Keep, KeepFault};
use std::alloc::Global;
use std::test::Fail;

/// Plays scripts one after the other.
pub fn play_all<K: Keep>(
    alloc: Global,
    keep: &mut K,
    moment: i64,
    scripts: &[&str],
) -> Result<(), Fail> {
    'scripts: for script in scripts {
        play(alloc, keep, moment, *script)?;
    }
    Ok(())
}

/// Plays a script. The error is the first line whose answer isn't the expected one.
pub fn play<K: Keep>(alloc: Global, keep: &mut K, moment: i64, script: &str) -> Result<(), Fail> {
    'lines: for line in script.lines() {
        play_line(alloc, keep, moment, line)?;
    }
    Ok(())
}

/// Plays one line.
pub(crate) fn play_line<K: Keep>(
    alloc: Global,
    keep: &mut K,
    moment: i64,
    line: &str,
) -> Result<(), Fail> {
    let (asked, wanted) = line.split_once(" => ").ok_or("no arrow")?;
    let told = answer_to(alloc, keep, moment, asked)?;
    agree(asked, told.as_str(), wanted)
}

/// The answer to one line, which has no arrow.
pub fn answer_to<K: Keep>(
    alloc: Global,
    keep: &mut K,
    moment: i64,
    asked: &str,
) -> Result<String, Fail> {
    let mut told = String::new(alloc);
    push_told(alloc, keep, moment, asked, &mut told)?;
    Ok(told)
}

/// Adds the answer to one line.
pub(crate) fn push_told<K: Keep>(
    alloc: Global,
    keep: &mut K,
    moment: i64,
    asked: &str,
    told: &mut String,
) -> Result<(), Fail> {
    let (who, words) = cut(asked);
    match who {
        "operator" => operate(alloc, keep, words, told),
        "keeper" => call(alloc, keep, words, told),
        _ => ask(alloc, keep, moment, asked, told),
    }
}

fn ask<K: Keep>(
    alloc: Global,
    keep: &mut K,
    moment: i64,
    asked: &str,
    told: &mut String,
) -> Result<(), Fail> {
    let spoken = spoken_in(alloc, asked)?;
    let answer = performed(alloc, keep, moment, &spoken);
    drop(spoken);
    push_answer(alloc, told, answer)
}

// The answer to a request, in a function without a contract.
fn performed<K: Keep>(
    alloc: Global,
    keep: &mut K,
    moment: i64,
    spoken: &Spoken,
) -> Result<Reply, KeepFault> {
    perform(alloc, keep, spoken.caller.as_ref(), moment, &spoken.request)
}

/// Adds the text of a reply, or of the fault in its place.
pub(crate) fn push_answer(
    alloc: Global,
    told: &mut String,
    answer: Result<Reply, KeepFault>,
) -> Result<(), Fail> {
    match answer {
        Ok(reply) => {
            let pushed = push_reply(alloc, told, &reply);
            drop(reply);
            pushed
        }
        Err(fault) => push_fault(told, fault),
    }
}
