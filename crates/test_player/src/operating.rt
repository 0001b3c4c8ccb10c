//! What the operator, or a test, does without a caller, by the path of an object.

use crate::keeping::walked;
use crate::objects::push_held;
use crate::playing::push_answer;
use crate::replying::push_fault;
use crate::sending::{path_of, sent_of, which_of};
use crate::words::{cut, push, push_all};
use crate::writing::{set_held, set_inh};
use room_ace::{SentList, Which};
use room_desk::reset;
use room_machine::Reply;
use room_rows::{Keep, KeepFault, Node, Path, Report, Walk};
use room_verify::verify;
use std::alloc::Global;
use std::test::Fail;

/// Takes the step of these words, and adds what is answered.
pub(crate) fn operate<K: Keep>(
    alloc: Global,
    keep: &mut K,
    words: &str,
    told: &mut String,
) -> Result<(), Fail> {
    let (verb, words) = cut(words);
    let (place, rest) = cut(words);
    match verb {
        "Verify" => push_report(told, found(alloc, keep)),
        "Reset" => reset_list(alloc, keep, place, rest, told),
        "Hold" => hold(alloc, keep, place, rest, told),
        "Empty" => empty(alloc, keep, place, rest, told),
        "Stored" => stored(alloc, keep, place, rest, told),
        _ => Err(Fail::new("no such step")),
    }
}

// The report on the rows, in a function without a contract.
fn found<K: Keep>(alloc: Global, keep: &mut K) -> Result<Report, KeepFault> {
    verify(alloc, keep)
}

fn push_report(told: &mut String, answer: Result<Report, KeepFault>) -> Result<(), Fail> {
    match answer {
        Err(fault) => push_fault(told, fault),
        Ok(Report::Sound) => push(told, "sound"),
        Ok(Report::Fault { path, why }) => push_all(told, &[path.as_str(), " ", why.as_str()]),
    }
}

// Resets a list of the object at the path.
fn reset_list<K: Keep>(
    alloc: Global,
    keep: &mut K,
    place: &str,
    words: &str,
    told: &mut String,
) -> Result<(), Fail> {
    let (which, text) = cut(words);
    let path = path_of(alloc, place)?;
    let sent = sent_of(alloc, text)?;
    let answer = reset_to(alloc, keep, &path, which_of(which), &sent);
    drop(path);
    drop(sent);
    push_answer(alloc, told, answer)
}

fn reset_to<K: Keep>(
    alloc: Global,
    keep: &mut K,
    path: &Path,
    which: Which,
    sent: &SentList,
) -> Result<Reply, KeepFault> {
    reset(alloc, keep, path, which, sent)
}

// The number of the last object along a path.
fn number_at<K: Keep>(alloc: Global, keep: &mut K, place: &str) -> Result<u64, Fail> {
    let path = path_of(alloc, place)?;
    let walk = walked(alloc, keep, &path)?;
    last_number(&walk)
}

fn last_number(walk: &Walk) -> Result<u64, Fail> {
    match walk.chain.as_slice().last() {
        None => Err(Fail::new("no root")),
        Some(node) => Ok(node.id),
    }
}

// Gives the object at the path the list of this text, by the keeper's own call.
fn hold<K: Keep>(
    alloc: Global,
    keep: &mut K,
    place: &str,
    words: &str,
    told: &mut String,
) -> Result<(), Fail> {
    let id = number_at(alloc, keep, place)?;
    set_held(alloc, keep, id, words, told)
}

// Removes the stored inherited entries of the object at the path.
fn empty<K: Keep>(
    alloc: Global,
    keep: &mut K,
    place: &str,
    which: &str,
    told: &mut String,
) -> Result<(), Fail> {
    let id = number_at(alloc, keep, place)?;
    match keep.set_inh(id, which_of(which), &[]) {
        Ok(()) => push(told, "done"),
        Err(fault) => push_fault(told, fault),
    }
}

// The flags and all stored entries of the object at the path.
fn stored<K: Keep>(
    alloc: Global,
    keep: &mut K,
    place: &str,
    which: &str,
    told: &mut String,
) -> Result<(), Fail> {
    let id = number_at(alloc, keep, place)?;
    match keep.node(id) {
        Ok(node) => {
            let pushed = push_stored(alloc, told, &node, which_of(which));
            drop(node);
            pushed
        }
        Err(fault) => push_fault(told, fault),
    }
}

fn push_stored(
    alloc: Global,
    told: &mut String,
    node: &Option<Node>,
    which: Which,
) -> Result<(), Fail> {
    match node {
        None => push(told, "none"),
        Some(node) => push_held(alloc, told, "", node.held(which)),
    }
}
