//! The calls of a store, each with its answer in words.

use crate::words::{cut, push_lines, push_report, push_store_fault};
use room_ace::{Failure, Name, SentList, Which, read_name};
use room_dump::Fetched;
use room_import::{CsvFault, read_groups, write_audits};
use room_machine::{Reason, Reply};
use room_review::{Reviewed, Scope};
use room_rows::{AuditRow, Path};
use room_store::{Store, StoreFault, Tested};
use sqlite::Alter;
use std::alloc::{AllocError, Global};
use std::fmt::Write;
use std::str;
use std::test::Fail;
use test_player::{Spoken, path_of, push, push_all, push_reply, sent_of, spoken_in};

/// Asks the store what the line asks, and adds the answer.
pub(crate) fn ask<S: Alter>(
    alloc: Global,
    store: &mut Store<S>,
    moment: i64,
    asked: &str,
    told: &mut String,
) -> Result<(), Fail> {
    let spoken = spoken_in(alloc, asked)?;
    let answer = run(alloc, store, moment, &spoken);
    drop(spoken);
    push_answer(alloc, told, answer)
}

// What is answered to a request, without what the contract says of it.
fn run<S: Alter>(
    alloc: Global,
    store: &mut Store<S>,
    moment: i64,
    spoken: &Spoken,
) -> Result<Reply, StoreFault> {
    store.run(alloc, spoken.caller.as_ref(), moment, &spoken.request)
}

fn push_answer(
    alloc: Global,
    told: &mut String,
    answer: Result<Reply, StoreFault>,
) -> Result<(), Fail> {
    match answer {
        Ok(reply) => {
            let pushed = push_reply(alloc, told, &reply);
            drop(reply);
            pushed
        }
        Err(fault) => push_store_fault(told, fault),
    }
}

/// Takes the operator's step of these words, and adds the answer.
pub(crate) fn operate<S: Alter>(
    alloc: Global,
    store: &mut Store<S>,
    words: &str,
    told: &mut String,
) -> Result<(), Fail> {
    let (verb, rest) = cut(words);
    match verb {
        "Verify" => verify(alloc, store, told),
        "Reset" => reset(alloc, store, rest, told),
        _ => Err(Fail::new("no such step over a store")),
    }
}

/// Makes the call of this word, and adds the answer.
pub(crate) fn call<S: Alter>(
    alloc: Global,
    store: &mut Store<S>,
    verb: &str,
    rest: &str,
    told: &mut String,
) -> Result<(), Fail> {
    match verb {
        "Dump" => dump(alloc, store, told),
        "Get" => get(alloc, store, rest, told),
        "Members" => members(alloc, store, told),
        "Audits" => audits(alloc, store, told),
        "Review" => review(alloc, store, rest, told),
        "Import" => import(alloc, store, rest, told),
        _ => Err(Fail::new("no such call of a store")),
    }
}

fn verify<S: Alter>(alloc: Global, store: &mut Store<S>, told: &mut String) -> Result<(), Fail> {
    match found(alloc, store) {
        Ok(tested) => push_tested(told, tested),
        Err(fault) => push_store_fault(told, fault),
    }
}

fn push_tested(told: &mut String, tested: Tested) -> Result<(), Fail> {
    push_report(told, tested.report)?;
    if tested.has_numbers {
        return Ok(());
    }
    push(told, ", no numbers")
}

fn found<S: Alter>(alloc: Global, store: &mut Store<S>) -> Result<Tested, StoreFault> {
    store.verify(alloc)
}

fn dump<S: Alter>(alloc: Global, store: &mut Store<S>, told: &mut String) -> Result<(), Fail> {
    match dumped(alloc, store) {
        Ok(text) => push_lines(told, text.as_str()),
        Err(fault) => push_store_fault(told, fault),
    }
}

fn dumped<S: Alter>(alloc: Global, store: &mut Store<S>) -> Result<String, StoreFault> {
    store.dump(alloc)
}

// Adds the bytes of a document, or the refusal.
fn get<S: Alter>(
    alloc: Global,
    store: &mut Store<S>,
    place: &str,
    told: &mut String,
) -> Result<(), Fail> {
    let path = path_of(alloc, place)?;
    let answer = fetched(alloc, store, &path);
    drop(path);
    match answer {
        Ok(fetched) => push_reply(alloc, told, &reply_of(fetched)),
        Err(fault) => push_store_fault(told, fault),
    }
}

fn fetched<S: Alter>(
    alloc: Global,
    store: &mut Store<S>,
    path: &Path,
) -> Result<Fetched, StoreFault> {
    store.document(alloc, path)
}

// The reply to a request that says the same.
fn reply_of(fetched: Fetched) -> Reply {
    let (at, why) = match fetched {
        Fetched::Bytes(bytes) => return Reply::Bytes(bytes),
        Fetched::NoSuch(at) => (at, Reason::NoSuch),
        Fetched::NotFolder(at) => (at, Reason::NotFolder),
        Fetched::WrongKind(at) => (at, Reason::WrongKind),
    };
    Reply::Refused { at, why }
}

fn members<S: Alter>(alloc: Global, store: &mut Store<S>, told: &mut String) -> Result<(), Fail> {
    match listed(alloc, store) {
        Ok(pairs) => push_pairs(told, pairs.as_slice()),
        Err(fault) => push_store_fault(told, fault),
    }
}

fn listed<S: Alter>(alloc: Global, store: &mut Store<S>) -> Result<Vec<(Name, Name)>, StoreFault> {
    store.members(alloc)
}

fn push_pairs(told: &mut String, pairs: &[(Name, Name)]) -> Result<(), Fail> {
    push(told, "members")?;
    'pairs: for pair in pairs {
        push_all(told, &[" ", pair.0.as_str(), ":", pair.1.as_str()])?;
    }
    Ok(())
}

// Adds the file of records.
fn audits<S: Alter>(alloc: Global, store: &mut Store<S>, told: &mut String) -> Result<(), Fail> {
    match recorded(alloc, store) {
        Ok(rows) => push_audits(alloc, told, rows.as_slice()),
        Err(fault) => push_store_fault(told, fault),
    }
}

fn recorded<S: Alter>(alloc: Global, store: &mut Store<S>) -> Result<Vec<AuditRow>, StoreFault> {
    store.audits(alloc)
}

fn push_audits(alloc: Global, told: &mut String, rows: &[AuditRow]) -> Result<(), Fail> {
    let bytes = write_audits(alloc, rows)?;
    push_lines(told, str::from_utf8(bytes.as_slice())?)
}

// Adds the table of a review, or the refusal.
fn review<S: Alter>(
    alloc: Global,
    store: &mut Store<S>,
    words: &str,
    told: &mut String,
) -> Result<(), Fail> {
    let question = question_of(alloc, words)?;
    let answer = reviewed(alloc, store, &question);
    drop(question);
    match answer {
        Ok(reviewed) => push_reviewed(alloc, told, reviewed),
        Err(fault) => push_store_fault(told, fault),
    }
}

// A path, then perhaps a user, then perhaps `all`.
fn question_of(alloc: Global, words: &str) -> Result<Scope, Fail> {
    let (place, words) = cut(words);
    let (user, rest) = match words {
        "all" => ("", words),
        _ => cut(words),
    };
    let user = user_of(alloc, user)?;
    Ok(Scope {
        path: path_of(alloc, place)?,
        user,
        all: rest == "all",
    })
}

fn user_of(alloc: Global, text: &str) -> Result<Option<Name>, Fail> {
    if text.is_empty() {
        return Ok(None);
    }
    Ok(Some(read_name(alloc, text)?))
}

fn reviewed<S: Alter>(
    alloc: Global,
    store: &mut Store<S>,
    question: &Scope,
) -> Result<Reviewed, StoreFault> {
    store.review(alloc, question)
}

fn push_reviewed(alloc: Global, told: &mut String, reviewed: Reviewed) -> Result<(), Fail> {
    match reviewed {
        Reviewed::Table(text) => push_lines(told, str::from_utf8(text.as_slice())?),
        Reviewed::Refused { path, why } => push_reply(
            alloc,
            told,
            &Reply::Refused { at: path, why },
        ),
    }
}

fn which_of(text: &str) -> Which {
    if text == "sacl" {
        Which::Sacl
    } else {
        Which::Dacl
    }
}

fn reset<S: Alter>(
    alloc: Global,
    store: &mut Store<S>,
    words: &str,
    told: &mut String,
) -> Result<(), Fail> {
    let (place, words) = cut(words);
    let (which, text) = cut(words);
    let path = path_of(alloc, place)?;
    let sent = sent_of(alloc, text)?;
    let answer = reset_to(alloc, store, &path, which_of(which), &sent);
    drop(path);
    drop(sent);
    push_answer(alloc, told, answer)
}

fn reset_to<S: Alter>(
    alloc: Global,
    store: &mut Store<S>,
    path: &Path,
    which: Which,
    sent: &SentList,
) -> Result<Reply, StoreFault> {
    store.reset(alloc, path, which, sent)
}

// Imports a group file with a byte order mark, whose rows ` / ` parts in the line.
fn import<S: Alter>(
    alloc: Global,
    store: &mut Store<S>,
    rows: &str,
    told: &mut String,
) -> Result<(), Fail> {
    let file = group_file(alloc, rows)?;
    match read_groups(alloc, file.as_str().as_bytes()) {
        Ok(pairs) => push_done(told, replaced(alloc, store, pairs.as_slice())),
        Err(Failure::Fault(fault)) => push_refused(told, fault),
        Err(Failure::OutOfMemory) => Err(Fail::from(AllocError)),
    }
}

fn group_file(alloc: Global, rows: &str) -> Result<String, Fail> {
    let mut file = String::new(alloc);
    push(&mut file, "\u{feff}")?;
    'rows: for row in rows.split(" / ") {
        push_all(&mut file, &[row, "\r\n"])?;
    }
    Ok(file)
}

fn replaced<S: Alter>(
    alloc: Global,
    store: &mut Store<S>,
    pairs: &[(Name, Name)],
) -> Result<(), StoreFault> {
    store.replace_members(alloc, pairs)
}

fn push_done(told: &mut String, answer: Result<(), StoreFault>) -> Result<(), Fail> {
    match answer {
        Ok(()) => push(told, "done"),
        Err(fault) => push_store_fault(told, fault),
    }
}

fn push_refused(told: &mut String, fault: CsvFault) -> Result<(), Fail> {
    Ok(written(told, fault)?)
}

fn written(told: &mut String, fault: CsvFault) -> Result<(), AllocError> {
    write!(told, "{fault}")
}
