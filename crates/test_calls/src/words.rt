//! Faults as words, and texts of several lines as one.

use room_rows::{Report, Unsound};
use room_store::StoreFault;
use std::alloc::AllocError;
use std::fmt::Write;
use std::test::Fail;
use store_schema::{MigrateFault, OpenFault};
use test_player::{push, push_all};

/// The first word, and what comes after it.
pub(crate) fn cut(text: &str) -> (&str, &str) {
    text.split_once(" ").unwrap_or((text, ""))
}

/// Adds a text, with `|` for the end of each line.
pub(crate) fn push_lines(told: &mut String, text: &str) -> Result<(), Fail> {
    for (place, line) in text.split("\n").enumerate() {
        if place > 0 {
            push(told, "|")?;
        }
        push(told, line)?;
    }
    Ok(())
}

fn written(told: &mut String, number: i64) -> Result<(), AllocError> {
    write!(told, "{number}")
}

/// Adds the word for a fault of the store.
pub(crate) fn push_store_fault(told: &mut String, fault: StoreFault) -> Result<(), Fail> {
    match fault {
        StoreFault::Memory => push(told, "fault Memory"),
        StoreFault::Db => push(told, "fault Db"),
        StoreFault::Damaged => push(told, "fault Damaged"),
    }
}

/// Adds the word for what a database is opened as.
pub(crate) fn push_open_fault(told: &mut String, fault: OpenFault) -> Result<(), Fail> {
    match fault {
        OpenFault::NotRooms => push(told, "NotRooms"),
        OpenFault::OldVersion(number) => push_version(told, "OldVersion ", number),
        OpenFault::NewVersion(number) => push_version(told, "NewVersion ", number),
        OpenFault::Db => push(told, "fault Db"),
        OpenFault::Memory => push(told, "fault Memory"),
    }
}

fn push_version(told: &mut String, word: &str, number: i64) -> Result<(), Fail> {
    push(told, word)?;
    Ok(written(told, number)?)
}

/// Adds why a room wasn't upgraded.
pub(crate) fn push_migrate_fault(told: &mut String, fault: MigrateFault) -> Result<(), Fail> {
    match fault {
        MigrateFault::Opening(fault) => push_open_fault(told, fault),
        MigrateFault::Unsound { path, why } => push_unsound(told, path.as_str(), why),
    }
}

fn push_unsound(told: &mut String, path: &str, why: Unsound) -> Result<(), Fail> {
    push_all(told, &[path, " "])?;
    push(told, why.as_str())
}

/// Adds what was found about the rows.
pub(crate) fn push_report(told: &mut String, report: Report) -> Result<(), Fail> {
    match report {
        Report::Sound => push(told, "sound"),
        Report::Fault { path, why } => push_unsound(told, path.as_str(), why),
    }
}
