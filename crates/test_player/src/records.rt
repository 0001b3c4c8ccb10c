//! Records as texts.

use crate::replying::{push_caller, push_letters};
use crate::words::{push, push_all, push_moment, push_number};
use room_rows::{AuditRow, RecordKind};
use std::test::Fail;

/// Adds the texts of records, joined by ` / `.
pub fn push_records(told: &mut String, rows: &[AuditRow]) -> Result<(), Fail> {
    'rows: for (place, row) in rows.iter().enumerate() {
        if place > 0 {
            push(told, " / ")?;
        }
        push_record(told, row)?;
    }
    Ok(())
}

fn push_record(told: &mut String, row: &AuditRow) -> Result<(), Fail> {
    push_moment(told, row.at)?;
    push(told, " ")?;
    push_caller(told, &row.user)?;
    push_all(told, &[" ", row.path.as_str(), " "])?;
    push_letters(told, row.bits)?;
    push_all(told, &[" ", granted_text(row.granted), " "])?;
    push_number(told, row.place as u64)?;
    push_all(told, &[" ", kind_text(row.kind)])
}

fn granted_text(granted: bool) -> &'static str {
    if granted { "yes" } else { "no" }
}

fn kind_text(kind: RecordKind) -> &'static str {
    match kind {
        RecordKind::Audit => "audit",
        RecordKind::Alarm => "alarm",
    }
}
