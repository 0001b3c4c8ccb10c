//! The group file and the exports at written examples.
use room_ace::{Failure, Mask, read_name};
use room_import::{CsvFault, Pairs, read_groups, write_audits, write_groups};
use room_rows::{AuditRow, Bytes, RecordKind, Text};
use std::alloc::{AllocError, Global};
use std::fmt::Write;
use std::test::Fail;

// What a group file is read as: a line for each pair, or the fault.
fn told(alloc: Global, bytes: &[u8]) -> Result<String, AllocError> {
    match read_groups(alloc, bytes) {
        Ok(pairs) => lines_of(alloc, &pairs),
        Err(Failure::OutOfMemory) => Err(AllocError),
        Err(Failure::Fault(fault)) => fault.to_string(alloc),
    }
}

fn lines_of(alloc: Global, pairs: &Pairs) -> Result<String, AllocError> {
    let mut lines = String::new(alloc);
    for (group, user) in pairs.as_slice() {
        lines.push_str(group.as_str())?;
        lines.push(' ')?;
        lines.push_str(user.as_str())?;
        lines.push('\n')?;
    }
    Ok(lines)
}

#[test]
fn import_groups(rt: HostRuntime) -> Result<(), Fail> {
    let bytes = b"\xEF\xBB\xBFgroup,user\r\nsales,alice\r\nsales,bob\r\nsales,alice\r\n";
    assert_eq!(rt;
        told(rt.alloc(), bytes)?.as_str(),
        "sales alice\nsales bob\n"
    );
    Ok(())
}

#[test]
fn import_bad_name(rt: HostRuntime) -> Result<(), Fail> {
    let bytes = b"group,user\nsales,alice\nops,bad name\n";
    assert_eq!(rt; told(rt.alloc(), bytes)?.as_str(), "row 3: C3 bad name");
    Ok(())
}

#[test]
fn group_file_empty(rt: HostRuntime) -> Result<(), Fail> {
    assert_eq!(rt; told(rt.alloc(), b"")?.as_str(), "row 1: C1 bad header");
    assert_eq!(rt;
        told(rt.alloc(), b"Group,User\n")?.as_str(),
        "row 1: C1 bad header"
    );
    Ok(())
}

#[test]
fn group_file_one_field(rt: HostRuntime) -> Result<(), Fail> {
    let bytes = b"group,user\nsales\n";
    assert_eq!(rt;
        told(rt.alloc(), bytes)?.as_str(),
        "row 2: C2 not two fields"
    );
    Ok(())
}

#[test]
fn group_file_quoted(rt: HostRuntime) -> Result<(), Fail> {
    let bytes = b"group,user\n\"sales\",alice\n";
    assert_eq!(rt; told(rt.alloc(), bytes)?.as_str(), "sales alice\n");
    Ok(())
}

// A group file of this many rows, all of one group.
fn file_of(alloc: Global, rows: usize) -> Result<String, AllocError> {
    let mut text = String::from_str(alloc, "group,user\n")?;
    for row in 0..rows {
        writeln!(text, "sales,user{row}")?;
    }
    Ok(text)
}

// The pairs that are read, in a function without a contract.
fn pairs_in(alloc: Global, text: &str) -> Result<Pairs, Failure<CsvFault>> {
    read_groups(alloc, text.as_bytes())
}

// The text of the pairs, in a function without a contract.
fn written(alloc: Global, pairs: &Pairs) -> Result<Bytes, AllocError> {
    write_groups(alloc, pairs.as_slice())
}

// Whether this many pairs are read of the text, and written as the same text.
fn reads_back(alloc: Global, text: &str, count: usize) -> Result<bool, Fail> {
    let pairs = pairs_in(alloc, text)?;
    let bytes = written(alloc, &pairs)?;
    Ok(pairs.len() == count && bytes.as_slice() == text.as_bytes())
}

#[test]
fn group_file_rows(rt: HostRuntime) -> Result<(), Fail> {
    let text = file_of(rt.alloc(), 20_000)?;
    assert!(rt; reads_back(rt.alloc(), text.as_str(), 20_000)?);
    Ok(())
}

#[test]
fn group_file_too_many_rows(rt: HostRuntime) -> Result<(), Fail> {
    let text = file_of(rt.alloc(), 20_001)?;
    assert_eq!(rt;
        told(rt.alloc(), text.as_bytes())?.as_str(),
        "row 20002: C4 too many rows"
    );
    Ok(())
}

// A record of alice at a path that has to be quoted.
fn failed_row(alloc: Global) -> Result<AuditRow, Fail> {
    let user = read_name(alloc, "alice")?;
    Ok(AuditRow {
        at: 1000,
        user: Some(user),
        path: Text::from_str(alloc, "/a,b")?,
        bits: Mask::read_data(),
        granted: false,
        place: 1,
        kind: RecordKind::Audit,
    })
}

// A record of a caller without a name, before the first moment.
fn nameless_row(alloc: Global) -> Result<AuditRow, AllocError> {
    Ok(AuditRow {
        at: -1,
        user: None,
        path: Text::from_str(alloc, "/")?,
        bits: Mask::read_acl(),
        granted: true,
        place: 2,
        kind: RecordKind::Alarm,
    })
}

fn two_rows(alloc: Global) -> Result<Vec<AuditRow>, Fail> {
    let mut rows = Vec::new(alloc);
    rows.push(failed_row(alloc)?)?;
    rows.push(nameless_row(alloc)?)?;
    Ok(rows)
}

// The text of the records, in a function without a contract.
fn audits_text(alloc: Global, rows: &[AuditRow]) -> Result<Bytes, AllocError> {
    write_audits(alloc, rows)
}

const TWO_ROWS: &[u8] = b"at,user,path,bits,granted,entry,kind\n\
    1000,alice,\"/a,b\",r,no,1,audit\n\
    -1,,/,c,yes,2,alarm\n";

#[test]
fn audit_path_quoted(rt: HostRuntime) -> Result<(), Fail> {
    let rows = two_rows(rt.alloc())?;
    let text = audits_text(rt.alloc(), rows.as_slice())?;
    assert_eq!(rt; text.as_slice(), TWO_ROWS);
    Ok(())
}

// What hostile or odd bytes are read as.
static ODD_FILES: [(&[u8], &str); 17] = [
    (b"group,user\n\"sales,alice\n", "row 2: C2 not two fields"),
    (b"group,user\nsa\0les,alice\n", "row 2: C3 bad name"),
    (b"\0", "row 1: C1 bad header"),
    (b"group,user\nsales,alice,x\n", "row 2: C2 not two fields"),
    (b"group,user,x\nsales,alice\n", "row 1: C1 bad header"),
    (b"group,user\nsales,\xFF\n", "row 2: C5 not UTF-8"),
    (b"group,user\nsales,\xC3\n", "row 2: C5 not UTF-8"),
    (b"group,user\n\xFF,alice,x\n", "row 2: C5 not UTF-8"),
    (b"group,\xFF\n", "row 1: C5 not UTF-8"),
    (b"group,user\n sales,alice\n", "row 2: C3 bad name"),
    (b"group,user\nsales,\n", "row 2: C3 bad name"),
    (b"group,user\n\"sa\nles\",alice\n", "row 2: C3 bad name"),
    (
        b"group,user\nsales\nops,bad name\n",
        "row 2: C2 not two fields",
    ),
    (b"\xEF\xBB\xBF", "row 1: C1 bad header"),
    (b"group, user\n", "row 1: C1 bad header"),
    (b"group,user", ""),
    (
        b"\"group\",\"user\"\nsales,bob\rsales,alice@example.org",
        "sales bob\nsales alice@example.org\n",
    ),
];

#[test]
fn odd_group_files(rt: HostRuntime) -> Result<(), Fail> {
    for (bytes, want) in &ODD_FILES {
        assert_eq!(rt; told(rt.alloc(), *bytes)?.as_str(), *want, "in {bytes:?}");
    }
    Ok(())
}
