//! Paths of given bytes.
use room_ace::Failure;
use room_rows::{Path, PathFault, read_path};
use std::alloc::{AllocError, Global};
use std::test::Fail;
use test_player::{agree, path_of};

// Why these bytes are no path.
fn fault_of(alloc: Global, bytes: &[u8]) -> Result<Option<PathFault>, AllocError> {
    match read_path(alloc, bytes) {
        Ok(_) => Ok(None),
        Err(Failure::OutOfMemory) => Err(AllocError),
        Err(Failure::Fault(fault)) => Ok(Some(fault)),
    }
}

// That the bytes are no path for this reason, or that they are one.
fn expect(alloc: Global, bytes: &[u8], wanted: Option<PathFault>) -> Result<(), Fail> {
    if fault_of(alloc, bytes)? == wanted {
        return Ok(());
    }
    Err(Fail::new(format_args!("{bytes:?} where wanted is {wanted:?}")))
}

#[test]
fn path_faults(rt: HostRuntime) -> Result<(), Fail> {
    let bad_name = Some(PathFault::BadName);
    for text in ["", "a", "/a/", "/a//b", "/..", "/.", "/a\tb"] {
        expect(rt.alloc(), text.as_bytes(), bad_name)?;
    }
    expect(rt.alloc(), &[0x2F, 0xFF], Some(PathFault::NotUtf8))
}

// A `/` and so many names of the letter `a`, with these bytes behind them.
fn long_path(alloc: Global, names: usize, end: &[u8]) -> Result<Vec<u8>, AllocError> {
    let mut bytes = Vec::new(alloc);
    for _ in 0..names {
        bytes.push(b'/')?;
        bytes.extend_from_slice(&[b'a'; 255])?;
    }
    bytes.extend_from_slice(end)?;
    Ok(bytes)
}

#[test]
fn path_lengths(rt: HostRuntime) -> Result<(), Fail> {
    for (names, end, wanted) in [
        (1, b"".as_slice(), None),
        (1, b"b", Some(PathFault::BadName)),
        (16, b"", None),
        (16, b"b", Some(PathFault::TooLong)),
        (16, &[0xFF], Some(PathFault::TooLong)),
    ] {
        let bytes = long_path(rt.alloc(), names, end)?;
        assert_eq!(rt; bytes.len(), names * 256 + end.len());
        expect(rt.alloc(), bytes.as_slice(), wanted)?;
    }
    Ok(())
}

// The text of the path's copy.
fn copied_text(path: &Path, alloc: Global) -> Result<String, AllocError> {
    let copy = path.copy()?;
    copy.to_text(alloc)
}

fn expect_text(alloc: Global, text: &str) -> Result<(), Fail> {
    let path = path_of(alloc, text)?;
    let copied = copied_text(&path, alloc)?;
    agree("a copy", copied.as_str(), text)
}

#[test]
fn path_texts(rt: HostRuntime) -> Result<(), Fail> {
    for text in ["/", "/a", "/a/b c/\u{e9}"] {
        expect_text(rt.alloc(), text)?;
    }
    Ok(())
}

// The text of the path's first names.
fn front_text(alloc: Global, path: &Path, count: usize) -> Result<String, AllocError> {
    let front = path.front(alloc, count)?;
    front.to_text(alloc)
}

fn expect_fronts(alloc: Global, path: &Path) -> Result<(), Fail> {
    for (count, text) in [
        (0, "/"),
        (1, "/a"),
        (2, "/a/b"),
        (3, "/a/b/c"),
        (9, "/a/b/c"),
    ] {
        let front = front_text(alloc, path, count)?;
        agree("a front", front.as_str(), text)?;
    }
    Ok(())
}

#[test]
fn path_fronts(rt: HostRuntime) -> Result<(), Fail> {
    let path = path_of(rt.alloc(), "/a/b/c")?;
    expect_fronts(rt.alloc(), &path)
}

// The last name and how many stand before it.
fn last_of(path: &Path) -> Option<(&str, usize)> {
    match path.split_last() {
        None => None,
        Some((last, before)) => Some((last.as_str(), before.len())),
    }
}

#[test]
fn path_parts(rt: HostRuntime) -> Result<(), Fail> {
    let path = path_of(rt.alloc(), "/a/b/c")?;
    assert_eq!(rt; path.names().len(), 3);
    assert!(rt; !path.is_root());
    assert_eq!(rt; last_of(&path), Some(("c", 2)));
    Ok(())
}

#[test]
fn path_of_the_root(rt: HostRuntime) -> Result<(), Fail> {
    let path = path_of(rt.alloc(), "/")?;
    assert!(rt; path.is_root());
    assert_eq!(rt; last_of(&path), None);
    Ok(())
}

#[test]
fn path_fault_texts(rt: HostRuntime) -> Result<(), Fail> {
    for (fault, text) in [
        (PathFault::BadName, "P1 bad object name"),
        (PathFault::TooLong, "P2 path over 4096 bytes"),
        (PathFault::NotUtf8, "P3 not UTF-8"),
    ] {
        assert_eq!(rt; format!(in rt.alloc(); "{fault}")?.as_str(), text);
    }
    Ok(())
}
