//! Texts of lists, and what is read from them.
use room_ace::{Failure, print_list, read_list};
use std::alloc::{AllocError, Global};
use std::test::Fail;

// The printed form of the list that the bytes spell, or its fault.
fn told(alloc: Global, bytes: &[u8]) -> Result<String, Fail> {
    match read_list(alloc, bytes) {
        Ok(list) => Ok(print_list(alloc, list.flags(), list.entries().as_slice())?),
        Err(Failure::OutOfMemory) => Ok(String::from_str(alloc, "out of memory")?),
        Err(Failure::Fault(fault)) => Ok(format!(in alloc; "line {}: {}", fault.line, fault.why)?),
    }
}

// Adds the line this many times.
fn push_lines(text: &mut String, line: &str, count: usize) -> Result<(), AllocError> {
    for _ in 0..count {
        text.push_str(line)?;
        text.push('\n')?;
    }
    Ok(())
}

#[test]
fn list_of_4096(rt: HostRuntime) -> Result<(), Fail> {
    let alloc = rt.alloc();
    let mut text = String::from_str(alloc, "list:\n")?;
    push_lines(&mut text, "A:I:bob:r", 4096)?;
    assert_eq!(rt; told(alloc, text.as_bytes())?.as_str(), text.as_str());
    push_lines(&mut text, "A:I:bob:r", 1)?;
    assert_eq!(rt;
        told(alloc, text.as_bytes())?.as_str(),
        "line 4098: A7 more than 4096 entries"
    );
    Ok(())
}

#[test]
fn list_text_read_and_printed(rt: HostRuntime) -> Result<(), Fail> {
    let text = told(rt.alloc(), b"# x\n\nlist:pa\r\nA:ff:alice:wrr")?;
    assert_eq!(rt; text.as_str(), "list:ap\nA:f:alice:rw\n");
    Ok(())
}

#[test]
fn sixty_five_own_lines(rt: HostRuntime) -> Result<(), Fail> {
    let alloc = rt.alloc();
    let mut text = String::from_str(alloc, "list:\n")?;
    push_lines(&mut text, "A::bob:r", 64)?;
    assert_eq!(rt; told(alloc, text.as_bytes())?.as_str(), text.as_str());
    let mut bad = text.clone()?;
    push_lines(&mut text, "A::bob:r", 1)?;
    assert_eq!(rt;
        told(alloc, text.as_bytes())?.as_str(),
        "line 66: A8 more than 64 own entries"
    );
    // The fault of the line itself comes first.
    push_lines(&mut bad, "A::bob:Z", 1)?;
    assert_eq!(rt;
        told(alloc, bad.as_bytes())?.as_str(),
        "line 66: A4 bad mask letter"
    );
    Ok(())
}

#[test]
fn too_many_in_both_ways(rt: HostRuntime) -> Result<(), Fail> {
    let alloc = rt.alloc();
    let mut text = String::from_str(alloc, "list:\n")?;
    push_lines(&mut text, "A::bob:r", 64)?;
    push_lines(&mut text, "A:I:bob:r", 4032)?;
    push_lines(&mut text, "A::bob:r", 1)?;
    assert_eq!(rt;
        told(alloc, text.as_bytes())?.as_str(),
        "line 4098: A7 more than 4096 entries"
    );
    Ok(())
}

#[test]
fn empty_list_text(rt: HostRuntime) -> Result<(), Fail> {
    assert_eq!(rt; told(rt.alloc(), b"")?.as_str(), "line 1: A6 no list line");
    Ok(())
}

#[test]
fn odd_lines(rt: HostRuntime) -> Result<(), Fail> {
    let rows: [(&[u8], &str); 24] = [
        // NUL is a byte as any other.
        (b"\0\nlist:", "line 1: A6 no list line"),
        (b"list:\0", "line 1: A6 no list line"),
        (b"list:\nA\0::bob:r", "line 2: A1 bad type"),
        (b"list:\nA:\0:bob:r", "line 2: A2 bad flag"),
        (b"list:\nA::b\0b:r", "line 2: A3 bad who"),
        (b"list:\nA::bob:r\0", "line 2: A4 bad mask letter"),
        // A line loses one CR at its end, and no other.
        (b"\r\nlist:\n\r", "list:\n"),
        (b"list:\nA::bob:r\r\n", "list:\nA::bob:r\n"),
        (b"list:\nA::bob:r\r\r\n", "line 2: A4 bad mask letter"),
        (b"\r\r\nlist:", "line 1: A6 no list line"),
        (b"list:\r\r\n", "line 1: A6 no list line"),
        (b"list:\rA::bob:r", "line 1: A6 no list line"),
        // Only a comment may be other than UTF-8.
        (b"#\xff\nlist:\n# \xc3\r\n", "list:\n"),
        (b"list:\nA::bob\xff:r", "line 2: A13 not UTF-8"),
        (b"list:\n\n\xc3", "line 3: A13 not UTF-8"),
        (b"\xfflist:", "line 1: A13 not UTF-8"),
        (b"list:\nA::b\xc3\xb6b:r", "line 2: A3 bad who"),
        // Blank lines and comments are counted, and are no list line.
        (b" \t\n#list:\n\n", "line 4: A6 no list line"),
        (b" # x\nlist:", "line 1: A6 no list line"),
        (b"\t\nlist:apap\n  \nD::bob:\n", "list:ap\nD::bob:\n"),
        (b"A::bob:r", "line 1: A6 no list line"),
        (b"list: a", "line 1: A6 no list line"),
        (b"list:\nlist:", "line 2: A5 not four parts"),
        (b"list:\nX::bob:r\n\xff", "line 2: A1 bad type"),
    ];
    for (text, want) in rows {
        assert_eq!(rt; told(rt.alloc(), text)?.as_str(), want);
    }
    Ok(())
}
