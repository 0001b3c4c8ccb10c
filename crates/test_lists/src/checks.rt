//! The answers to written inputs.

use cli_check::answer;
use cli_outcome::Status;
use cli_outcome::Status::{Done, Found, Refused};
use room_ace::MOST_BYTES;
use std::io::{self, ErrorKind, Read, Write};
use std::process::Abort;
use std::test::Fail;

// Tests that this line and this status answer the input.
fn expect_told(
    rt: &(impl Abort + AllocGlobal),
    input: &[u8],
    text: &str,
    status: Status,
) -> Result<(), Fail> {
    let mut told = Vec::new(rt.alloc());
    let mut input = input;
    let answered = answer(rt.alloc(), &mut input, &mut told)?;
    assert_eq!(rt; answered, status);
    assert_eq!(rt; told.pop(), Some(b'\n'));
    assert_eq!(rt; told.as_slice(), text.as_bytes());
    Ok(())
}

// A reader and a writer of a broken disk.
#[derive(Drop)]
struct Broken;

impl Read for Broken {
    fn read(&mut self, _buf: &mut [u8]) -> io::Result<usize> {
        Err(io::Error::from(ErrorKind::BrokenPipe))
    }
}

impl Write for Broken {
    fn write(&mut self, _bytes: &[u8]) -> io::Result<usize> {
        Err(io::Error::from(ErrorKind::BrokenPipe))
    }

    fn flush(&mut self) -> io::Result<()> {
        Ok(())
    }
}

fn expect_broken(
    rt: &(impl Abort + AllocGlobal),
    answered: io::Result<Status>,
) -> Result<(), Fail> {
    assert!(rt; matches!(answered, Err(error) if error.kind() == ErrorKind::BrokenPipe));
    Ok(())
}

#[test]
fn broken_reader_and_writer_are_told(rt: HostRuntime) -> Result<(), Fail> {
    let mut input: &[u8] =
        b"caller: alice\ngroups:\nowners: root:staff\nask: r\nlist:\nA::alice:r\n";
    let mut told = Vec::new(rt.alloc());
    expect_broken(&rt, answer(rt.alloc(), &mut input.chain(Broken), &mut told))?;
    assert_eq!(rt; told.len(), 0);
    expect_broken(&rt, answer(rt.alloc(), &mut input, &mut Broken))
}

#[test]
fn deny_after_allow(rt: HostRuntime) -> Result<(), Fail> {
    let input =
        b"caller: alice\ngroups:\nowners: root:all\nask: rw\nlist:\nA::alice:r\nD::EVERYONE@:rw\n";
    expect_told(&rt, input, "denied bits w entry 2 D::EVERYONE@:rw", Found)
}

#[test]
fn first_entry_grants(rt: HostRuntime) -> Result<(), Fail> {
    let input =
        b"caller: alice\ngroups:\nowners: root:staff\nask: r\nlist:\nA::alice:r\nD::EVERYONE@:rw\n";
    expect_told(&rt, input, "granted", Done)
}

#[test]
fn nothing_grants(rt: HostRuntime) -> Result<(), Fail> {
    let input = b"caller: alice\ngroups:\nowners: root:staff\nask: r\nlist:\n";
    expect_told(&rt, input, "denied bits r no entry", Found)
}

#[test]
fn empty_mask_granted(rt: HostRuntime) -> Result<(), Fail> {
    let input = b"caller: alice\ngroups:\nowners: root:staff\nask:\nlist:\n";
    expect_told(&rt, input, "granted", Done)
}

#[test]
fn inherit_only_does_not_count(rt: HostRuntime) -> Result<(), Fail> {
    let input =
        b"caller: alice\ngroups:\nowners: root:staff\nask: r\nlist:\nD:fi:alice:r\nA::alice:r\n";
    expect_told(&rt, input, "granted", Done)
}

#[test]
fn group_flag_on_owner(rt: HostRuntime) -> Result<(), Fail> {
    let input = b"caller: alice\ngroups:\nowners: alice:staff\nask: r\nlist:\nA:g:OWNER@:r\n";
    expect_told(&rt, input, "granted", Done)
}

#[test]
fn inherit_only_alone(rt: HostRuntime) -> Result<(), Fail> {
    let input = b"caller: alice\ngroups:\nowners: alice:staff\nask: r\nlist:\nA:i:alice:r\n";
    expect_told(
        &rt,
        input,
        "refused: entry 1: A11 i without f or d",
        Refused,
    )
}

#[test]
fn check_without_list(rt: HostRuntime) -> Result<(), Fail> {
    let input = b"caller: alice\ngroups:\nowners: root:staff\nask: r\n";
    expect_told(&rt, input, "refused: line 5: A6 no list line", Refused)
}

#[test]
fn check_too_long(rt: HostRuntime) -> Result<(), Fail> {
    let longest = vec![in rt.alloc(); b'#'; MOST_BYTES]?;
    expect_told(
        &rt,
        longest.as_slice(),
        "refused: line 1: K1 bad header",
        Refused,
    )?;
    let longer = vec![in rt.alloc(); b'#'; MOST_BYTES + 1]?;
    expect_told(&rt, longer.as_slice(), "refused: input too long", Refused)
}

#[test]
fn groups_in_any_order(rt: HostRuntime) -> Result<(), Fail> {
    let members = b"caller: alice\ngroups: staff,audit,sales,audit\nowners: root:sales\nask: rw\n\
        list:\nA:g:audit:r\nA::GROUP@:w\n";
    expect_told(&rt, members, "granted", Done)?;
    let others = b"caller: alice\ngroups: staff,audit,sales\nowners: root:sale\nask: r\n\
        list:\nA::GROUP@:r\nA:g:audi:r\n";
    expect_told(&rt, others, "denied bits r no entry", Found)
}

#[test]
fn check_anonymous_denied(rt: HostRuntime) -> Result<(), Fail> {
    let input = b"caller:\ngroups:\nowners: root:staff\nask: r\nlist:\nA::AUTHENTICATED@:r\n";
    expect_told(&rt, input, "denied bits r no entry", Found)
}

#[test]
fn check_anonymous_granted(rt: HostRuntime) -> Result<(), Fail> {
    let input = b"caller:\ngroups:\nowners: root:staff\nask: r\nlist:\nA::ANONYMOUS@:r\n";
    expect_told(&rt, input, "granted", Done)
}

#[test]
fn check_anonymous_with_group(rt: HostRuntime) -> Result<(), Fail> {
    expect_told(
        &rt,
        b"caller:\ngroups: sales\n",
        "refused: line 2: K2 bad name",
        Refused,
    )
}

#[test]
fn headers_are_read_in_order_of_lines(rt: HostRuntime) -> Result<(), Fail> {
    expect_told(&rt, b"", "refused: line 1: K1 bad header", Refused)?;
    expect_told(
        &rt,
        b"caller: a b\nx\n",
        "refused: line 1: K2 bad name",
        Refused,
    )?;
    expect_told(
        &rt,
        b"caller: \xFF\n",
        "refused: line 1: K2 bad name",
        Refused,
    )?;
    expect_told(&rt, b"# x\n", "refused: line 1: K1 bad header", Refused)?;
    let groups = b"caller:   alice\r\ngroups: sales,,staff\r\n";
    expect_told(&rt, groups, "refused: line 2: K2 bad name", Refused)?;
    let owners = b"caller: alice\ngroups: sales,staff\nowners: a:b:c\n";
    expect_told(&rt, owners, "refused: line 3: K2 bad name", Refused)?;
    let ask = b"caller: alice\ngroups: sales,sales\nowners: a:b\nask: rZ\n";
    expect_told(&rt, ask, "refused: line 4: A4 bad mask letter", Refused)?;
    let list = b"caller: alice\ngroups:\nowners: a:b\nask: r\nlist:\n\nA::alice\n";
    expect_told(&rt, list, "refused: line 7: A5 not four parts", Refused)
}
