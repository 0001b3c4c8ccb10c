//! Which words the program takes.

use clap::error::ErrorKind;
use cli_outcome::ListenAddress;
use cli_words::{Command, Job, read_command};
use room_ace::{Failure, Which};
use std::alloc::{AllocError, Global};
use std::process::Abort;
use std::test::Fail;

// Tests that the words are this command.
fn expect_read(
    rt: &(impl Abort + AllocGlobal),
    words: &[&str],
    wanted: Command<'_>,
) -> Result<(), Fail> {
    match read_command(rt.alloc(), words) {
        Ok(command) => assert_eq!(rt; command, wanted),
        Err(_) => return Err(Fail::from("the words are refused")),
    }
    Ok(())
}

// Tests that the words are this job on the file `a.db`.
fn expect_job(
    rt: &(impl Abort + AllocGlobal),
    words: &[&str],
    wanted: Job<'_>,
) -> Result<(), Fail> {
    expect_read(rt, words, Command::On("a.db", wanted))
}

// What `clap` says of words that it refuses with this kind.
fn told(rt: &(impl Abort + AllocGlobal), words: &[&str], kind: ErrorKind) -> Result<String, Fail> {
    let fault = match read_command(rt.alloc(), words) {
        Err(Failure::Fault(fault)) => fault,
        _ => return Err(Fail::from("no refusal")),
    };
    assert_eq!(rt; fault.kind, kind);
    Ok(fault.text)
}

// Tests that the words are refused with a text of this kind.
fn expect_refused(
    rt: &(impl Abort + AllocGlobal),
    words: &[&str],
    kind: ErrorKind,
) -> Result<(), Fail> {
    let text = told(rt, words, kind)?;
    assert!(rt; text.as_str().contains("Usage: rooms"));
    Ok(())
}

// Tests that the help of this subcommand has this line.
fn expect_help(rt: &(impl Abort + AllocGlobal), subcommand: &str, line: &str) -> Result<(), Fail> {
    let text = told(rt, &["rooms", subcommand, "--help"], ErrorKind::DisplayHelp)?;
    assert!(rt; text.as_str().contains(line));
    Ok(())
}

#[test]
fn words_of_a_room_are_read(rt: HostRuntime) -> Result<(), Fail> {
    let init = Job::Init {
        owner: "alice",
        group: "staff",
    };
    expect_job(&rt, &["rooms", "init", "a.db", "alice", "staff"], init)?;
    let groups = groups(rt.alloc(), Some("g.csv"), &[], &[])?;
    expect_job(&rt, &["rooms", "groups", "a.db", "g.csv"], groups)?;
    let reset = Job::Reset {
        path: "/a b",
        which: Which::Sacl,
    };
    expect_job(&rt, &["rooms", "reset", "a.db", "/a b", "sacl"], reset)?;
    let dacl = Job::Reset {
        path: "/",
        which: Which::Dacl,
    };
    expect_job(&rt, &["rooms", "reset", "a.db", "/", "dacl"], dacl)
}

fn groups<'a>(
    alloc: Global,
    csv: Option<&'a str>,
    joins: &[&'a str],
    leaves: &[&'a str],
) -> Result<Job<'a>, AllocError> {
    let joins = Vec::from_slice(alloc, joins)?;
    let leaves = Vec::from_slice(alloc, leaves)?;
    Ok(Job::Groups { csv, joins, leaves })
}

#[test]
fn words_of_a_change_are_read(rt: HostRuntime) -> Result<(), Fail> {
    let one = groups(rt.alloc(), None, &["sales", "carol"], &[])?;
    expect_job(
        &rt,
        &["rooms", "groups", "a.db", "--join", "sales", "carol"],
        one,
    )?;
    let three = groups(
        rt.alloc(),
        None,
        &["sales", "carol", "ops", ""],
        &["sales", "bob"],
    )?;
    let words = [
        "rooms", "groups", "--join", "sales", "carol", "a.db", "--leave", "sales", "bob", "--join",
        "ops", "",
    ];
    expect_job(&rt, &words, three)?;
    let half = ["rooms", "groups", "a.db", "--join", "sales"];
    expect_refused(&rt, &half, ErrorKind::WrongNumberOfValues)?;
    expect_help(&rt, "groups", "--join <GROUP> <USER>")
}

#[test]
fn words_of_a_review_are_read(rt: HostRuntime) -> Result<(), Fail> {
    let bare = Job::Review {
        path: "/a b",
        user: None,
        all: false,
    };
    expect_job(&rt, &["rooms", "review", "a.db", "/a b"], bare)?;
    let whole = Job::Review {
        path: "/",
        user: Some("bob"),
        all: true,
    };
    let words = ["rooms", "review", "--all", "a.db", "--user", "bob", "/"];
    expect_job(&rt, &words, whole)?;
    let named = Job::Review {
        path: "/",
        user: Some(""),
        all: false,
    };
    expect_job(&rt, &["rooms", "review", "a.db", "/", "--user="], named)?;
    let twice = ["rooms", "review", "a.db", "/", "--user", "a", "--user", "b"];
    told(&rt, &twice, ErrorKind::ArgumentConflict)?;
    Ok(())
}

#[test]
fn words_of_a_file_are_read(rt: HostRuntime) -> Result<(), Fail> {
    expect_read(&rt, &["rooms", "check"], Command::Check)?;
    expect_read(&rt, &["rooms", "would"], Command::Would)?;
    expect_job(&rt, &["rooms", "groups-out", "a.db"], Job::GroupsOut)?;
    expect_job(&rt, &["rooms", "audit", "a.db"], Job::Audit)?;
    expect_job(&rt, &["rooms", "dump", "a.db"], Job::Dump)?;
    let get = Job::Get { path: "/a b" };
    expect_job(&rt, &["rooms", "get", "a.db", "/a b"], get)?;
    expect_job(&rt, &["rooms", "verify", "a.db"], Job::Verify)?;
    expect_job(&rt, &["rooms", "migrate", "a.db"], Job::Migrate)
}

// What `serve` is with these numbers.
fn serve(port: u16, count: u32) -> Command<'static> {
    Command::Serve {
        file: "a.db",
        address: ListenAddress::Port(port),
        count,
    }
}

// What `serve` is at this path.
fn serve_at(path: &str, count: u32) -> Command<'_> {
    Command::Serve {
        file: "a.db",
        address: ListenAddress::Socket(path),
        count,
    }
}

#[test]
fn port_and_count_have_defaults_and_ranges(rt: HostRuntime) -> Result<(), Fail> {
    expect_read(&rt, &["rooms", "serve", "a.db"], serve(8780, 1))?;
    let least = ["rooms", "serve", "a.db", "--port", "1", "--count", "1"];
    expect_read(&rt, &least, serve(1, 1))?;
    let most = [
        "rooms", "serve", "a.db", "--port", "65535", "--count", "1000000",
    ];
    expect_read(&rt, &most, serve(65_535, 1_000_000))?;
    let joined = ["rooms", "serve", "--count=7", "a.db"];
    expect_read(&rt, &joined, serve(8780, 7))
}

#[test]
fn a_socket_stands_for_a_port(rt: HostRuntime) -> Result<(), Fail> {
    let words = ["rooms", "serve", "a.db", "--socket", "/run/a b"];
    expect_read(&rt, &words, serve_at("/run/a b", 1))?;
    let joined = ["rooms", "serve", "--socket=s", "--count", "7", "a.db"];
    expect_read(&rt, &joined, serve_at("s", 7))?;
    expect_read(
        &rt,
        &["rooms", "serve", "a.db", "--socket="],
        serve_at("", 1),
    )
}

#[test]
fn a_socket_and_a_port_are_refused(rt: HostRuntime) -> Result<(), Fail> {
    let kind = ErrorKind::ArgumentConflict;
    let both = ["rooms", "serve", "a.db", "--port", "8780", "--socket", "s"];
    expect_refused(&rt, &both, kind)?;
    let turned = ["rooms", "serve", "--socket", "s", "--port=1", "a.db"];
    expect_refused(&rt, &turned, kind)?;
    let twice = ["rooms", "serve", "a.db", "--socket", "s", "--socket", "t"];
    told(&rt, &twice, kind)?;
    told(
        &rt,
        &["rooms", "serve", "a.db", "--socket"],
        ErrorKind::InvalidValue,
    )?;
    let other = ["rooms", "dump", "a.db", "--socket", "s"];
    expect_refused(&rt, &other, ErrorKind::UnknownArgument)
}

#[test]
fn numbers_out_of_range_are_refused(rt: HostRuntime) -> Result<(), Fail> {
    let kind = ErrorKind::ValueValidation;
    told(&rt, &["rooms", "serve", "a.db", "--port", "0"], kind)?;
    told(&rt, &["rooms", "serve", "a.db", "--port", "65536"], kind)?;
    told(&rt, &["rooms", "serve", "a.db", "--count", "0"], kind)?;
    told(&rt, &["rooms", "serve", "a.db", "--count", "1000001"], kind)?;
    told(&rt, &["rooms", "serve", "a.db", "--count", "many"], kind)?;
    Ok(())
}

#[test]
fn other_words_are_refused(rt: HostRuntime) -> Result<(), Fail> {
    expect_refused(&rt, &["rooms"], ErrorKind::MissingSubcommand)?;
    expect_refused(&rt, &["rooms", "paint"], ErrorKind::InvalidSubcommand)?;
    expect_refused(&rt, &["rooms", "check", "more"], ErrorKind::UnknownArgument)?;
    expect_refused(&rt, &["rooms", "would", "more"], ErrorKind::UnknownArgument)?;
    let missing = ErrorKind::MissingRequiredArgument;
    expect_refused(&rt, &["rooms", "verify"], missing)?;
    expect_refused(&rt, &["rooms", "init", "a.db", "alice"], missing)?;
    expect_refused(&rt, &["rooms", "review", "a.db"], missing)?;
    expect_refused(&rt, &["rooms", "get", "a.db"], missing)?;
    let second = ["rooms", "get", "a.db", "/f", "/g"];
    expect_refused(&rt, &second, ErrorKind::UnknownArgument)?;
    let other_list = ["rooms", "reset", "a.db", "/", "facl"];
    told(&rt, &other_list, ErrorKind::InvalidValue)?;
    expect_refused(
        &rt,
        &["rooms", "dump", "a.db", "b.db"],
        ErrorKind::UnknownArgument,
    )
}

#[test]
fn help_and_version_are_told(rt: HostRuntime) -> Result<(), Fail> {
    expect_refused(&rt, &["rooms", "--help"], ErrorKind::DisplayHelp)?;
    let version = told(&rt, &["rooms", "--version"], ErrorKind::DisplayVersion)?;
    assert_eq!(rt; version.as_str(), "rooms 1.1.0\n");
    Ok(())
}

#[test]
fn help_tells_statuses_and_an_example(rt: HostRuntime) -> Result<(), Fail> {
    expect_help(&rt, "check", "  2  refused: why")?;
    expect_help(&rt, "check", "\ncaller: alice\n")?;
    expect_help(&rt, "check", "Example: rooms check < input.txt")?;
    expect_help(&rt, "would", "  2  refused: line N: why")?;
    expect_help(&rt, "would", "Example: rooms would < question.txt")?;
    expect_help(&rt, "init", "Example: rooms init office.rooms alice staff")?;
    expect_help(
        &rt,
        "serve",
        "Examples: rooms serve office.rooms --port 8781",
    )?;
    expect_help(&rt, "groups", "  0  groups G, members M")?;
    expect_help(&rt, "groups-out", "Example: rooms groups-out office.rooms")?;
    expect_help(&rt, "audit", "Example: rooms audit office.rooms")?;
    expect_help(&rt, "dump", "Example: rooms dump office.rooms")?;
    expect_help(
        &rt,
        "get",
        "Example: rooms get office.rooms /letters/2026.txt",
    )?;
    expect_help(&rt, "review", "Example: rooms review office.rooms /letters")?;
    expect_help(
        &rt,
        "reset",
        "Example: rooms reset office.rooms / dacl < list.txt",
    )?;
    expect_help(&rt, "verify", "  1  fault PATH why")?;
    expect_help(&rt, "migrate", "  0  migrated")
}
