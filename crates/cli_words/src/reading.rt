//! Words read as a command.
ghost use Rattle.std.specs.Prelude.{◌≡◌, IfErr, IfOk, IfSome, IsSome, false, map, true};
ghost use Rattle.std.specs.Prelude.{codes, option_map};
ghost use Rattle.clap.specs.Words.{first_of, found_of, kind_of, one_of, rows_of};
ghost use Rattle.clap.specs.Words.{subcommand_rows_of};
ghost use Rattle.clap.specs.declared.error.kind.ErrorKind.TheVariants.{ArgumentConflict};
ghost use Rattle.cli_words.specs.Command.{HasNumber, HasWord, HasWords, IsCommand, IsFlag, IsJob};
ghost use Rattle.cli_words.specs.Command.{IsList, IsMet, IsName, IsNumber, IsRead, IsRefused};
ghost use Rattle.cli_words.specs.Command.{IsAddress, IsNotMet, IsTold, IsWhole, given, is_of_words};
ghost use Rattle.cli_words.specs.Command.{names_two};
ghost use Rattle.cli_words.specs.Command.{was_given, which_in, word};

use crate::command::{CliFault, Command, Job};
use crate::ids::{
    ALL, COUNT, CSV, DACL, FILE, GROUP, JOIN, LEAVE, LIST, OWNER, PATH, PORT, SACL, SOCKET, USER,
};
use crate::line::command_line;
use clap::ArgMatches;
use clap::error::{Error, ErrorKind};
use clap::parser::ValueSource;
use cli_outcome::ListenAddress;
use room_entry::{Failure, Which};
use std::alloc::{AllocError, Global};
use std::convert::AsStr;

// What is said of a port and a socket, in the words that `clap` has for such a conflict.
const TWO_PLACES: &str = "\
error: the argument '--port <port>' cannot be used with '--socket <socket>'

Usage: rooms serve [OPTIONS] <FILE>

For more information, try '--help'.
";

// The word that was given for an argument.
fn word<'a>(words: &ArgMatches<'a>, id: &str) -> &'a str
    requires { HasWord id.now (rows_of (found_of words.now)) }
    ensures { result.now ≡ word id.now (rows_of (found_of words.now)) }
{
    match words.get_str(id) {
        Some(text) => text,
        None => unreachable!(),
    }
}

fn which(words: &ArgMatches<'_>) -> Which
    requires word { HasWord (codes "LIST") (rows_of (found_of words.now)) }
    requires list { IsList (word (codes "LIST") (rows_of (found_of words.now))) }
    ensures { result ≡ which_in (rows_of (found_of words.now)) }
{
    match word(words, LIST) {
        DACL => Which::Dacl,
        SACL => Which::Sacl,
        _ => unreachable!(),
    }
}

fn port(words: &ArgMatches<'_>) -> u16
    requires { HasNumber (codes "port") 65535 (rows_of (found_of words.now)) }
    ensures { IsNumber 16 8780 (one_of (codes "port") (rows_of (found_of words.now))) result }
{
    match words.get_one::<u16>(PORT) {
        Some(port) => port,
        None => unreachable!(),
    }
}

// The path of the socket that was named, if one was.
fn socket<'a>(words: &ArgMatches<'a>) -> Option<&'a str>
    ensures { option_map (λ text. text.now) result
        ≡ first_of (codes "socket") (rows_of (found_of words.now)) }
{
    words.get_str(SOCKET)
}

fn address<'a>(words: &ArgMatches<'a>) -> ListenAddress<'a>
    requires { HasNumber (codes "port") 65535 (rows_of (found_of words.now)) }
    ensures { IsAddress (rows_of (found_of words.now)) result }
{
    match socket(words) {
        Some(path) => ListenAddress::Socket(path),
        None => ListenAddress::Port(port(words)),
    }
}

fn count(words: &ArgMatches<'_>) -> u32
    requires { HasNumber (codes "count") 1000000 (rows_of (found_of words.now)) }
    ensures { IsNumber 32 1 (one_of (codes "count") (rows_of (found_of words.now))) result }
{
    match words.get_one::<u32>(COUNT) {
        Some(count) => count,
        None => unreachable!(),
    }
}

fn init<'a>(words: &ArgMatches<'a>) -> Job<'a>
    requires { HasWords (codes "init") (rows_of (found_of words.now)) }
    ensures { IsJob (codes "init") (rows_of (found_of words.now)) result }
{
    Job::Init {
        owner: word(words, OWNER),
        group: word(words, GROUP),
    }
}

fn serve<'a>(words: &ArgMatches<'a>) -> Command<'a>
    requires { HasWords (codes "serve") (rows_of (found_of words.now)) }
    ensures { IsMet (codes "serve") (rows_of (found_of words.now)) result }
{
    Command::Serve {
        file: word(words, FILE),
        address: address(words),
        count: count(words),
    }
}

// The group file that was named, if one was.
fn csv<'a>(words: &ArgMatches<'a>) -> Option<&'a str>
    ensures { option_map (λ text. text.now) result
        ≡ first_of (codes "CSV") (rows_of (found_of words.now)) }
{
    words.get_str(CSV)
}

// All words that were given for an option.
fn given<'a>(alloc: Global, words: &ArgMatches<'a>, id: &str) -> Result<Vec<&'a str>, AllocError>
    ensures { IfOk result (λ texts. map (λ text. text.now) texts.items
        ≡ given id.now (rows_of (found_of words.now))) }
{
    match words.get_strs(id) {
        Some(texts) => Vec::from_slice(alloc, texts),
        None => Ok(Vec::new(alloc)),
    }
}

fn groups<'a>(alloc: Global, words: &ArgMatches<'a>) -> Result<Job<'a>, AllocError>
    ensures { IfOk result (IsJob (codes "groups") (rows_of (found_of words.now))) }
{
    let joins = given(alloc, words, JOIN)?;
    let leaves = given(alloc, words, LEAVE)?;
    Ok(Job::Groups {
        csv: csv(words),
        joins,
        leaves,
    })
}

fn get<'a>(words: &ArgMatches<'a>) -> Job<'a>
    requires { HasWords (codes "get") (rows_of (found_of words.now)) }
    ensures { IsJob (codes "get") (rows_of (found_of words.now)) result }
{
    Job::Get {
        path: word(words, PATH),
    }
}

// The user who was named, if one was.
fn user<'a>(words: &ArgMatches<'a>) -> Option<&'a str>
    ensures { option_map (λ text. text.now) result
        ≡ first_of (codes "user") (rows_of (found_of words.now)) }
{
    words.get_str(USER)
}

fn all(words: &ArgMatches<'_>) -> bool
    ensures { IsFlag (one_of (codes "all") (rows_of (found_of words.now))) result }
{
    words.get_flag(ALL)
}

fn review<'a>(words: &ArgMatches<'a>) -> Job<'a>
    requires { HasWords (codes "review") (rows_of (found_of words.now)) }
    ensures { IsJob (codes "review") (rows_of (found_of words.now)) result }
{
    Job::Review {
        path: word(words, PATH),
        user: user(words),
        all: all(words),
    }
}

fn reset<'a>(words: &ArgMatches<'a>) -> Job<'a>
    requires { HasWords (codes "reset") (rows_of (found_of words.now)) }
    ensures { IsJob (codes "reset") (rows_of (found_of words.now)) result }
{
    Job::Reset {
        path: word(words, PATH),
        which: which(words),
    }
}

// The subcommand of this name, with its words.
fn met<'a>(
    alloc: Global,
    name: &str,
    words: &ArgMatches<'a>,
) -> Result<Option<Command<'a>>, AllocError>
    requires { HasWords name.now (rows_of (found_of words.now)) }
    ensures met { IfOk result (λ found. IfSome found (IsMet name.now (rows_of (found_of words.now)))) }
    ensures some { IsName name.now → IfOk result IsSome }
{
    Ok(match name {
        "check" => Some(Command::Check),
        "would" => Some(Command::Would),
        "serve" => Some(serve(words)),
        "init" => Some(Command::On(word(words, FILE), init(words))),
        "groups" => Some(Command::On(word(words, FILE), groups(alloc, words)?)),
        "get" => Some(Command::On(word(words, FILE), get(words))),
        "review" => Some(Command::On(word(words, FILE), review(words))),
        "reset" => Some(Command::On(word(words, FILE), reset(words))),
        "groups-out" => Some(Command::On(word(words, FILE), Job::GroupsOut)),
        "audit" => Some(Command::On(word(words, FILE), Job::Audit)),
        "dump" => Some(Command::On(word(words, FILE), Job::Dump)),
        "verify" => Some(Command::On(word(words, FILE), Job::Verify)),
        "migrate" => Some(Command::On(word(words, FILE), Job::Migrate)),
        _ => None,
    })
}

// Whether a value came from the words, and isn't a default.
fn is_of_words(source: Option<ValueSource>) -> bool
    ensures { result ≡ is_of_words source }
{
    match source {
        None => false,
        Some(ValueSource::DefaultValue) => false,
        Some(ValueSource::CommandLine) => true,
    }
}

fn was_given(words: &ArgMatches<'_>, id: &str) -> bool
    ensures { result ≡ was_given id.now (rows_of (found_of words.now)) }
{
    is_of_words(words.value_source(id))
}

// Whether both a port and a socket were given.
fn names_two(matches: &ArgMatches<'_>) -> bool
    ensures { result ≡ names_two (subcommand_rows_of matches.now) }
{
    match matches.subcommand() {
        Some((_, words)) => was_given(words, PORT) && socket(words).is_some(),
        None => false,
    }
}

// The command that the matches name.
fn command_met<'a>(alloc: Global, matches: &ArgMatches<'a>) -> Result<Command<'a>, AllocError>
    requires { IsWhole (subcommand_rows_of matches.now) }
    ensures { IfOk result (IsCommand (subcommand_rows_of matches.now)) }
{
    let found = match matches.subcommand() {
        Some((name, words)) => met(alloc, name, words)?,
        None => None,
    };
    match found {
        Some(command) => Ok(command),
        None => unreachable!(),
    }
}

// The command that the matches name, if it has one address at most.
fn command_of<'a>(alloc: Global, matches: &ArgMatches<'a>) -> Result<Command<'a>, Failure<CliFault>>
    requires { IsWhole (subcommand_rows_of matches.now) }
    ensures ok { IfOk result (λ command. (names_two (subcommand_rows_of matches.now) ≡ false)
        × IsCommand (subcommand_rows_of matches.now) command) }
    ensures err { IfErr result (IsNotMet (subcommand_rows_of matches.now)) }
{
    if names_two(matches) {
        return Err(two_addresses(alloc));
    }
    match command_met(alloc, matches) {
        Ok(command) => Ok(command),
        Err(_) => Err(Failure::OutOfMemory),
    }
}

// What is said of words that name two addresses.
fn two_addresses(alloc: Global) -> Failure<CliFault>
    ensures { IsTold ArgumentConflict result }
{
    match String::from_str(alloc, TWO_PLACES) {
        Ok(text) => Failure::Fault(CliFault {
            kind: ErrorKind::ArgumentConflict,
            text,
        }),
        Err(_) => Failure::OutOfMemory,
    }
}

/// The command of the words, of which the first is the program's name. The error is what `clap`
/// says of them, that they name both a port and a socket, or that memory ran out.
pub fn read_command<'a, S: AsStr>(
    alloc: Global,
    words: &'a [S],
) -> Result<Command<'a>, Failure<CliFault>>
    ensures ok { IfOk result (IsRead (map S.text words.now)) }
    ensures err { IfErr result (IsRefused (map S.text words.now)) }
{
    let line = command_line(alloc)?;
    match line.try_get_matches_from(words) {
        Ok(matches) => command_of(alloc, &matches),
        Err(error) => Err(refusal(alloc, &error)),
    }
}

// What `clap` says of words that it refuses.
fn refusal(alloc: Global, error: &Error) -> Failure<CliFault>
    ensures { IsTold (kind_of error.now) result }
{
    let kind = error.kind();
    if kind == ErrorKind::OutOfMemory {
        return Failure::OutOfMemory;
    }
    match error.to_string(alloc) {
        Ok(text) => Failure::Fault(CliFault { kind, text }),
        Err(_) => Failure::OutOfMemory,
    }
}
