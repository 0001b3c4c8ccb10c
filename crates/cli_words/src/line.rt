//! The subcommands with their arguments, as they are declared to `clap`.
ghost use Rattle.std.specs.Prelude.{IfOk, [], codes};
ghost use Rattle.clap.specs.Words.{App, with_subcommand};
ghost use Rattle.cli_words.specs.Line.{IsArg, IsCommandLine, IsLine, IsListArg, IsReset, all};
ghost use Rattle.cli_words.specs.Line.{count, csv, file, get, pair};
ghost use Rattle.cli_words.specs.Line.{groups, init, making, over_file, port, program, review};
ghost use Rattle.cli_words.specs.Line.{serve, socket, sub, telling, user, wanted, with_all};

use crate::help;
use crate::ids::{
    ALL, COUNT, CSV, DACL, FILE, GROUP, JOIN, LEAVE, LIST, OWNER, PATH, PORT, SACL, SOCKET, USER,
};
use clap::{Arg, ArgAction, Command, value_parser};
use std::alloc::{AllocError, Global};

// What `rooms --version` prints.
const VERSION: &str = "1.1.0";

// Which of an object's two lists.
static ATTRIBUTES: [&str; 2] = [DACL, SACL];

// What a pair of a group and a user is called.
static PAIR: [&str; 2] = ["GROUP", "USER"];

// An argument that has to be there.
fn wanted<'a>(alloc: Global, id: &'a str, help: &'a str) -> Arg<'a>
    ensures { IsArg (wanted id.now) result }
{
    Arg::new(alloc, id).required(true).help(help)
}

// The argument that names the file of the room.
fn file<'a>(alloc: Global) -> Arg<'a>
    ensures { IsArg file result }
{
    wanted(alloc, FILE, "The file of the room")
}

// A subcommand over a file.
pub(crate) fn over_file<'a>(
    alloc: Global,
    name: &'a str,
    about: &'a str,
    help: &'a str,
) -> Result<Command<'a>, AllocError>
    ensures { IfOk result (IsLine (over_file name.now)) }
{
    Command::new(alloc, name)
        .about(about)
        .after_help(help)
        .arg(file(alloc))
}

fn init<'a>(alloc: Global) -> Result<Command<'a>, AllocError>
    ensures { IfOk result (IsLine init) }
{
    let about = "Makes a new file with an empty room";
    over_file(alloc, "init", about, help::INIT)?
        .arg(wanted(alloc, OWNER, "The user who owns the root"))?
        .arg(wanted(alloc, GROUP, "The group that owns the root"))
}

fn port<'a>(alloc: Global) -> Arg<'a>
    ensures { IsArg port result }
{
    Arg::new(alloc, PORT)
        .long(PORT)
        .value_parser(value_parser!(u16).range(1..))
        .default_value("8780")
        .help("The port of 127.0.0.1 that it listens on")
}

fn socket<'a>(alloc: Global) -> Arg<'a>
    ensures { IsArg socket result }
{
    Arg::new(alloc, SOCKET).long(SOCKET).help(
        "The path of a socket that it listens on, in the place of a port",
    )
}

fn count<'a>(alloc: Global) -> Arg<'a>
    ensures { IsArg count result }
{
    Arg::new(alloc, COUNT)
        .long(COUNT)
        .value_parser(value_parser!(u32).range(1..=1_000_000))
        .default_value("1")
        .help("How many connections it serves before it ends")
}

fn serve<'a>(alloc: Global) -> Result<Command<'a>, AllocError>
    ensures { IfOk result (IsLine serve) }
{
    let about = "Serves connections, one after the other";
    over_file(alloc, "serve", about, help::SERVE)?
        .arg(port(alloc))?
        .arg(socket(alloc))?
        .arg(count(alloc))
}

// Which list, by its name.
fn list<'a>(alloc: Global) -> Arg<'a>
    ensures { IsListArg result }
{
    wanted(alloc, LIST, "Which list").value_parser(ATTRIBUTES.as_slice())
}

fn reset<'a>(alloc: Global) -> Result<Command<'a>, AllocError>
    ensures { IfOk result IsReset }
{
    let about = "Sets a list from the standard input, without testing any right";
    over_file(alloc, "reset", about, help::RESET)?
        .arg(wanted(alloc, PATH, "The path of the object"))?
        .arg(list(alloc))
}

fn csv<'a>(alloc: Global) -> Arg<'a>
    ensures { IsArg csv result }
{
    Arg::new(alloc, CSV).help("A file with the header group,user")
}

// An option with a group and a user, which may be given again.
fn pair<'a>(alloc: Global, id: &'a str, help: &'a str) -> Arg<'a>
    ensures { IsArg (pair id.now) result }
{
    Arg::new(alloc, id)
        .long(id)
        .action(ArgAction::Append)
        .value_names(PAIR.as_slice())
        .help(help)
}

fn groups<'a>(alloc: Global) -> Result<Command<'a>, AllocError>
    ensures { IfOk result (IsLine groups) }
{
    let about = "Replaces the members by those of a CSV file, or changes some";
    over_file(alloc, "groups", about, help::GROUPS)?
        .arg(csv(alloc))?
        .arg(pair(alloc, JOIN, "A user who joins a group"))?
        .arg(pair(alloc, LEAVE, "A user who leaves a group"))
}

fn get<'a>(alloc: Global) -> Result<Command<'a>, AllocError>
    ensures { IfOk result (IsLine get) }
{
    let about = "Writes the bytes of a document, without testing any right";
    over_file(alloc, "get", about, help::GET)?.arg(wanted(alloc, PATH, "The path of the document"))
}

fn user<'a>(alloc: Global) -> Arg<'a>
    ensures { IsArg user result }
{
    Arg::new(alloc, USER)
        .long(USER)
        .help("The only user whose rows are written")
}

fn all<'a>(alloc: Global) -> Arg<'a>
    ensures { IsArg all result }
{
    Arg::new(alloc, ALL)
        .long(ALL)
        .action(ArgAction::SetTrue)
        .help("Leaves out no row")
}

fn review<'a>(alloc: Global) -> Result<Command<'a>, AllocError>
    ensures { IfOk result (IsLine review) }
{
    let about = "Writes who may do what with an object and all below it, as CSV";
    over_file(alloc, "review", about, help::REVIEW)?
        .arg(wanted(alloc, PATH, "The path of the object"))?
        .arg(user(alloc))?
        .arg(all(alloc))
}

// The program without its subcommands.
fn program<'a>(alloc: Global) -> Command<'a>
    ensures { IsLine program result }
{
    Command::new(alloc, "rooms")
        .version(VERSION)
        .about("A document room with access lists")
        .subcommand_required(true)
        .disable_help_subcommand(true)
}

// A subcommand that has no words.
fn bare<'a>(alloc: Global, name: &'a str, about: &'a str, help: &'a str) -> Command<'a>
    ensures { IsLine (sub name.now []) result }
{
    Command::new(alloc, name).about(about).after_help(help)
}

fn check<'a>(alloc: Global) -> Command<'a>
    ensures { IsLine (sub (codes "check") []) result }
{
    let about = "Judges the list on the standard input for a caller";
    bare(alloc, "check", about, help::CHECK)
}

fn would<'a>(alloc: Global) -> Command<'a>
    ensures { IsLine (sub (codes "would") []) result }
{
    let about = "Writes what a change would bring about, of a question on the standard input";
    bare(alloc, "would", about, help::WOULD)
}

// Adds a subcommand that was made.
fn with<'a>(
    line: Command<'a>,
    made: Result<Command<'a>, AllocError>,
) -> Result<Command<'a>, AllocError>
    ensures { IfOk result (λ new. (app one : App) → IsLine app line.entry
        → IfOk made.entry (IsLine one) → IsLine (with_subcommand app one.top) new) }
{
    line.subcommand(made?)
}

// The subcommands that make a room and change what is in it.
fn with_making<'a>(alloc: Global) -> Result<Command<'a>, AllocError>
    ensures { IfOk result (IsLine (with_all making program)) }
{
    let line = program(alloc).subcommand(check(alloc))?;
    let line = line.subcommand(would(alloc))?;
    let line = with(line, init(alloc))?;
    let line = with(line, serve(alloc))?;
    with(line, groups(alloc))
}

// And those that print what is in it.
fn with_telling<'a>(alloc: Global) -> Result<Command<'a>, AllocError>
    ensures { IfOk result (IsLine (with_all telling (with_all making program))) }
{
    let line = with_making(alloc)?;
    let about = "Writes the members as CSV";
    let line = with(
        line,
        over_file(alloc, "groups-out", about, help::GROUPS_OUT),
    )?;
    let about = "Writes the records as CSV";
    let line = with(line, over_file(alloc, "audit", about, help::AUDIT))?;
    let about = "Writes all objects and members";
    let line = with(line, over_file(alloc, "dump", about, help::DUMP))?;
    let line = with(line, get(alloc))?;
    with(line, review(alloc))
}

/// The program with all its subcommands.
pub(crate) fn command_line<'a>(alloc: Global) -> Result<Command<'a>, AllocError>
    ensures { IfOk result IsCommandLine }
{
    let line = with_telling(alloc)?.subcommand(reset(alloc)?)?;
    let about = "Looks for the first fault of the rows";
    let line = with(line, over_file(alloc, "verify", about, help::VERIFY))?;
    let about = "Upgrades a file of the older schema";
    with(line, over_file(alloc, "migrate", about, help::MIGRATE))
}
