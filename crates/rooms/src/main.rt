//! The program `rooms`: a document room behind access lists of RFC 8881, section 6.2.
//!
//! # Subcommands
//!
//! A room is a file, and each of these but `check` and `would` works on one.
//!
//! - `check` judges the list on standard input, and needs no room.
//! - `would` answers the question on standard input as CSV: what each caller may do before a change
//!   and then. It needs no room either.
//! - `init FILE OWNER GROUP` makes a new file with an empty room, and prints `ready`.
//! - `serve FILE --port N --count N` listens on 127.0.0.1, prints `listening 127.0.0.1:N`, serves
//!   this number of connections one after the other, and ends. With `--socket PATH` it listens on a
//!   socket in the file system, and prints `listening PATH`.
//! - `groups FILE CSV` replaces all members by those of the CSV file, and prints how many. With
//!   `--join GROUP USER` and `--leave GROUP USER` in the place of CSV it changes some.
//! - `groups-out FILE` prints the members as CSV.
//! - `audit FILE` prints the records as CSV.
//! - `dump FILE` prints all objects and all members.
//! - `get FILE PATH` prints the bytes of the document at PATH, without testing any right.
//! - `review FILE PATH --user NAME --all` prints as CSV who may do what with the object at PATH and
//!   with all below it.
//! - `reset FILE PATH dacl|sacl` sets the list on standard input, without testing any right, and
//!   prints `done`.
//! - `verify FILE` prints the first fault of the rows, or `sound`.
//! - `migrate FILE` upgrades a file of the older schema, and prints `migrated`.
//!
//! # Statuses
//!
//! - 0: it is done, granted or sound.
//! - 1: it is denied, or `verify` or `migrate` found a fault of the rows.
//! - 2: it is refused, which is printed on standard output; or the words are no command, or ask for
//!   help or for the version: what there is to say is printed on standard error.
//! - 3: something failed, which is printed on standard error in one line: `fault: memory`,
//!   `fault: database`, `fault: file` or `fault: net`.
//!
//! # Order
//!
//! 1. The words are read, by `cli_words`.
//! 2. The list on standard input or the CSV file is read, up to one byte more than it may have, by
//!    `cli_words` too.
//! 3. Owner and group, the path and what was read are validated, by `cli_words`. Where something is
//!    refused up to here, no file of a room is opened or made.
//! 4. The file is opened, or made by `init`, by `cli_system`, which takes the words and the input
//!    of the system too. One that cannot be opened is a fault, and an empty one is no room.
//! 5. The task is done in one transaction and its outcome printed, by `cli_act`; or connections are
//!    served, by `cli_serve`.
//! 6. The log beside the file is copied into it, so that the file alone has the whole room.
//!
//! # What is proved
//!
//! The calls of the crates below are proved to do what is written here of lists, tasks, connections
//! and texts, and `cli_words` says which file and which input a command names. No contract can name
//! what a terminal or a file holds. That the program hands over the right ones is shown by running
//! it.
#![tactic(auto)]

mod work;

use cli_system::{check, words_of, would};
use cli_words::{Command, Stop, read_command, tell_stop};
use sqlite_std_file::{Start, Unknown};
use std::process::ExitCode;

fn main(rt: HostRuntime) -> ExitCode {
    let status = match run(&rt, Unknown) {
        Ok(status) => status,
        Err(stop) => tell_stop(rt.alloc(), &stop, &mut rt.stdout(), &mut rt.stderr()),
    };
    ExitCode::from(status)
}

// Carries out the command of the process's arguments, and answers the exit status. `S` is what is
// assumed of the files.
fn run<S: Start>(rt: &HostRuntime, start: S) -> Result<u8, Stop> {
    let words = words_of(rt)?;
    let command = read_command(rt.alloc(), words.as_slice())?;
    match command {
        Command::Check => Ok(check(rt)),
        Command::Would => Ok(would(rt)),
        Command::Serve {
            file,
            address,
            count,
        } => work::serve(rt, start, file, address, count),
        Command::On(file, job) => work::carry_out(rt, start, file, &job),
    }
}
