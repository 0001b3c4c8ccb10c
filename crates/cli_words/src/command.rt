//! What the words of the command line can ask for.
ghost use Rattle.std.specs.Prelude.{◌≡◌};
ghost use Rattle.cli_words.specs.Asked.{input_of};

use clap::error::ErrorKind;
use cli_outcome::ListenAddress;
use room_entry::Which;

/// A subcommand and its words. Files, names and paths stay texts, which are judged afterwards.
#[derive(Drop, Debug, PartialEq, Eq)]
pub enum Command<'a> {
    /// Judges the list that the standard input holds.
    Check,
    /// Answers the question that the standard input holds.
    Would,
    /// Serves this number of connections at this address, one after the other.
    Serve {
        file: &'a str,
        address: ListenAddress<'a>,
        count: u32,
    },
    /// Does this job on the file of this name.
    On(&'a str, Job<'a>),
}

/// A subcommand that works on a database for a while, and its words but for the file.
#[derive(Drop, Debug, PartialEq, Eq)]
pub enum Job<'a> {
    /// Makes a new file with an empty room, whose root has this owner and owning group.
    Init {
        owner: &'a str,
        group: &'a str,
    },
    /// Replaces the members by those of a CSV file. Or some join and others leave: each has two
    /// words, a group and a user, one after the other.
    Groups {
        csv: Option<&'a str>,
        joins: Vec<&'a str>,
        leaves: Vec<&'a str>,
    },
    /// Writes the members as CSV.
    GroupsOut,
    /// Writes the records as CSV.
    Audit,
    /// Writes all objects and members.
    Dump,
    /// Writes the bytes of the document at a path without asking any right.
    Get {
        path: &'a str,
    },
    /// Writes who may do what at a path and below it: the rows of one user or of all callers,
    /// without those that repeat what the folder above says, or all.
    Review {
        path: &'a str,
        user: Option<&'a str>,
        all: bool,
    },
    /// Sets a list at a path without asking any right.
    Reset {
        path: &'a str,
        which: Which,
    },
    /// Finds the first fault of the rows.
    Verify,
    /// Upgrades a file of the older schema.
    Migrate,
}

/// Where a job's list or group file is read from.
#[derive(Clone, Copy, Debug, PartialEq, Eq)]
pub enum Input<'a> {
    /// The job reads nothing.
    Nothing,
    /// The standard input.
    Standard,
    /// The file of this name.
    File(&'a str),
}

impl<'a> Job<'a> {
    /// What the job reads before it is judged.
    pub fn input(&self) -> Input<'a>
        ensures { result ≡ input_of self.now }
    {
        match self {
            Job::Groups { csv: Some(csv), .. } => Input::File(csv),
            Job::Reset { .. } => Input::Standard,
            _ => Input::Nothing,
        }
    }
}

/// Why words are no command, or that help was asked for: what `clap` prints.
#[derive(Drop)]
pub struct CliFault {
    pub kind: ErrorKind,
    pub text: String,
}
