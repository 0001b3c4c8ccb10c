//! Outcomes of subcommands.
ghost use Rattle.std.specs.Prelude.{◌≡◌};
ghost use Rattle.cli_answer.specs.Outcome.{answer_status, not_opened, status_of};

use cli_outcome::{Fault, NoRoom, Status};
use room_machine::Reason;
use room_rows::{Bytes, Path, Text, Unsound};
use store_schema::OpenFault;

/// What is answered in one line.
#[derive(Drop)]
pub enum TaskAnswer {
    /// A room was made.
    Made,
    /// The members were replaced by this many pairs of this many groups.
    Replaced {
        groups: usize,
        members: usize,
    },
    /// So many pairs joined and left, and so many members are there now.
    Changed {
        joined: usize,
        left: usize,
        members: usize,
    },
    /// A list was set.
    ListSet,
    /// It was refused, for what was found at the path.
    Refused {
        path: Path,
        why: Reason,
    },
    /// No test finds a fault in the rows.
    Sound,
    /// The first fault of the rows, and where it is.
    Unsound {
        path: Text,
        why: Unsound,
    },
    /// The rows are sound, and no record or no object can get a number any more.
    NoNumbers,
    /// The older schema was upgraded.
    Migrated,
    /// The database holds no room of the current schema.
    NoRoom(NoRoom),
}

/// The outcome of a subcommand that works on a database.
#[derive(Drop)]
pub enum Outcome {
    /// It is answered in one line.
    Answer(TaskAnswer),
    /// These bytes were asked for, and are printed as they stand.
    Bytes(Bytes),
    /// It failed.
    Failed(Fault),
}

impl TaskAnswer {
    /// How a subcommand with this answer ended.
    pub fn status(&self) -> Status
        ensures { result ≡ answer_status self.now }
    {
        match self {
            TaskAnswer::Made => Status::Done,
            TaskAnswer::Replaced { .. } => Status::Done,
            TaskAnswer::Changed { .. } => Status::Done,
            TaskAnswer::ListSet => Status::Done,
            TaskAnswer::Refused { .. } => Status::Refused,
            TaskAnswer::Sound => Status::Done,
            TaskAnswer::Unsound { .. } => Status::Found,
            TaskAnswer::NoNumbers => Status::Found,
            TaskAnswer::Migrated => Status::Done,
            TaskAnswer::NoRoom(_) => Status::Refused,
        }
    }
}

impl Outcome {
    /// How the subcommand ended.
    pub fn status(&self) -> Status
        ensures { result ≡ status_of self.now }
    {
        match self {
            Outcome::Answer(answer) => answer.status(),
            Outcome::Bytes(_) => Status::Done,
            Outcome::Failed(_) => Status::Failed,
        }
    }

    /// The outcome where a database isn't opened as a room.
    pub fn not_opened(fault: OpenFault) -> Outcome
        ensures { result ≡ not_opened fault }
    {
        match fault {
            OpenFault::NotRooms => Outcome::Answer(TaskAnswer::NoRoom(NoRoom::NotRooms)),
            OpenFault::OldVersion(number) => Outcome::Answer(TaskAnswer::NoRoom(NoRoom::Old(
                number,
            ))),
            OpenFault::NewVersion(number) => Outcome::Answer(TaskAnswer::NoRoom(NoRoom::New(
                number,
            ))),
            OpenFault::Db => Outcome::Failed(Fault::Database),
            OpenFault::Memory => Outcome::Failed(Fault::Memory),
        }
    }
}
