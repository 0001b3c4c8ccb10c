//! The outcome of what a task was answered.
ghost use Rattle.std.specs.Prelude.{◌≡◌, Err};
ghost use Rattle.cli_answer.specs.After.{after_create, after_fetch, after_migrate, after_reply};
ghost use Rattle.cli_answer.specs.After.{after_review, refused};

use crate::outcome::{Outcome, TaskAnswer};
use cli_outcome::Fault;
use room_dump::Fetched;
use room_machine::{Reason, Reply};
use room_review::Reviewed;
use room_rows::Path;
use store_schema::{CreateFault, MigrateFault};

/// The outcome where a room isn't made.
pub fn not_made(fault: CreateFault) -> Outcome
    ensures { result ≡ after_create (Err fault) }
{
    match fault {
        CreateFault::Memory => Outcome::Failed(Fault::Memory),
        CreateFault::Db => Outcome::Failed(Fault::Database),
    }
}

/// The outcome where a room isn't upgraded.
pub fn not_migrated(fault: MigrateFault) -> Outcome
    ensures { result ≡ after_migrate (Err fault) }
{
    match fault {
        MigrateFault::Opening(fault) => Outcome::not_opened(fault),
        MigrateFault::Unsound { path, why } => Outcome::Answer(TaskAnswer::Unsound { path, why }),
    }
}

// The outcome of what is refused at a path.
fn refused(path: Path, why: Reason) -> Outcome
    ensures { result ≡ refused path why }
{
    Outcome::Answer(TaskAnswer::Refused { path, why })
}

/// The outcome where a document was asked for.
pub fn after_fetch(fetched: Fetched) -> Outcome
    ensures { result ≡ after_fetch fetched }
{
    match fetched {
        Fetched::Bytes(bytes) => Outcome::Bytes(bytes),
        Fetched::NoSuch(path) => refused(path, Reason::NoSuch),
        Fetched::NotFolder(path) => refused(path, Reason::NotFolder),
        Fetched::WrongKind(path) => refused(path, Reason::WrongKind),
    }
}

/// The outcome of a review.
pub fn after_review(reviewed: Reviewed) -> Outcome
    ensures { result ≡ after_review reviewed }
{
    match reviewed {
        Reviewed::Table(text) => Outcome::Bytes(text),
        Reviewed::Refused { path, why } => Outcome::Answer(TaskAnswer::Refused { path, why }),
    }
}

/// The outcome of a reset, whose reply is that it was done or refused.
pub fn after_reply(reply: Reply) -> Outcome
    ensures { result ≡ after_reply reply }
{
    match reply {
        Reply::Done => Outcome::Answer(TaskAnswer::ListSet),
        Reply::Refused { at: path, why } => Outcome::Answer(TaskAnswer::Refused { path, why }),
        Reply::Bytes(_)
        | Reply::Names(_)
        | Reply::Lists(..)
        | Reply::Attr(..)
        | Reply::Rulings(_)
        | Reply::Made
        | Reply::Denied { .. } => Outcome::Failed(Fault::Database),
    }
}
