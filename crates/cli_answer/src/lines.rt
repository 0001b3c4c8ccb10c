//! The line of an answer.
ghost use Rattle.std.specs.Prelude.{◌≡◌, IfOk, string_bytes};
ghost use Rattle.cli_answer.specs.Outcome.{answer_line, reason_text, refusal_at, reason_line};

use crate::outcome::TaskAnswer;
use room_machine::Reason;
use room_rows::Path;
use std::alloc::{AllocError, Global};

// The code and the words of a reason.
fn reason_str(why: &Reason) -> &'static str
    ensures { result.now ≡ reason_text why.now }
{
    match why {
        Reason::NoSuch => "N1 no-such",
        Reason::NotFolder => "N2 not-folder",
        Reason::WrongKind => "N3 wrong-kind",
        Reason::Exists => "N4 exists",
        Reason::NotEmpty => "N5 not-empty",
        Reason::Root => "N6 root",
        Reason::Loop => "N7 loop",
        Reason::BadList { .. } => "N8 bad-list",
        Reason::TooLarge => "N9 too-large",
    }
}

// What was found at a path.
fn reason_at(alloc: Global, path: &Path, why: &Reason) -> Result<String, AllocError>
    ensures { IfOk result (λ text. string_bytes text ≡ refusal_at path.now why.now) }
{
    let text = path.to_text(alloc)?;
    let why = reason_str(why);
    format!(in alloc; "refused: {why} at {text}\n")
}

// The line of what is refused at a path.
fn refusal_line(alloc: Global, path: &Path, why: &Reason) -> Result<String, AllocError>
    ensures { IfOk result (λ text. string_bytes text ≡ reason_line path.now why.now) }
{
    match why {
        Reason::BadList { place, fault } => {
            let place = *place;
            let fault = fault.as_str();
            format!(in alloc; "refused: entry {place}: {fault}\n")
        }
        _ => reason_at(alloc, path, why),
    }
}

impl TaskAnswer {
    /// The line of the answer, with its end.
    pub fn line(&self, alloc: Global) -> Result<String, AllocError>
        ensures { IfOk result (λ text. string_bytes text ≡ answer_line self.now) }
    {
        match self {
            TaskAnswer::Made => String::from_str(alloc, "ready\n"),
            TaskAnswer::Replaced { groups, members } => {
                let groups = *groups;
                let members = *members;
                format!(in alloc; "groups {groups}, members {members}\n")
            }
            TaskAnswer::Changed {
                joined,
                left,
                members,
            } => {
                let joined = *joined;
                let left = *left;
                let members = *members;
                format!(in alloc; "joined {joined}, left {left}, members {members}\n")
            }
            TaskAnswer::ListSet => String::from_str(alloc, "done\n"),
            TaskAnswer::Refused { path, why } => refusal_line(alloc, path, why),
            TaskAnswer::Sound => String::from_str(alloc, "sound\n"),
            TaskAnswer::Unsound { path, why } => {
                let path = path.as_str();
                let why = why.as_str();
                format!(in alloc; "fault {path} {why}\n")
            }
            TaskAnswer::NoNumbers => String::from_str(alloc, "fault ? V8 no-numbers\n"),
            TaskAnswer::Migrated => String::from_str(alloc, "migrated\n"),
            TaskAnswer::NoRoom(why) => {
                let why = *why;
                format!(in alloc; "refused: {why}\n")
            }
        }
    }
}
