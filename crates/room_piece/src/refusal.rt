//! Why a piece can't be built or changed as it is asked.
ghost use Rattle.std.specs.Prelude.{◌≡◌, Some};
ghost use Rattle.room_entry.specs.declared.failure.Failure.TheVariants.{Fault, OutOfMemory};
ghost use Rattle.room_piece.specs.Refusing.{reason_text, refusal_text, why_of, why_text};
ghost use Rattle.room_piece.specs.declared.refusal.RefusalWhy.TheVariants.{Room};

use room_ace::Failure;
use room_machine::{Reason, Reply};
use room_rows::KeepFault;
use std::fmt;

/// What is wrong with an object or a change. It is displayed as the room's refusals are.
#[derive(Clone, Copy, Debug, PartialEq, Eq)]
pub enum RefusalWhy {
    /// The list's inherited entries aren't those that the list of its folder passes down.
    NotPassedDown,
    /// The room would refuse it, rights apart.
    Room(Reason),
}

/// The first line of a question that can't be done, counted from 1, and why.
#[derive(Clone, Copy, Debug, PartialEq, Eq)]
pub struct Refusal {
    /// The line, counted from 1.
    pub line: usize,
    /// What is wrong with it.
    pub why: RefusalWhy,
}

// The code and the words of a reason that names no entry.
fn reason_str(why: Reason) -> &'static str
    ensures { result.now ≡ reason_text why }
{
    match why {
        Reason::NoSuch => "N1 no-such",
        Reason::NotFolder => "N2 not-folder",
        Reason::WrongKind => "N3 wrong-kind",
        Reason::Exists => "N4 exists",
        Reason::NotEmpty => "N5 not-empty",
        Reason::Root => "N6 root",
        Reason::Loop => "N7 loop",
        Reason::BadList { .. } => "N8 bad-list",
        Reason::TooLarge => "N9 too-large",
    }
}

impl fmt::Display for RefusalWhy {
    ghost output = { λ why. Some (why_text why) };

    fn fmt<W: fmt::Write>(&self, f: &mut fmt::Formatter<W>) -> fmt::Result {
        match self {
            RefusalWhy::NotPassedDown => f.write_str("W5 not what is passed down"),
            RefusalWhy::Room(Reason::BadList { place, fault }) => {
                let place = *place;
                let fault = fault.as_str();
                write!(f, "entry {place}: {fault}")
            }
            RefusalWhy::Room(why) => f.write_str(reason_str(*why)),
        }
    }
}

impl fmt::Display for Refusal {
    ghost output = { λ refusal. Some (refusal_text refusal) };

    fn fmt<W: fmt::Write>(&self, f: &mut fmt::Formatter<W>) -> fmt::Result {
        let line = self.line;
        let why = self.why;
        write!(f, "line {line}: {why}")
    }
}

/// The refusal of a line for a reason of the room.
pub(crate) fn refused(line: usize, why: Reason) -> Failure<Refusal>
    ensures { result ≡ Fault (record { line = line; why = Room why }) }
{
    Failure::Fault(Refusal {
        line,
        why: RefusalWhy::Room(why),
    })
}

/// The same for this reason.
pub(crate) fn refused_for(line: usize, why: RefusalWhy) -> Failure<Refusal>
    ensures { result ≡ Fault (record { line = line; why = why }) }
{
    Failure::Fault(Refusal { line, why })
}

/// A keeper in memory that is asked for what it holds has no other fault than that of memory.
pub(crate) fn unheld(_fault: KeepFault) -> Failure<Refusal>
    ensures { result ≡ OutOfMemory }
{
    Failure::OutOfMemory
}

/// Why a reply refuses, if it does.
pub(crate) fn why_of(reply: &Reply) -> Option<RefusalWhy>
    ensures { result ≡ why_of reply.now }
{
    match reply {
        Reply::Refused { at: _, why } => Some(RefusalWhy::Room(*why)),
        _ => None,
    }
}
