//! Why a question has no answer.
ghost use Rattle.std.specs.Prelude.{◌≡◌, Some};
ghost use Rattle.room_entry.specs.declared.failure.Failure.TheVariants.{Fault};
ghost use Rattle.room_would.specs.Faults.{
  becomes,
  too_much,
  unbuilt,
  unread,
  would_fault_text,
  would_why_text,
};

use room_ace::Failure;
use room_piece::{Refusal, RefusalWhy};
use room_question::{QuestionFault, QuestionWhy};
use std::fmt;

/// What is wrong with a line of a question. It is displayed as its code and its meaning.
#[derive(Clone, Copy, Debug, PartialEq, Eq)]
pub enum WouldWhy {
    /// The text of the question has a fault, or too much is asked.
    Question(QuestionWhy),
    /// The objects can't stand as the question says, or a change or a look is refused as the room
    /// would refuse it.
    Piece(RefusalWhy),
}

/// The line of a question that has a fault, counted from 1, and the fault.
#[derive(Clone, Copy, Debug, PartialEq, Eq)]
pub struct WouldFault {
    /// The line, counted from 1.
    pub line: usize,
    /// What is wrong with it.
    pub why: WouldWhy,
}

impl fmt::Display for WouldWhy {
    ghost output = { λ why. Some (would_why_text why) };

    fn fmt<W: fmt::Write>(&self, f: &mut fmt::Formatter<W>) -> fmt::Result {
        match self {
            WouldWhy::Question(why) => f.write_str(why.as_str()),
            WouldWhy::Piece(why) => write!(f, "{why}"),
        }
    }
}

impl fmt::Display for WouldFault {
    ghost output = { λ fault. Some (would_fault_text fault) };

    fn fmt<W: fmt::Write>(&self, f: &mut fmt::Formatter<W>) -> fmt::Result {
        let line = self.line;
        let why = self.why;
        write!(f, "line {line}: {why}")
    }
}

/// The fault of a text that can't be read.
pub(crate) fn unread(failure: Failure<QuestionFault>) -> Failure<WouldFault>
    ensures { result ≡ becomes unread failure }
{
    match failure {
        Failure::OutOfMemory => Failure::OutOfMemory,
        Failure::Fault(fault) => Failure::Fault(WouldFault {
            line: fault.line,
            why: WouldWhy::Question(fault.why),
        }),
    }
}

/// The fault of a piece that can't be built or changed as it is asked.
pub(crate) fn unbuilt(failure: Failure<Refusal>) -> Failure<WouldFault>
    ensures { result ≡ becomes unbuilt failure }
{
    match failure {
        Failure::OutOfMemory => Failure::OutOfMemory,
        Failure::Fault(refusal) => Failure::Fault(WouldFault {
            line: refusal.line,
            why: WouldWhy::Piece(refusal.why),
        }),
    }
}

/// The fault of a text of so many lines that asks for too much.
pub(crate) fn too_much(lines: usize) -> Failure<WouldFault>
    ensures { result ≡ Fault (too_much lines) }
{
    Failure::Fault(WouldFault {
        line: lines,
        why: WouldWhy::Question(QuestionWhy::TooMuch),
    })
}
