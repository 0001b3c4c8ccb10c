//! Why the text of a question is refused.
ghost use Rattle.std.specs.Prelude.{◌≡◌, Err, Some};
ghost use Rattle.room_entry.specs.declared.failure.Failure.TheVariants.{Fault};
ghost use Rattle.room_question.specs.Faults.{question_fault_text, question_why_text};

use room_ace::{Failure, Why};
use room_rows::PathFault;
use std::fmt;

/// What is wrong with a line of a question. It is displayed as its code and its meaning.
#[derive(Clone, Copy, Debug, PartialEq, Eq)]
pub enum QuestionWhy {
    /// No line of a question begins so, or none stands here.
    NoSuchLine,
    /// A word is no name of a user or a group where one is due.
    BadName,
    /// The object's folder doesn't stand before it.
    NoFolder,
    /// An object stands at the path already.
    Exists,
    /// The question is larger than one may be.
    TooMuch,
    /// The path has a fault.
    Path(PathFault),
    /// The list has a fault.
    List(Why),
}

/// The first line of a question that has a fault, counted from 1, and the fault.
#[derive(Clone, Copy, Debug, PartialEq, Eq)]
pub struct QuestionFault {
    /// The line, counted from 1.
    pub line: usize,
    /// What is wrong with it.
    pub why: QuestionWhy,
}

impl QuestionWhy {
    /// The code and the words of the fault, as they are printed.
    pub fn as_str(self) -> &'static str
        ensures { result.now ≡ question_why_text self }
    {
        match self {
            QuestionWhy::NoSuchLine => "W1 no such line",
            QuestionWhy::BadName => "W2 bad name",
            QuestionWhy::NoFolder => "W3 no folder",
            QuestionWhy::Exists => "W4 exists",
            QuestionWhy::TooMuch => "W6 too much",
            QuestionWhy::Path(fault) => fault.as_str(),
            QuestionWhy::List(why) => why.as_str(),
        }
    }
}

impl fmt::Display for QuestionFault {
    ghost output = { λ fault. Some (question_fault_text fault) };

    fn fmt<W: fmt::Write>(&self, f: &mut fmt::Formatter<W>) -> fmt::Result {
        let line = self.line;
        let why = self.why.as_str();
        write!(f, "line {line}: {why}")
    }
}

/// The fault of a line.
pub(crate) fn fault_at(line: usize, why: QuestionWhy) -> Failure<QuestionFault>
    ensures { result ≡ Fault (record { line = line; why = why }) }
{
    Failure::Fault(QuestionFault { line, why })
}
