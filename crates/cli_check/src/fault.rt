//! Why an input is refused.
ghost use Rattle.std.specs.Prelude.{◌≡◌, Some};
ghost use Rattle.cli_check.specs.Reply.{input_fault_text, input_why_text};

use room_ace::Why;
use std::fmt;

/// What is wrong with a line of the input.
#[derive(Clone, Copy, Debug, PartialEq, Eq)]
pub enum InputWhy {
    /// A header line is missing, or doesn't begin with its word.
    BadHeader,
    /// A header names no user or group where one is due.
    BadName,
    /// The letters that are asked, or a line of the list, have a fault.
    Text(Why),
}

/// The first line of the input that has a fault, counted from 1, and the fault.
#[derive(Clone, Copy, Debug, PartialEq, Eq)]
pub struct InputFault {
    /// The line, counted from 1.
    pub line: usize,
    /// What is wrong with it.
    pub why: InputWhy,
}

impl InputWhy {
    /// The code and the words of the fault, as they are printed.
    pub fn as_str(self) -> &'static str
        ensures { result.now ≡ input_why_text self }
    {
        match self {
            InputWhy::BadHeader => "K1 bad header",
            InputWhy::BadName => "K2 bad name",
            InputWhy::Text(why) => why.as_str(),
        }
    }
}

impl fmt::Display for InputFault {
    ghost output = { λ fault. Some (input_fault_text fault) };

    fn fmt<W: fmt::Write>(&self, f: &mut fmt::Formatter<W>) -> fmt::Result {
        let line = self.line;
        let why = self.why.as_str();
        write!(f, "line {line}: {why}")
    }
}
