//! Prints an outcome on the two writers.
ghost use Rattle.cli_answer.specs.Outcome.{answer_status, answer_line};
ghost use Rattle.cli_answer.specs.Telling.{PrintsOutcome};
ghost use Rattle.cli_outcome.specs.Written.{PrintsText};

use crate::outcome::{Outcome, TaskAnswer};
use cli_outcome::{Fault, Status, tell_fault, tell_text};
use std::alloc::Global;
use std::io::Write;

fn tell_answer<O: Write, E: Write>(
    alloc: Global,
    answer: &TaskAnswer,
    out: &mut O,
    err: &mut E,
) -> u8
    ensures { PrintsText (answer_line answer.now) (answer_status answer.now)
        (O.contents out.old) (O.contents out.new)
        (E.contents err.old) (E.contents err.new) result }
{
    match answer.line(alloc) {
        Ok(line) => tell_text(line.as_bytes(), answer.status(), out, err),
        Err(_) => tell_fault(Fault::Memory, err),
    }
}

/// Prints the outcome of a subcommand, and answers the exit status. Where standard output fails, it
/// prints `fault: file` or `fault: memory` on standard error, and answers 3.
pub fn tell<O: Write, E: Write>(alloc: Global, outcome: &Outcome, out: &mut O, err: &mut E) -> u8
    ensures { PrintsOutcome outcome.now (O.contents out.old) (O.contents out.new)
        (E.contents err.old) (E.contents err.new) result }
{
    match outcome {
        Outcome::Answer(answer) => tell_answer(alloc, answer, out, err),
        Outcome::Bytes(bytes) => tell_text(bytes.as_slice(), Status::Done, out, err),
        Outcome::Failed(fault) => tell_fault(*fault, err),
    }
}
