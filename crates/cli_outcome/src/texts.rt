//! Texts written to the two writers.
ghost use Rattle.std.specs.Prelude.{◌≡◌};
ghost use Rattle.cli_outcome.specs.Ending.{fault_line};
ghost use Rattle.cli_outcome.specs.Written.{PrintsText, WritesSome};

use crate::fault::Fault;
use crate::status::Status;
use crate::write::send_text;
use std::io::Write;

/// Writes a text. A failure is passed over, and a front of the text may have been written. It is
/// for a text after which only the exit status is left to report a failure.
#[tactic(auto, using(crate::proofs::KnownBytes::sent_some))]
pub fn tell_if_possible<E: Write>(text: &[u8], err: &mut E)
    ensures { WritesSome (E.contents err.old) (E.contents err.new) text.now }
{
    let _told = send_text(err, text);
}

/// Prints a fault on standard error, and answers the exit status. Where printing fails too, the
/// status alone reports the fault.
pub fn tell_fault<E: Write>(fault: Fault, err: &mut E) -> u8
    ensures status { result ≡ 3 }
    ensures text { WritesSome (E.contents err.old) (E.contents err.new) (fault_line fault) }
{
    tell_if_possible(fault.line().as_bytes(), err);
    Status::Failed.code()
}

/// Writes a text to standard output, and answers the exit status of this ending. Where that fails,
/// it prints `fault: file` or `fault: memory` on standard error, and answers 3.
pub fn tell_text<O: Write, E: Write>(text: &[u8], status: Status, out: &mut O, err: &mut E) -> u8
    ensures { PrintsText text.now status (O.contents out.old) (O.contents out.new)
        (E.contents err.old) (E.contents err.new) result }
{
    match send_text(out, text) {
        Ok(()) => status.code(),
        Err(error) => tell_fault(Fault::of_stream(&error), err),
    }
}
