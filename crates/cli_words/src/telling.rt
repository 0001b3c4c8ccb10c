//! Prints why the program ends on its two writers.
ghost use Rattle.std.specs.Prelude.{◌≡◌, ◌++◌, ◌∷◌, [], IfOk, string_bytes};
ghost use Rattle.room_entry.specs.Bytes.{line_feed};
ghost use Rattle.cli_outcome.specs.Written.{PrintsText, WritesSome};
ghost use Rattle.cli_outcome.specs.declared.status.Status.TheVariants.{Refused};
ghost use Rattle.cli_words.specs.Tasks.{refusal_text};
ghost use Rattle.cli_words.specs.Stops.{TellsStop};

use crate::refusal::TaskRefusal;
use crate::stop::Stop;
use cli_outcome::{Fault, Status, tell_fault, tell_if_possible, tell_text};
use std::alloc::{AllocError, Global};
use std::io::Write;

/// Prints why on standard output, if it is a refusal, and else on standard error, and answers the
/// exit status. A refusal that can't be printed is a fault, and the status is 3. Where a fault
/// can't be printed, the status alone reports it.
pub fn tell_stop<O: Write, E: Write>(alloc: Global, stop: &Stop, out: &mut O, err: &mut E) -> u8
    ensures { TellsStop stop.now (O.contents out.old) (O.contents out.new)
        (E.contents err.old) (E.contents err.new) result }
{
    match stop {
        Stop::Failed(fault) => tell_fault(*fault, err),
        Stop::Refused(why) => tell_refusal(alloc, why, out, err),
        Stop::Exists => tell_text(b"refused: file exists\n", Status::Refused, out, err),
        Stop::NotRooms => tell_text(b"refused: not a rooms file\n", Status::Refused, out, err),
        Stop::Words(fault) => tell_words(fault.text.as_str(), err),
        Stop::NotText => tell_words("error: an argument is not UTF-8\n", err),
    }
}

fn tell_refusal<O: Write, E: Write>(
    alloc: Global,
    why: &TaskRefusal,
    out: &mut O,
    err: &mut E,
) -> u8
    ensures { PrintsText (refusal_text why.now ++ line_feed ∷ []) Refused
        (O.contents out.old) (O.contents out.new) (E.contents err.old) (E.contents err.new)
        result }
{
    match line_of(alloc, why) {
        Ok(line) => tell_text(line.as_bytes(), Status::Refused, out, err),
        Err(_) => tell_fault(Fault::Memory, err),
    }
}

fn line_of(alloc: Global, why: &TaskRefusal) -> Result<String, AllocError>
    ensures { IfOk result (λ line. string_bytes line ≡ refusal_text why.now ++ line_feed ∷ []) }
{
    format!(in alloc; "{why}\n")
}

// Where this fails too, the status alone reports it.
fn tell_words<E: Write>(text: &str, err: &mut E) -> u8
    ensures status { result ≡ 2 }
    ensures told { WritesSome (E.contents err.old) (E.contents err.new) text.now }
{
    tell_if_possible(text.as_bytes(), err);
    Status::Refused.code()
}
