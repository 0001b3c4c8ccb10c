//! A question read from a reader, and its answer written to a writer.
ghost use Rattle.std.specs.Prelude.{◌+◌, IfOk};
ghost use Rattle.cli_outcome.specs.Reading.{TakesAtMost};
ghost use Rattle.room_question.specs.declared.limits.TheConstants.{MOST_QUESTION};
ghost use Rattle.cli_would.specs.Answering.{IsReplyFor, TellsWould};

use crate::reply::{Reply, reply_to};
use cli_outcome::{Fault, read_front, tell_fault, tell_text};
use room_question::MOST_QUESTION;
use std::alloc::Global;
use std::io::{self, Read, Write};

/// Reads a question to its end, or as far as shows that it is too long. Writes on standard output
/// the answer, or why there is none, and answers the exit status. Where that fails it reports on
/// standard error: `fault: file`, or `fault: memory`, and the exit status 3. For a question that
/// can't be read, standard output gets nothing. Nothing of an answer is written before all of it
/// is known.
pub fn tell_would<R: Read, O: Write, E: Write>(
    alloc: Global,
    reader: &mut R,
    out: &mut O,
    err: &mut E,
) -> u8
    ensures answer { TellsWould (R.remaining reader.old) (O.contents out.old) (O.contents out.new)
        (E.contents err.old) (E.contents err.new) result }
    ensures few { TakesAtMost (MOST_QUESTION + 1) (R.remaining reader.old) (R.remaining reader.new) }
{
    match reply_for(alloc, reader) {
        Ok(reply) => tell_text(reply.text.as_slice(), reply.status, out, err),
        Err(error) => tell_fault(Fault::of_stream(&error), err),
    }
}

// What answers the question.
fn reply_for<R: Read>(alloc: Global, reader: &mut R) -> io::Result<Reply>
    ensures reply { IfOk result (λ reply.
        IsReplyFor (R.remaining reader.old) reply.text reply.status) }
    ensures few { TakesAtMost (MOST_QUESTION + 1) (R.remaining reader.old) (R.remaining reader.new) }
{
    // One byte more than a question may have shows that it is too long.
    let question = read_front(alloc, reader, MOST_QUESTION + 1)?;
    Ok(reply_to(alloc, &question)?)
}
