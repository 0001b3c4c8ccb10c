//! An input read from a reader, and its answer written to a writer.
ghost use Rattle.std.specs.Prelude.{◌≡◌, ◌+◌, ◌++◌, ◌∷◌, [], ℕ, List, IfOk, OnErr, OnOk};
ghost use Rattle.std.specs.Prelude.{string_bytes};
ghost use Rattle.std.specs.Io.KnownBytes.{Appends};
ghost use Rattle.room_entry.specs.Bytes.{line_feed};
ghost use Rattle.cli_outcome.specs.Reading.{IsInput, TakesAtMost};
ghost use Rattle.cli_outcome.specs.Written.{WritesSome};
ghost use Rattle.cli_check.specs.Answering.{Answers, TellsCheck, reply_line};
ghost use Rattle.cli_check.specs.Check.{judged};
ghost use Rattle.cli_check.specs.Reply.{reply_status};

use crate::judging::{CheckReply, check};
use cli_outcome::{Fault, Status, read_front, send_text, tell_fault, tell_text};
use room_ace::MOST_BYTES;
use std::alloc::{AllocError, Global};
use std::io::{self, Read, Write};

/// Reads an input to its end, or as far as shows that it is too long, writes the line that answers
/// it and nothing else, and returns its status. An error is the reader's, the writer's, or
/// out of memory. Nothing of the line is written before all of it is known.
pub fn answer<R: Read, W: Write>(
    alloc: Global,
    reader: &mut R,
    writer: &mut W,
) -> io::Result<Status>
    ensures line { Answers (R.remaining reader.old) (W.contents writer.old) (W.contents writer.new)
        result }
    ensures few { TakesAtMost (MOST_BYTES + 1) (R.remaining reader.old) (R.remaining reader.new) }
{
    match line_for(alloc, reader) {
        Ok(reply) => send_reply(writer, &reply),
        Err(error) => Err(error),
    }
}

/// Answers on standard output, and reports on standard error where that fails: `fault: file`, or
/// `fault: memory`, and the exit status 3. For an input that can't be read, standard output gets
/// nothing.
pub fn tell_check<R: Read, O: Write, E: Write>(
    alloc: Global,
    reader: &mut R,
    out: &mut O,
    err: &mut E,
) -> u8
    ensures line { TellsCheck (R.remaining reader.old) (O.contents out.old) (O.contents out.new)
        (E.contents err.old) (E.contents err.new) result }
    ensures few { TakesAtMost (MOST_BYTES + 1) (R.remaining reader.old) (R.remaining reader.new) }
{
    match line_for(alloc, reader) {
        Ok(reply) => tell_text(reply.text.as_bytes(), reply.status, out, err),
        Err(error) => tell_fault(Fault::of_stream(&error), err),
    }
}

fn send_reply<W: Write>(writer: &mut W, reply: &CheckReply) -> io::Result<Status>
    ensures text { OnOk result (Appends (W.contents writer.old) (W.contents writer.new)
        (string_bytes reply.now.text)) }
    ensures status { IfOk result (λ status. status ≡ reply.now.status) }
    ensures err { OnErr result (WritesSome (W.contents writer.old) (W.contents writer.new)
        (string_bytes reply.now.text)) }
{
    send_text(writer, reply.text.as_bytes())?;
    Ok(reply.status)
}

// The answer to the input, with the end of its line.
fn line_for<R: Read>(alloc: Global, reader: &mut R) -> io::Result<CheckReply>
    ensures line { IfOk result (λ reply. (input : List ℕ) × IsInput (R.remaining reader.old) input
        × (string_bytes reply.text ≡ reply_line input)
        × (reply.status ≡ reply_status (judged input))) }
    ensures few { TakesAtMost (MOST_BYTES + 1) (R.remaining reader.old) (R.remaining reader.new) }
{
    // One byte more than an input may have shows that it is too long.
    let input = read_front(alloc, reader, MOST_BYTES + 1)?;
    let CheckReply { text, status } = check(alloc, &input)?;
    let text = with_end(text)?;
    Ok(CheckReply { text, status })
}

// The text as a line.
fn with_end(text: String) -> Result<String, AllocError>
    ensures { IfOk result (λ line. string_bytes line ≡ string_bytes text ++ line_feed ∷ []) }
{
    let mut line = text;
    line.push('\n')?;
    Ok(line)
}
