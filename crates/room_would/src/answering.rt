//! The answer to a question.
ghost use Rattle.std.specs.Prelude.{◌≡◌, IfErr, IfOk, length};
ghost use Rattle.room_ace.specs.Lists.{lines_of};
ghost use Rattle.room_memory.specs.Memory.{rows_in};
ghost use Rattle.room_rows.specs.Rows.{AreRows};
ghost use Rattle.room_piece.specs.Building.{IsPiece};
ghost use Rattle.room_turns.specs.Turns.{IsCompared};
ghost use Rattle.room_would.specs.Asking.{state_of};
ghost use Rattle.room_would.specs.Faults.{Blames};
ghost use Rattle.room_would.specs.Would.{
  CannotSay,
  IsStopped,
  IsTold,
  IsTooMuch,
  IsWould,
  Says,
  SaysAll,
  SaysFound,
  StopsFrom,
  TellsFrom,
};

use crate::asking::{asked_of, count_objects, is_too_much};
use crate::fault::{WouldFault, too_much, unbuilt, unread};
use crate::lists::push_lists;
use crate::looking::{lost_look, unheld};
use crate::names::{Free, free_names};
use room_ace::{Failure, split_line};
use room_answer::Answer;
use room_memory::MemKeep;
use room_piece::{Piece, build, change};
use room_question::{Question, read_question};
use room_turns::{Asked, compare};
use std::alloc::{AllocError, Global};

/// The answer to a question on a piece of a room: what each caller may do there as it is, and may
/// do after the changes that the question asks for, as far as that differs.
///
/// The callers are those whom the question names as users, `*` for any other name, one without a
/// name, and those who may be. The rows begin at the deepest object that has in it whatever is
/// changed or looked at. All of its rows stand, and below it those that say what no row above says.
/// Where lists are asked for, those of objects that were set, moved or brought stand behind.
///
/// The fault is that of the first line that can't be read; else of the first object that can't
/// stand, the first change that the room would refuse, or the first look at what isn't there; else
/// of the last line, where callers times objects are more than `MOST_TURNS`.
pub fn would(alloc: Global, question: &[u8]) -> Result<Answer, Failure<WouldFault>>
    ensures { IsWould question.now result }
{
    match read_question(alloc, question) {
        Ok(read) => answer(alloc, count_lines(question), &read),
        Err(failure) => Err(unread(failure)),
    }
}

// How many lines there are.
fn count_lines(bytes: &[u8]) -> usize
    ensures { result ≡ length (lines_of bytes.now) }
{
    let mut count = 0;
    let mut rest = bytes;
    while let Some((_, behind)) = split_line(rest) {
        count += 1;
        rest = behind;
    }
    count
}

// The answer to a question that has so many lines.
fn answer(alloc: Global, lines: usize, question: &Question) -> Result<Answer, Failure<WouldFault>>
    ensures told { IfOk result (IsTold question.now) }
    ensures refused { IfErr result (Blames (IsStopped lines question.now)) }
{
    let free = free_names(alloc, question)?;
    match build(alloc, question, &free.unread) {
        Ok(before) => answer_from(alloc, lines, question, &free, before),
        Err(failure) => Err(unbuilt(failure)),
    }
}

// The answer where this piece was built.
fn answer_from(
    alloc: Global,
    lines: usize,
    question: &Question,
    free: &Free,
    before: Piece,
) -> Result<Answer, Failure<WouldFault>>
    ensures told { IfOk result (λ text. IsPiece free.now.unread question.now before
        → TellsFrom free.now.unread free.now.stranger question.now before text) }
    ensures refused { IfErr result (Blames (λ fault. IsPiece free.now.unread question.now before
        → StopsFrom lines free.now.unread free.now.stranger question.now before fault)) }
{
    let mut before = before;
    let mut after = before.copy()?;
    match change(alloc, &mut after, &free.unread, question.changes.as_slice()) {
        Ok(()) => tell(alloc, lines, question, free, &mut before, &mut after),
        Err(failure) => Err(unbuilt(failure)),
    }
}

// The answer of both states, if what is looked at is there.
fn tell(
    alloc: Global,
    lines: usize,
    question: &Question,
    free: &Free,
    before: &mut Piece,
    after: &mut Piece,
) -> Result<Answer, Failure<WouldFault>>
    ensures told { IfOk result (λ text. AreRows (rows_in before.old.keep)
        → AreRows (rows_in after.old.keep)
        → SaysFound question.now free.now.stranger (state_of before.old) (state_of after.old)
        text) }
    ensures refused { IfErr result (Blames (λ fault. AreRows (rows_in before.old.keep)
        → AreRows (rows_in after.old.keep) → CannotSay lines question.now free.now.stranger
        (state_of before.old) (state_of after.old) fault)) }
{
    match lost_look(alloc, &mut after.keep, question.looks.as_slice())? {
        Some(fault) => Err(Failure::Fault(fault)),
        None => tell_found(alloc, lines, question, free, before, after),
    }
}

// The same where it is.
fn tell_found(
    alloc: Global,
    lines: usize,
    question: &Question,
    free: &Free,
    before: &mut Piece,
    after: &mut Piece,
) -> Result<Answer, Failure<WouldFault>>
    ensures told { IfOk result (λ text. AreRows (rows_in before.old.keep)
        → AreRows (rows_in after.old.keep)
        → Says question.now free.now.stranger (state_of before.old) (state_of after.old) text) }
    ensures refused { IfErr result (Blames (λ fault. AreRows (rows_in before.old.keep)
        → AreRows (rows_in after.old.keep) → IsTooMuch lines question.now free.now.stranger
        (state_of before.old) (state_of after.old) fault)) }
{
    let asked = asked_of(alloc, question, &free.stranger, before, after)?;
    let objects = count_objects(&mut after.keep)?;
    let is_too_much = is_too_much(asked.parties.len(), objects);
    if is_too_much {
        return Err(too_much(lines));
    }
    Ok(rows_and_lists(alloc, question, before, after, &asked)?)
}

// The rows that are asked for, and the lists behind them.
fn rows_and_lists(
    alloc: Global,
    question: &Question,
    before: &mut Piece,
    after: &mut Piece,
    asked: &Asked,
) -> Result<Answer, AllocError>
    ensures { IfOk result (λ text. AreRows (rows_in before.old.keep)
        → AreRows (rows_in after.old.keep)
        → SaysAll question.now asked.now (state_of before.old) (state_of after.old) text) }
{
    let mut answer = compared(alloc, &mut before.keep, &mut after.keep, asked)?;
    if question.lists {
        let changes = question.changes.as_slice();
        push_lists(alloc, &mut answer, &mut after.keep, &after.unknown, changes)?;
    }
    Ok(answer)
}

// The rows that are asked for.
fn compared(
    alloc: Global,
    before: &mut MemKeep,
    after: &mut MemKeep,
    asked: &Asked,
) -> Result<Answer, AllocError>
    ensures { IfOk result (λ text. AreRows (rows_in before.old) → AreRows (rows_in after.old)
        → (rows_in after.new ≡ rows_in after.old)
        × IsCompared asked.now (rows_in before.old) (rows_in after.old) text) }
{
    match compare(alloc, before, after, asked) {
        Ok(answer) => Ok(answer),
        Err(fault) => Err(unheld(fault)),
    }
}
