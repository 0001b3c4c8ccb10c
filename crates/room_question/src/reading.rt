//! Reading the text of a question.
ghost use Rattle.std.specs.Prelude.{◌≡◌, ◌+◌, ◌<◌, ◌≤◌, ◌^◌, length, take};
ghost use Rattle.room_question.specs.declared.limits.TheConstants.{MOST_QUESTION};
ghost use Rattle.room_ace.specs.Lists.{lines_of};
ghost use Rattle.room_entry.specs.Gives.{Gives};
ghost use Rattle.room_question.specs.Items.{items_from};
ghost use Rattle.room_question.specs.Reading.{nothing_said, question_from, question_of};
ghost use Rattle.room_question.specs.Reading.{with_objects};
ghost use Rattle.room_question.specs.Words.{and_then};

use crate::draft::Draft;
use crate::fault::{QuestionFault, QuestionWhy, fault_at};
use crate::limits::MOST_QUESTION;
use crate::lines::Lines;
use crate::question::Question;
use crate::saying::said_of;
use room_ace::{Failure, split_line};
use std::alloc::Global;

/// The question that the bytes spell, or the fault of the first line that has one, or that memory
/// ran out.
pub fn read_question(alloc: Global, bytes: &[u8]) -> Result<Question, Failure<QuestionFault>>
    ensures { Gives result (question_of bytes.now) }
{
    if bytes.len() > MOST_QUESTION {
        let line = count_lines(&bytes[..MOST_QUESTION + 1]);
        return Err(fault_at(line, QuestionWhy::TooMuch));
    }
    let draft = read_items(alloc, bytes)?;
    if draft.has_no_object() {
        return Err(fault_at(count_lines(bytes) + 1, QuestionWhy::NoFolder));
    }
    Ok(draft.into_question())
}

// What all lines say.
fn read_items(alloc: Global, bytes: &[u8]) -> Result<Draft, Failure<QuestionFault>>
    requires { length bytes.now ≤ MOST_QUESTION }
    ensures { Gives result (question_from nothing_said (items_from 1 (lines_of bytes.now))) }
{
    let mut draft = Draft::new(alloc);
    let mut lines = Lines {
        rest: bytes,
        passed: 0,
    };
    while let Some(item) = lines.next_item() {
        let said = said_of(alloc, &item)?;
        draft = draft.with(alloc, item.number, said)?;
    }
    Ok(draft)
}

// How many lines there are.
fn count_lines(bytes: &[u8]) -> usize
    requires { length bytes.now ≤ MOST_QUESTION + 1 }
    ensures few { result ≤ length bytes.now }
    ensures count { result ≡ length (lines_of bytes.now) }
{
    let mut count = 0;
    let mut rest = bytes;
    while let Some((_, behind)) = split_line(rest) {
        count += 1;
        rest = behind;
    }
    count
}
