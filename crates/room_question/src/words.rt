//! The words of a line.
ghost use Rattle.std.specs.Prelude.{◌≡◌, ◌==◌, MatchOption, None, Some};
ghost use Rattle.std.specs.List.{position};
ghost use Rattle.room_entry.specs.Bytes.{space};
ghost use Rattle.room_entry.specs.Gives.{Gives};
ghost use Rattle.room_entry.specs.Pieces.{same_text};
ghost use Rattle.room_question.specs.Words.{GivesWords, cut_word, word_at, word_of};

use crate::fault::{QuestionFault, QuestionWhy, fault_at};
use room_ace::Failure;

/// The word that a line begins with.
#[derive(Clone, Copy, Debug, PartialEq, Eq)]
pub(crate) enum Word {
    Member,
    As,
    Folder,
    Document,
    FolderComes,
    DocumentComes,
    Set,
    Move,
    Look,
}

/// What stands before the first space, and what stands behind it.
pub(crate) fn cut_word(bytes: &[u8]) -> Option<(&[u8], &[u8])>
    ensures { MatchOption result (cut_word bytes.now ≡ None)
        (λ cut. cut_word bytes.now ≡ Some (cut.0.now, cut.1.now)) }
{
    match place_of_space(bytes) {
        None => None,
        Some(place) => Some((&bytes[..place], &bytes[place + 1..])),
    }
}

// Where the first space stands.
fn place_of_space(bytes: &[u8]) -> Option<usize>
    ensures { result ≡ position (λ byte. byte == space) bytes.now }
{
    bytes.iter().position(|byte| *byte == b' ')
}

/// The first word, and what stands behind it. There has to be a space.
pub(crate) fn word_at(line: usize, bytes: &[u8]) -> Result<(&[u8], &[u8]), Failure<QuestionFault>>
    ensures { GivesWords (λ cut. (cut.0.now, cut.1.now)) result (word_at line bytes.now) }
{
    match cut_word(bytes) {
        None => Err(fault_at(line, QuestionWhy::NoSuchLine)),
        Some(cut) => Ok(cut),
    }
}

// Whether the bytes are those of the word.
pub(crate) fn spells(bytes: &[u8], word: &str) -> bool
    ensures { result ≡ same_text bytes.now word.now }
{
    bytes == word.as_bytes()
}

/// The word that these bytes are, if a line begins with it.
pub(crate) fn word_of(bytes: &[u8]) -> Option<Word>
    ensures { result ≡ word_of bytes.now }
{
    if spells(bytes, "member") {
        Some(Word::Member)
    } else if spells(bytes, "as") {
        Some(Word::As)
    } else if spells(bytes, "folder") {
        Some(Word::Folder)
    } else if spells(bytes, "document") {
        Some(Word::Document)
    } else if spells(bytes, "folder+") {
        Some(Word::FolderComes)
    } else if spells(bytes, "document+") {
        Some(Word::DocumentComes)
    } else if spells(bytes, "set") {
        Some(Word::Set)
    } else if spells(bytes, "move") {
        Some(Word::Move)
    } else if spells(bytes, "look") {
        Some(Word::Look)
    } else {
        None
    }
}
