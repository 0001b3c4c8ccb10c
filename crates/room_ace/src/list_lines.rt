//! The lines of a list's text that are neither blank nor comments.
ghost use Rattle.std.specs.Prelude.{◌≡◌, ◌∷◌, ◌+◌, ◌<◌, ◌≤◌, ◌^◌, [], codes, length, MatchOption};
ghost use Rattle.std.specs.List.{list_all};
ghost use Rattle.room_ace.specs.Lists.{flags_of_list, is_blank, is_comment, lines_of};
ghost use Rattle.room_entry.specs.Pieces.{is_among};
ghost use Rattle.room_ace.specs.Reading.{lines_after, list_flags};

use crate::lines::split_line;
use room_entry::ListFlags;

/// What is left of a list's text, and how many of its lines stand before that.
#[derive(Drop)]
pub(crate) struct ListLines<'a> {
    pub(crate) rest: &'a [u8],
    pub(crate) passed: usize,
}

impl<'a> ListLines<'a> {
    /// The next line that is neither blank nor a comment; its number is then `passed`.
    pub(crate) fn next_line(&mut self) -> Option<&'a [u8]>
        requires { self.old.passed + length self.old.rest.now < 2 ^ 64 }
        ensures line { MatchOption result (lines_after self.old.passed self.old.rest.now ≡ [])
            (λ line. lines_after self.old.passed self.old.rest.now
            ≡ (self.new.passed, line.now) ∷ lines_after self.new.passed self.new.rest.now) }
        ensures all { self.new.passed + length (lines_of self.new.rest.now)
            ≡ self.old.passed + length (lines_of self.old.rest.now) }
        ensures end { MatchOption result (self.new.rest.now ≡ [])
            (λ _. length self.new.rest.now < length self.old.rest.now) }
        ensures bound { self.new.passed + length self.new.rest.now
            ≤ self.old.passed + length self.old.rest.now }
    {
        while let Some((line, rest)) = split_line(self.rest) {
            self.rest = rest;
            self.passed += 1;
            if !is_blank(line) && !is_comment(line) {
                return Some(line);
            }
        }
        None
    }
}

/// The flags that the list line spells, if the line is one.
pub(crate) fn flags_of_list(line: &[u8]) -> Option<ListFlags>
    ensures { result ≡ flags_of_list line.now }
{
    if line.starts_with(b"list:") {
        flags_of_letters(&line[5..])
    } else {
        None
    }
}

// The flags of these letters, if no other letter is among them.
fn flags_of_letters(letters: &[u8]) -> Option<ListFlags>
    ensures { result ≡ list_flags letters.now }
{
    if are_list_letters(letters) {
        Some(ListFlags {
            auto: letters.contains(&b'a'),
            protect: letters.contains(&b'p'),
        })
    } else {
        None
    }
}

fn are_list_letters(letters: &[u8]) -> bool
    ensures { result ≡ list_all (is_among (codes "ap")) letters.now }
{
    letters.iter().all(|letter| b"ap".contains(letter))
}

// Nothing but spaces and tabs.
pub(crate) fn is_blank(line: &[u8]) -> bool
    ensures { result ≡ is_blank line.now }
{
    line.iter().all(|byte| *byte == b' ' || *byte == b'\t')
}

pub(crate) fn is_comment(line: &[u8]) -> bool
    ensures { result ≡ is_comment line.now }
{
    line.starts_with(b"#")
}
