//! The lines of a question, each with those that stand below it and belong to it.
ghost use Rattle.std.specs.Prelude.{
  ◌≡◌,
  ◌==◌,
  ◌∷◌,
  ◌+◌,
  ◌++◌,
  ◌<◌,
  ◌≤◌,
  ◌^◌,
  [],
  length,
  take,
  drop,
  true,
  MatchOption,
};
ghost use Rattle.std.specs.List.{list_all};
ghost use Rattle.room_ace.specs.Lists.{lines_of};
ghost use Rattle.room_entry.specs.Pieces.{same_text};
ghost use Rattle.room_question.specs.Items.{begins_as_entry, belongs_above, items_from};
ghost use Rattle.room_question.specs.Cut.{IsCut};

use room_ace::split_line;

/// What is left of a question's text, and how many of its lines stand before that.
#[derive(Drop)]
pub(crate) struct Lines<'a> {
    pub(crate) rest: &'a [u8],
    pub(crate) passed: usize,
}

/// A line, its number, and the text of the lines below it that belong to it.
#[derive(Clone, Copy)]
pub(crate) struct Item<'a> {
    pub(crate) number: usize,
    pub(crate) line: &'a [u8],
    pub(crate) below: &'a [u8],
}

impl<'a> Lines<'a> {
    /// The next line with those that belong to it.
    pub(crate) fn next_item(&mut self) -> Option<Item<'a>>
        requires { self.old.passed + length self.old.rest.now < 2 ^ 63 }
        ensures item { MatchOption result (self.old.rest.now ≡ [])
            (λ item. items_from (self.old.passed + 1) (lines_of self.old.rest.now)
            ≡ record { number = item.number; line = item.line.now; below = lines_of item.below.now }
            ∷ items_from (self.new.passed + 1) (lines_of self.new.rest.now)) }
        ensures number { MatchOption result (self.new.rest.now ≡ [])
            (λ item. item.number + length item.below.now ≤ self.old.passed + length self.old.rest.now) }
        ensures less { MatchOption result (self.new.rest.now ≡ [])
            (λ item. length self.new.rest.now < length self.old.rest.now) }
        ensures bound { self.new.passed + length self.new.rest.now
            ≤ self.old.passed + length self.old.rest.now }
    {
        match split_line(self.rest) {
            None => None,
            Some((line, behind)) => {
                let number = self.passed + 1;
                let (count, below) = cut_below(behind);
                self.passed = number + count;
                self.rest = &behind[below.len()..];
                Some(Item {
                    number,
                    line,
                    below,
                })
            }
        }
    }
}

// How many lines at the front belong to the one above them, and their text.
fn cut_below(bytes: &[u8]) -> (usize, &[u8])
    ensures { IsCut bytes.now result.0 result.1.now }
{
    let mut count = 0;
    let mut rest = bytes;
    while let Some((line, behind)) = split_line(rest) {
        if !belongs_above(line) {
            break;
        }
        count += 1;
        rest = behind;
    }
    (count, &bytes[..bytes.len() - rest.len()])
}

// Whether the line belongs to the one above it.
fn belongs_above(line: &[u8]) -> bool
    ensures { result ≡ belongs_above line.now }
{
    begins_as_entry(line)
        || line.starts_with(b"list:")
        || line == b"follows".as_slice()
        || line == b"unread".as_slice()
        || line.starts_with(b"to ")
}

// A letter and a colon.
fn begins_as_entry(line: &[u8]) -> bool
    ensures { result ≡ begins_as_entry line.now }
{
    match line {
        [_, byte, ..] => *byte == b':',
        _ => false,
    }
}
