//! Lists that were read or printed lately, so that a text that stands in many rows is read once,
//! and printed once.
ghost use Rattle.std.specs.Prelude.{◌≡◌, ◌≤◌, IfOk, IfSome, Some, length, string_bytes};
ghost use Rattle.room_ace.specs.Column.{entries_of};
ghost use Rattle.store_tables.specs.Printed.{IsPrinted};

use room_ace::{Entries, Entry, print_entries, read_entries};
use std::alloc::{AllocError, Global};
use std::marker::Model;

// How many texts are remembered, and how many bytes each has at most.
const MOST_TEXTS: usize = 64;

const LONGEST_TEXT: usize = 4096;

// A text that was read, and what it spells. A contract sees the text.
#[derive(Drop)]
struct ReadText {
    text: Vec<u8>,
    entries: Entries,
}

impl Model for ReadText {
    ghost use Rattle.std.specs.Prelude.{◌≡◌, ◌≤◌, List, ℕ, Some, length};
    ghost use Rattle.room_ace.specs.Column.{entries_of};

    ghost Value = { List ℕ };

    ghost view = { λ r. r.text.items };

    ghost invariant = { λ r. (entries_of r.text.items ≡ Some r.entries)
        × (length r.text.items ≤ 4096) };
}

impl ReadText {
    // A copy of what it spells, if it is this text.
    fn spelled(&self, text: &[u8]) -> Result<Option<Entries>, AllocError>
        ensures { IfOk result
            (λ found. IfSome found (λ entries. entries_of text.now ≡ Some entries)) }
    {
        if self.text.as_slice() == text {
            return Ok(Some(self.entries.copy()?));
        }
        Ok(None)
    }
}

// Entries that were printed, and their text. A contract sees the entries.
#[derive(Drop)]
struct PrintedText {
    entries: Entries,
    text: String,
}

impl Model for PrintedText {
    ghost use Rattle.std.specs.Prelude.{◌≤◌, List, length, string_bytes};
    ghost use Rattle.room_entry.specs.Ace.{Ace};
    ghost use Rattle.store_tables.specs.Printed.{IsPrinted};

    ghost Value = { List Ace };

    ghost view = { λ p. p.entries };

    ghost invariant = { λ p. IsPrinted p.entries (string_bytes p.text)
        × (length (string_bytes p.text) ≤ 4096) };
}

impl PrintedText {
    fn of(alloc: Global, entries: &[Entry], text: &str) -> Result<PrintedText, AllocError>
        requires spelled { IsPrinted entries.now text.now }
        requires short { length text.now ≤ LONGEST_TEXT }
        ensures { IfOk result (λ printed. printed ≡ entries.now) }
    {
        let text = String::from_str(alloc, text)?;
        let mut copy = Entries::new(alloc);
        copy.extend(entries)?;
        Ok(PrintedText {
            entries: copy,
            text,
        })
    }

    // A copy of its text, if it is that of these entries.
    fn spelling(&self, alloc: Global, entries: &[Entry]) -> Result<Option<String>, AllocError>
        ensures { IfOk result
            (λ found. IfSome found (λ text. IsPrinted entries.now (string_bytes text))) }
    {
        if self.entries.is_same(entries) {
            return Ok(Some(String::from_str(alloc, self.text.as_str())?));
        }
        Ok(None)
    }
}

// The texts that were read last, at most 64. A contract sees the texts.
#[derive(Drop)]
struct ReadTexts {
    items: Vec<ReadText>,
    // which is replaced next, once there are as many as there may be
    next: usize,
}

impl Model for ReadTexts {
    ghost use Rattle.std.specs.Prelude.{◌≤◌, List, ℕ, length};

    ghost Value = { List (List ℕ) };

    ghost view = { λ r. r.items.items };

    ghost invariant = { λ r. length r.items.items ≤ 64 };
}

impl ReadTexts {
    // Puts the text in, in the place of another one where there are as many as there may be.
    fn put(&mut self, read: ReadText) -> Result<(), AllocError> {
        if self.items.len() < MOST_TEXTS {
            self.items.push(read)?;
            return Ok(());
        }
        let place = self.next % MOST_TEXTS;
        self.items[place] = read;
        self.next = place + 1;
        Ok(())
    }
}

/// The lists that were read last, by their texts, and the last two that were printed: what a folder
/// passes to documents, and what it passes to folders. Equal texts spell equal entries whatever the
/// rows are, so that nothing makes them wrong.
#[derive(Drop)]
pub struct RecentLists {
    texts: Option<ReadTexts>,
    last: Option<PrintedText>,
    before: Option<PrintedText>,
}

impl RecentLists {
    /// None, which takes no memory.
    pub fn new() -> RecentLists {
        RecentLists {
            texts: None,
            last: None,
            before: None,
        }
    }

    /// The text of the entries, as `print_entries` has it.
    pub(crate) fn print(&mut self, alloc: Global, entries: &[Entry]) -> Result<String, AllocError>
        ensures { IfOk result (λ text. IsPrinted entries.now (string_bytes text)) }
    {
        if let Some(text) = spelling_in(&self.last, alloc, entries)? {
            return Ok(text);
        }
        if let Some(text) = spelling_in(&self.before, alloc, entries)? {
            return Ok(text);
        }
        let text = print_entries(alloc, entries)?;
        if text.len() <= LONGEST_TEXT {
            // without memory for it, it is printed again the next time
            let _ = self.keep(alloc, entries, text.as_str());
        }
        Ok(text)
    }

    fn keep(&mut self, alloc: Global, entries: &[Entry], text: &str) -> Result<(), AllocError>
        requires spelled { IsPrinted entries.now text.now }
        requires short { length text.now ≤ LONGEST_TEXT }
    {
        let printed = PrintedText::of(alloc, entries, text)?;
        self.before = self.last.take();
        self.last = Some(printed);
        Ok(())
    }

    /// The entries that the text spells, as `read_entries` has them.
    pub(crate) fn read(&mut self, alloc: Global, text: &[u8]) -> Result<Option<Entries>, AllocError>
        ensures { IfOk result (λ entries. entries ≡ entries_of text.now) }
    {
        if text.is_empty() || text.len() > LONGEST_TEXT {
            return read_entries(alloc, text);
        }
        if let Some(entries) = self.find(text)? {
            return Ok(Some(entries));
        }
        let Some(entries) = read_entries(alloc, text)? else {
            return Ok(None);
        };
        // without memory for it, it is read again the next time
        let _ = self.remember(alloc, text, &entries);
        Ok(Some(entries))
    }

    // A copy of what the text spells, if it is remembered.
    fn find(&mut self, text: &[u8]) -> Result<Option<Entries>, AllocError>
        ensures { IfOk result
            (λ found. IfSome found (λ entries. entries_of text.now ≡ Some entries)) }
    {
        match &mut self.texts {
            None => Ok(None),
            Some(texts) => find_among(&mut texts.items, text),
        }
    }

    fn remember(&mut self, alloc: Global, text: &[u8], entries: &Entries) -> Result<(), AllocError>
        requires spelled { entries_of text.now ≡ Some entries.now }
        requires short { length text.now ≤ LONGEST_TEXT }
    {
        let text = Vec::from_slice(alloc, text)?;
        let entries = entries.copy()?;
        self.put(alloc, ReadText { text, entries })
    }

    fn put(&mut self, alloc: Global, read: ReadText) -> Result<(), AllocError> {
        match &mut self.texts {
            None => {
                let mut texts = ReadTexts {
                    items: Vec::new(alloc),
                    next: 0,
                };
                texts.put(read)?;
                self.texts = Some(texts);
                Ok(())
            }
            Some(texts) => texts.put(read),
        }
    }
}

fn find_among(texts: &mut [ReadText], text: &[u8]) -> Result<Option<Entries>, AllocError>
    ensures found { IfOk result
        (λ found. IfSome found (λ entries. entries_of text.now ≡ Some entries)) }
{
    'texts: for index in 0..texts.len() {
        match texts[index].spelled(text)? {
            None => {}
            Some(entries) => {
                // what is asked for often comes to stand in front
                texts.swap(index, index / 2);
                return Ok(Some(entries));
            }
        }
    }
    Ok(None)
}

fn spelling_in(
    slot: &Option<PrintedText>,
    alloc: Global,
    entries: &[Entry],
) -> Result<Option<String>, AllocError>
    ensures { IfOk result
        (λ found. IfSome found (λ text. IsPrinted entries.now (string_bytes text))) }
{
    match slot {
        None => Ok(None),
        Some(printed) => printed.spelling(alloc, entries),
    }
}
