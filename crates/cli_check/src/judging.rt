//! The judging of one list from bytes, without a room.
ghost use Rattle.std.specs.Prelude.{◌≡◌, IfOk, length, nat_lt, string_bytes};
ghost use Rattle.room_entry.specs.Letters.{mask_text};
ghost use Rattle.cli_check.specs.Check.{judged};
ghost use Rattle.cli_check.specs.Reply.{place_text, reply_status, judged_text, text_at};
ghost use Rattle.cli_check.specs.Reply.{verdict_status, verdict_text};

use crate::fault::InputFault;
use crate::question::read_question;
use cli_outcome::Status;
use room_ace::{Entry, EntryFault, Failure, MOST_BYTES, Mask, SentList, print_entry};
use room_eval::Verdict;
use std::alloc::{AllocError, Global};

/// The answer to an input.
#[derive(Drop)]
pub enum Judged {
    /// What the list says.
    Says(SentList, Verdict),
    /// The input has too many bytes.
    TooLong,
    /// The first line that has a fault.
    AtLine(InputFault),
    /// The first entry that isn't valid.
    AtEntry(EntryFault),
}

/// A line of text without its end, and how it ends the program.
#[derive(Drop)]
pub struct CheckReply {
    /// The text.
    pub text: String,
    /// `Done` where all is granted, `Found` where the list denies, and `Refused` where the input is
    /// refused.
    pub status: Status,
}

/// What `rooms check` prints for an input: four header lines, then the text of a list. It ends with
/// `Done` where all is granted, with `Found` where the list denies, and with `Refused` where the
/// input is refused.
pub fn check(alloc: Global, input: &[u8]) -> Result<CheckReply, AllocError>
    ensures { IfOk result (λ reply.
        (string_bytes reply.text ≡ judged_text (judged input.now))
        × (reply.status ≡ reply_status (judged input.now))) }
{
    let told = judge(alloc, input)?;
    told.reply(alloc)
}

// The first fault of the input, or what its list says.
fn judge(alloc: Global, input: &[u8]) -> Result<Judged, AllocError>
    ensures { IfOk result (λ told. told ≡ judged input.now) }
{
    if is_too_long(input) {
        return Ok(Judged::TooLong);
    }
    match read_question(alloc, input) {
        Ok(question) => Ok(question.judge()),
        Err(Failure::OutOfMemory) => Err(AllocError),
        Err(Failure::Fault(fault)) => Ok(Judged::AtLine(fault)),
    }
}

fn is_too_long(input: &[u8]) -> bool
    ensures { result ≡ nat_lt MOST_BYTES (length input.now) }
{
    input.len() > MOST_BYTES
}

impl Judged {
    // The line that is printed, and the status.
    fn reply(&self, alloc: Global) -> Result<CheckReply, AllocError>
        ensures { IfOk result (λ reply.
            (string_bytes reply.text ≡ judged_text self.now)
            × (reply.status ≡ reply_status self.now)) }
    {
        Ok(CheckReply {
            text: self.text(alloc)?,
            status: self.status(),
        })
    }

    // The text that is printed, without the end of its line.
    fn text(&self, alloc: Global) -> Result<String, AllocError>
        ensures { IfOk result (λ text. string_bytes text ≡ judged_text self.now) }
    {
        match self {
            Judged::Says(list, verdict) => verdict_text(alloc, list.entries().as_slice(), *verdict),
            Judged::TooLong => String::from_str(alloc, "refused: input too long"),
            Judged::AtLine(fault) => {
                let line = fault.line;
                let why = fault.why.as_str();
                format!(in alloc; "refused: line {line}: {why}")
            }
            Judged::AtEntry(fault) => {
                let place = fault.place;
                let why = fault.why.as_str();
                format!(in alloc; "refused: entry {place}: {why}")
            }
        }
    }

    // How the program ends.
    fn status(&self) -> Status
        ensures { result ≡ reply_status self.now }
    {
        match self {
            Judged::Says(_, verdict) => verdict_status(*verdict),
            Judged::TooLong => Status::Refused,
            Judged::AtLine(_) => Status::Refused,
            Judged::AtEntry(_) => Status::Refused,
        }
    }
}

fn verdict_status(verdict: Verdict) -> Status
    ensures { result ≡ verdict_status verdict }
{
    match verdict {
        Verdict::Granted => Status::Done,
        Verdict::Denied { .. } => Status::Found,
    }
}

fn verdict_text(alloc: Global, entries: &[Entry], verdict: Verdict) -> Result<String, AllocError>
    ensures { IfOk result (λ text. string_bytes text ≡ verdict_text entries.now verdict) }
{
    match verdict {
        Verdict::Granted => String::from_str(alloc, "granted"),
        Verdict::Denied { bits, place } => {
            let letters = letters_of(alloc, bits)?;
            let place = place_text(alloc, entries, place)?;
            format!(in alloc; "denied bits {letters}{place}")
        }
    }
}

fn letters_of(alloc: Global, bits: Mask) -> Result<String, AllocError>
    ensures { IfOk result (λ text. string_bytes text ≡ mask_text bits) }
{
    let mut text = String::new(alloc);
    bits.push_letters(&mut text)?;
    Ok(text)
}

// The place that denies, and the entry there.
fn place_text(alloc: Global, entries: &[Entry], place: Option<usize>) -> Result<String, AllocError>
    ensures { IfOk result (λ text. string_bytes text ≡ place_text entries.now place) }
{
    match place {
        None => String::from_str(alloc, " no entry"),
        Some(place) => {
            let entry = entry_at(alloc, entries, place)?;
            format!(in alloc; " entry {place} {entry}")
        }
    }
}

// The printed entry at a place, which counts from 1.
fn entry_at(alloc: Global, entries: &[Entry], place: usize) -> Result<String, AllocError>
    ensures { IfOk result (λ text. string_bytes text ≡ text_at entries.now place) }
{
    match entries.get(place.saturating_sub(1)) {
        None => Ok(String::new(alloc)),
        Some(entry) => print_entry(alloc, entry),
    }
}
