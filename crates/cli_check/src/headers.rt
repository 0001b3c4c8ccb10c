//! The header lines of an input: who asks, at which object, for what.
ghost use Rattle.std.specs.Prelude.{◌≡◌, ℕ, ◌≤◌, [], ◌∷◌, Result, Ok, Err, length, MatchOption};
ghost use Rattle.room_entry.specs.Bytes.{comma};
ghost use Rattle.room_entry.specs.Gives.{Gives};
ghost use Rattle.room_ace.specs.Lists.{lines_of};
ghost use Rattle.room_entry.specs.Pieces.{pieces};
ghost use Rattle.cli_check.specs.declared.fault.InputWhy.{InputWhy};
ghost use Rattle.cli_check.specs.declared.fault.InputWhy.TheVariants.{BadHeader};
ghost use Rattle.cli_check.specs.Given.{GivesBy};
ghost use Rattle.cli_check.specs.Check.{ask_line, checked_mask, at_line, caller_line, cut_header};
ghost use Rattle.cli_check.specs.Check.{groups_line, checked_groups, checked_name, checked_names};
ghost use Rattle.cli_check.specs.Check.{owners_line};
ghost use Rattle.cli_check.specs.Check.{owners_of, user_of, value_of, without_spaces};

use crate::fault::{InputFault, InputWhy};
use room_ace::{
    Failure, Mask, Name, Names, Owners, TextFault, Why, map_fault, read_mask, read_name,
    split_line, text_of,
};
use room_entry::cut;
use std::alloc::Global;

/// The caller's name in the first of the lines, if there is one. The lines below are left.
pub fn read_caller(alloc: Global, rest: &mut &[u8]) -> Result<Option<Name>, Failure<InputFault>>
    ensures said { GivesBy (λ user. (user, lines_of rest.new.now)) result
        (caller_line (lines_of rest.old.now)) }
    ensures left { length rest.new.now ≤ length rest.old.now }
{
    let value = cut_header(1, b"caller:", rest)?;
    in_line(1, user_in(alloc, value))
}

/// The caller's groups in the first of the lines. The lines below are left.
pub fn read_groups_line(
    alloc: Global,
    user: &Option<Name>,
    rest: &mut &[u8],
) -> Result<Names, Failure<InputFault>>
    ensures said { GivesBy (λ groups. (groups, lines_of rest.new.now)) result
        (groups_line user.now (lines_of rest.old.now)) }
    ensures left { length rest.new.now ≤ length rest.old.now }
{
    let value = cut_header(2, b"groups:", rest)?;
    in_line(2, groups_in(alloc, user, value))
}

/// The owner and the owning group in the first of the lines. The lines below are left.
pub fn read_owners(alloc: Global, rest: &mut &[u8]) -> Result<Owners, Failure<InputFault>>
    ensures said { GivesBy (λ owners. (owners, lines_of rest.new.now)) result
        (owners_line (lines_of rest.old.now)) }
    ensures left { length rest.new.now ≤ length rest.old.now }
{
    let value = cut_header(3, b"owners:", rest)?;
    in_line(3, owners_in(alloc, value))
}

/// The bits that are asked in the first of the lines. The lines below are left.
pub fn read_asked(rest: &mut &[u8]) -> Result<Mask, Failure<InputFault>>
    ensures said { GivesBy (λ asked. (asked, lines_of rest.new.now)) result
        (ask_line (lines_of rest.old.now)) }
    ensures left { length rest.new.now ≤ length rest.old.now }
{
    let value = cut_header(4, b"ask:", rest)?;
    in_line(4, asked_in(value))
}

// What was read, with the line where its fault stands.
fn in_line<T>(line: usize, read: Result<T, Failure<InputWhy>>) -> Result<T, Failure<InputFault>>
    ensures { (defined : Result T InputWhy)
        → Gives read defined → Gives result (at_line line defined) }
{
    map_fault(read, |why| InputFault { line, why })
}

// The value of the header that the first line is. The lines below are left.
fn cut_header<'a>(
    line: usize,
    word: &[u8],
    rest: &mut &'a [u8],
) -> Result<&'a [u8], Failure<InputFault>>
    ensures said { GivesBy (λ value. (value.now, lines_of rest.new.now)) result
        (cut_header line word.now (lines_of rest.old.now)) }
    ensures left { length rest.new.now ≤ length rest.old.now }
{
    let bad = Failure::Fault(InputFault {
        line,
        why: InputWhy::BadHeader,
    });
    match split_line(*rest) {
        None => Err(bad),
        Some((first, below)) => {
            *rest = below;
            match value_of(word, first) {
                None => Err(bad),
                Some(value) => Ok(value),
            }
        }
    }
}

// What stands after the word, if the line begins with it.
fn value_of<'a>(word: &[u8], line: &'a [u8]) -> Option<&'a [u8]>
    ensures { MatchOption result (value_of word.now line.now ≡ Err BadHeader)
        (λ value. value_of word.now line.now ≡ Ok value.now) }
{
    if !line.starts_with(word) {
        return None;
    }
    Some(without_spaces(&line[word.len()..]))
}

// The bytes from the first that is no space.
fn without_spaces(bytes: &[u8]) -> &[u8]
    ensures { result.now ≡ without_spaces bytes.now }
{
    for (index, byte) in bytes.iter().enumerate() {
        if *byte != b' ' {
            return &bytes[index..];
        }
    }
    &[]
}

// The name that the bytes are.
fn checked_name(alloc: Global, value: &[u8]) -> Result<Name, Failure<InputWhy>>
    ensures { Gives result (checked_name value.now) }
{
    let text = match text_of(value) {
        None => return Err(Failure::Fault(InputWhy::BadName)),
        Some(text) => text,
    };
    map_fault(read_name(alloc, text), |_| InputWhy::BadName)
}

// The caller's name, or none for an anonymous caller.
fn user_in(alloc: Global, value: &[u8]) -> Result<Option<Name>, Failure<InputWhy>>
    ensures { Gives result (user_of value.now) }
{
    if value.is_empty() {
        return Ok(None);
    }
    let name = checked_name(alloc, value)?;
    Ok(Some(name))
}

// The caller's groups, which an anonymous caller can't have.
fn groups_in(alloc: Global, user: &Option<Name>, value: &[u8]) -> Result<Names, Failure<InputWhy>>
    ensures { Gives result (checked_groups user.now value.now) }
{
    if value.is_empty() {
        return Ok(Names::new(alloc));
    }
    match user {
        None => Err(Failure::Fault(InputWhy::BadName)),
        Some(_) => checked_names(alloc, value),
    }
}

// The names between commas.
fn checked_names(alloc: Global, value: &[u8]) -> Result<Names, Failure<InputWhy>>
    ensures { Gives result (checked_names (pieces comma value.now)) }
{
    let mut names = Names::new(alloc);
    let mut rest = value;
    while let Some((part, behind)) = cut(rest, &b',') {
        let name = checked_name(alloc, part)?;
        names.push(name)?;
        rest = behind;
    }
    let name = checked_name(alloc, rest)?;
    names.push(name)?;
    Ok(names)
}

// An owner and an owning group, round one colon.
fn owners_in(alloc: Global, value: &[u8]) -> Result<Owners, Failure<InputWhy>>
    ensures { Gives result (owners_of value.now) }
{
    let (owner, group) = match cut(value, &b':') {
        None => return Err(Failure::Fault(InputWhy::BadName)),
        Some(parts) => parts,
    };
    match cut(group, &b':') {
        Some(_) => Err(Failure::Fault(InputWhy::BadName)),
        None => {
            let owner = checked_name(alloc, owner)?;
            let group = checked_name(alloc, group)?;
            Ok(Owners { owner, group })
        }
    }
}

// The bits that the letters spell.
fn asked_in(value: &[u8]) -> Result<Mask, Failure<InputWhy>>
    ensures { Gives result (checked_mask value.now) }
{
    let bad = Failure::Fault(InputWhy::Text(Why::Entry(TextFault::BadMask)));
    match text_of(value) {
        None => Err(bad),
        Some(text) => match read_mask(text) {
            Ok(mask) => Ok(mask),
            Err(_) => Err(bad),
        },
    }
}
