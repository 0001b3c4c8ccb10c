//! The names and paths of a line.
ghost use Rattle.std.specs.Prelude.{◌≡◌};
ghost use Rattle.room_entry.specs.Bytes.{comma};
ghost use Rattle.room_entry.specs.Gives.{Gives};
ghost use Rattle.room_entry.specs.Pieces.{pieces};
ghost use Rattle.room_question.specs.Words.{group_at, name_at, names_at, owner_at, path_at};
ghost use Rattle.room_question.specs.Words.{user_at};

use crate::fault::{QuestionFault, QuestionWhy, fault_at};
use crate::question::Owner;
use crate::words::spells;
use room_ace::{Failure, Name, Names};
use room_entry::{cut, name_in};
use room_rows::{Path, read_path};
use std::alloc::Global;

/// The name that the bytes are.
pub(crate) fn name_at(
    alloc: Global,
    line: usize,
    bytes: &[u8],
) -> Result<Name, Failure<QuestionFault>>
    ensures { Gives result (name_at line bytes.now) }
{
    match name_in(alloc, bytes) {
        Ok(name) => Ok(name),
        Err(failure) => Err(match failure {
            Failure::OutOfMemory => Failure::OutOfMemory,
            Failure::Fault(_) => fault_at(line, QuestionWhy::BadName),
        }),
    }
}

/// The names between commas.
pub(crate) fn names_at(
    alloc: Global,
    line: usize,
    bytes: &[u8],
) -> Result<Names, Failure<QuestionFault>>
    ensures { Gives result (names_at line (pieces comma bytes.now)) }
{
    let mut names = Names::new(alloc);
    let mut rest = bytes;
    'parts: while let Some((part, behind)) = cut(rest, &b',') {
        let name = name_at(alloc, line, part)?;
        names.push(name)?;
        rest = behind;
    }
    let name = name_at(alloc, line, rest)?;
    names.push(name)?;
    Ok(names)
}

/// The user who is named, or none for a name that nothing names.
pub(crate) fn user_at(
    alloc: Global,
    line: usize,
    bytes: &[u8],
) -> Result<Option<Name>, Failure<QuestionFault>>
    ensures { Gives result (user_at line bytes.now) }
{
    if spells(bytes, "*") {
        return Ok(None);
    }
    let name = name_at(alloc, line, bytes)?;
    Ok(Some(name))
}

/// The owner, if it is known.
pub(crate) fn owner_at(
    alloc: Global,
    line: usize,
    bytes: &[u8],
) -> Result<Owner, Failure<QuestionFault>>
    ensures { Gives result (owner_at line bytes.now) }
{
    if spells(bytes, "?") {
        return Ok(Owner::Unread);
    }
    if spells(bytes, "=") {
        return Ok(Owner::Each);
    }
    let name = name_at(alloc, line, bytes)?;
    Ok(Owner::User(name))
}

/// The owning group, if it is known.
pub(crate) fn group_at(
    alloc: Global,
    line: usize,
    bytes: &[u8],
) -> Result<Option<Name>, Failure<QuestionFault>>
    ensures { Gives result (group_at line bytes.now) }
{
    if spells(bytes, "?") {
        return Ok(None);
    }
    let name = name_at(alloc, line, bytes)?;
    Ok(Some(name))
}

/// The path that the bytes are.
pub(crate) fn path_at(
    alloc: Global,
    line: usize,
    bytes: &[u8],
) -> Result<Path, Failure<QuestionFault>>
    ensures { Gives result (path_at line bytes.now) }
{
    match read_path(alloc, bytes) {
        Ok(path) => Ok(path),
        Err(failure) => Err(match failure {
            Failure::OutOfMemory => Failure::OutOfMemory,
            Failure::Fault(fault) => fault_at(line, QuestionWhy::Path(fault)),
        }),
    }
}
