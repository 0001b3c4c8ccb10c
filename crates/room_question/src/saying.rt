//! What a line says, with the lines below it that belong to it.
ghost use Rattle.std.specs.Prelude.{◌≡◌, ◌+◌, ◌∷◌, ◌<◌, ◌≤◌, ◌^◌, [], length, MatchOption, None, Some};
ghost use Rattle.std.specs.Cmp.Lexicographic.{pointwise};
ghost use Rattle.room_ace.specs.Lists.{lines_of};
ghost use Rattle.room_entry.specs.Gives.{Gives};
ghost use Rattle.room_entry.specs.Pieces.{same_text};
ghost use Rattle.room_question.specs.Saying.{
  list_at,
  listed_at,
  member_at,
  moving_at,
  nothing_at,
  object_at,
  said_alone,
  said_by,
  said_of,
  setting_at,
  supposed_at,
  look_at,
  to_at,
  words_to,
};

use crate::fault::{QuestionFault, QuestionWhy, fault_at};
use crate::lines::Item;
use crate::names::{group_at, name_at, names_at, owner_at, path_at, user_at};
use crate::question::{Change, Listed, Look, Moving, Object, Setting, Supposed};
use crate::words::{Word, cut_word, spells, word_at, word_of};
use room_ace::{Failure, Name, ObjKind, SentList, read_list, split_line};
use room_rows::Path;
use std::alloc::Global;

/// What a line says.
#[derive(Drop)]
pub(crate) enum Said {
    /// A user is in a group.
    Pair(Name, Name),
    /// A caller who may be.
    Caller(Supposed),
    /// An object is there.
    Stands(Object),
    /// Something is changed.
    Changes(Change),
    /// Rows are asked for as they are.
    Looks(Look),
    /// Lists are asked for.
    Lists,
}

/// What the line says, or the first fault of it or of those below it.
pub(crate) fn said_of(alloc: Global, item: &Item<'_>) -> Result<Said, Failure<QuestionFault>>
    requires { item.now.number + length item.now.below.now < 2 ^ 63 }
    ensures { Gives result (said_of item.now.number item.now.line.now (lines_of item.now.below.now)) }
{
    match cut_word(item.line) {
        None => said_alone(item),
        Some((word, words)) => match word_of(word) {
            None => Err(fault_at(item.number, QuestionWhy::NoSuchLine)),
            Some(word) => said_by(alloc, item, word, words),
        },
    }
}

// What a line of one word says.
fn said_alone(item: &Item<'_>) -> Result<Said, Failure<QuestionFault>>
    requires { item.now.number + length item.now.below.now < 2 ^ 63 }
    ensures { Gives result
        (said_alone item.now.number item.now.line.now (lines_of item.now.below.now)) }
{
    if !spells(item.line, "lists") {
        return Err(fault_at(item.number, QuestionWhy::NoSuchLine));
    }
    nothing_at(item)?;
    Ok(Said::Lists)
}

// What a line says that begins with this word.
fn said_by(
    alloc: Global,
    item: &Item<'_>,
    word: Word,
    words: &[u8],
) -> Result<Said, Failure<QuestionFault>>
    requires { item.now.number + length item.now.below.now < 2 ^ 63 }
    ensures { Gives result
        (said_by item.now.number word words.now (lines_of item.now.below.now)) }
{
    match word {
        Word::Member => {
            let (group, user) = member_at(alloc, item, words)?;
            Ok(Said::Pair(group, user))
        }
        Word::As => {
            let supposed = supposed_at(alloc, item, words)?;
            Ok(Said::Caller(supposed))
        }
        Word::Folder => {
            let object = object_at(alloc, item, ObjKind::Folder, words)?;
            Ok(Said::Stands(object))
        }
        Word::Document => {
            let object = object_at(alloc, item, ObjKind::Document, words)?;
            Ok(Said::Stands(object))
        }
        Word::FolderComes => {
            let object = object_at(alloc, item, ObjKind::Folder, words)?;
            Ok(Said::Changes(Change::Comes(object)))
        }
        Word::DocumentComes => {
            let object = object_at(alloc, item, ObjKind::Document, words)?;
            Ok(Said::Changes(Change::Comes(object)))
        }
        Word::Set => {
            let setting = setting_at(alloc, item, words)?;
            Ok(Said::Changes(Change::Sets(setting)))
        }
        Word::Move => {
            let moving = moving_at(alloc, item, words)?;
            Ok(Said::Changes(Change::Moves(moving)))
        }
        Word::Look => {
            let look = look_at(alloc, item, words)?;
            Ok(Said::Looks(look))
        }
    }
}

// Nothing may stand below the line.
fn nothing_at(item: &Item<'_>) -> Result<(), Failure<QuestionFault>>
    requires { item.now.number + length item.now.below.now < 2 ^ 63 }
    ensures { Gives result (nothing_at item.now.number (lines_of item.now.below.now)) }
{
    match split_line(item.below) {
        None => Ok(()),
        Some(_) => Err(fault_at(item.number + 1, QuestionWhy::NoSuchLine)),
    }
}

// A group and a user.
fn member_at(
    alloc: Global,
    item: &Item<'_>,
    words: &[u8],
) -> Result<(Name, Name), Failure<QuestionFault>>
    requires { item.now.number + length item.now.below.now < 2 ^ 63 }
    ensures { Gives result (member_at item.now.number words.now (lines_of item.now.below.now)) }
{
    let (group, user) = word_at(item.number, words)?;
    nothing_at(item)?;
    let group = name_at(alloc, item.number, group)?;
    let user = name_at(alloc, item.number, user)?;
    Ok((group, user))
}

// A caller who may be.
fn supposed_at(
    alloc: Global,
    item: &Item<'_>,
    words: &[u8],
) -> Result<Supposed, Failure<QuestionFault>>
    requires { item.now.number + length item.now.below.now < 2 ^ 63 }
    ensures { Gives result (supposed_at item.now.number words.now (lines_of item.now.below.now)) }
{
    let (label, behind) = word_at(item.number, words)?;
    let (user, groups) = word_at(item.number, behind)?;
    nothing_at(item)?;
    let label = name_at(alloc, item.number, label)?;
    let user = user_at(alloc, item.number, user)?;
    let groups = names_at(alloc, item.number, groups)?;
    Ok(Supposed {
        label,
        user,
        groups,
    })
}

// An object.
fn object_at(
    alloc: Global,
    item: &Item<'_>,
    kind: ObjKind,
    words: &[u8],
) -> Result<Object, Failure<QuestionFault>>
    requires { item.now.number + length item.now.below.now < 2 ^ 63 }
    ensures { Gives result
        (object_at item.now.number kind words.now (lines_of item.now.below.now)) }
{
    let (owner, behind) = word_at(item.number, words)?;
    let (group, path) = word_at(item.number, behind)?;
    let owner = owner_at(alloc, item.number, owner)?;
    let group = group_at(alloc, item.number, group)?;
    let path = path_at(alloc, item.number, path)?;
    let list = listed_at(alloc, item)?;
    Ok(Object {
        line: item.number,
        kind,
        owner,
        group,
        path,
        list,
    })
}

// What is known of a list.
fn listed_at(alloc: Global, item: &Item<'_>) -> Result<Listed, Failure<QuestionFault>>
    requires { item.now.number + length item.now.below.now < 2 ^ 63 }
    ensures { Gives result (listed_at item.now.number (lines_of item.now.below.now)) }
{
    if is_alone(item.below, "follows") {
        return Ok(Listed::Follows);
    }
    if is_alone(item.below, "unread") {
        return Ok(Listed::Unread);
    }
    let list = list_at(alloc, item)?;
    Ok(Listed::Text(list))
}

// Whether the word is the only line.
fn is_alone(bytes: &[u8], word: &str) -> bool
    ensures { result ≡ pointwise same_text (lines_of bytes.now) (word.now ∷ []) }
{
    match split_line(bytes) {
        None => false,
        Some((line, behind)) => match split_line(behind) {
            None => spells(line, word),
            Some(_) => false,
        },
    }
}

// The list below the line, whose lines count on from it.
fn list_at(alloc: Global, item: &Item<'_>) -> Result<SentList, Failure<QuestionFault>>
    requires { item.now.number + length item.now.below.now < 2 ^ 63 }
    ensures { Gives result (list_at item.now.number (lines_of item.now.below.now)) }
{
    match read_list(alloc, item.below) {
        Ok(list) => Ok(list),
        Err(Failure::OutOfMemory) => Err(Failure::OutOfMemory),
        Err(Failure::Fault(fault)) => Err(fault_at(
            item.number + fault.line,
            QuestionWhy::List(fault.why),
        )),
    }
}

// A dacl that is set.
fn setting_at(
    alloc: Global,
    item: &Item<'_>,
    words: &[u8],
) -> Result<Setting, Failure<QuestionFault>>
    requires { item.now.number + length item.now.below.now < 2 ^ 63 }
    ensures { Gives result (setting_at item.now.number words.now (lines_of item.now.below.now)) }
{
    let path = path_at(alloc, item.number, words)?;
    let list = list_at(alloc, item)?;
    Ok(Setting {
        line: item.number,
        path,
        list,
    })
}

// An object that is moved.
fn moving_at(alloc: Global, item: &Item<'_>, words: &[u8]) -> Result<Moving, Failure<QuestionFault>>
    requires { item.now.number + length item.now.below.now < 2 ^ 63 }
    ensures { Gives result (moving_at item.now.number words.now (lines_of item.now.below.now)) }
{
    let path = path_at(alloc, item.number, words)?;
    let to = to_at(alloc, item)?;
    Ok(Moving {
        line: item.number,
        path,
        to,
    })
}

// Where an object is moved to: the path in the only line below.
fn to_at(alloc: Global, item: &Item<'_>) -> Result<Path, Failure<QuestionFault>>
    requires { item.now.number + length item.now.below.now < 2 ^ 63 }
    ensures { Gives result (to_at item.now.number (lines_of item.now.below.now)) }
{
    let number = item.number + 1;
    match words_to(item.below) {
        None => Err(fault_at(number, QuestionWhy::NoSuchLine)),
        Some(words) => path_at(alloc, number, words),
    }
}

// What stands behind `to ` in the only line.
fn words_to(bytes: &[u8]) -> Option<&[u8]>
    ensures { MatchOption result (words_to (lines_of bytes.now) ≡ None)
        (λ words. words_to (lines_of bytes.now) ≡ Some words.now) }
{
    match split_line(bytes) {
        None => None,
        Some((line, behind)) => match split_line(behind) {
            None => behind_to(line),
            Some(_) => None,
        },
    }
}

// What stands behind `to `, if the line begins so.
fn behind_to(line: &[u8]) -> Option<&[u8]>
    ensures { MatchOption result (words_to (line.now ∷ []) ≡ None)
        (λ words. words_to (line.now ∷ []) ≡ Some words.now) }
{
    if line.starts_with(b"to ") {
        Some(&line[3..])
    } else {
        None
    }
}

// An object whose rows are asked for.
fn look_at(alloc: Global, item: &Item<'_>, words: &[u8]) -> Result<Look, Failure<QuestionFault>>
    requires { item.now.number + length item.now.below.now < 2 ^ 63 }
    ensures { Gives result (look_at item.now.number words.now (lines_of item.now.below.now)) }
{
    nothing_at(item)?;
    let path = path_at(alloc, item.number, words)?;
    Ok(Look {
        line: item.number,
        path,
    })
}
