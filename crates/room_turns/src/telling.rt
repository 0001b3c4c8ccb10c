//! The rows of objects.
ghost use Rattle.std.specs.Prelude.{◌≡◌, ◌++◌, ◌∷◌, [], OnOk};
ghost use Rattle.std.specs.List.{zip};
ghost use Rattle.room_import.specs.Exports.{rows_text};
ghost use Rattle.room_dump.specs.Dump.{shown};
ghost use Rattle.room_turns.specs.Telling.{line, lines_of, rows_told, told_rows};

use crate::spot::{Stand, Told};
use room_answer::{Answer, Row};
use room_review::Party;
use std::alloc::{AllocError, Global};

/// Adds the rows of objects, of the first of them all rows.
pub(crate) fn push_rows(
    alloc: Global,
    answer: &mut Answer,
    parties: &[Party],
    objects: &[Told],
) -> Result<(), AllocError>
    ensures { OnOk result
        (answer.new ≡ answer.old ++ rows_text (rows_told parties.now objects.now)) }
{
    let mut all = true;
    'objects: for told in objects {
        push_told(alloc, answer, parties, all, told)?;
        all = false;
    }
    Ok(())
}

// Adds the rows of an object: all of them, or those that the folder's don't say already.
fn push_told(
    alloc: Global,
    answer: &mut Answer,
    parties: &[Party],
    all: bool,
    told: &Told,
) -> Result<(), AllocError>
    ensures { OnOk result
        (answer.new ≡ answer.old ++ rows_text (told_rows parties.now all told.now)) }
{
    if told.spot.clear {
        push_callers(alloc, answer, parties, all, told)
    } else if all || told.spot.follows {
        answer.push_unknown(alloc, shown(told), told.kind)
    } else {
        Ok(())
    }
}

// Adds the rows of callers at an object.
fn push_callers(
    alloc: Global,
    answer: &mut Answer,
    parties: &[Party],
    all: bool,
    told: &Told,
) -> Result<(), AllocError>
    ensures { OnOk result (answer.new ≡ answer.old
        ++ rows_text (lines_of all told.now (zip parties.now told.now.spot.stands))) }
{
    for (party, stand) in parties.iter().zip(told.spot.stands.as_slice()) {
        if all || !stand.repeats {
            push_caller(alloc, answer, told, party, stand)?;
        }
    }
    Ok(())
}

// Adds the row of a caller at an object.
fn push_caller(
    alloc: Global,
    answer: &mut Answer,
    told: &Told,
    party: &Party,
    stand: &Stand,
) -> Result<(), AllocError>
    ensures { OnOk result
        (answer.new ≡ answer.old ++ rows_text (line told.now (party.now, stand.now) ∷ [])) }
{
    let row = Row {
        path: shown(told),
        kind: told.kind,
        user: party.label.as_str(),
        rights: stand.had_rights,
        remove: stand.had_remove,
        then: stand.standing.rights,
        then_remove: stand.standing.remove,
    };
    answer.push_rows(alloc, &[row])
}

// The path of an object as it is printed: the root's is a slash.
fn shown(told: &Told) -> &str
    ensures { result.now ≡ shown told.now.path }
{
    if told.path.as_str().is_empty() {
        "/"
    } else {
        told.path.as_str()
    }
}
