//! The callers of a review.
ghost use Rattle.std.specs.Prelude.{◌≡◌, ◌∷◌, ◌++◌, [], OnOk, map};
ghost use Rattle.std.specs.Option.{option_copied};
ghost use Rattle.room_machine.specs.Step.{caller_in};
ghost use Rattle.room_rows.specs.Calls.{Reads};
ghost use Rattle.room_rows.specs.Keep.{IsNever};
ghost use Rattle.room_review.specs.Table.{everybody, named, nameless, other_name};

use room_ace::{Caller, Name};
use room_judge::caller_of;
use room_rows::{Keep, KeepFault, Text};
use std::alloc::{AllocError, Global};

/// A caller, and what its rows call it.
#[derive(Drop)]
pub struct Party {
    /// What its rows call it.
    pub label: Text,
    /// Its name, if it has one, and its groups.
    pub caller: Caller,
}

/// Each of the users, then `*` for the name that is none of them, then a caller without a name.
pub fn everybody<K: Keep>(
    alloc: Global,
    keep: &mut K,
    users: &[Name],
    stranger: &Name,
) -> Result<Vec<Party>, KeepFault>
    ensures read { Reads K.Keep keep.old keep.new result IsNever
        (λ rows parties. parties.items ≡ everybody rows.read users.now stranger.now) }
{
    let mut parties = Vec::new(alloc);
    push_users(alloc, keep, users, &mut parties)?;
    push_others(alloc, keep, stranger, &mut parties)?;
    Ok(parties)
}

/// The user of this name alone.
pub(crate) fn alone<K: Keep>(
    alloc: Global,
    keep: &mut K,
    name: &Name,
) -> Result<Vec<Party>, KeepFault>
    ensures read { Reads K.Keep keep.old keep.new result IsNever
        (λ rows parties. parties.items ≡ named rows.read name.now ∷ []) }
{
    let party = party_of(alloc, keep, name.as_str(), Some(name))?;
    let mut parties = Vec::new(alloc);
    push_party(&mut parties, party)?;
    Ok(parties)
}

// Adds the users of these names.
fn push_users<K: Keep>(
    alloc: Global,
    keep: &mut K,
    users: &[Name],
    parties: &mut Vec<Party>,
) -> Result<(), KeepFault>
    ensures read { Reads K.Keep keep.old keep.new result IsNever
        (λ rows _. parties.new.items ≡ parties.old.items ++ map (named rows.read) users.now) }
{
    'users: for name in users {
        push_user(alloc, keep, name, parties)?;
    }
    Ok(())
}

// Adds the user of this name.
fn push_user<K: Keep>(
    alloc: Global,
    keep: &mut K,
    name: &Name,
    parties: &mut Vec<Party>,
) -> Result<(), KeepFault>
    ensures read { Reads K.Keep keep.old keep.new result IsNever
        (λ rows _. parties.new.items ≡ parties.old.items ++ named rows.read name.now ∷ []) }
{
    let party = party_of(alloc, keep, name.as_str(), Some(name))?;
    Ok(push_party(parties, party)?)
}

// Adds a name that is none of the users, and a caller without a name.
fn push_others<K: Keep>(
    alloc: Global,
    keep: &mut K,
    stranger: &Name,
    parties: &mut Vec<Party>,
) -> Result<(), KeepFault>
    ensures read { Reads K.Keep keep.old keep.new result IsNever
        (λ rows _. parties.new.items ≡ parties.old.items
        ++ other_name rows.read stranger.now ∷ nameless rows.read ∷ []) }
{
    let other = party_of(alloc, keep, "*", Some(stranger))?;
    push_party(parties, other)?;
    let nobody = party_of(alloc, keep, "ANONYMOUS@", None)?;
    Ok(push_party(parties, nobody)?)
}

fn push_party(parties: &mut Vec<Party>, party: Party) -> Result<(), AllocError>
    ensures { OnOk result (parties.new.items ≡ parties.old.items ++ party ∷ []) }
{
    parties.push(party)?;
    Ok(())
}

// The caller of this name, or without one, under this label.
fn party_of<K: Keep>(
    alloc: Global,
    keep: &mut K,
    label: &str,
    user: Option<&Name>,
) -> Result<Party, KeepFault>
    ensures read { Reads K.Keep keep.old keep.new result IsNever (λ rows party.
        party ≡ record {
          label = label.now;
          caller = caller_in rows.read (option_copied user.entry);
        }) }
{
    let label = Text::from_str(alloc, label)?;
    let caller = caller_of(alloc, keep, user)?;
    Ok(Party { label, caller })
}
