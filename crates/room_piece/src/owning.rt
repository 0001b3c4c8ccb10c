//! Who owns an object of a question.
ghost use Rattle.std.specs.Prelude.{◌≡◌, IfOk, unwrap_or};
ghost use Rattle.room_piece.specs.Owning.{is_each, owner_of, owners_of};

use room_ace::{Name, Owners};
use room_question::{Object, Owner};
use std::alloc::AllocError;

/// Whether each caller is to have made the object themselves.
pub(crate) fn is_each(owner: &Owner) -> bool
    ensures { result ≡ is_each owner.now }
{
    match owner {
        Owner::Each => true,
        Owner::User(_) | Owner::Unread => false,
    }
}

/// The owners that are stored, with this name where there is none.
pub(crate) fn owners_of(unread: &Name, object: &Object) -> Result<Owners, AllocError>
    ensures { IfOk result (λ owners. owners ≡ owners_of unread.now object.now) }
{
    let owner = owner_of(unread, &object.owner)?;
    let group = group_of(unread, &object.group)?;
    Ok(Owners { owner, group })
}

fn owner_of(unread: &Name, owner: &Owner) -> Result<Name, AllocError>
    ensures { IfOk result (λ name. name ≡ owner_of unread.now owner.now) }
{
    match owner {
        Owner::User(name) => name.copy(),
        Owner::Unread | Owner::Each => unread.copy(),
    }
}

fn group_of(unread: &Name, group: &Option<Name>) -> Result<Name, AllocError>
    ensures { IfOk result (λ name. name ≡ unwrap_or group.now unread.now) }
{
    match group {
        Some(name) => name.copy(),
        None => unread.copy(),
    }
}
