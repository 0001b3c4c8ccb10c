//! Who asks, and when.
ghost use Rattle.std.specs.Prelude.{◌≡◌, ◌+◌, ◌≤◌, IfOk, Option};
ghost use Rattle.std.specs.Option.{option_copied};
ghost use Rattle.room_rows.specs.Calls.{Reads};
ghost use Rattle.room_rows.specs.Keep.{IsNever};
ghost use Rattle.room_machine.specs.Step.{caller_in};

use room_ace::{Caller, Name, Names};
use room_rows::{Keep, KeepFault, Path};
use std::alloc::{AllocError, Global};

/// Who asks, and when.
#[derive(Drop)]
pub struct Asker {
    /// The caller, with its groups in the room.
    pub caller: Caller,
    /// The moment of the request, in seconds from 1970-01-01 00:00 UTC. It is written into records.
    pub moment: i64,
}

/// A request on its way: who asks, and the path that is walked.
#[derive(Drop)]
pub struct Ask<'a> {
    /// Where memory is taken.
    pub alloc: Global,
    /// Who asks.
    pub asker: &'a Asker,
    /// The path.
    pub path: &'a Path,
}

/// The caller of this name with the groups that are paired with it, or a caller without a name, who
/// is in no group. The error is the keeper's, or that memory ran out.
pub fn caller_of<K: Keep>(
    alloc: Global,
    keep: &mut K,
    user: Option<&Name>,
) -> Result<Caller, KeepFault>
    ensures read { Reads K.Keep keep.old keep.new result IsNever
        (λ rows caller. caller ≡ caller_in rows.read (option_copied user.entry)) }
    ensures counted { K.reads keep.new ≤ K.reads keep.old + 1 }
{
    match user {
        None => Ok(Caller {
            user: None,
            groups: Names::new(alloc),
        }),
        Some(name) => {
            let groups = keep.groups_of(name)?;
            let user = Some(name.copy()?);
            Ok(Caller { user, groups })
        }
    }
}

// A copy of a name that may be missing.
pub(crate) fn copy_user(user: &Option<Name>) -> Result<Option<Name>, AllocError>
    ensures { IfOk result (λ copy. copy ≡ user.now) }
{
    match user {
        None => Ok(None),
        Some(name) => Ok(Some(name.copy()?)),
    }
}
