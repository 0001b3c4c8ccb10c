//! One request carried out on a keeper.
ghost use Rattle.std.specs.Prelude.{◌≡◌, ◌+◌};
ghost use Rattle.std.specs.Option.{option_copied};
ghost use Rattle.room_rows.specs.Keep.{IsDamaged};
ghost use Rattle.room_judge.specs.Halted.{Serves, TriesWithin, replied, reply_of, settled};
ghost use Rattle.room_judge.specs.Closed.{IsServed, Performs};
ghost use Rattle.room_judge.specs.Judged.{DoesWithin};
ghost use Rattle.room_desk.specs.Called.{ReadsFew, calls_for, hands_down};
ghost use Rattle.room_desk.specs.Counted.{extent_of};

use crate::asking::can;
use crate::making::{make_folder, put};
use crate::moving::move_object;
use crate::owning::set_owners;
use crate::reading::{list, read, read_attr, read_full_list};
use crate::removing::remove;
use crate::setting::set_list;
use crate::writing::append;
use room_ace::Name;
use room_judge::{Ask, Asker, Halt, caller_of};
use room_machine::{Reply, Request};
use room_rows::{Keep, KeepFault};
use std::alloc::Global;

/// Carries out one request of a caller, who is anonymous without a name, at a moment in seconds
/// from 1970-01-01 00:00 UTC. From sound rows the reply and what the rows then mean are a step of
/// the room machine, and the rows are sound again. A fault of the keeper ends the request. What the
/// keeper holds then depends on the transaction around the call alone. `Damaged` names a row that
/// can't be read or a document without bytes, and `NoRoot` comes only where there is no root.
///
/// From any rows, damaged ones too, each check that stands before the reply in the request's plan
/// was granted by the lists as they are stored, and its records are added. A request that only
/// reads, or is denied or refused, writes nothing else. Any other that is answered writes at most
/// one object more, and each list whose inherited entries change.
///
/// No more calls of the keeper read than one for the caller's groups, one for each name of a path,
/// and a few more, by the request. Where a list is set or an object is moved, there may be two more
/// for each object or record that is written, and nothing is said of them where there is a fault.
pub fn perform<K: Keep>(
    alloc: Global,
    keep: &mut K,
    user: Option<&Name>,
    moment: i64,
    request: &Request,
) -> Result<Reply, KeepFault>
    ensures done { DoesWithin K.Keep keep.old keep.new result (extent_of request.now) IsDamaged
        (Performs (option_copied user.entry) moment request.now) }
    ensures counted { ReadsFew K.Keep (hands_down request.now) (calls_for request.now + 1)
        keep.old keep.new result }
{
    let caller = caller_of(alloc, keep, user)?;
    let asker = Asker { caller, moment };
    perform_for(alloc, keep, &asker, request)
}

// Carries out one request of a caller whose groups are known. A refusal is its reply.
fn perform_for<K: Keep>(
    alloc: Global,
    keep: &mut K,
    asker: &Asker,
    request: &Request,
) -> Result<Reply, KeepFault>
    ensures done { DoesWithin K.Keep keep.old keep.new result (extent_of request.now) IsDamaged
        (IsServed asker.now request.now) }
    ensures counted { ReadsFew K.Keep (hands_down request.now) (calls_for request.now)
        keep.old keep.new result }
{
    reply_of(serve(alloc, keep, asker, request))
}

// A refusal is a reply.
fn reply_of(outcome: Result<Reply, Halt>) -> Result<Reply, KeepFault>
    ensures { result ≡ reply_of outcome }
{
    match outcome {
        Ok(reply) => Ok(reply),
        Err(Halt::Refused(reply)) => Ok(reply),
        Err(Halt::Fault(fault)) => Err(fault),
    }
}

// Serves one request.
fn serve<K: Keep>(
    alloc: Global,
    keep: &mut K,
    asker: &Asker,
    request: &Request,
) -> Result<Reply, Halt>
    ensures done { TriesWithin K.Keep keep.old keep.new result
        (λ outcome. extent_of request.now (replied outcome)) IsDamaged
        (Serves asker.now request.now) }
    ensures counted { ReadsFew K.Keep (hands_down request.now) (calls_for request.now) keep.old
        keep.new (settled result) }
{
    match request {
        Request::Read(path) => read(keep, &Ask { alloc, asker, path }),
        Request::List(path) => list(keep, &Ask { alloc, asker, path }),
        Request::Put(path, bytes) => put(keep, &Ask { alloc, asker, path }, bytes),
        Request::Append(path, bytes) => append(keep, &Ask { alloc, asker, path }, bytes),
        Request::MakeFolder(path) => make_folder(keep, &Ask { alloc, asker, path }),
        Request::Remove(path) => remove(keep, &Ask { alloc, asker, path }),
        Request::Move(path, to) => move_object(keep, &Ask { alloc, asker, path }, to),
        Request::ReadList(path, which) => read_full_list(keep, &Ask { alloc, asker, path }, *which),
        Request::SetList(path, which, sent) => set_list(
            keep,
            &Ask { alloc, asker, path },
            *which,
            sent,
        ),
        Request::ReadAttr(path) => read_attr(keep, &Ask { alloc, asker, path }),
        Request::SetOwners(path, owners) => set_owners(keep, &Ask { alloc, asker, path }, owners),
        Request::Can(path, mask) => can(keep, &Ask { alloc, asker, path }, *mask),
    }
}
