//! Requests that change the bytes of documents.
ghost use Rattle.std.specs.Prelude.{◌≡◌, ◌≤◌, ◌+◌, [], ◌++◌, IfOk, length};
ghost use Rattle.room_rows.specs.Calls.{Reads};
ghost use Rattle.room_rows.specs.Keep.{IsDamaged, IsDocumentAt, IsUnreadable};
ghost use Rattle.room_judge.specs.Halted.{Serves, TriesUpTo, replied};
ghost use Rattle.room_desk.specs.Written.{
  Answers,
  HasBody,
  HasNoBytes,
  IsAppended,
  IsPut,
  sized_reply,
};
ghost use Rattle.room_machine.specs.declared.request.Request.TheVariants.{Append};
ghost use Rattle.room_desk.specs.Counted.{OneAndBoth, OneWrite, Provided};

use room_ace::{MOST_BYTES, Mask, ObjKind};
use room_judge::{Ask, Halt, reach_kind};
use room_machine::{Reason, Reply};
use room_rows::{Bytes, Keep, KeepFault};
use std::alloc::AllocError;

/// Adds bytes at the end of a document.
pub(crate) fn append<K: Keep>(keep: &mut K, ask: &Ask<'_>, bytes: &Bytes) -> Result<Reply, Halt>
    ensures done { TriesUpTo K.Keep keep.old keep.new result OneAndBoth IsDamaged
        (Serves ask.now.asker.now (Append ask.now.path.now bytes.now)) }
    ensures counted { K.reads keep.new ≤ K.reads keep.old + (length ask.now.path.now + 2) }
{
    let mask = Mask::append_data();
    let node = reach_kind(keep, ask, ObjKind::Document, mask)?;
    let id = node.id;
    drop(node);
    append_at(keep, ask, id, bytes)
}

// Adds the bytes to those of the document of this number. Where there are none to add, nothing is
// written.
fn append_at<K: Keep>(keep: &mut K, ask: &Ask<'_>, id: u64, bytes: &Bytes) -> Result<Reply, Halt>
    ensures done { TriesUpTo K.Keep keep.old keep.new result
        (Provided (λ rows. IsDocumentAt rows id) OneWrite) (HasNoBytes id)
        (λ old outcome new. IsAppended ask.now.path.now id bytes.now old (replied outcome) new) }
    ensures quiet { bytes.now ≡ [] → IfOk result (λ _. K.writes keep.new ≡ K.writes keep.old) }
    ensures counted { K.reads keep.new ≤ K.reads keep.old + 1 }
{
    let before = body_of(keep, id)?;
    let are_none = bytes.as_slice().is_empty();
    if are_none {
        return sized_reply(ask, before.len());
    }
    let joined = join(before, bytes)?;
    put_bytes(keep, ask, id, joined.as_slice())
}

// The bytes of the document of this number.
fn body_of<K: Keep>(keep: &mut K, id: u64) -> Result<Bytes, KeepFault>
    ensures read { Reads K.Keep keep.old keep.new result (HasNoBytes id) (HasBody id) }
    ensures counted { K.reads keep.new ≤ K.reads keep.old + 1 }
{
    match keep.body(id)? {
        Some(bytes) => Ok(bytes),
        None => Err(KeepFault::Damaged { id }),
    }
}

// The reply for a document that is to have this many bytes.
fn sized_reply(ask: &Ask<'_>, size: usize) -> Result<Reply, Halt>
    ensures { Answers result (sized_reply ask.now.path.now size) }
{
    if size > MOST_BYTES {
        return Err(ask.refusal(ask.path.names().len(), Reason::TooLarge));
    }
    Ok(Reply::Done)
}

// The bytes, followed by the others.
fn join(before: Bytes, bytes: &Bytes) -> Result<Vec<u8>, AllocError>
    ensures { IfOk result (λ all. all.items ≡ before ++ bytes.now) }
{
    let mut all = before.into_vec();
    all.extend_from_slice(bytes.as_slice())?;
    Ok(all)
}

/// Gives the document of this number these bytes, if there aren't too many.
pub(crate) fn put_bytes<K: Keep>(
    keep: &mut K,
    ask: &Ask<'_>,
    id: u64,
    bytes: &[u8],
) -> Result<Reply, Halt>
    ensures done { TriesUpTo K.Keep keep.old keep.new result
        (Provided (λ rows. IsDocumentAt rows id) OneWrite) IsUnreadable
        (λ old outcome new. IsPut ask.now.path.now id bytes.now old (replied outcome) new) }
    ensures counted { K.reads keep.new ≤ K.reads keep.old }
{
    let too_many = bytes.len() > MOST_BYTES;
    if too_many {
        return Err(ask.refusal(ask.path.names().len(), Reason::TooLarge));
    }
    keep.set_body(id, bytes)?;
    Ok(Reply::Done)
}
