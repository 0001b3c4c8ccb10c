//! Whether the bytes are as the kinds of the objects ask.
ghost use Rattle.std.specs.Prelude.{◌≡◌, List, ℕ, Option};
ghost use Rattle.room_rows.specs.Calls.{Reads};
ghost use Rattle.room_rows.specs.Keep.{IsNever};
ghost use Rattle.room_verify.specs.Reading.{IsBadBody};
ghost use Rattle.room_rows.specs.Sound.{fits_kind};

use crate::objects::Objects;
use room_ace::{MOST_BYTES, ObjKind};
use room_rows::{Bytes, Keep, KeepFault, Node};

/// The first object that is a document without bytes or with too many, or a folder with bytes.
pub(crate) fn first_bad_body<'a, K: Keep>(
    keep: &mut K,
    objects: &'a Objects,
) -> Result<Option<&'a Node>, KeepFault>
    ensures read { Reads K.Keep keep.old keep.new result IsNever (IsBadBody objects.now) }
{
    'nodes: for node in objects.as_slice() {
        let body = keep.body(node.id)?;
        if !fits_kind(node.kind, &body) {
            return Ok(Some(node));
        }
    }
    Ok(None)
}

// Whether an object of this kind may have these bytes, or no bytes.
fn fits_kind(kind: ObjKind, body: &Option<Bytes>) -> bool
    ensures { result ≡ fits_kind kind body.now }
{
    match (kind, body) {
        (ObjKind::Document, Some(bytes)) => bytes.as_slice().len() <= MOST_BYTES,
        (ObjKind::Document, None) => false,
        (ObjKind::Folder, Some(_)) => false,
        (ObjKind::Folder, None) => true,
    }
}
