//! Where paths lead in a piece.
ghost use Rattle.std.specs.Prelude.{◌≡◌, IfOk};
ghost use Rattle.room_memory.specs.Memory.{rows_in};
ghost use Rattle.room_rows.specs.Rows.{AreRows};
ghost use Rattle.room_rows.specs.Walk.{walk_of};
ghost use Rattle.room_piece.specs.Walking.{Finds};
ghost use Rattle.room_would.specs.Looking.{lost_by, lost_look};

use crate::fault::{WouldFault, WouldWhy};
use room_machine::Reason;
use room_memory::MemKeep;
use room_piece::RefusalWhy;
use room_question::Look;
use room_rows::{KeepFault, Path, Walk, walk};
use std::alloc::{AllocError, Global};

/// The first look at what isn't there, if there is one.
pub(crate) fn lost_look(
    alloc: Global,
    keep: &mut MemKeep,
    looks: &[Look],
) -> Result<Option<WouldFault>, AllocError>
    ensures { IfOk result (λ lost. AreRows (rows_in keep.old)
        → Finds (λ rows. lost ≡ lost_look rows looks.now) (rows_in keep.old) (rows_in keep.new)) }
{
    'looks: for look in looks {
        let found = walked(alloc, keep, &look.path)?;
        if let Some(why) = lost_by(&found) {
            return Ok(Some(WouldFault {
                line: look.line,
                why: WouldWhy::Piece(RefusalWhy::Room(why)),
            }));
        }
    }
    Ok(None)
}

/// The objects along a path.
pub(crate) fn walked(alloc: Global, keep: &mut MemKeep, path: &Path) -> Result<Walk, AllocError>
    ensures { IfOk result (λ found. AreRows (rows_in keep.old)
        → Finds (λ rows. found ≡ walk_of rows.read path.now)
        (rows_in keep.old) (rows_in keep.new)) }
{
    match walk(alloc, keep, path) {
        Ok(found) => Ok(found),
        Err(fault) => Err(unheld(fault)),
    }
}

// Why a path leads nowhere, by the objects along it.
fn lost_by(found: &Walk) -> Option<Reason>
    ensures { result ≡ lost_by found.now }
{
    if found.rest == 0 {
        return None;
    }
    match found.chain.as_slice().last() {
        None => Some(Reason::NoSuch),
        Some(node) => {
            if node.is_document() {
                Some(Reason::NotFolder)
            } else {
                Some(Reason::NoSuch)
            }
        }
    }
}

/// A keeper in memory that is asked for what it holds has no other fault than that of memory.
pub(crate) fn unheld(_fault: KeepFault) -> AllocError {
    AllocError
}
