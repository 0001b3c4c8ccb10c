//! What ends a request before its end.
ghost use Rattle.std.specs.Prelude.{◌≡◌, IfOk, take};
ghost use Rattle.room_rows.specs.declared.keep.KeepFault.TheVariants.{Memory};
ghost use Rattle.room_machine.specs.declared.reply.Reply.TheVariants.{Refused as RefusedWith};
ghost use Rattle.room_judge.specs.declared.halt.Halt.TheVariants.{Fault};
ghost use Rattle.room_judge.specs.Halted.{Refuses};

use crate::asker::Ask;
use room_machine::{Reason, Reply};
use room_rows::{KeepFault, Path};
use std::alloc::{AllocError, Global};

/// What ends a request before its end.
#[derive(Drop)]
pub enum Halt {
    /// The reply: something is refused or denied.
    Refused(Reply),
    /// The keeper's fault, or that memory ran out.
    Fault(KeepFault),
}

impl From<KeepFault> for Halt {
    ghost from_gives = { λ fault halt. halt ≡ Fault fault };

    fn from(fault: KeepFault) -> Halt {
        Halt::Fault(fault)
    }
}

impl From<AllocError> for Halt {
    ghost from_gives = { λ _ halt. halt ≡ Fault Memory };

    fn from(_error: AllocError) -> Halt {
        Halt::Fault(KeepFault::Memory)
    }
}

/// The reply of a refusal at the object after this many names of the path. The only error is out of
/// memory.
pub fn refused(alloc: Global, path: &Path, depth: usize, why: Reason) -> Result<Reply, AllocError>
    ensures { IfOk result (λ reply. reply ≡ RefusedWith (take depth path.now) why) }
{
    Ok(Reply::Refused {
        at: path.front(alloc, depth)?,
        why,
    })
}

impl Ask<'_> {
    /// The refusal at the object after this many names of the path, or that memory ran out.
    pub fn refusal(&self, depth: usize, why: Reason) -> Halt
        ensures { Refuses result (Some (RefusedWith (take depth self.now.path.now) why)) }
    {
        match self.path.front(self.alloc, depth) {
            Ok(front) => Halt::Refused(Reply::Refused { at: front, why }),
            Err(_) => Halt::Fault(KeepFault::Memory),
        }
    }
}
