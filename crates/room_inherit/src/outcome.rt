//! What carrying lists down answers.
ghost use Rattle.std.specs.Prelude.{◌≡◌, Some};
ghost use Rattle.room_inherit.specs.FaultTexts.{spread_fault_text};
ghost use Rattle.room_inherit.specs.declared.outcome.SpreadFault.TheVariants.{Keeper};
ghost use Rattle.room_rows.specs.declared.keep.KeepFault.TheVariants.{Memory};

use room_rows::KeepFault;
use std::alloc::AllocError;
use std::fmt;

/// How many stored lists changed.
#[derive(Clone, Copy, Debug, PartialEq, Eq)]
pub struct Spread {
    /// How many, at most the greatest u64.
    pub changed: u64,
}

/// Why lists weren't carried down: the keeper's fault, or an object that is its own ancestor.
#[derive(Clone, Copy, Debug, PartialEq, Eq)]
pub enum SpreadFault {
    /// A call of the keeper gave no answer, or memory ran out.
    Keeper(KeepFault),
    /// The object at which it began is its own ancestor.
    Loop,
}

impl fmt::Display for SpreadFault {
    ghost output = { λ fault. Some (spread_fault_text fault) };

    fn fmt<W: fmt::Write>(&self, f: &mut fmt::Formatter<W>) -> fmt::Result {
        match self {
            SpreadFault::Keeper(fault) => write!(f, "{fault}"),
            SpreadFault::Loop => f.write_str("an object is its own ancestor"),
        }
    }
}

impl From<KeepFault> for SpreadFault {
    ghost from_gives = { λ fault spread_fault. spread_fault ≡ Keeper fault };

    fn from(fault: KeepFault) -> SpreadFault {
        SpreadFault::Keeper(fault)
    }
}

impl From<AllocError> for SpreadFault {
    ghost from_gives = { λ _ spread_fault. spread_fault ≡ Keeper Memory };

    fn from(_error: AllocError) -> SpreadFault {
        SpreadFault::Keeper(KeepFault::Memory)
    }
}
