//! Why a call that takes memory has no answer.
ghost use Rattle.std.specs.Prelude.{◌≡◌};
ghost use Rattle.room_entry.specs.Gives.{TurnsFault};
ghost use Rattle.room_entry.specs.declared.failure.Failure.TheVariants.{OutOfMemory};

use std::alloc::AllocError;

/// Why a call that takes memory has no answer: out of memory, or a fault of what it was given.
#[derive(Clone, Copy, Debug, PartialEq, Eq, Drop)]
pub enum Failure<F> {
    /// Memory ran out.
    OutOfMemory,
    /// What was given has this fault.
    Fault(F),
}

impl<F> From<AllocError> for Failure<F> {
    ghost from_gives = { λ _ failure. failure ≡ OutOfMemory };

    fn from(_error: AllocError) -> Failure<F> {
        Failure::OutOfMemory
    }
}

/// What a call answers, with its fault turned into another.
pub fn map_fault<T, E, F, W: FnOnce(E) -> F>(
    given: Result<T, Failure<E>>,
    turn: W,
) -> Result<T, Failure<F>>
    requires { W.IsAlwaysCallable turn }
    ensures { TurnsFault (W.post turn) given result }
{
    match given {
        Ok(value) => Ok(value),
        Err(Failure::OutOfMemory) => Err(Failure::OutOfMemory),
        Err(Failure::Fault(fault)) => Err(Failure::Fault(turn(fault))),
    }
}
