//! The moment of a connection.
ghost use Rattle.std.specs.Prelude.{◌≡◌, ℤ, List, [], ◌∷◌, ◌++◌, pos, ◌≤ℤ◌, ⊤, min, ◌/◌, ◌^◌, ◌-◌};
ghost use Rattle.std.specs.Time.{system_time_nanos};

use std::time::{Clock, SystemTime, UNIX_EPOCH};

/// Where the moments of connections come from.
pub trait Moments {
    // Whether these may be the moments that were answered so far, in order.
    ghost told: { Self → List ℤ → Type 0 };

    /// The moment now, in seconds from 1970-01-01 00:00 UTC.
    fn next(&mut self) -> i64
        ensures { (before : List ℤ) → told self.old before
            → told self.new (before ++ result ∷ []) };
}

/// The moments of a clock. Where the clock is set before 1970, or can't be read, they are 0.
#[derive(Drop)]
pub struct Seconds<'a, C> {
    clock: &'a C,
}

impl<'a, C: Clock> Seconds<'a, C> {
    /// The moments of this clock.
    pub fn of(clock: &'a C) -> Seconds<'a, C> {
        Seconds { clock }
    }
}

impl<C: Clock> Moments for Seconds<'_, C> {
    // The contract of a clock says nothing of its readings.
    ghost told = { λ _ _. ⊤ };

    fn next(&mut self) -> i64 {
        moment(self.clock)
    }
}

// The seconds since 1970-01-01 00:00 UTC.
fn moment<C: Clock>(clock: &C) -> i64
    ensures { pos 0 ≤ℤ result }
{
    match SystemTime::now(clock) {
        Ok(now) => seconds_at(now),
        Err(_) => 0,
    }
}

// The whole seconds up to this moment, as far as the type goes.
fn seconds_at(now: SystemTime) -> i64
    ensures { result ≡ pos (min (system_time_nanos now / 1_000_000_000) (2 ^ 63 - 1)) }
{
    match now.duration_since(UNIX_EPOCH) {
        Ok(since) => i64::try_from(since.as_secs()).unwrap_or(i64::MAX),
        Err(_) => 0,
    }
}
