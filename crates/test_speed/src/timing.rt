//! How long work took.

use std::test::Fail;
use std::time::Instant;

// After this many nanoseconds there are no more rounds.
const LIMIT: u128 = 2_000_000_000;

/// The times of several rounds.
#[derive(Clone, Copy)]
pub struct Times {
    least: u128,
    total: u128,
    count: u128,
}

impl Times {
    /// No round.
    pub fn none() -> Times {
        Times {
            least: u128::MAX,
            total: 0,
            count: 0,
        }
    }

    /// One more round of this many equal parts, which began at this instant. The time of one part
    /// is kept.
    pub fn add(&mut self, rt: &HostRuntime, start: Instant, parts: u32) -> Result<(), Fail> {
        let nanos = start.elapsed(rt)?.as_nanos();
        let each = nanos.checked_div(u128::from(parts)).unwrap_or(nanos);
        self.least = self.least.min(each);
        self.total = self.total.saturating_add(each);
        self.count = self.count.saturating_add(1);
        Ok(())
    }

    /// Whether there have been enough rounds.
    pub fn are_enough(&self) -> bool {
        self.total > LIMIT
    }

    /// The shortest time.
    pub fn least(&self) -> u128 {
        self.least
    }

    /// Prints the least time of a workload, and the mean.
    pub fn tell(&self, rt: &HostRuntime, title: &str) -> Result<(), Fail> {
        let least = self.least;
        let count = self.count;
        let mean = self.total.checked_div(count).unwrap_or(0);
        Ok(eprintln!(rt; "{title}: {least} ns, mean {mean} ns of {count}")?)
    }
}
