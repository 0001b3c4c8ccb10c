//! Counts of failures and of writes.
ghost use Rattle.std.specs.Prelude.{◌≡◌, ◌⊎◌, ◌+◌, ◌-◌, ◌^◌, ◌<◌, ◌≤◌};
ghost use Rattle.room_rows.specs.Keep.{capped, one_more};

use crate::keep::KeepFault;

/// Adds one to the count. At the greatest u64 it stays there.
pub fn count_one(count: &mut u64)
    ensures counted { count.new ≡ one_more count.old }
    ensures capped { capped count.new ≡ one_more (capped count.old) }
    ensures no_less { count.old ≤ count.new }
{
    if *count < u64::MAX {
        *count += 1;
    }
}

/// Adds so many to the count. At the greatest u64 it stays there.
pub fn count_all(count: &mut u64, more: u64)
    ensures capped { capped count.new ≡ capped (capped count.old + more) }
    ensures no_less { count.old ≤ count.new }
{
    *count = count.saturating_add(more);
}

/// Counts a failure, and answers its fault, `Store`. At the greatest u64 the count stays there.
pub fn failed(failures: &mut u64) -> KeepFault
    ensures store { result ≡ KeepFault.Store }
    ensures rises { (failures.old < failures.new) ⊎ (2 ^ 64 - 1 ≤ failures.old) }
    ensures capped { (capped failures.old < capped failures.new) ⊎
        (2 ^ 64 - 1 ≤ capped failures.old) }
    ensures no_less { failures.old ≤ failures.new }
{
    count_one(failures);
    KeepFault::Store
}
