//! How many groups there are.
ghost use Rattle.std.specs.Prelude.{◌≡◌, IfOk, length};
ghost use Rattle.cli_answer.specs.Counting.{distinct_groups};

use room_ace::Name;
use std::alloc::{AllocError, Global};
use std::collections::BTreeSet;

/// The number of different groups of the pairs. The only error is out of memory.
pub fn count_groups(alloc: Global, pairs: &[(Name, Name)]) -> Result<usize, AllocError>
    ensures { IfOk result (λ count. count ≡ length (distinct_groups pairs.now)) }
{
    let mut seen: BTreeSet<&str> = BTreeSet::new(alloc);
    'pairs: for pair in pairs {
        seen.insert(pair.0.as_str())?;
    }
    Ok(seen.len())
}
