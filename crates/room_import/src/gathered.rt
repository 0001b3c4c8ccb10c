//! Pairs as they are gathered, each once.
ghost use Rattle.std.specs.Prelude.{◌≡◌, [], IfOk};
ghost use Rattle.room_import.specs.Groups.{with_pair};

use crate::pairs::Pairs;
use room_ace::Name;
use std::alloc::{AllocError, Global};
use std::collections::BTreeSet;
use std::marker::Model;

/// Pairs in the order in which each came first. A contract sees the list of them.
///
/// The set says whether a pair came before, so that many pairs are gathered fast.
#[derive(Drop)]
pub(crate) struct Gathered {
    seen: BTreeSet<(String, String)>,
    pairs: Pairs,
}

impl Model for Gathered {
    ghost use Rattle.std.specs.Prelude.{List, ℕ};
    ghost use Rattle.room_import.specs.Seen.{HasSeen};

    ghost Value = { List (List ℕ × List ℕ) };

    ghost view = { λ g. g.pairs };

    ghost invariant = { λ g. HasSeen g.seen g.pairs };
}

impl Gathered {
    /// No pairs.
    pub(crate) fn new(alloc: Global) -> Gathered
        ensures { result ≡ [] }
    {
        Gathered {
            seen: BTreeSet::new(alloc),
            pairs: Pairs::new(alloc),
        }
    }

    /// The pairs with one more, unless it is among them.
    pub(crate) fn with(self, alloc: Global, group: Name, user: Name) -> Result<Gathered, AllocError>
        ensures { IfOk result (λ more. more ≡ with_pair self (group, user)) }
    {
        let Gathered {
            mut seen,
            mut pairs,
        } = self;
        let key = (
            String::from_str(alloc, group.as_str())?,
            String::from_str(alloc, user.as_str())?,
        );
        if seen.insert(key)? {
            pairs.push((group, user))?;
        }
        Ok(Gathered { seen, pairs })
    }

    /// The pairs.
    pub(crate) fn into_pairs(self) -> Pairs
        ensures { result ≡ self }
    {
        self.pairs
    }
}
