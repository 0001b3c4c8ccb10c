//! Whether the parents of the objects lead to the root.
ghost use Rattle.std.specs.Prelude.{◌≡◌, IfOk, IsTrue, OnOk};
ghost use Rattle.std.specs.BTreeSet.{contains};
ghost use Rattle.std.specs.Option.{option_copied};
ghost use Rattle.std.specs.Ordering.{nat_cmp};
ghost use Rattle.room_verify.specs.Objects.{AllLead, only};
ghost use Rattle.room_rows.specs.Sound.{first_failing, reaches};

use crate::objects::Objects;
use room_rows::Node;
use std::alloc::{AllocError, Global};
use std::collections::BTreeSet;

impl Objects {
    /// The first object from which the parents never reach an object without one.
    pub(crate) fn first_loop(&self, alloc: Global) -> Result<Option<&Node>, AllocError>
        ensures { IfOk result (λ found. option_copied found
            ≡ first_failing (reaches (only self.now)) (only self.now)) }
    {
        let mut known: BTreeSet<u64> = BTreeSet::new(alloc);
        'nodes: for node in self.as_slice() {
            if !self.reaches_root(node, &known) {
                return Ok(Some(node));
            }
            self.note_way(node, &mut known)?;
        }
        Ok(None)
    }

    // A way to the root has fewer steps than there are objects. It ends where it is known from.
    fn reaches_root(&self, node: &Node, known: &BTreeSet<u64>) -> bool
        ensures { AllLead self.now (contains nat_cmp known.now)
            → result ≡ reaches (only self.now) node.now }
    {
        let mut above = node.parent;
        'steps: for step in 0..self.as_slice().len() {
            let Some(id) = above else {
                return true;
            };
            if known.contains(&id) {
                return true;
            }
            let Some(parent) = self.at(id) else {
                return false;
            };
            above = parent.parent;
        }
        above.is_none()
    }

    // Adds the numbers on the way from an object to the root, as far as they aren't known.
    fn note_way(&self, node: &Node, known: &mut BTreeSet<u64>) -> Result<(), AllocError>
        ensures { AllLead self.now (contains nat_cmp known.old)
            → IsTrue (reaches (only self.now) node.now)
            → OnOk result (AllLead self.now (contains nat_cmp known.new)) }
    {
        let mut above = node.parent;
        'steps: for step in 0..self.as_slice().len() {
            let Some(id) = above else {
                return Ok(());
            };
            if !known.insert(id)? {
                return Ok(());
            }
            let Some(parent) = self.at(id) else {
                return Ok(());
            };
            above = parent.parent;
        }
        Ok(())
    }
}
