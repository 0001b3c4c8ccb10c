//! Whether the stored inherited entries are those that the parents pass.
ghost use Rattle.std.specs.Prelude.{◌≡◌, IfOk};
ghost use Rattle.std.specs.Option.{option_copied};
ghost use Rattle.room_rows.specs.Law.{agrees_with};
ghost use Rattle.room_verify.specs.Objects.{only};
ghost use Rattle.room_rows.specs.Sound.{first_failing, keeps_law};

use crate::objects::Objects;
use room_ace::Which;
use room_inherit::{pass, stores, takes_from};
use room_rows::Node;
use std::alloc::{AllocError, Global};

impl Objects {
    /// The first object with a linked list whose stored inherited entries aren't what its parent
    /// passes.
    pub(crate) fn first_broken_law(&self, alloc: Global) -> Result<Option<&Node>, AllocError>
        ensures { IfOk result (λ found. option_copied found
            ≡ first_failing (keeps_law (only self.now)) (only self.now)) }
    {
        'nodes: for node in self.as_slice() {
            if !self.keeps_law(alloc, node)? {
                return Ok(Some(node));
            }
        }
        Ok(None)
    }

    fn keeps_law(&self, alloc: Global, node: &Node) -> Result<bool, AllocError>
        ensures { IfOk result (λ keeps. keeps ≡ keeps_law (only self.now) node.now) }
    {
        let Some(parent) = self.parent_of(node) else {
            return Ok(true);
        };
        let dacl = agrees_with(alloc, node, parent, Which::Dacl)?;
        let sacl = agrees_with(alloc, node, parent, Which::Sacl)?;
        Ok(dacl && sacl)
    }
}

// Whether the list, if it is linked, stores what the parent's stored list passes.
fn agrees_with(alloc: Global, node: &Node, parent: &Node, which: Which) -> Result<bool, AllocError>
    ensures { IfOk result (λ agrees. agrees ≡ agrees_with which node.now parent.now) }
{
    if !takes_from(node, parent, which) {
        return Ok(true);
    }
    let passed = pass(alloc, node.kind, parent.held(which).full())?;
    Ok(stores(node.held(which), &passed))
}
