//! Whether the rows hold the kept entries alone.
ghost use Rattle.std.specs.Prelude.{◌≡◌, ◌||◌, not};
ghost use Rattle.std.specs.Option.{option_copied};
ghost use Rattle.room_rows.specs.Content.{is_empty};
ghost use Rattle.room_rows.specs.Held.{held_of};
ghost use Rattle.room_inherit.specs.Turn.{is_linked_to};
ghost use Rattle.room_verify.specs.Kept.{stores_kept_alone};
ghost use Rattle.room_verify.specs.Objects.{only};
ghost use Rattle.room_rows.specs.Sound.{first_failing};

use crate::objects::Objects;
use room_ace::Which;
use room_inherit::takes_from;
use room_rows::Node;

impl Objects {
    /// The first object with a linked list that stores inherited entries.
    pub(crate) fn first_not_kept(&self) -> Option<&Node>
        ensures { option_copied result
            ≡ first_failing (stores_kept_alone (only self.now)) (only self.now) }
    {
        'nodes: for node in self.as_slice() {
            if !self.stores_kept_alone(node) {
                return Some(node);
            }
        }
        None
    }

    fn stores_kept_alone(&self, node: &Node) -> bool
        ensures { result ≡ stores_kept_alone (only self.now) node.now }
    {
        match self.parent_of(node) {
            None => true,
            Some(parent) => {
                keeps_alone(node, parent, Which::Dacl) && keeps_alone(node, parent, Which::Sacl)
            }
        }
    }
}

// Whether the list isn't linked, or stores no inherited entries.
fn keeps_alone(node: &Node, parent: &Node, which: Which) -> bool
    ensures { result
        ≡ (not (is_linked_to which parent.now node.now) || is_empty (held_of which node.now).inh) }
{
    !takes_from(node, parent, which) || node.held(which).inh().is_empty()
}
