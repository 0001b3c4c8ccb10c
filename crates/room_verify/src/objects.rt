//! All objects of the rows.
ghost use Rattle.std.specs.Prelude.{◌≡◌, false, IsTrue, MatchResult, Some};
ghost use Rattle.std.specs.Option.{option_copied};
ghost use Rattle.room_rows.specs.Content.{parent_of};
ghost use Rattle.room_rows.specs.Finding.{find_id};
ghost use Rattle.room_verify.specs.Objects.{are_rising, first_fallen, only};

use room_rows::{Node, Nodes};
use std::marker::Model;

/// Objects in rising order of their numbers. A contract sees the list of them.
#[derive(Drop)]
pub(crate) struct Objects {
    nodes: Nodes,
}

impl Model for Objects {
    ghost use Rattle.std.specs.Prelude.{List, IsTrue};
    ghost use Rattle.room_rows.specs.declared.node.Node.{Node};
    ghost use Rattle.room_verify.specs.Objects.{are_rising};

    ghost Value = { List Node };

    ghost view = { λ o. o.nodes };

    ghost invariant = { λ o. IsTrue (are_rising o.nodes) };
}

impl Objects {
    /// The objects, if their numbers rise from 1 on, or else the first number that doesn't.
    pub(crate) fn new(nodes: Nodes) -> Result<Objects, u64>
        ensures { MatchResult result (λ objects. objects ≡ nodes)
            (λ id. (are_rising nodes ≡ false) × (first_fallen 0 nodes ≡ Some id)) }
    {
        match first_fallen(nodes.as_slice()) {
            None => Ok(Objects { nodes }),
            Some(id) => Err(id),
        }
    }

    /// The objects as a slice.
    pub(crate) fn as_slice(&self) -> &[Node]
        ensures value { result.now ≡ self.now }
        ensures rising { IsTrue (are_rising result.now) }
    {
        self.nodes.as_slice()
    }

    /// The object of this number.
    pub(crate) fn at(&self, id: u64) -> Option<&Node>
        ensures { option_copied result ≡ find_id id self.now }
    {
        find_rising(self.nodes.as_slice(), id)
    }

    /// The parent, if it is there.
    pub(crate) fn parent_of(&self, node: &Node) -> Option<&Node>
        ensures { option_copied result ≡ parent_of (only self.now) node.now }
    {
        match node.parent {
            None => None,
            Some(parent) => self.at(parent),
        }
    }
}

// The first number that isn't above the one before it, or above 0. There is none where they rise.
fn first_fallen(nodes: &[Node]) -> Option<u64>
    ensures { result ≡ first_fallen 0 nodes.now }
{
    let mut last = 0;
    for node in nodes {
        if node.id <= last {
            return Some(node.id);
        }
        last = node.id;
    }
    None
}

// The object of this number, where the numbers rise.
fn find_rising(nodes: &[Node], id: u64) -> Option<&Node>
    requires { IsTrue (are_rising nodes.now) }
    ensures { option_copied result ≡ find_id id nodes.now }
{
    match nodes.binary_search_by_key(&id, |node| node.id) {
        Ok(place) => Some(&nodes[place]),
        Err(_) => None,
    }
}
