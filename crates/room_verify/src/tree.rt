//! Whether the objects stand below one another as they should.
ghost use Rattle.std.specs.Prelude.{◌≡◌, IfOk, filter};
ghost use Rattle.std.specs.Option.{option_copied, option_map};
ghost use Rattle.room_rows.specs.Content.{has_folder_above, is_root};
ghost use Rattle.room_verify.specs.Objects.{only};
ghost use Rattle.room_rows.specs.Sound.{bad_root, fault_of, first_failing, has_sound_name, or_else};
ghost use Rattle.room_rows.specs.Sound.{path_by_number, tree_fault, true_path};

use crate::objects::Objects;
use crate::report::fault_of_number;
use room_ace::ObjKind;
use room_rows::{Node, Report, Unsound, is_object_name};
use std::alloc::{AllocError, Global};
use std::collections::BTreeSet;

/// What is wrong with the objects without a parent: the number of the second, or of the only one
/// where it is no folder, or 0 where there is none.
pub(crate) fn bad_root(nodes: &[Node]) -> Option<u64>
    ensures { result ≡ bad_root (filter is_root nodes.now) }
{
    let mut root: Option<&Node> = None;
    'nodes: for node in nodes {
        if node.parent.is_none() {
            if root.is_some() {
                return Some(node.id);
            }
            root = Some(node);
        }
    }
    match root {
        None => Some(0),
        Some(root) if root.kind == ObjKind::Folder => None,
        Some(root) => Some(root.id),
    }
}

impl Objects {
    /// The first object whose parent isn't there or is no folder.
    pub(crate) fn first_bad_parent(&self) -> Option<&Node>
        ensures { option_copied result
            ≡ first_failing (has_folder_above (only self.now)) (only self.now) }
    {
        self.as_slice()
            .iter()
            .find(|node| !self.has_folder_above(node))
    }

    fn has_folder_above(&self, node: &Node) -> bool
        ensures { result ≡ has_folder_above (only self.now) node.now }
    {
        match self.parent_of(node) {
            None => node.parent.is_none(),
            Some(parent) => parent.kind == ObjKind::Folder,
        }
    }

    /// The first object whose name is no object name, or stands under its parent already.
    pub(crate) fn first_bad_name(&self, alloc: Global) -> Result<Option<&Node>, AllocError>
        ensures { IfOk result (λ found. option_copied found
            ≡ first_failing (has_sound_name (only self.now)) (only self.now)) }
    {
        let mut given: BTreeSet<(u64, &str)> = BTreeSet::new(alloc);
        'nodes: for node in self.as_slice() {
            let Some(parent) = node.parent else {
                continue;
            };
            let name = node.name.as_str();
            if !is_object_name(name) || !given.insert((parent, name))? {
                return Ok(Some(node));
            }
        }
        Ok(None)
    }

    /// The first fault in how the objects stand below one another.
    pub(crate) fn tree_fault(&self, alloc: Global) -> Result<Option<Report>, AllocError>
        ensures { IfOk result (λ found. found ≡ tree_fault (only self.now)) }
    {
        if let Some((id, why)) = self.fault_above(alloc)? {
            return Ok(Some(fault_of_number(alloc, id, why)?));
        }
        match self.first_bad_name(alloc)? {
            Some(node) => Ok(Some(self.fault_of(alloc, node, Unsound::BadName)?)),
            None => Ok(None),
        }
    }

    // The first fault in the ways to the root, with the number of its object. Faults of names come
    // after it.
    fn fault_above(&self, alloc: Global) -> Result<Option<(u64, Unsound)>, AllocError>
        ensures { IfOk result (λ found. tree_fault (only self.now)
            ≡ or_else (option_map (λ f. Report.Fault (path_by_number f.0) f.1) found)
            (fault_of (true_path (only self.now)) Unsound.BadName
            (first_failing (has_sound_name (only self.now)) (only self.now)))) }
    {
        if let Some(id) = bad_root(self.as_slice()) {
            return Ok(Some((id, Unsound::BadRoot)));
        }
        if let Some(node) = self.first_bad_parent() {
            return Ok(Some((node.id, Unsound::BadParent)));
        }
        match self.first_loop(alloc)? {
            Some(node) => Ok(Some((node.id, Unsound::Loop))),
            None => Ok(None),
        }
    }
}
