//! The names that lead to an object.
ghost use Rattle.std.specs.Prelude.{◌≡◌, ◌∷◌, ◌++◌, IfOk, OnOk, length, reverse, string_bytes};
ghost use Rattle.std.specs.List.{flat_map};
ghost use Rattle.room_entry.specs.Bytes.{slash};
ghost use Rattle.room_rows.specs.Paths.{path_text};
ghost use Rattle.room_verify.specs.Objects.{only};
ghost use Rattle.room_rows.specs.Sound.{names_up, true_path};

use crate::objects::Objects;
use room_rows::{Node, Report, Text, Unsound};
use std::alloc::{AllocError, Global};

impl Objects {
    /// The fault of an object at its true path.
    pub(crate) fn fault_of(
        &self,
        alloc: Global,
        node: &Node,
        why: Unsound,
    ) -> Result<Report, AllocError>
        ensures { IfOk result
            (λ report. report ≡ Report.Fault (true_path (only self.now) node.now) why) }
    {
        let names = self.names_up(alloc, node)?;
        let path = path_down(alloc, names)?;
        Ok(Report::Fault { path, why })
    }

    // The names from the object up, without the root's.
    fn names_up<'a>(&'a self, alloc: Global, node: &'a Node) -> Result<Vec<Text>, AllocError>
        ensures { IfOk result (λ names. reverse names.items
            ≡ names_up (length self.now) (only self.now) node.now) }
    {
        let mut names = Vec::new(alloc);
        let mut object = node;
        'steps: for step in 0..self.as_slice().len() {
            let Some(parent) = self.parent_of(object) else {
                return Ok(names);
            };
            names.push(object.name.copy()?)?;
            object = parent;
        }
        Ok(names)
    }
}

// The path of the names, of which the last one comes first.
fn path_down(alloc: Global, names: Vec<Text>) -> Result<Text, AllocError>
    ensures { IfOk result (λ path. path ≡ path_text (reverse names.items)) }
{
    let mut text = String::new(alloc);
    if names.is_empty() {
        text.push('/')?;
    } else {
        push_down(&mut text, names)?;
    }
    Ok(Text::from_string(text))
}

// Adds the names, each after a `/`, from the last one to the first.
fn push_down(text: &mut String, names: Vec<Text>) -> Result<(), AllocError>
    ensures { OnOk result (string_bytes text.new
        ≡ string_bytes text.old ++ flat_map (λ name. slash ∷ name) (reverse names.items)) }
{
    let mut left = names;
    'names: while let Some(name) = left.pop() {
        text.push('/')?;
        text.push_str(name.as_str())?;
    }
    Ok(())
}
