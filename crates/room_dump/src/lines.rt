//! The lines that a dump has of an object.
ghost use Rattle.std.specs.Prelude.{◌≡◌, ◌++◌, OnOk, string_bytes};
ghost use Rattle.room_dump.specs.Lines.{
  heading,
  held_text,
  kind_label,
  object_text,
  owners_text,
  size_text,
};

use room_ace::{ObjKind, Which, print_list};
use room_rows::{Held, Node};
use std::alloc::{AllocError, Global};
use std::fmt::Write;

// Adds the lines of an object at this path. A document has `size` bytes.
pub(crate) fn push_object(
    alloc: Global,
    text: &mut String,
    path: &str,
    node: &Node,
    size: usize,
) -> Result<(), AllocError>
    ensures { OnOk result
        (string_bytes text.new ≡ string_bytes text.old ++ object_text path.now node.now size) }
{
    push_heading(text, path, node, size)?;
    text.push_str("dacl\n")?;
    push_held(alloc, text, node.held(Which::Dacl))?;
    text.push_str("sacl\n")?;
    push_held(alloc, text, node.held(Which::Sacl))
}

fn push_heading(text: &mut String, path: &str, node: &Node, size: usize) -> Result<(), AllocError>
    ensures { OnOk result
        (string_bytes text.new ≡ string_bytes text.old ++ heading path.now node.now size) }
{
    push_kind(text, node.kind)?;
    push_owners(text, node.owners.owner.as_str(), node.owners.group.as_str())?;
    push_size(text, node.kind, size)?;
    text.push_str(path)?;
    text.push_str("\n")
}

fn push_kind(text: &mut String, kind: ObjKind) -> Result<(), AllocError>
    ensures { OnOk result (string_bytes text.new ≡ string_bytes text.old ++ kind_label kind) }
{
    match kind {
        ObjKind::Folder => text.push_str("folder "),
        ObjKind::Document => text.push_str("document "),
    }
}

fn push_owners(text: &mut String, owner: &str, group: &str) -> Result<(), AllocError>
    ensures { OnOk result
        (string_bytes text.new ≡ string_bytes text.old ++ owners_text owner.now group.now) }
{
    text.push_str(owner)?;
    text.push_str(" ")?;
    text.push_str(group)?;
    text.push_str(" ")
}

fn push_size(text: &mut String, kind: ObjKind, size: usize) -> Result<(), AllocError>
    ensures { OnOk result (string_bytes text.new ≡ string_bytes text.old ++ size_text kind size) }
{
    match kind {
        ObjKind::Folder => Ok(()),
        ObjKind::Document => write!(text, "{size} "),
    }
}

// Adds the text of a list.
fn push_held(alloc: Global, text: &mut String, held: &Held) -> Result<(), AllocError>
    ensures { OnOk result (string_bytes text.new ≡ string_bytes text.old ++ held_text held.now) }
{
    let list = print_list(alloc, held.flags(), held.full())?;
    text.push_str(list.as_str())
}
