//! Each call of a keeper that reads, made through the trait by the numbers of objects, and its
//! answer in words; walks and spreads too.

use crate::objects::push_node;
use crate::replying::{kind_text, push_fault, push_listing};
use crate::sending::{path_of, which_of};
use crate::words::{cut, push, push_all, push_number};
use crate::writing::write;
use room_ace::{Name, read_name};
use room_inherit::{Spread, SpreadFault, spread, spread_all};
use room_rows::{Bytes, Keep, KeepFault, Node, Path, Walk, walk};
use std::alloc::Global;
use std::str;
use std::test::Fail;

/// Makes the call of these words, and adds the answer.
pub(crate) fn call<K: Keep>(
    alloc: Global,
    keep: &mut K,
    words: &str,
    told: &mut String,
) -> Result<(), Fail> {
    let (verb, rest) = cut(words);
    match verb {
        "Root" => root(alloc, keep, told),
        "Ids" => ids(keep, told),
        "Groups" => groups(alloc, keep, rest, told),
        "Walk" => walk_along(alloc, keep, rest, told),
        "SpreadAll" => push_spread(told, carry_from_root(alloc, keep)),
        _ => call_at(alloc, keep, verb, rest, told),
    }
}

// Makes the call of this word at the object whose number comes first.
fn call_at<K: Keep>(
    alloc: Global,
    keep: &mut K,
    verb: &str,
    words: &str,
    told: &mut String,
) -> Result<(), Fail> {
    let (number, rest) = cut(words);
    let id = number.parse::<u64>()?;
    match verb {
        "Node" => node(alloc, keep, id, told),
        "Child" => child(alloc, keep, id, rest, told),
        "Children" => children(keep, id, told),
        "Listing" => listing(keep, id, told),
        "HasChildren" => has_children(keep, id, told),
        "Body" => body(keep, id, told),
        "Spread" => push_spread(told, carry(alloc, keep, id, rest)),
        _ => write(alloc, keep, verb, id, rest, told),
    }
}

fn root<K: Keep>(alloc: Global, keep: &mut K, told: &mut String) -> Result<(), Fail> {
    match keep.root() {
        Ok(node) => {
            let pushed = push_node(alloc, told, &node);
            drop(node);
            pushed
        }
        Err(fault) => push_fault(told, fault),
    }
}

fn ids<K: Keep>(keep: &mut K, told: &mut String) -> Result<(), Fail> {
    match keep.ids() {
        Ok(ids) => push_numbers(told, ids.as_slice()),
        Err(fault) => push_fault(told, fault),
    }
}

fn push_numbers(told: &mut String, ids: &[u64]) -> Result<(), Fail> {
    push(told, "ids")?;
    'ids: for id in ids {
        push(told, " ")?;
        push_number(told, *id)?;
    }
    Ok(())
}

fn node<K: Keep>(alloc: Global, keep: &mut K, id: u64, told: &mut String) -> Result<(), Fail> {
    push_found(alloc, told, keep.node(id))
}

fn child<K: Keep>(
    alloc: Global,
    keep: &mut K,
    parent: u64,
    name: &str,
    told: &mut String,
) -> Result<(), Fail> {
    push_found(alloc, told, keep.child(parent, name))
}

fn push_found(
    alloc: Global,
    told: &mut String,
    answer: Result<Option<Node>, KeepFault>,
) -> Result<(), Fail> {
    match answer {
        Ok(found) => {
            let pushed = push_node_or_none(alloc, told, &found);
            drop(found);
            pushed
        }
        Err(fault) => push_fault(told, fault),
    }
}

fn push_node_or_none(alloc: Global, told: &mut String, found: &Option<Node>) -> Result<(), Fail> {
    match found {
        None => push(told, "none"),
        Some(node) => push_node(alloc, told, node),
    }
}

fn children<K: Keep>(keep: &mut K, parent: u64, told: &mut String) -> Result<(), Fail> {
    match keep.children(parent) {
        Ok(nodes) => push_children(told, nodes.as_slice()),
        Err(fault) => push_fault(told, fault),
    }
}

fn push_children(told: &mut String, nodes: &[Node]) -> Result<(), Fail> {
    push(told, "children")?;
    'nodes: for node in nodes {
        push(told, " ")?;
        push_number(told, node.id)?;
        push(told, ":")?;
        push(told, kind_text(node.kind))?;
        push_all(told, &[":", node.name.as_str()])?;
    }
    Ok(())
}

fn listing<K: Keep>(keep: &mut K, parent: u64, told: &mut String) -> Result<(), Fail> {
    match keep.listing(parent) {
        Ok(listing) => push_listing(told, listing.as_slice()),
        Err(fault) => push_fault(told, fault),
    }
}

fn has_children<K: Keep>(keep: &mut K, parent: u64, told: &mut String) -> Result<(), Fail> {
    match keep.has_children(parent) {
        Ok(true) => push(told, "yes"),
        Ok(false) => push(told, "no"),
        Err(fault) => push_fault(told, fault),
    }
}

fn body<K: Keep>(keep: &mut K, id: u64, told: &mut String) -> Result<(), Fail> {
    match keep.body(id) {
        Ok(body) => push_body(told, &body),
        Err(fault) => push_fault(told, fault),
    }
}

fn push_body(told: &mut String, body: &Option<Bytes>) -> Result<(), Fail> {
    match body {
        None => push(told, "none"),
        Some(bytes) => push_all(told, &["bytes ", str::from_utf8(bytes.as_slice())?]),
    }
}

fn groups<K: Keep>(alloc: Global, keep: &mut K, user: &str, told: &mut String) -> Result<(), Fail> {
    let user = read_name(alloc, user)?;
    push_groups_of(keep, &user, told)
}

fn push_groups_of<K: Keep>(keep: &mut K, user: &Name, told: &mut String) -> Result<(), Fail> {
    match keep.groups_of(user) {
        Ok(groups) => push_names(told, groups.as_slice()),
        Err(fault) => push_fault(told, fault),
    }
}

fn push_names(told: &mut String, names: &[Name]) -> Result<(), Fail> {
    push(told, "groups")?;
    'names: for name in names {
        push_all(told, &[" ", name.as_str()])?;
    }
    Ok(())
}

fn walk_along<K: Keep>(
    alloc: Global,
    keep: &mut K,
    place: &str,
    told: &mut String,
) -> Result<(), Fail> {
    let path = path_of(alloc, place)?;
    match walked(alloc, keep, &path) {
        Ok(walk) => push_walk(told, &walk),
        Err(fault) => push_fault(told, fault),
    }
}

/// The objects along a path, in a function without a contract.
pub(crate) fn walked<K: Keep>(alloc: Global, keep: &mut K, path: &Path) -> Result<Walk, KeepFault> {
    walk(alloc, keep, path)
}

fn push_walk(told: &mut String, walk: &Walk) -> Result<(), Fail> {
    push(told, "found ")?;
    push_number(told, walk.chain.len() as u64)?;
    push(told, " left ")?;
    push_number(told, walk.rest as u64)
}

fn carry<K: Keep>(
    alloc: Global,
    keep: &mut K,
    id: u64,
    which: &str,
) -> Result<Spread, SpreadFault> {
    spread(alloc, keep, id, which_of(which))
}

fn carry_from_root<K: Keep>(alloc: Global, keep: &mut K) -> Result<Spread, SpreadFault> {
    spread_all(alloc, keep)
}

fn push_spread(told: &mut String, answer: Result<Spread, SpreadFault>) -> Result<(), Fail> {
    match answer {
        Ok(spread) => {
            push(told, "changed ")?;
            push_number(told, spread.changed)
        }
        Err(SpreadFault::Loop) => push(told, "loop"),
        Err(SpreadFault::Keeper(fault)) => push_fault(told, fault),
    }
}
