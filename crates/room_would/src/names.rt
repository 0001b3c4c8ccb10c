//! The names of a question, and names that aren't in it.
ghost use Rattle.std.specs.Prelude.{[], ◌∷◌, IfOk, OnOk};
ghost use Rattle.std.specs.List.{flat_map};
ghost use Rattle.std.specs.Option.{option_to_list};
ghost use Rattle.room_review.specs.Users.{Gathers};
ghost use Rattle.room_would.specs.Names.{
  AreFree,
  group_in,
  groups_in,
  groups_listed,
  groups_named,
  groups_of_change,
  groups_of_object,
  names_of_supposed,
  others_named,
  owner_in,
  users_listed,
  users_named,
  users_of_change,
  users_of_object,
};

use room_ace::{Entry, Name, Who};
use room_question::{Change, Listed, Object, Owner, Question, Supposed};
use room_review::{Users, stranger_to};
use std::alloc::{AllocError, Global};

/// Names that a question doesn't have.
#[derive(Drop)]
pub(crate) struct Free {
    /// For an owner or a group that isn't known. Nobody has it.
    pub(crate) unread: Name,
    /// For a caller whom nothing names.
    pub(crate) stranger: Name,
}

/// Two names that the question doesn't have.
pub(crate) fn free_names(alloc: Global, question: &Question) -> Result<Free, AllocError>
    ensures { IfOk result (λ free. AreFree question.now free.unread free.stranger) }
{
    let mut names = users_named(alloc, question)?;
    add_others(&mut names, question)?;
    let unread = stranger_to(alloc, &names)?;
    names.add(&unread)?;
    let stranger = stranger_to(alloc, &names)?;
    Ok(Free { unread, stranger })
}

/// Whom the question names as users: those of pairs, owners, and those whom lists name.
pub(crate) fn users_named(alloc: Global, question: &Question) -> Result<Users, AllocError>
    ensures { IfOk result (λ users. Gathers [] (users_named question.now) users) }
{
    let mut users = Users::new(alloc);
    users.add_paired(question.members.as_slice())?;
    add_users_of_objects(&mut users, question.objects.as_slice())?;
    add_users_of_changes(&mut users, question.changes.as_slice())?;
    Ok(users)
}

fn add_users_of_objects(users: &mut Users, objects: &[Object]) -> Result<(), AllocError>
    ensures { OnOk result (Gathers users.old (flat_map users_of_object objects.now) users.new) }
{
    'objects: for object in objects {
        add_users_of_object(users, object)?;
    }
    Ok(())
}

fn add_users_of_changes(users: &mut Users, changes: &[Change]) -> Result<(), AllocError>
    ensures { OnOk result (Gathers users.old (flat_map users_of_change changes.now) users.new) }
{
    'changes: for change in changes {
        add_users_of_change(users, change)?;
    }
    Ok(())
}

fn add_users_of_change(users: &mut Users, change: &Change) -> Result<(), AllocError>
    ensures { OnOk result (Gathers users.old (users_of_change change.now) users.new) }
{
    match change {
        Change::Sets(setting) => users.add_listed(setting.list.entries().as_slice()),
        Change::Moves(_) => Ok(()),
        Change::Comes(object) => add_users_of_object(users, object),
    }
}

fn add_users_of_object(users: &mut Users, object: &Object) -> Result<(), AllocError>
    ensures { OnOk result (Gathers users.old (users_of_object object.now) users.new) }
{
    add_owner(users, &object.owner)?;
    add_users_listed(users, &object.list)
}

fn add_owner(users: &mut Users, owner: &Owner) -> Result<(), AllocError>
    ensures { OnOk result (Gathers users.old (owner_in owner.now) users.new) }
{
    match owner {
        Owner::User(name) => users.add(name),
        Owner::Unread | Owner::Each => Ok(()),
    }
}

fn add_users_listed(users: &mut Users, list: &Listed) -> Result<(), AllocError>
    ensures { OnOk result (Gathers users.old (users_listed list.now) users.new) }
{
    match list {
        Listed::Text(sent) => users.add_listed(sent.entries().as_slice()),
        Listed::Follows | Listed::Unread => Ok(()),
    }
}

// ---- all other names

// Adds all groups, and the names of callers who may be.
fn add_others(names: &mut Users, question: &Question) -> Result<(), AllocError>
    ensures { OnOk result (Gathers names.old (others_named question.now) names.new) }
{
    add_groups(names, question)?;
    add_supposed(names, question.supposed.as_slice())
}

// Adds the groups of pairs, owning groups, and groups that lists name.
fn add_groups(names: &mut Users, question: &Question) -> Result<(), AllocError>
    ensures { OnOk result (Gathers names.old (groups_named question.now) names.new) }
{
    add_paired_groups(names, question.members.as_slice())?;
    add_groups_of_objects(names, question.objects.as_slice())?;
    add_groups_of_changes(names, question.changes.as_slice())?;
    Ok(())
}

fn add_paired_groups(names: &mut Users, pairs: &[(Name, Name)]) -> Result<(), AllocError>
    ensures { OnOk result
        (Gathers names.old (flat_map (λ pair. pair.0 ∷ []) pairs.now) names.new) }
{
    'pairs: for pair in pairs {
        names.add(&pair.0)?;
    }
    Ok(())
}

fn add_groups_of_objects(names: &mut Users, objects: &[Object]) -> Result<(), AllocError>
    ensures { OnOk result (Gathers names.old (flat_map groups_of_object objects.now) names.new) }
{
    'objects: for object in objects {
        add_groups_of_object(names, object)?;
    }
    Ok(())
}

fn add_groups_of_changes(names: &mut Users, changes: &[Change]) -> Result<(), AllocError>
    ensures { OnOk result (Gathers names.old (flat_map groups_of_change changes.now) names.new) }
{
    'changes: for change in changes {
        add_groups_of_change(names, change)?;
    }
    Ok(())
}

fn add_groups_of_change(names: &mut Users, change: &Change) -> Result<(), AllocError>
    ensures { OnOk result (Gathers names.old (groups_of_change change.now) names.new) }
{
    match change {
        Change::Sets(setting) => add_groups_in(names, setting.list.entries().as_slice()),
        Change::Moves(_) => Ok(()),
        Change::Comes(object) => add_groups_of_object(names, object),
    }
}

fn add_groups_of_object(names: &mut Users, object: &Object) -> Result<(), AllocError>
    ensures { OnOk result (Gathers names.old (groups_of_object object.now) names.new) }
{
    add_perhaps(names, &object.group)?;
    add_groups_listed(names, &object.list)
}

fn add_groups_listed(names: &mut Users, list: &Listed) -> Result<(), AllocError>
    ensures { OnOk result (Gathers names.old (groups_listed list.now) names.new) }
{
    match list {
        Listed::Text(sent) => add_groups_in(names, sent.entries().as_slice()),
        Listed::Follows | Listed::Unread => Ok(()),
    }
}

fn add_groups_in(names: &mut Users, entries: &[Entry]) -> Result<(), AllocError>
    ensures { OnOk result (Gathers names.old (groups_in entries.now) names.new) }
{
    'entries: for entry in entries {
        add_group(names, entry.who())?;
    }
    Ok(())
}

// Adds the group that is named, if one is.
fn add_group(names: &mut Users, who: &Who) -> Result<(), AllocError>
    ensures { OnOk result (Gathers names.old (group_in who.now) names.new) }
{
    match who {
        Who::Members(name) => names.add(name),
        Who::Owner | Who::Group | Who::Everyone => Ok(()),
        Who::Anonymous | Who::Authenticated | Who::User(_) => Ok(()),
    }
}

fn add_supposed(names: &mut Users, supposed: &[Supposed]) -> Result<(), AllocError>
    ensures { OnOk result (Gathers names.old (flat_map names_of_supposed supposed.now) names.new) }
{
    'supposed: for one in supposed {
        add_names_of(names, one)?;
    }
    Ok(())
}

fn add_names_of(names: &mut Users, supposed: &Supposed) -> Result<(), AllocError>
    ensures { OnOk result (Gathers names.old (names_of_supposed supposed.now) names.new) }
{
    add_perhaps(names, &supposed.user)?;
    add_each(names, supposed.groups.as_slice())
}

// Adds a name that may be missing.
fn add_perhaps(names: &mut Users, name: &Option<Name>) -> Result<(), AllocError>
    ensures { OnOk result (Gathers names.old (option_to_list name.now) names.new) }
{
    match name {
        None => Ok(()),
        Some(name) => names.add(name),
    }
}

fn add_each(names: &mut Users, more: &[Name]) -> Result<(), AllocError>
    ensures { OnOk result (Gathers names.old (flat_map (λ name. name ∷ []) more.now) names.new) }
{
    'names: for name in more {
        names.add(name)?;
    }
    Ok(())
}
