//! Pairs and records, each as a list in order.
ghost use Rattle.std.specs.Prelude.{
  ◌≡◌,
  ◌≤◌,
  ◌<◌,
  [],
  ◌∷◌,
  ◌++◌,
  IfOk,
  OnOk,
  OnErr,
  map,
  filter,
  not,
  take,
  drop,
  length,
  get_or,
  false,
};
ghost use Rattle.room_entry.specs.Pieces.{same_text};
ghost use Rattle.room_rows.specs.Content.{is_pair_before, put_pair, set_of};
ghost use Rattle.room_memory.specs.Pairs.{is_same_pair, pair_cmp};

use room_entry::{Name, Names};
use room_rows::AuditRow;
use std::alloc::{AllocError, Global};
use std::cmp::Ordering;
use std::marker::Model;

/// Pairs of group and user, in order of group, then user, each once.
#[derive(Drop)]
pub(crate) struct PairSet {
    items: Vec<(Name, Name)>,
}

impl Model for PairSet {
    ghost use Rattle.std.specs.Prelude.{List, ℕ};
    ghost use Rattle.std.specs.List.Sorted.{IsStrictlySortedBy};
    ghost use Rattle.room_memory.specs.Pairs.{pair_cmp};

    ghost Value = { List (List ℕ × List ℕ) };

    ghost view = { λ p. p.items.items };

    ghost invariant = { λ p. IsStrictlySortedBy pair_cmp p.items.items };
}

// How the pair compares to the one of these names.
fn compare(pair: &(Name, Name), group: &Name, user: &Name) -> Ordering
    ensures { result ≡ pair_cmp pair.now (group.now, user.now) }
{
    match pair.0.as_str().cmp(group.as_str()) {
        Ordering::Less => Ordering::Less,
        Ordering::Equal => pair.1.as_str().cmp(user.as_str()),
        Ordering::Greater => Ordering::Greater,
    }
}

// Whether the pair comes before the one of these names.
fn is_before(pair: &(Name, Name), group: &Name, user: &Name) -> bool
    ensures { result ≡ is_pair_before pair.now (group.now, user.now) }
{
    compare(pair, group, user).is_lt()
}

// Whether the pair is the one of these names.
fn is_same(pair: &(Name, Name), group: &Name, user: &Name) -> bool
    ensures { result ≡ is_same_pair (group.now, user.now) pair.now }
{
    pair.0.as_str() == group.as_str() && pair.1.as_str() == user.as_str()
}

// How many pairs at the start come before the one of these names.
fn count_before(pairs: &[(Name, Name)], group: &Name, user: &Name) -> usize
    ensures within { result ≤ length pairs.now }
    ensures splits { take result pairs.now
        ++ put_pair (group.now, user.now) (drop result pairs.now) ≡
        put_pair (group.now, user.now) pairs.now }
    ensures stops { result < length pairs.now →
        is_pair_before (get_or pairs.now result (group.now, user.now)) (group.now, user.now) ≡
        false }
{
    for i in 0..pairs.len() {
        if !is_before(&pairs[i], group, user) {
            return i;
        }
    }
    pairs.len()
}

impl PairSet {
    pub(crate) fn new(alloc: Global) -> PairSet
        ensures { result ≡ [] }
    {
        PairSet {
            items: Vec::new(alloc),
        }
    }

    /// A copy.
    pub(crate) fn copy(&self) -> Result<PairSet, AllocError>
        ensures { IfOk result (λ copy. copy ≡ self.now) }
    {
        Ok(PairSet {
            items: self.items.clone()?,
        })
    }

    /// The groups that are paired with the user, in order.
    pub(crate) fn groups_of(&self, alloc: Global, user: &Name) -> Result<Names, AllocError>
        ensures { IfOk result (λ groups. groups ≡
            map (λ pair. pair.0) (filter (λ pair. same_text pair.1 user.now) self.now)) }
    {
        let mut groups = Names::new(alloc);
        for pair in self.items.iter() {
            if pair.1.as_str() == user.as_str() {
                groups.push(pair.0.copy()?)?;
            }
        }
        Ok(groups)
    }

    /// Adds the pair, if it isn't there.
    pub(crate) fn join(&mut self, group: &Name, user: &Name) -> Result<(), AllocError>
        ensures ok { OnOk result (self.new ≡ set_of ((group.now, user.now) ∷ self.old)) }
        ensures err { OnErr result (self.new ≡ self.old) }
        ensures ordered { OnOk result (set_of self.new ≡ self.new) }
    {
        let place = count_before(&self.items, group, user);
        if place < self.items.len() && is_same(&self.items[place], group, user) {
            return Ok(());
        }
        self.items.insert(place, (group.copy()?, user.copy()?))?;
        Ok(())
    }

    /// Removes the pair, if it is there.
    pub(crate) fn leave(&mut self, group: &Name, user: &Name)
        ensures left { self.new ≡
            filter (λ pair. not (is_same_pair (group.now, user.now) pair)) self.old }
        ensures ordered { set_of self.new ≡ self.new }
    {
        self.items.retain(
            |pair|
                ensures { result ≡ not (is_same_pair (group.entry.now, user.entry.now) pair.now) }
            { !is_same(pair, group, user) },
        );
    }
}

/// Records, oldest first. A contract sees the list of them.
#[derive(Drop)]
pub struct Records {
    items: Vec<AuditRow>,
}

impl Model for Records {
    ghost use Rattle.std.specs.Prelude.{List};
    ghost use Rattle.room_rows.specs.declared.node.AuditRow.{AuditRow};

    ghost Value = { List AuditRow };

    ghost view = { λ r. r.items.items };
}

impl Records {
    /// No records.
    pub fn new(alloc: Global) -> Records
        ensures { result ≡ [] }
    {
        Records {
            items: Vec::new(alloc),
        }
    }

    /// A copy.
    pub(crate) fn copy(&self) -> Result<Records, AllocError>
        ensures { IfOk result (λ copy. copy ≡ self.now) }
    {
        Ok(Records {
            items: self.items.clone()?,
        })
    }

    /// The records as a slice.
    pub fn as_slice(&self) -> &[AuditRow]
        ensures { result.now ≡ self.now }
    {
        self.items.as_slice()
    }

    /// Adds a record at the end.
    pub fn push(&mut self, row: AuditRow) -> Result<(), AllocError>
        ensures ok { OnOk result (self.new ≡ self.old ++ row ∷ []) }
        ensures err { OnErr result (self.new ≡ self.old) }
    {
        self.items.push(row)?;
        Ok(())
    }
}
