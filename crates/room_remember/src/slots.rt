//! The table of what is remembered.
ghost use Rattle.std.specs.Prelude.{◌≡◌, [], ◌<◌, ◌≤◌, IfSome, Some, length};
ghost use Rattle.std.specs.List.{All};
ghost use Rattle.room_rows.specs.Rows.{Rows};
ghost use Rattle.room_remember.specs.Agrees.{Holds, IsSlot};

use crate::known::Known;
use std::alloc::{AllocError, Global};
use std::marker::Model;

/// How many answers are remembered at most.
pub(crate) const SLOTS: usize = 512;

/// Answers, each in the slot that its question gives it. There are at most 512 slots. A contract
/// sees them as a list.
pub(crate) struct Slots {
    items: Vec<Option<Box<Known>>>,
}

impl Model for Slots {
    ghost use Rattle.std.specs.Prelude.{Box, List, Option, length, ◌≤◌};
    ghost use Rattle.std.specs.declared.alloc.Global.{Global};
    ghost use Rattle.room_remember.specs.declared.known.Known.{Known};

    ghost Value = { List (Option (Box Known Global)) };

    ghost view = { λ s. s.items.items };

    ghost invariant = { λ s. length s.items.items ≤ 512 };
}

// It is written out, so that a caller does not prove again how each part is dropped.
impl Drop for Slots {
    fn drop(self) {
        let Slots { items: _ } = self;
    }
}

impl Slots {
    /// No slot, which takes no memory.
    pub(crate) fn new(alloc: Global) -> Slots
        ensures { result ≡ [] }
    {
        Slots {
            items: Vec::new(alloc),
        }
    }

    /// Removes all answers. The table keeps its own memory.
    pub(crate) fn clear(&mut self)
        ensures { self.new ≡ [] }
    {
        self.items.clear();
    }

    /// What lies in a slot.
    pub(crate) fn at(&self, slot: usize) -> Option<&Known>
        ensures { IfSome result (λ known. (rows : Rows) → All (IsSlot rows) self.now
            → Holds rows known.now) }
    {
        if slot >= self.items.len() {
            return None;
        }
        match &self.items[slot] {
            None => None,
            Some(known) => Some(&**known),
        }
    }

    /// Puts an answer into its slot, if there is memory for the slots up to it.
    pub(crate) fn put(&mut self, slot: usize, known: Box<Known>)
        requires { slot < SLOTS }
        ensures { (rows : Rows) → IsSlot rows (Some known) → All (IsSlot rows) self.old
            → All (IsSlot rows) self.new }
    {
        let _ = fill(&mut self.items, slot);
        if slot < self.items.len() {
            self.items[slot] = Some(known);
        }
    }
}

// Adds empty slots up to this one.
fn fill(slots: &mut Vec<Option<Box<Known>>>, slot: usize) -> Result<(), AllocError>
    requires slot { slot < SLOTS }
    requires few { length slots.old.items ≤ SLOTS }
    ensures few { length slots.new.items ≤ SLOTS }
    ensures same { (rows : Rows) → All (IsSlot rows) slots.old.items
        → All (IsSlot rows) slots.new.items }
{
    'slots: for _ in 0..SLOTS {
        if slots.len() > slot {
            return Ok(());
        }
        slots.push(None)?;
    }
    Ok(())
}
