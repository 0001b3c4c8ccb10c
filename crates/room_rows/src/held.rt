//! The lists of an object.
ghost use Rattle.std.specs.Prelude.{◌≡◌, [], IfOk};
ghost use Rattle.room_rows.specs.Held.{full_of};

use room_entry::{Entries, Entry, ListFlags};
use std::alloc::{AllocError, Global};
use std::marker::Model;

/// One list of an object: its flags, its own entries, and the inherited ones that are stored. The
/// full list is one slice, so a list is judged without a copy.
#[derive(Clone, Drop)]
pub struct Held {
    flags: ListFlags,
    entries: Entries,
    own: usize,
}

impl Model for Held {
    ghost use Rattle.std.specs.Prelude.{◌≤◌, take, drop, length};
    ghost use Rattle.room_rows.specs.HeldList.{Held};

    ghost Value = { Held };

    ghost view = { λ h. record {
      flags = h.flags;
      own = take h.own h.entries;
      inh = drop h.own h.entries;
    } };

    ghost invariant = { λ h. h.own ≤ length h.entries };
}

impl Held {
    /// The list of these own entries, followed by these inherited ones.
    pub fn new(flags: ListFlags, own: Entries, inh: Entries) -> Result<Held, AllocError>
        ensures { IfOk result (λ held. held ≡ record { flags = flags; own = own; inh = inh }) }
    {
        // most lists are inherited whole, and need no memory for own entries before them
        if own.as_slice().is_empty() {
            return Ok(Held::inherited(flags, inh));
        }
        let count = own.as_slice().len();
        let mut entries = own.into_vec();
        let mut moved = inh.into_vec();
        entries.append(&mut moved)?;
        Ok(Held {
            flags,
            entries: Entries::from_vec(entries),
            own: count,
        })
    }

    /// The list of these inherited entries alone, which takes no memory.
    pub fn inherited(flags: ListFlags, inh: Entries) -> Held
        ensures { result ≡ record { flags = flags; own = []; inh = inh } }
    {
        Held {
            flags,
            entries: inh,
            own: 0,
        }
    }

    /// The list's flags.
    pub fn flags(&self) -> ListFlags
        ensures { result ≡ self.now.flags }
    {
        self.flags
    }

    /// The own entries.
    pub fn own(&self) -> &[Entry]
        ensures { result.now ≡ self.now.own }
    {
        &self.entries.as_slice()[..self.own]
    }

    /// The inherited entries that are stored.
    pub fn inh(&self) -> &[Entry]
        ensures { result.now ≡ self.now.inh }
    {
        &self.entries.as_slice()[self.own..]
    }

    /// The own entries, and then the inherited ones.
    pub fn full(&self) -> &[Entry]
        ensures { result.now ≡ full_of self.now }
    {
        self.entries.as_slice()
    }

    /// A copy with these inherited entries in place of those it has.
    pub fn with_inh(&self, alloc: Global, inh: &[Entry]) -> Result<Held, AllocError>
        ensures { IfOk result (λ held. held ≡ record self.now { inh = inh.now }) }
    {
        let mut entries = Entries::new(alloc);
        entries.extend(self.own())?;
        entries.extend(inh)?;
        Ok(Held {
            flags: self.flags,
            entries,
            own: self.own,
        })
    }

    /// A copy.
    pub fn copy(&self) -> Result<Held, AllocError>
        ensures { IfOk result (λ copy. copy ≡ self.now) }
    {
        Ok(Held {
            flags: self.flags,
            entries: self.entries.copy()?,
            own: self.own,
        })
    }
}
