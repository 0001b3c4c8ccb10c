//! An access control entry.
ghost use Rattle.std.specs.Prelude.{◌≡◌, ◌++◌, IsTrue, IfOk, OnOk};
ghost use Rattle.room_entry.specs.Ace.{fits_who};
ghost use Rattle.room_entry.specs.Laws.{IsEntry};
ghost use Rattle.room_entry.specs.Valid.{asks_records};

use crate::flags::EntryFlags;
use crate::items::Items;
use crate::mask::Mask;
use crate::name::Name;
use std::alloc::AllocError;
use std::marker::Model;

/// The type of an entry (RFC 8881, section 6.2.1.1).
#[derive(Clone, Copy, Debug, PartialEq, Eq)]
pub enum EntryKind {
    /// Allows the bits of its mask.
    Allow,
    /// Denies the bits of its mask.
    Deny,
    /// Asks for a record of a check in the log.
    Audit,
    /// Asks for a record of a check as an alarm.
    Alarm,
}

impl EntryKind {
    /// Whether entries of this type ask for records.
    pub fn asks_records(self) -> bool
        ensures { result ≡ asks_records self }
    {
        match self {
            EntryKind::Allow | EntryKind::Deny => false,
            EntryKind::Audit | EntryKind::Alarm => true,
        }
    }
}

/// Whom an entry speaks of (RFC 8881, section 6.2.1.5).
#[derive(Clone, Drop)]
pub enum Who {
    /// `OWNER@`: the user who owns the object.
    Owner,
    /// `GROUP@`: the members of the group that owns the object.
    Group,
    /// `EVERYONE@`: each caller, also one without a name.
    Everyone,
    /// `ANONYMOUS@`: a caller without a name.
    Anonymous,
    /// `AUTHENTICATED@`: each caller with a name.
    Authenticated,
    /// The user of this name.
    User(Name),
    /// The members of the group of this name, which stands with the flag IDENTIFIER_GROUP.
    Members(Name),
}

/// An access control entry (RFC 8881, section 6.2.1).
#[derive(Clone, Drop)]
pub struct Entry {
    kind: EntryKind,
    flags: EntryFlags,
    who: Who,
    mask: Mask,
}

impl Model for Entry {
    ghost use Rattle.std.specs.Prelude.{IsTrue};
    ghost use Rattle.room_entry.specs.Ace.{Ace, fits_who};

    ghost Value = { Ace };

    ghost view = { λ e. record { kind = e.kind; flags = e.flags; who = e.who; mask = e.mask } };

    ghost invariant = { λ e. IsTrue (fits_who e.who e.flags.identifier_group) };
}

impl Entry {
    /// An entry of these parts. A user's name stands without IDENTIFIER_GROUP, and a group's with
    /// it.
    pub fn new(kind: EntryKind, flags: EntryFlags, who: Who, mask: Mask) -> Entry
        requires { IsTrue (fits_who who flags.identifier_group) }
        ensures { result ≡ record { kind = kind; flags = flags; who = who; mask = mask } }
    {
        Entry {
            kind,
            flags,
            who,
            mask,
        }
    }

    /// States for a proof that the parts are those of an entry.
    pub fn is_known(&self)
        ensures { IsEntry self.now }
    {
        self.mask.is_known();
        match &self.who {
            Who::User(name) => name.is_known(),
            Who::Members(name) => name.is_known(),
            Who::Owner | Who::Group | Who::Everyone | Who::Anonymous | Who::Authenticated => {}
        }
    }

    /// The type.
    pub fn kind(&self) -> EntryKind
        ensures { result ≡ self.now.kind }
    {
        self.kind
    }

    /// The flags.
    pub fn flags(&self) -> EntryFlags
        ensures { result ≡ self.now.flags }
    {
        self.flags
    }

    /// The entry with other flags, which keep IDENTIFIER_GROUP as it is.
    pub fn with_flags(&self, flags: EntryFlags) -> Result<Entry, AllocError>
        requires { flags.identifier_group ≡ self.now.flags.identifier_group }
        ensures { IfOk result (λ entry. entry ≡ record self.now { flags = flags }) }
    {
        Ok(Entry {
            kind: self.kind,
            flags,
            who: self.who.clone()?,
            mask: self.mask,
        })
    }

    /// Whom the entry speaks of.
    pub fn who(&self) -> &Who
        ensures { result.now ≡ self.now.who }
    {
        &self.who
    }

    /// The bits that the entry speaks of.
    pub fn mask(&self) -> Mask
        ensures { result ≡ self.now.mask }
    {
        self.mask
    }
}

/// Entries in order.
pub type Entries = Items<Entry>;

impl Items<Entry> {
    /// A copy.
    pub fn copy(&self) -> Result<Entries, AllocError>
        ensures { IfOk result (λ copy. copy ≡ self.now) }
    {
        self.clone()
    }

    /// Adds copies of the entries at the end. An `Err` leaves some of them added.
    pub fn extend(&mut self, entries: &[Entry]) -> Result<(), AllocError>
        ensures ok { OnOk result (self.new ≡ self.old ++ entries.now) }
    {
        for entry in entries {
            self.push(entry.clone()?)?;
        }
        Ok(())
    }
}
