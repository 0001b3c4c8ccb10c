//! The contract of what keeps the objects.
ghost use Rattle.std.specs.Prelude.{◌≡◌, ℕ, ◌+◌, ◌-◌, ◌≤◌, Some, length};
ghost use Rattle.room_rows.specs.declared.keep.KeepFault.TheVariants.{Memory};
ghost use Rattle.room_rows.specs.Faults.{keep_fault_text};
ghost use Rattle.room_rows.specs.Held.{with_held};
ghost use Rattle.room_rows.specs.Keep.{
  Adds,
  AreChildrenOf,
  AreGroupsOf,
  AreNamedUnder,
  AreNumbers,
  Changes,
  ChangesAll,
  HasChildren,
  HasNoRoot,
  IsBodyOf,
  IsChildOf,
  IsNever,
  IsNodeAt,
  IsRead,
  IsRootOf,
  IsUnreadable,
  IsUnreadableAt,
  IsWrite,
  IsWriteOf,
  KeepLaws,
  Leaves,
  Notes,
  Places,
  Removes,
  SetsBody,
  with_bytes,
  with_inh,
  with_owners,
};
ghost use Rattle.room_rows.specs.Rows.{Rows};

use crate::held::Held;
use crate::listing::Listing;
use crate::node::{AuditRow, NewNode, Node, Nodes, Numbers};
use crate::text::Bytes;
use room_entry::{Entry, Name, Names, Owners, Which};
use std::alloc::AllocError;
use std::fmt;

/// Why a keeper gave no answer. The transaction around it is then rolled back. It is displayed in
/// words, a damaged row with its number, as `row 7 is damaged`.
#[derive(Clone, Copy, Debug, PartialEq, Eq)]
pub enum KeepFault {
    /// Out of memory.
    Memory,
    /// What holds the rows failed. The keeper has counted the failure.
    Store,
    /// No object is without a parent.
    NoRoot,
    /// The row of this number can't be read, or something that belongs to it is missing.
    Damaged {
        /// The number.
        id: u64,
    },
}

impl fmt::Display for KeepFault {
    ghost output = { λ fault. Some (keep_fault_text fault) };

    fn fmt<W: fmt::Write>(&self, f: &mut fmt::Formatter<W>) -> fmt::Result {
        match self {
            KeepFault::Memory => f.write_str("out of memory"),
            KeepFault::Store => f.write_str("the store failed"),
            KeepFault::NoRoot => f.write_str("no object is a root"),
            KeepFault::Damaged { id } => write!(f, "row {id} is damaged"),
        }
    }
}

impl From<AllocError> for KeepFault {
    ghost from_gives = { λ _ fault. fault ≡ Memory };

    fn from(_error: AllocError) -> KeepFault {
        KeepFault::Memory
    }
}

/// A keeper of objects. What a call that writes leaves is promised where its condition is met: the
/// object is there, a new parent is a folder, a new name is free. The caller has to know that, and
/// no keeper tests it. After an error of a call that writes nothing is promised of the rows.
///
/// Any call may answer `Memory` or `Store`. As long as the answers are those of the rows, `NoRoot`
/// and `Damaged` come only where the call says so.
pub trait Keep {
    ghost rows: { Self → Rows };

    // How often the keeper has failed, and how much was written by calls that answered Ok.
    ghost failures: { Self → ℕ };

    ghost writes: { Self → ℕ };

    // How many calls read: a keeper counts none of them twice, and may leave some out. One that is
    // to write to no object may count among them.
    ghost reads: { Self → ℕ };

    // The second state comes from the first by calls, whatever they answered.
    ghost Follows: { Self → Self → Type 0 };

    // From the first state to the second the answers are those of the rows.
    ghost IsTrusted: { Self → Self → Type 0 };

    /// The object without a parent that has the least number. The error is `Damaged` for a row that
    /// can't be read, and `NoRoot` only where there is no such object.
    fn root(&mut self) -> Result<Node, KeepFault>
        ensures read { IsRead rows failures writes Follows IsTrusted self.old self.new result
            HasNoRoot IsRootOf }
        ensures counted { reads self.new ≤ reads self.old + 1 };

    /// All numbers in use, rising.
    fn ids(&mut self) -> Result<Numbers, KeepFault>
        ensures read { IsRead rows failures writes Follows IsTrusted self.old self.new result
            IsNever AreNumbers }
        ensures counted { reads self.new ≤ reads self.old + 1 };

    /// The object of this number, if there is one. The error is `Damaged` where its row can't be
    /// read.
    fn node(&mut self, id: u64) -> Result<Option<Node>, KeepFault>
        ensures read { IsRead rows failures writes Follows IsTrusted self.old self.new result
            (IsUnreadableAt id) (IsNodeAt id) }
        ensures counted { reads self.new ≤ reads self.old + 1 };

    /// The child of this name, if there is one. The error is `Damaged` for a row that can't be
    /// read.
    fn child(&mut self, parent: u64, name: &str) -> Result<Option<Node>, KeepFault>
        ensures read { IsRead rows failures writes Follows IsTrusted self.old self.new result
            IsUnreadable (IsChildOf parent name.now) }
        ensures counted { reads self.new ≤ reads self.old + 1 };

    /// The children in order of name. The error is `Damaged` for a row that can't be read.
    fn children(&mut self, parent: u64) -> Result<Nodes, KeepFault>
        ensures read { IsRead rows failures writes Follows IsTrusted self.old self.new result
            IsUnreadable (AreChildrenOf parent) }
        ensures counted { reads self.new ≤ reads self.old + 1 };

    /// The names and kinds of the children, in order of name. It may be answered from names and
    /// kinds alone, so a row under this parent that can't be read as an object may be listed or
    /// left out. No other name is told. The error is `Damaged` for a row that can't be read.
    fn listing(&mut self, parent: u64) -> Result<Listing, KeepFault>
        ensures read { IsRead rows failures writes Follows IsTrusted self.old self.new result
            IsUnreadable (AreNamedUnder parent) }
        ensures counted { reads self.new ≤ reads self.old + 1 };

    /// Whether there are children. A 'no' is true of any rows. A 'yes' is promised where all rows
    /// can be read: else such a row may be the child. The error is `Damaged` for a row that can't
    /// be read.
    fn has_children(&mut self, parent: u64) -> Result<bool, KeepFault>
        ensures read { IsRead rows failures writes Follows IsTrusted self.old self.new result
            IsUnreadable (HasChildren parent) }
        ensures counted { reads self.new ≤ reads self.old + 1 };

    /// The bytes of a document, if there are any.
    fn body(&mut self, id: u64) -> Result<Option<Bytes>, KeepFault>
        ensures read { IsRead rows failures writes Follows IsTrusted self.old self.new result
            IsNever (IsBodyOf id) }
        ensures counted { reads self.new ≤ reads self.old + 1 };

    /// The groups that are paired with the user, in order, each once.
    fn groups_of(&mut self, user: &Name) -> Result<Names, KeepFault>
        ensures read { IsRead rows failures writes Follows IsTrusted self.old self.new result
            IsNever (AreGroupsOf user.now) }
        ensures counted { reads self.new ≤ reads self.old + 1 };

    /// Adds an object, and answers its number. A document gets the bytes. The error is `Damaged`
    /// for a row that can't be read.
    fn add(&mut self, node: NewNode, bytes: &[u8]) -> Result<u64, KeepFault>
        ensures written { IsWrite rows failures writes Follows IsTrusted self.old self.new result
            IsUnreadable (Adds (with_bytes node bytes.now)) }
        ensures unread { reads self.new ≤ reads self.old };

    /// Replaces one list of an object: its flags, its own and its inherited entries. The error is
    /// `Damaged` for a row that can't be read.
    fn set_held(&mut self, id: u64, which: Which, held: &Held) -> Result<(), KeepFault>
        ensures written { IsWrite rows failures writes Follows IsTrusted self.old self.new result
            IsUnreadable (Leaves (Changes id (with_held which held.now))) }
        ensures unread { reads self.new ≤ reads self.old };

    /// Replaces the inherited entries of one list of an object. The error is `Damaged` for a row
    /// that can't be read.
    fn set_inh(&mut self, id: u64, which: Which, entries: &[Entry]) -> Result<(), KeepFault>
        ensures written { IsWrite rows failures writes Follows IsTrusted self.old self.new result
            IsUnreadable (Leaves (Changes id (with_inh which entries.now))) }
        ensures unread { reads self.new ≤ reads self.old };

    /// The same of each of these objects, in any order. Each is counted as a write.
    fn set_inh_all(&mut self, ids: &[u64], which: Which, entries: &[Entry]) -> Result<(), KeepFault>
        ensures written { IsWriteOf rows failures writes Follows IsTrusted (length ids.now)
            self.old self.new result
            IsUnreadable (Leaves (ChangesAll ids.now (with_inh which entries.now))) }
        ensures unread { reads self.new ≤ reads self.old + (1 - length ids.now) };

    /// Replaces the owner and the owning group of an object. The error is `Damaged` for a row that
    /// can't be read.
    fn set_owners(&mut self, id: u64, owners: &Owners) -> Result<(), KeepFault>
        ensures written { IsWrite rows failures writes Follows IsTrusted self.old self.new result
            IsUnreadable (Leaves (Changes id (with_owners owners.now))) }
        ensures unread { reads self.new ≤ reads self.old };

    /// Gives an object another parent and another name. The error is `Damaged` for a row that can't
    /// be read.
    fn set_place(&mut self, id: u64, parent: u64, name: &str) -> Result<(), KeepFault>
        ensures written { IsWrite rows failures writes Follows IsTrusted self.old self.new result
            IsUnreadable (Leaves (Places id parent name.now)) }
        ensures unread { reads self.new ≤ reads self.old };

    /// Removes an object and its bytes. The error is `Damaged` for a row that can't be read.
    fn remove(&mut self, id: u64) -> Result<(), KeepFault>
        ensures written { IsWrite rows failures writes Follows IsTrusted self.old self.new result
            IsUnreadable (Leaves (Removes id)) }
        ensures unread { reads self.new ≤ reads self.old };

    /// Replaces the bytes of a document. The error is `Damaged` for a row that can't be read.
    fn set_body(&mut self, id: u64, bytes: &[u8]) -> Result<(), KeepFault>
        ensures written { IsWrite rows failures writes Follows IsTrusted self.old self.new result
            IsUnreadable (Leaves (SetsBody id bytes.now)) }
        ensures unread { reads self.new ≤ reads self.old };

    /// Adds a record after the others.
    fn note(&mut self, row: AuditRow) -> Result<(), KeepFault>
        ensures written { IsWrite rows failures writes Follows IsTrusted self.old self.new result
            IsNever (Leaves (Notes row)) }
        ensures unread { reads self.new ≤ reads self.old };

    // What holds of the states, whatever is called.
    ghost laws: { KeepLaws rows failures writes Follows IsTrusted };
}
