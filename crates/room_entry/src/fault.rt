//! Why a text, a list or an entry of a list is refused.
ghost use Rattle.std.specs.Prelude.{◌≡◌, Some};
ghost use Rattle.room_entry.specs.Faults.{list_fault_text, text_fault_text};

use std::fmt;

/// The first fault of the text of an entry, a name or a mask.
#[derive(Clone, Copy, Debug, PartialEq, Eq)]
pub enum TextFault {
    /// The type is none of the letters A, D, U and L.
    BadKind,
    /// A flag is no flag letter.
    BadFlag,
    /// The who is neither a special name nor a name.
    BadWho,
    /// A letter of the mask is no mask letter.
    BadMask,
    /// There are not four parts.
    NotFourParts,
}

/// Why a list, or an entry of it, is refused.
#[derive(Clone, Copy, Debug, PartialEq, Eq)]
pub enum ListFault {
    /// More than 4,096 entries.
    TooManyEntries,
    /// More than 64 entries without INHERITED.
    TooManyOwn,
    /// An audit or alarm entry in a dacl, or an allow or deny entry in a sacl.
    WrongKind,
    /// SUCCESSFUL_ACCESS or FAILED_ACCESS on an allow or deny entry.
    AccessFlag,
    /// INHERIT_ONLY without FILE_INHERIT or DIRECTORY_INHERIT.
    InheritOnlyAlone,
    /// A flag of inheritance on a document.
    InheritanceOnDocument,
}

/// The first entry that may not stand in a list.
#[derive(Clone, Copy, Debug, PartialEq, Eq)]
pub struct EntryFault {
    /// Its place, counted from 1.
    pub place: usize,
    /// The first rule that it breaks.
    pub why: ListFault,
}

impl TextFault {
    /// The code and the words of the fault, as they are printed.
    pub fn as_str(self) -> &'static str
        ensures { result.now ≡ text_fault_text self }
    {
        match self {
            TextFault::BadKind => "A1 bad type",
            TextFault::BadFlag => "A2 bad flag",
            TextFault::BadWho => "A3 bad who",
            TextFault::BadMask => "A4 bad mask letter",
            TextFault::NotFourParts => "A5 not four parts",
        }
    }
}

impl ListFault {
    /// The code and the words of the fault, as they are printed.
    pub fn as_str(self) -> &'static str
        ensures { result.now ≡ list_fault_text self }
    {
        match self {
            ListFault::TooManyEntries => "A7 more than 4096 entries",
            ListFault::TooManyOwn => "A8 more than 64 own entries",
            ListFault::WrongKind => "A9 type not of this attribute",
            ListFault::AccessFlag => "A10 S or F on A or D",
            ListFault::InheritOnlyAlone => "A11 i without f or d",
            ListFault::InheritanceOnDocument => "A12 inheritance flag on a document",
        }
    }
}

impl fmt::Display for TextFault {
    ghost output = { λ fault. Some (text_fault_text fault) };

    fn fmt<W: fmt::Write>(&self, f: &mut fmt::Formatter<W>) -> fmt::Result {
        f.write_str(self.as_str())
    }
}

impl fmt::Display for ListFault {
    ghost output = { λ fault. Some (list_fault_text fault) };

    fn fmt<W: fmt::Write>(&self, f: &mut fmt::Formatter<W>) -> fmt::Result {
        f.write_str(self.as_str())
    }
}
