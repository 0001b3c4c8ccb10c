//! What is wrong with rows.
ghost use Rattle.std.specs.Prelude.{◌≡◌, Some};
ghost use Rattle.room_rows.specs.Codes.{unsound_text};

use crate::text::Text;
use std::fmt;

/// The test that rows fail.
#[derive(Clone, Copy, Debug, PartialEq, Eq)]
pub enum Unsound {
    /// The parents of an object never lead to one that has none.
    Loop,
    /// A row can't be read, or a list has too many entries or some that may not stand there.
    BadList,
    /// A linked list stores something else than its parent's list passes to it.
    BrokenLaw,
    /// Not exactly one object has no parent, or that one is no folder.
    BadRoot,
    /// An object's parent isn't there or is no folder.
    BadParent,
    /// A name is no object name, or stands twice under one parent.
    BadName,
    /// A document has no bytes or too many, or a folder has some.
    BadBody,
}

impl Unsound {
    /// The code and what it stands for.
    pub fn as_str(self) -> &'static str
        ensures { result.now ≡ unsound_text self }
    {
        match self {
            Unsound::Loop => "V1 loop",
            Unsound::BadList => "V2 bad-list",
            Unsound::BrokenLaw => "V3 broken-law",
            Unsound::BadRoot => "V4 bad-root",
            Unsound::BadParent => "V5 bad-parent",
            Unsound::BadName => "V6 bad-name",
            Unsound::BadBody => "V7 bad-body",
        }
    }
}

impl fmt::Display for Unsound {
    ghost output = { λ unsound. Some (unsound_text unsound) };

    fn fmt<W: fmt::Write>(&self, f: &mut fmt::Formatter<W>) -> fmt::Result {
        f.write_str(self.as_str())
    }
}

/// What the test of all rows finds: nothing, or the first fault and where it is. The path is `?`
/// and a number, or the names from the root to the object, which may be no object names and more
/// than a path has.
#[derive(Drop)]
pub enum Report {
    /// No test finds a fault.
    Sound,
    /// The first fault.
    Fault {
        /// Where it is.
        path: Text,
        /// Which test finds it.
        why: Unsound,
    },
}
