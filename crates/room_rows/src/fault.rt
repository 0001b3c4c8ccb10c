//! Why bytes are no path.
ghost use Rattle.std.specs.Prelude.{◌≡◌};
ghost use Rattle.room_rows.specs.Faults.{path_fault_text};

use std::error::Error;
use std::fmt;

/// Why bytes are no path. It is displayed as its code and its meaning, as `P1 bad object name`.
#[derive(Clone, Copy, Debug, PartialEq, Eq)]
pub enum PathFault {
    /// There is no `/` at the start, or a name is no object name.
    BadName,
    /// There are more than 4,096 bytes.
    TooLong,
    /// The bytes are not UTF-8.
    NotUtf8,
}

impl PathFault {
    /// The code of the fault and its meaning.
    pub fn as_str(self) -> &'static str
        ensures { result.now ≡ path_fault_text self }
    {
        match self {
            PathFault::BadName => "P1 bad object name",
            PathFault::TooLong => "P2 path over 4096 bytes",
            PathFault::NotUtf8 => "P3 not UTF-8",
        }
    }
}

impl fmt::Display for PathFault {
    ghost use Rattle.std.specs.Prelude.{Some};

    ghost output = { λ fault. Some (path_fault_text fault) };

    fn fmt<W: fmt::Write>(&self, f: &mut fmt::Formatter<W>) -> fmt::Result {
        f.write_str(self.as_str())
    }
}

impl Error for PathFault {}
