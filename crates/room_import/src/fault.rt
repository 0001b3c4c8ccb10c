//! Why a group file is refused.
ghost use Rattle.std.specs.Prelude.{◌≡◌};
ghost use Rattle.room_import.specs.Faults.{csv_fault_text, csv_why_text};

use std::error::Error;
use std::fmt;

/// What is wrong with a row of a group file. It is displayed as its code and its meaning, as
/// `C3 bad name`.
#[derive(Clone, Copy, Debug, PartialEq, Eq)]
pub enum CsvWhy {
    /// The first row isn't `group,user`.
    BadHeader,
    /// There are not two fields.
    NotTwoFields,
    /// A field is no name of a user or a group.
    BadName,
    /// More than 20,000 rows stand below the header.
    TooManyRows,
    /// A field isn't UTF-8.
    NotUtf8,
}

/// The first row of a group file that has a fault, counted from 1, and the fault. It is displayed
/// as `row 3: C3 bad name`.
#[derive(Clone, Copy, Debug, PartialEq, Eq)]
pub struct CsvFault {
    pub row: usize,
    pub why: CsvWhy,
}

impl CsvWhy {
    /// The code and the words of the fault, as they are printed.
    pub fn as_str(self) -> &'static str
        ensures { result.now ≡ csv_why_text self }
    {
        match self {
            CsvWhy::BadHeader => "C1 bad header",
            CsvWhy::NotTwoFields => "C2 not two fields",
            CsvWhy::BadName => "C3 bad name",
            CsvWhy::TooManyRows => "C4 too many rows",
            CsvWhy::NotUtf8 => "C5 not UTF-8",
        }
    }
}

impl fmt::Display for CsvWhy {
    ghost use Rattle.std.specs.Prelude.{Some};

    ghost output = { λ why. Some (csv_why_text why) };

    fn fmt<W: fmt::Write>(&self, f: &mut fmt::Formatter<W>) -> fmt::Result {
        f.write_str(self.as_str())
    }
}

impl fmt::Display for CsvFault {
    ghost use Rattle.std.specs.Prelude.{Some};

    ghost output = { λ fault. Some (csv_fault_text fault) };

    fn fmt<W: fmt::Write>(&self, f: &mut fmt::Formatter<W>) -> fmt::Result {
        let (row, why) = (self.row, self.why);
        write!(f, "row {row}: {why}")
    }
}

impl Error for CsvFault {}
