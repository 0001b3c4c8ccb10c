//! What can fail.
ghost use Rattle.std.specs.Prelude.{◌≡◌};
ghost use Rattle.cli_outcome.specs.Ending.{IsOfStream, fault_line, fault_of_kind};
ghost use Rattle.std.specs.IoError.{error_kind};

use std::io::{Error, ErrorKind};

/// What failed. It is printed on standard error, and the exit status is then 3.
#[derive(Clone, Copy, Debug, PartialEq, Eq)]
pub enum Fault {
    /// Out of memory.
    Memory,
    /// The database failed, or a row of it can't be read.
    Database,
    /// A file failed, or the standard input or output.
    File,
    /// The network failed.
    Net,
}

impl Fault {
    /// The line that is printed of it, with its line feed.
    pub fn line(self) -> &'static str
        ensures { result.now ≡ fault_line self }
    {
        match self {
            Fault::Memory => "fault: memory\n",
            Fault::Database => "fault: database\n",
            Fault::File => "fault: file\n",
            Fault::Net => "fault: net\n",
        }
    }

    /// The fault of a reader or of a writer.
    pub fn of_stream(error: &Error) -> Fault
        ensures stream { IsOfStream result }
        ensures kind { result ≡ fault_of_kind (error_kind error.now) }
    {
        match error.kind() {
            ErrorKind::OutOfMemory => Fault::Memory,
            _ => Fault::File,
        }
    }
}
