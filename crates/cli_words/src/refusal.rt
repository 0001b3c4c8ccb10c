//! Why words or an input are refused.
ghost use Rattle.cli_words.specs.Tasks.{refusal_text};

use room_ace::{LineFault, TextFault};
use room_import::{CsvFault, CsvWhy};
use room_rows::PathFault;
use std::error::Error;
use std::fmt;

/// Why words or an input are refused. It is displayed as it is printed, as
/// `refused: P1 bad object name`.
#[derive(Clone, Copy, Debug, PartialEq, Eq)]
pub enum TaskRefusal {
    /// An owner or an owning group is no name.
    Name(TextFault),
    /// A path is invalid.
    Path(PathFault),
    /// The input is too long.
    TooLong,
    /// A line of the list has a fault.
    Line(LineFault),
    /// A row of the group file has a fault.
    Row(CsvFault),
    /// A pair that joins or leaves has a fault.
    Pair(CsvWhy),
    /// There is no group file and no pair that joins or leaves, or there are both.
    Source,
}

impl fmt::Display for TaskRefusal {
    ghost use Rattle.std.specs.Prelude.{Some};

    ghost output = { λ refusal. Some (refusal_text refusal) };

    fn fmt<W: fmt::Write>(&self, f: &mut fmt::Formatter<W>) -> fmt::Result {
        match self {
            TaskRefusal::Name(why) => write!(f, "refused: {why}"),
            TaskRefusal::Path(why) => write!(f, "refused: {why}"),
            TaskRefusal::TooLong => f.write_str("refused: input too long"),
            TaskRefusal::Line(fault) => write!(f, "refused: {fault}"),
            TaskRefusal::Row(fault) => write!(f, "refused: {fault}"),
            TaskRefusal::Pair(why) => write!(f, "refused: {why}"),
            TaskRefusal::Source => f.write_str("refused: either CSV, or --join and --leave"),
        }
    }
}

impl Error for TaskRefusal {}
