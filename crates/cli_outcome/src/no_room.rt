//! Why a file is refused.
ghost use Rattle.std.specs.Prelude.{◌≡◌};
ghost use Rattle.cli_outcome.specs.Ending.{no_room_text};

use std::fmt;

/// Why a file is refused as a room. It is displayed as it is printed, as `schema 1 is old`.
#[derive(Clone, Copy, Debug, PartialEq, Eq)]
pub enum NoRoom {
    /// It is empty, or a database that holds no room.
    NotRooms,
    /// Its schema has this number, which is too low.
    Old(i64),
    /// Its schema has this number, which is too high.
    New(i64),
}

impl fmt::Display for NoRoom {
    ghost use Rattle.std.specs.Prelude.{Some};

    ghost output = { λ why. Some (no_room_text why) };

    fn fmt<W: fmt::Write>(&self, f: &mut fmt::Formatter<W>) -> fmt::Result {
        match self {
            NoRoom::NotRooms => f.write_str("not a rooms file"),
            NoRoom::Old(number) => write!(f, "schema {number} is old"),
            NoRoom::New(number) => write!(f, "schema {number} is new"),
        }
    }
}
