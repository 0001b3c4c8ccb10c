//! The lines that a dump has of the pairs.
ghost use Rattle.std.specs.Prelude.{◌≡◌, ◌++◌, OnOk, string_bytes};
ghost use Rattle.room_dump.specs.Members.{member_line, members_text};

use room_ace::Name;
use std::alloc::AllocError;

/// Adds a line `member GROUP USER` for each pair of group and user, one after the other.
pub fn push_members(text: &mut String, pairs: &[(Name, Name)]) -> Result<(), AllocError>
    ensures { OnOk result
        (string_bytes text.new ≡ string_bytes text.old ++ members_text pairs.now) }
{
    for pair in pairs {
        push_member(text, pair)?;
    }
    Ok(())
}

fn push_member(text: &mut String, pair: &(Name, Name)) -> Result<(), AllocError>
    ensures { OnOk result
        (string_bytes text.new ≡ string_bytes text.old ++ member_line pair.now) }
{
    text.push_str("member ")?;
    text.push_str(pair.0.as_str())?;
    text.push_str(" ")?;
    text.push_str(pair.1.as_str())?;
    text.push_str("\n")
}
