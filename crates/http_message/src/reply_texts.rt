//! The texts of replies.
ghost use Rattle.std.specs.Prelude.{◌≡◌};
ghost use Rattle.http_message.specs.Bodies.{bad_line, bad_list_text, bad_path, bad_text, kind_text};

use room_ace::{ListFault, ObjKind, TextFault, Why};
use room_rows::PathFault;

pub(crate) fn kind_text(kind: ObjKind) -> &'static str
    ensures { result.now ≡ kind_text kind }
{
    match kind {
        ObjKind::Document => "document",
        ObjKind::Folder => "folder",
    }
}

// Why the line of an entry is refused.
fn bad_line(fault: TextFault) -> &'static str
    ensures { result.now ≡ bad_line fault }
{
    match fault {
        TextFault::BadKind => "bad-list A1",
        TextFault::BadFlag => "bad-list A2",
        TextFault::BadWho => "bad-list A3",
        TextFault::BadMask => "bad-list A4",
        TextFault::NotFourParts => "bad-list A5",
    }
}

// Why a list, or an entry of it, is refused.
pub(crate) fn bad_list_text(fault: ListFault) -> &'static str
    ensures { result.now ≡ bad_list_text fault }
{
    match fault {
        ListFault::TooManyEntries => "bad-list A7",
        ListFault::TooManyOwn => "bad-list A8",
        ListFault::WrongKind => "bad-list A9",
        ListFault::AccessFlag => "bad-list A10",
        ListFault::InheritOnlyAlone => "bad-list A11",
        ListFault::InheritanceOnDocument => "bad-list A12",
    }
}

// Why a list text is refused.
pub(crate) fn bad_text(why: Why) -> &'static str
    ensures { result.now ≡ bad_text why }
{
    match why {
        Why::Entry(fault) => bad_line(fault),
        Why::List(fault) => bad_list_text(fault),
        Why::NoListLine => "bad-list A6",
        Why::NotUtf8 => "bad-list A13",
    }
}

// Why a target is refused.
pub(crate) fn bad_path(fault: PathFault) -> &'static str
    ensures { result.now ≡ bad_path fault }
{
    match fault {
        PathFault::BadName => "bad-target P1",
        PathFault::TooLong => "bad-target P2",
        PathFault::NotUtf8 => "bad-target P3",
    }
}
