//! Lines that are printed where not all is done, and the status.
ghost use Rattle.std.specs.Prelude.{◌≡◌};
ghost use Rattle.cli_listen.specs.Telling.{PrintsRefusal, TellsEnd, TurnsDown, end_status};
ghost use Rattle.cli_listen.specs.Telling.{serving_fault, why_not_opened};

use crate::fault::ServingFault;
use cli_outcome::{Fault, NoRoom, Status, tell_fault, tell_text};
use std::alloc::Global;
use std::io::Write;
use store_schema::OpenFault;

/// Prints why the database was not opened as a room, and answers the status.
pub fn tell_opening<O: Write, E: Write>(
    alloc: Global,
    fault: OpenFault,
    out: &mut O,
    err: &mut E,
) -> u8
    ensures { TurnsDown (why_not_opened fault) (O.contents out.old) (O.contents out.new)
        (E.contents err.old) (E.contents err.new) result }
{
    match reason_of(fault) {
        Ok(why) => refuse(alloc, why, out, err),
        Err(why) => tell_fault(why, err),
    }
}

// Why the database was not opened: for what it holds, or by a fault.
fn reason_of(fault: OpenFault) -> Result<NoRoom, Fault>
    ensures { result ≡ why_not_opened fault }
{
    match fault {
        OpenFault::NotRooms => Ok(NoRoom::NotRooms),
        OpenFault::OldVersion(number) => Ok(NoRoom::Old(number)),
        OpenFault::NewVersion(number) => Ok(NoRoom::New(number)),
        OpenFault::Db => Err(Fault::Database),
        OpenFault::Memory => Err(Fault::Memory),
    }
}

/// Prints why not all connections were served or not every line was printed, if that is so, and
/// answers the status.
pub fn tell_end<E: Write>(end: Result<(), ServingFault>, err: &mut E) -> u8
    ensures status { result ≡ end_status end }
    ensures told { TellsEnd end (E.contents err.old) (E.contents err.new) }
{
    match end {
        Ok(()) => Status::Done.code(),
        Err(fault) => tell_fault(fault_of(fault), err),
    }
}

fn fault_of(fault: ServingFault) -> Fault
    ensures { result ≡ serving_fault fault }
{
    match fault {
        ServingFault::Memory => Fault::Memory,
        ServingFault::File => Fault::File,
        ServingFault::Net => Fault::Net,
        ServingFault::Desk => Fault::Database,
    }
}

// Prints a refusal. Where that fails, the outcome is a fault.
fn refuse<O: Write, E: Write>(alloc: Global, why: NoRoom, out: &mut O, err: &mut E) -> u8
    ensures { PrintsRefusal why (O.contents out.old) (O.contents out.new)
        (E.contents err.old) (E.contents err.new) result }
{
    match format!(in alloc; "refused: {why}\n") {
        Ok(line) => tell_text(line.as_bytes(), Status::Refused, out, err),
        Err(_) => tell_fault(Fault::Memory, err),
    }
}
