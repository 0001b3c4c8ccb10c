//! Why the program ends before a task is done.
ghost use Rattle.std.specs.Prelude.{◌≡◌};
ghost use Rattle.std.specs.IoError.{error_kind};
ghost use Rattle.cli_outcome.specs.declared.fault.Fault.TheVariants.{Memory};
ghost use Rattle.cli_words.specs.declared.stop.Stop.TheVariants.{Failed};
ghost use Rattle.cli_words.specs.Stops.{stop_of_kind, stop_of_refusal, stop_of_words};

use crate::command::CliFault;
use crate::refusal::TaskRefusal;
use cli_outcome::Fault;
use room_ace::Failure;
use std::alloc::AllocError;
use std::io;

/// Why the program ends before a task is done.
#[derive(Drop)]
pub enum Stop {
    /// Something failed.
    Failed(Fault),
    /// The words or the input are refused.
    Refused(TaskRefusal),
    /// The file to be made is there already.
    Exists,
    /// The file is empty.
    NotRooms,
    /// The arguments are no command, or ask for help.
    Words(CliFault),
    /// An argument isn't UTF-8.
    NotText,
}

impl From<AllocError> for Stop {
    ghost from_gives = { λ _ stop. stop ≡ Failed Memory };

    fn from(_error: AllocError) -> Stop {
        Stop::Failed(Fault::Memory)
    }
}

impl From<io::Error> for Stop {
    ghost from_gives = { λ error stop. stop ≡ stop_of_kind (error_kind error) };

    fn from(error: io::Error) -> Stop {
        Stop::Failed(Fault::of_stream(&error))
    }
}

impl From<Failure<CliFault>> for Stop {
    ghost from_gives = { λ failure stop. stop ≡ stop_of_words failure };

    fn from(failure: Failure<CliFault>) -> Stop {
        match failure {
            Failure::OutOfMemory => Stop::Failed(Fault::Memory),
            Failure::Fault(fault) => Stop::Words(fault),
        }
    }
}

impl From<Failure<TaskRefusal>> for Stop {
    ghost from_gives = { λ failure stop. stop ≡ stop_of_refusal failure };

    fn from(failure: Failure<TaskRefusal>) -> Stop {
        match failure {
            Failure::OutOfMemory => Stop::Failed(Fault::Memory),
            Failure::Fault(why) => Stop::Refused(why),
        }
    }
}
