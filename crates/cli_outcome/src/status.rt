//! The exit status.
ghost use Rattle.std.specs.Prelude.{◌≡◌};
ghost use Rattle.cli_outcome.specs.Ending.{status_code};

/// How a subcommand ended.
#[derive(Clone, Copy, Debug, PartialEq, Eq)]
pub enum Status {
    /// It is done, granted or sound.
    Done,
    /// It is denied, or a fault of the rows was found.
    Found,
    /// It is refused.
    Refused,
    /// It failed.
    Failed,
}

impl Status {
    /// The exit status of the process, 0 to 3.
    pub fn code(self) -> u8
        ensures { result ≡ status_code self }
    {
        match self {
            Status::Done => 0,
            Status::Found => 1,
            Status::Refused => 2,
            Status::Failed => 3,
        }
    }
}
