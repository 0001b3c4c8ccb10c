//! How a connection ended.

/// How a connection ended after whole replies.
#[derive(Clone, Copy, Debug, PartialEq, Eq)]
pub enum Ended {
    /// The input ended between messages.
    Clean,
    /// The input ended inside a message.
    Cut,
    /// A reply said that the connection ends.
    Closed,
}

/// What failed.
#[derive(Clone, Copy, Debug, PartialEq, Eq)]
pub enum Cause {
    /// The reader answered an error.
    Read,
    /// The writer answered an error, or took no byte.
    Write,
    /// Memory ran out outside the desk.
    Memory,
}

/// What ended a connection before a reply was complete.
#[derive(Clone, Copy, Debug, PartialEq, Eq)]
pub struct ServeFault {
    /// How many replies went out whole.
    pub answered: u64,
    /// Whether the desk took the step of the next message.
    pub acted: bool,
    pub cause: Cause,
}
