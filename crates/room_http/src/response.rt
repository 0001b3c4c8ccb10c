//! The answer to one message.
use http_message::ReplyText;

/// The answer to a message.
#[derive(Drop)]
pub enum Answer {
    /// The text of the reply.
    Text(Vec<u8>),
    /// The desk answered a fault.
    Fault,
}

/// Memory ran out outside the desk.
#[derive(Clone, Copy, Debug, PartialEq, Eq)]
pub struct Lost {
    /// Whether the desk took the step before that.
    pub acted: bool,
}

/// The answer to a message, and whether the desk was asked.
#[derive(Drop)]
pub(crate) enum Response {
    /// The text of the reply to a message that a test refuses.
    Refused(Vec<u8>),
    /// The text of the desk's reply.
    Replied(ReplyText),
    /// The desk answered a fault.
    Fault,
}
