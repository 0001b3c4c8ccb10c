//! Where a room is served.

/// Where connections are accepted.
#[derive(Clone, Copy, Debug, PartialEq, Eq)]
pub enum ListenAddress<'a> {
    /// This port of 127.0.0.1, which no other machine reaches.
    Port(u16),
    /// A socket in the file system, whose file is made at this path.
    Socket(&'a str),
}
