//! Why the serving of connections ends early.

/// Why not all connections were served, or not every line was printed.
#[derive(Clone, Copy, Debug, PartialEq, Eq)]
pub enum ServingFault {
    /// Memory for the table of routes ran out. Nothing was served or printed.
    Memory,
    /// A line could not be printed. Where it was that of a connection's fault, all connections were
    /// served all the same.
    File,
    /// The address can't be had, or its listener can't accept any more connections.
    Net,
    /// The connection that was served last left the desk shut: it answers no request any more.
    Desk,
}
