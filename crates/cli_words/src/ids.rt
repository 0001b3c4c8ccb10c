//! What the arguments of the command line are called.

pub(crate) const FILE: &str = "FILE";

pub(crate) const OWNER: &str = "OWNER";

pub(crate) const GROUP: &str = "GROUP";

pub(crate) const CSV: &str = "CSV";

pub(crate) const JOIN: &str = "join";

pub(crate) const LEAVE: &str = "leave";

pub(crate) const PATH: &str = "PATH";

pub(crate) const LIST: &str = "LIST";

// The two lists that `LIST` may be.
pub(crate) const DACL: &str = "dacl";

pub(crate) const SACL: &str = "sacl";

pub(crate) const PORT: &str = "port";

pub(crate) const SOCKET: &str = "socket";

pub(crate) const COUNT: &str = "count";

pub(crate) const USER: &str = "user";

pub(crate) const ALL: &str = "all";
