//! How a subcommand ends, its exit status and what it prints on the two writers, and how it reads.
#![tactic(auto)]

mod fault;
mod listen;
mod no_room;
mod reading;
mod status;
mod texts;
mod write;

pub use fault::Fault;
pub use listen::ListenAddress;
pub use no_room::NoRoom;
pub use reading::read_front;
pub use status::Status;
pub use texts::{tell_fault, tell_if_possible, tell_text};
pub use write::send_text;
