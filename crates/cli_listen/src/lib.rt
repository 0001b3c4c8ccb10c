//! Connections of a listener, one after another, served at any desk, and what is printed of them.
#![tactic(auto)]

mod accepting;
mod binding;
mod fault;
mod lines;
mod moment;
mod ports;
mod serving;
mod sockets;
mod telling;

pub use accepting::{Listens, Peer};
pub use binding::{Service, serve_at};
pub use fault::ServingFault;
pub use moment::{Moments, Seconds};
pub use ports::{NetPorts, Ports};
pub use serving::{Listening, serve_on};
pub use sockets::{FileId, NetListener, NetStream};
pub use telling::{tell_end, tell_opening};
