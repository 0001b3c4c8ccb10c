//! The texts of HTTP: a message's head and body as a request, and a reply's bytes.
#![tactic(auto)]

mod asked;
mod body;
mod close;
mod data;
mod fault;
mod fields;
mod form;
mod head;
pub mod laws;
mod reply;
mod reply_texts;
mod route;
mod router;
mod target;
mod text;

pub use asked::request_of;
pub use close::asks_close;
pub use fault::HttpFault;
pub use fields::{Values, trimmed, values_under};
pub use head::{Field, Fields, Head};
pub use reply::{fault_bytes, print_why, reply_bytes};
pub use route::{Action, Route, Verb};
pub use router::Routes;
pub use text::{ReplyText, reply_text};
