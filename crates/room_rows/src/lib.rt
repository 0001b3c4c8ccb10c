//! Objects of the tree, the paths to them, the contract of what keeps them, and reports on them.
#![tactic(auto)]

mod chain;
mod count;
mod fault;
mod held;
mod keep;
pub mod laws;
mod listing;
mod node;
mod path;
mod report;
mod text;

pub use chain::walk;
pub use count::{count_all, count_one, failed};
pub use fault::PathFault;
pub use held::Held;
pub use keep::{Keep, KeepFault};
pub use listing::Listing;
pub use node::{AuditRow, NewNode, Node, Nodes, Numbers, RecordKind, Walk};
pub use path::{Path, is_object_name, read_path};
pub use report::{Report, Unsound};
pub use text::{Bytes, Text};
