//! What an operator asks of a whole room, of all its pairs and of all its records, each inside one
//! transaction.
#![tactic(auto)]

mod changing;
mod numbers;
mod operating;
mod putting;
mod records;
mod telling;

pub use changing::{Changed, change_members};
pub use numbers::has_numbers;
pub use operating::all_members;
pub use putting::put_members;
pub use records::all_records;
pub use telling::dump_all;
