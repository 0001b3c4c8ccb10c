//! Groups and records as comma-separated text.
#![tactic(auto)]

mod fault;
mod gathered;
mod laws;
mod pairs;
mod reading;
mod rows;
mod writing;

pub use fault::{CsvFault, CsvWhy};
pub use laws::{first_fault, groups_read_back, pairs_of_rows};
pub use pairs::Pairs;
pub use reading::read_groups;
pub use writing::{push_row, rows_into, text_of, write_audits, write_groups};
