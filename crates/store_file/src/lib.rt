//! A room's file, opened as a database, with as many of its pages in memory as its size is worth.
#![tactic(auto)]

mod copying;
mod first_page;
mod opening;
mod pages;

pub use copying::open_copy;
pub use first_page::{FIRST_PAGE, is_database, may_be_room};
pub use opening::{FileConnection, OpenFailure, open_with};
pub use pages::{LEAST_PAGES, MOST_PAGES, pages_for, pages_of};
