//! The text of entries and lists, and lists as they are sent. The entries themselves, and all that
//! is said of them, are re-exported.
#![tactic(auto)]

mod entry_lines;
mod entry_text;
mod fault;
mod laws;
mod lines;
mod list_lines;
mod list_text;
mod sent;

pub use entry_lines::{print_entries, read_entries};
pub use entry_text::{print_entry, read_entry};
pub use fault::{LineFault, Why};
pub use laws::{list_reads_back, reads_back, reads_what_is_spelled};
pub use lines::{split_line, text_of};
pub use list_text::{print_list, read_list};
pub use room_entry::{
    Caller, Entries, Entry, EntryFault, EntryFlags, EntryKind, Failure, Items, LONGEST_PART,
    ListFault, ListFlags, MOST_BYTES, MOST_ENTRIES, MOST_OWN, Mask, Name, Names, ObjKind, Owners,
    TextFault, Which, Who, first_bad_entry, map_fault, matches, names_are_text, read_mask,
    read_name, valid,
};
pub use sent::SentList;
