//! Access control entries of RFC 8881, section 6.2.1: their masks, flags and subjects, whom they
//! speak of, and where they may stand.
#![tactic(auto)]

mod comparing;
mod entry;
mod failure;
mod fault;
mod flags;
mod items;
mod laws;
mod limits;
mod mask;
mod matching;
mod name;
mod object;
mod parties;
mod pieces;
mod validity;

pub use entry::{Entries, Entry, EntryKind, Who};
pub use failure::{Failure, map_fault};
pub use fault::{EntryFault, ListFault, TextFault};
pub use flags::{EntryFlags, ListFlags};
pub use items::Items;
pub use laws::names_are_text;
pub use limits::{LONGEST_PART, MOST_BYTES, MOST_ENTRIES, MOST_OWN};
pub use mask::{Mask, mask_in, read_mask};
pub use matching::matches;
pub use name::{Name, name_in, read_name};
pub use object::{ObjKind, Which};
pub use parties::{Caller, Names, Owners};
pub use pieces::cut;
pub use validity::{first_bad_entry, valid};
