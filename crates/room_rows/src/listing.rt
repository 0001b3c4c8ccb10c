//! What a folder's children are called.

use crate::text::Text;
use room_entry::{Items, ObjKind};

/// The names and kinds of a folder's children, in order of name.
pub type Listing = Items<(Text, ObjKind)>;
