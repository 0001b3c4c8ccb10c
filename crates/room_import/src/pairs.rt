//! Pairs of a group and a user.

use room_ace::{Items, Name};

/// Pairs of a group and a user, in order.
pub type Pairs = Items<(Name, Name)>;
