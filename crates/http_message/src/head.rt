//! The head of a message.

use room_entry::Items;
use room_rows::Bytes;

/// A field of a head.
#[derive(Drop)]
pub struct Field {
    /// The name, in any case.
    pub name: Bytes,
    /// The value, perhaps with spaces and tabs around it.
    pub value: Bytes,
}

/// The fields of a head, in order.
pub type Fields = Items<Field>;

/// The head of a message.
#[derive(Drop)]
pub struct Head {
    pub method: Bytes,
    pub target: Bytes,
    /// The minor version: 0 for HTTP/1.0, 1 for HTTP/1.1.
    pub minor: u8,
    pub fields: Fields,
}
