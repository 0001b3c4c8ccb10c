//! Whether a message asks that the connection ends.
ghost use Rattle.std.specs.Prelude.{◌≡◌, ◌==◌};
ghost use Rattle.std.specs.List.{list_any};
ghost use Rattle.room_entry.specs.Bytes.{comma};
ghost use Rattle.room_entry.specs.Pieces.{pieces};
ghost use Rattle.http_message.specs.Close.{asks_close, is_close, lists_close};

use crate::fields::{is_same_name, trimmed};
use crate::head::{Field, Head};
use room_entry::cut;

/// Whether a message asks that the connection ends: one of version 1.0 does, and one with a field
/// Connection that lists the token `close`.
pub fn asks_close(head: &Head) -> bool
    ensures { result ≡ asks_close head.now }
{
    head.minor == 0 || any_lists_close(head.fields.as_slice())
}

fn any_lists_close(fields: &[Field]) -> bool
    ensures { result ≡ list_any lists_close fields.now }
{
    fields.iter().any(|field| lists_close(field))
}

fn lists_close(field: &Field) -> bool
    ensures { result ≡ lists_close field.now }
{
    is_same_name(field.name.as_slice(), b"connection") && has_close(field.value.as_slice())
}

// Whether a token between the commas is `close`.
fn has_close(value: &[u8]) -> bool
    ensures { result ≡ list_any is_close (pieces comma value.now) }
{
    let mut rest = value;
    'tokens: while let Some((token, behind)) = cut(rest, &b',') {
        if is_close(token) {
            return true;
        }
        rest = behind;
    }
    is_close(rest)
}

fn is_close(token: &[u8]) -> bool
    ensures { result ≡ is_close token.now }
{
    is_same_name(trimmed(token), b"close")
}
