//! The fields of a head by their names, and their values.
ghost use Rattle.std.specs.Prelude.{◌≡◌, ℕ, List, [], ◌∷◌, ◌++◌, reverse};
ghost use Rattle.std.specs.Str.{str_eq_ignore_ascii_case};
ghost use Rattle.room_entry.specs.Gives.{Gives};
ghost use Rattle.http_message.specs.Asked.{caller_of, asked_user};
ghost use Rattle.http_message.specs.Fields.{is_blank_byte, trimmed, field_values, without_blanks};
ghost use Rattle.http_message.specs.Values.{AreValues};

use crate::fault::HttpFault;
use crate::head::Field;
use room_ace::{Failure, Name, read_name, text_of};
use std::alloc::Global;

/// The values of the fields of one name.
#[derive(Clone, Copy)]
pub enum Values<'a> {
    /// There is no such field.
    Zero,
    /// The value of the only one.
    One(&'a [u8]),
    /// There are several.
    Many,
}

/// The values of the fields with this name, in any case.
pub fn values_under<'a>(fields: &'a [Field], name: &[u8]) -> Values<'a>
    ensures { AreValues (field_values name.now fields.now) result }
{
    let mut found = Values::Zero;
    for field in fields {
        if is_same_name(field.name.as_slice(), name) {
            found = one_more(found, field.value.as_slice());
        }
    }
    found
}

// Whether two names are the same but for the case of their letters.
pub(crate) fn is_same_name(a: &[u8], b: &[u8]) -> bool
    ensures { result ≡ str_eq_ignore_ascii_case a.now b.now }
{
    a.eq_ignore_ascii_case(b)
}

// The values with one more at the end.
fn one_more<'a>(found: Values<'a>, value: &'a [u8]) -> Values<'a>
    ensures { (values : List (List ℕ)) → AreValues values found.entry
        → AreValues (values ++ value.now ∷ []) result }
{
    match found {
        Values::Zero => Values::One(value),
        Values::One(_) => Values::Many,
        Values::Many => Values::Many,
    }
}

/// The bytes without the spaces and tabs at their ends.
pub fn trimmed(bytes: &[u8]) -> &[u8]
    ensures { result.now ≡ trimmed bytes.now }
{
    without_end(without_front(bytes))
}

// The bytes from the first that is no blank.
fn without_front(bytes: &[u8]) -> &[u8]
    ensures { result.now ≡ without_blanks bytes.now }
{
    for (index, byte) in bytes.iter().enumerate() {
        if !is_blank_byte(*byte) {
            return &bytes[index..];
        }
    }
    &[]
}

// The bytes up to the last that is no blank.
fn without_end(bytes: &[u8]) -> &[u8]
    ensures { result.now ≡ reverse (without_blanks (reverse bytes.now)) }
{
    let mut rest = bytes;
    'ends: while let Some((last, front)) = rest.split_last() {
        if !is_blank_byte(*last) {
            return rest;
        }
        rest = front;
    }
    rest
}

fn is_blank_byte(byte: u8) -> bool
    ensures { result ≡ is_blank_byte byte }
{
    byte == b' ' || byte == b'\t'
}

// Who asks, by the fields.
pub(crate) fn caller_of(alloc: Global, fields: &[Field]) -> Result<Option<Name>, Failure<HttpFault>>
    ensures { Gives result (caller_of fields.now) }
{
    match values_under(fields, b"room-user") {
        Values::Zero => Ok(None),
        Values::One(value) => asked_user(alloc, trimmed(value)),
        Values::Many => Err(Failure::Fault(HttpFault::BadUser)),
    }
}

// The caller whose name the bytes are.
fn asked_user(alloc: Global, bytes: &[u8]) -> Result<Option<Name>, Failure<HttpFault>>
    ensures { Gives result (asked_user bytes.now) }
{
    let bad = Failure::Fault(HttpFault::BadUser);
    match text_of(bytes) {
        None => Err(bad),
        Some(text) => match read_name(alloc, text) {
            Ok(name) => Ok(Some(name)),
            Err(Failure::OutOfMemory) => Err(Failure::OutOfMemory),
            Err(Failure::Fault(_)) => Err(bad),
        },
    }
}
