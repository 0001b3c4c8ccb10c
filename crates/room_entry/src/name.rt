//! Names of users and groups.
ghost use Rattle.std.specs.Prelude.{◌≡◌, IfOk, IsTrue, ◌&&◌, nat_lt, nat_le};
ghost use Rattle.std.specs.List.{list_all};
ghost use Rattle.room_entry.specs.Gives.{Gives};
ghost use Rattle.room_entry.specs.Names.{is_domain_byte, is_local_byte, is_name, is_part};
ghost use Rattle.room_entry.specs.Names.{name_of};

use crate::failure::Failure;
use crate::fault::TextFault;
use crate::limits::LONGEST_PART;
use crate::pieces::cut;
use smallvec::SmallVec;
use std::alloc::{AllocError, Global};
use std::marker::Model;

// A name of at most this many bytes takes no memory of its own: a list is read and dropped for each
// object on a way, and most names are short.
const SHORT: usize = 24;

/// The name of a user or of a group. A contract sees its bytes.
#[derive(Drop)]
pub struct Name {
    bytes: SmallVec<u8, SHORT>,
}

impl Model for Name {
    ghost use Rattle.std.specs.Prelude.{List, ℕ, IsTrue};
    ghost use Rattle.room_entry.specs.Names.{is_name};

    ghost Value = { List ℕ };

    ghost view = { λ n. n.bytes.items };

    ghost invariant = { λ n. IsTrue (is_name n.bytes.items) };
}

impl Name {
    /// The name's text.
    pub fn as_str(&self) -> &str
        ensures { result.now ≡ self.now }
    {
        let bytes = self.bytes.as_slice();
        // SAFETY: the bytes of a name are ASCII and so UTF-8, as the prover asks here. Names are
        // compared and printed often, so that a pass over them is spared.
        unsafe { std::str::from_utf8_unchecked(bytes) }
    }

    /// Tells a proof that the name is one.
    pub fn is_known(&self)
        ensures { IsTrue (is_name self.now) }
    {
        let _bytes = &self.bytes;
    }

    /// A copy.
    pub fn copy(&self) -> Result<Name, AllocError>
        ensures { IfOk result (λ copy. copy ≡ self.now) }
    {
        Ok(Name {
            bytes: SmallVec::from_slice(*self.bytes.allocator(), self.bytes.as_slice())?,
        })
    }
}

impl Clone for Name {
    ghost is_clone = { λ name copy. copy ≡ name };

    fn clone(&self) -> Result<Name, AllocError> {
        self.copy()
    }
}

/// The name that the text is: 1 to 64 bytes of ASCII letters, digits and `. _ - + $ \`, and perhaps
/// an `@` with 1 to 64 bytes of ASCII letters, digits, `.` and `-` behind it. Any other text is
/// `BadWho`.
pub fn read_name(alloc: Global, text: &str) -> Result<Name, Failure<TextFault>>
    ensures { Gives result (name_of text.now) }
{
    name_in(alloc, text.as_bytes())
}

/// The name that the bytes are, or `BadWho`.
pub fn name_in(alloc: Global, bytes: &[u8]) -> Result<Name, Failure<TextFault>>
    ensures { Gives result (name_of bytes.now) }
{
    if !is_name(bytes) {
        return Err(Failure::Fault(TextFault::BadWho));
    }
    Ok(Name {
        bytes: SmallVec::from_slice(alloc, bytes)?,
    })
}

// Whether the bytes are a name.
fn is_name(bytes: &[u8]) -> bool
    ensures { result ≡ is_name bytes.now }
{
    match cut(bytes, &b'@') {
        None => is_local_part(bytes),
        Some((local, rest)) => match cut(rest, &b'@') {
            None => is_local_part(local) && is_domain_part(rest),
            Some(_) => false,
        },
    }
}

// Whether the bytes may stand before the `@`.
fn is_local_part(bytes: &[u8]) -> bool
    ensures { result ≡ is_part is_local_byte bytes.now }
{
    is_part_length(bytes.len()) && are_local_bytes(bytes)
}

// Whether the bytes may stand behind the `@`.
fn is_domain_part(bytes: &[u8]) -> bool
    ensures { result ≡ is_part is_domain_byte bytes.now }
{
    is_part_length(bytes.len()) && are_domain_bytes(bytes)
}

fn is_part_length(length: usize) -> bool
    ensures { result ≡ (nat_lt 0 length && nat_le length LONGEST_PART) }
{
    0 < length && length <= LONGEST_PART
}

fn are_local_bytes(bytes: &[u8]) -> bool
    ensures { result ≡ list_all is_local_byte bytes.now }
{
    bytes.iter().all(|byte| is_local_byte(*byte))
}

fn are_domain_bytes(bytes: &[u8]) -> bool
    ensures { result ≡ list_all is_domain_byte bytes.now }
{
    bytes.iter().all(|byte| is_domain_byte(*byte))
}

fn is_local_byte(byte: u8) -> bool
    ensures { result ≡ is_local_byte byte }
{
    byte.is_ascii_alphanumeric() || b"._-+$\\".contains(&byte)
}

fn is_domain_byte(byte: u8) -> bool
    ensures { result ≡ is_domain_byte byte }
{
    byte.is_ascii_alphanumeric() || b".-".contains(&byte)
}
