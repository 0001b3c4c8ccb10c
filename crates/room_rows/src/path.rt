//! Paths, and the names that they are made of.
ghost use Rattle.std.specs.Prelude.{
  ◌≡◌,
  ◌==◌,
  ◌<◌,
  ◌≤◌,
  [],
  ◌∷◌,
  ◌++◌,
  IfOk,
  IfSome,
  IsTrue,
  MatchOption,
  OnOk,
  length,
  string_bytes,
  take,
};
ghost use Rattle.std.specs.List.{list_all};
ghost use Rattle.room_entry.specs.Bytes.{slash};
ghost use Rattle.room_entry.specs.Gives.{Gives};
ghost use Rattle.room_entry.specs.Pieces.{pieces};
ghost use Rattle.room_rows.specs.Paths.{
  is_name_byte,
  is_object_name,
  is_path,
  names_in,
  object_names,
  path_of,
  path_text,
};

use crate::fault::PathFault;
use crate::text::Text;
use room_entry::Failure;
use std::alloc::{AllocError, Global};
use std::marker::Model;

/// The most bytes that a path has.
const LONGEST_PATH: usize = 4096;

/// The most bytes that an object name has.
const LONGEST_NAME: usize = 255;

/// The path of an object. A contract sees the list of its names, none for the root.
#[derive(Clone, Drop)]
pub struct Path {
    names: Vec<Text>,
}

impl Model for Path {
    ghost use Rattle.std.specs.Prelude.{List, ℕ, IsTrue};
    ghost use Rattle.room_rows.specs.Paths.{is_path};

    ghost Value = { List (List ℕ) };

    ghost view = { λ p. p.names.items };

    ghost invariant = { λ p. IsTrue (is_path p.names.items) };
}

impl Path {
    /// The path of the root, `/`.
    pub fn root(alloc: Global) -> Path
        ensures { result ≡ [] }
    {
        Path {
            names: Vec::new(alloc),
        }
    }

    /// Tells a proof that the names are those of a path.
    pub fn is_known(&self)
        ensures { IsTrue (is_path self.now) }
    {
        let _names = &self.names;
    }

    /// The names, none for the root.
    pub fn names(&self) -> &[Text]
        ensures { result.now ≡ self.now }
    {
        self.names.as_slice()
    }

    /// Whether it is the root's path.
    pub fn is_root(&self) -> bool
        ensures { result ≡ (length self.now == 0) }
    {
        self.names.is_empty()
    }

    /// The last name and those before it, or nothing at the root. The name is an object name.
    pub fn split_last(&self) -> Option<(&Text, &[Text])>
        ensures parts { MatchOption result (self.now ≡ [])
            (λ parts. self.now ≡ parts.1.now ++ parts.0.now ∷ []) }
        ensures name { IfSome result (λ parts. IsTrue (is_object_name parts.0.now)) }
    {
        self.names.as_slice().split_last()
    }

    /// A copy.
    pub fn copy(&self) -> Result<Path, AllocError>
        ensures { IfOk result (λ copy. copy ≡ self.now) }
    {
        Ok(Path {
            names: self.names.clone()?,
        })
    }

    /// The path of the first `count` names, or of all of them where there are no more.
    pub fn front(&self, alloc: Global, count: usize) -> Result<Path, AllocError>
        ensures { IfOk result (λ path. path ≡ take count self.now) }
    {
        let kept = &self.names()[..count.min(self.names.len())];
        let mut names = Vec::new(alloc);
        for name in kept {
            names.push(name.copy()?)?;
        }
        Ok(Path { names })
    }

    /// The text of the path: a `/` before each name, and `/` alone for the root.
    pub fn to_text(&self, alloc: Global) -> Result<String, AllocError>
        ensures { IfOk result (λ text. string_bytes text ≡ path_text self.now) }
    {
        text_of(alloc, self.names())
    }

    /// The text of the path of the first `count` names, or of all of them where there are no more.
    pub fn front_text(&self, alloc: Global, count: usize) -> Result<String, AllocError>
        ensures { IfOk result (λ text. string_bytes text ≡ path_text (take count self.now)) }
    {
        text_of(alloc, &self.names()[..count.min(self.names.len())])
    }
}

// The text of the path of these names.
fn text_of(alloc: Global, names: &[Text]) -> Result<String, AllocError>
    ensures { IfOk result (λ text. string_bytes text ≡ path_text names.now) }
{
    let mut text = String::new(alloc);
    if names.is_empty() {
        text.push('/')?;
    }
    for name in names {
        text.push('/')?;
        text.push_str(name.as_str())?;
    }
    Ok(text)
}

/// The path that the bytes spell: `/` alone for the root, or a `/` before each name.
///
/// An object name is UTF-8 of 1 to 255 bytes without `/`, without bytes below 0x20 and without
/// 0x7F, and neither `.` nor `..`. The error is the first fault, in the order `TooLong`, `NotUtf8`,
/// `BadName`, or that memory ran out.
pub fn read_path(alloc: Global, bytes: &[u8]) -> Result<Path, Failure<PathFault>>
    ensures { Gives result (path_of bytes.now) }
{
    if bytes.len() > LONGEST_PATH {
        return Err(Failure::Fault(PathFault::TooLong));
    }
    match str::from_utf8(bytes) {
        Ok(text) => read_names(alloc, text),
        Err(_) => Err(Failure::Fault(PathFault::NotUtf8)),
    }
}

// The path that a text spells which isn't too long.
fn read_names(alloc: Global, text: &str) -> Result<Path, Failure<PathFault>>
    requires { length text.now ≤ 4096 }
    ensures { Gives result (names_in (pieces slash text.now)) }
{
    let Some(rest) = text.strip_prefix('/') else {
        return Err(Failure::Fault(PathFault::BadName));
    };
    if rest.is_empty() {
        return Ok(Path::root(alloc));
    }
    read_rest(alloc, rest)
}

// The path whose text is a `/` and these names.
fn read_rest(alloc: Global, rest: &str) -> Result<Path, Failure<PathFault>>
    requires { length rest.now < 4096 }
    ensures { Gives result (object_names (pieces slash rest.now)) }
{
    let mut names = Vec::new(alloc);
    'names: for name in rest.split('/') {
        if !is_object_name(name) {
            return Err(Failure::Fault(PathFault::BadName));
        }
        push_name(alloc, &mut names, name)?;
    }
    Ok(Path { names })
}

// Adds a name at the end.
fn push_name(alloc: Global, names: &mut Vec<Text>, name: &str) -> Result<(), AllocError>
    ensures { OnOk result (names.new.items ≡ names.old.items ++ name.now ∷ []) }
{
    names.push(Text::from_str(alloc, name)?)?;
    Ok(())
}

/// Whether the text is an object name: 1 to 255 bytes, no `/` and no control character below 0x20
/// or 0x7F, and neither `.` nor `..`.
pub fn is_object_name(name: &str) -> bool
    ensures { result ≡ is_object_name name.now }
{
    if name.is_empty() || name.len() > LONGEST_NAME {
        return false;
    }
    if name == "." || name == ".." {
        return false;
    }
    are_name_bytes(name.as_bytes())
}

// Whether each byte may stand in an object name.
fn are_name_bytes(bytes: &[u8]) -> bool
    ensures { result ≡ list_all is_name_byte bytes.now }
{
    bytes.iter().all(|byte| is_name_byte(*byte))
}

// Whether the byte may stand in an object name.
fn is_name_byte(byte: u8) -> bool
    ensures { result ≡ is_name_byte byte }
{
    byte >= 0x20 && byte != 0x7F && byte != b'/'
}
