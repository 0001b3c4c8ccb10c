//! The text of an entry, `type:flags:who:mask`.
ghost use Rattle.std.specs.Prelude.{◌≡◌, ◌++◌, ◌∷◌, [], IfOk, OnOk, MatchOption, Err, string_bytes};
ghost use Rattle.std.specs.Prelude.{codes, ◌<◌};
ghost use Rattle.std.specs.List.{list_all};
ghost use Rattle.room_entry.specs.Bytes.{colon, line_feed};
ghost use Rattle.room_entry.specs.Gives.{Gives};
ghost use Rattle.room_entry.specs.Pieces.{is_among, pieces, same_text};
ghost use Rattle.room_entry.specs.Letters.{flag_letters, flags_among, flags_of, flags_text};
ghost use Rattle.room_entry.specs.Letters.{kind_of};
ghost use Rattle.room_entry.specs.Letters.{kind_text, letter_if};
ghost use Rattle.room_ace.specs.Text.{entry_of, entry_of_parts, entry_text, who_of, who_text};

use room_entry::{Entry, EntryFlags, EntryKind, Failure, TextFault, Who, cut, mask_in, name_in};
use std::alloc::{AllocError, Global};

// The four parts of the text of an entry, as bytes, which are cut and compared without a look at
// where a character ends.
#[derive(Clone, Copy)]
struct Parts<'a> {
    kind: &'a [u8],
    flags: &'a [u8],
    who: &'a [u8],
    mask: &'a [u8],
}

/// The entry that the text spells, `type:flags:who:mask`, or its first fault: in its parts, its
/// type, its flags, its who and its mask, in this order.
pub fn read_entry(alloc: Global, text: &str) -> Result<Entry, Failure<TextFault>>
    ensures { Gives result (entry_of text.now) }
{
    entry_from(alloc, text.as_bytes())
}

/// The entry that these bytes spell, or its first fault.
pub(crate) fn entry_from(alloc: Global, bytes: &[u8]) -> Result<Entry, Failure<TextFault>>
    ensures { Gives result (entry_of bytes.now) }
{
    match four_parts(bytes) {
        None => Err(Failure::Fault(TextFault::NotFourParts)),
        Some(parts) => entry_of(alloc, parts),
    }
}

fn four_parts(bytes: &[u8]) -> Option<Parts<'_>>
    ensures { MatchOption result (entry_of bytes.now ≡ Err TextFault.NotFourParts) (λ parts.
        pieces colon bytes.now
        ≡ parts.kind.now ∷ parts.flags.now ∷ parts.who.now ∷ parts.mask.now ∷ []) }
{
    let (kind, rest) = cut(bytes, &b':')?;
    let (flags, rest) = cut(rest, &b':')?;
    let (who, mask) = cut(rest, &b':')?;
    match cut(mask, &b':') {
        None => Some(Parts {
            kind,
            flags,
            who,
            mask,
        }),
        Some(_) => None,
    }
}

fn entry_of(alloc: Global, parts: Parts<'_>) -> Result<Entry, Failure<TextFault>>
    ensures { let p = parts.entry in
        Gives result (entry_of_parts (p.kind.now ∷ p.flags.now ∷ p.who.now ∷ p.mask.now ∷ [])) }
{
    let Some(kind) = kind_of(parts.kind) else {
        return Err(Failure::Fault(TextFault::BadKind));
    };
    let Some(flags) = flags_of(parts.flags) else {
        return Err(Failure::Fault(TextFault::BadFlag));
    };
    let who = match who_of(alloc, flags.identifier_group, parts.who)? {
        None => return Err(Failure::Fault(TextFault::BadWho)),
        Some(who) => who,
    };
    match mask_in(parts.mask) {
        Err(fault) => Err(Failure::Fault(fault)),
        Ok(mask) => Ok(Entry::new(kind, flags, who, mask)),
    }
}

// Whether the bytes are those of the word.
fn spells(bytes: &[u8], word: &str) -> bool
    ensures { result ≡ same_text bytes.now word.now }
{
    bytes == word.as_bytes()
}

fn kind_of(letters: &[u8]) -> Option<EntryKind>
    ensures { result ≡ kind_of letters.now }
{
    if spells(letters, "A") {
        Some(EntryKind::Allow)
    } else if spells(letters, "D") {
        Some(EntryKind::Deny)
    } else if spells(letters, "U") {
        Some(EntryKind::Audit)
    } else if spells(letters, "L") {
        Some(EntryKind::Alarm)
    } else {
        None
    }
}

fn flags_of(letters: &[u8]) -> Option<EntryFlags>
    ensures { result ≡ flags_of letters.now }
{
    if are_flag_letters(letters) {
        Some(flags_among(letters))
    } else {
        None
    }
}

// The flags whose letters come.
fn flags_among(letters: &[u8]) -> EntryFlags
    ensures { result ≡ flags_among letters.now }
{
    EntryFlags {
        file_inherit: letters.contains(&b'f'),
        directory_inherit: letters.contains(&b'd'),
        no_propagate_inherit: letters.contains(&b'n'),
        inherit_only: letters.contains(&b'i'),
        successful_access: letters.contains(&b'S'),
        failed_access: letters.contains(&b'F'),
        identifier_group: letters.contains(&b'g'),
        inherited: letters.contains(&b'I'),
    }
}

fn are_flag_letters(letters: &[u8]) -> bool
    ensures { result ≡ list_all (is_among flag_letters) letters.now }
{
    letters.iter().all(|letter| is_flag_letter(*letter))
}

fn is_flag_letter(letter: u8) -> bool
    ensures { result ≡ is_among flag_letters letter }
{
    b"fdniSFgI".contains(&letter)
}

// The who of the bytes, which is a group's name where the group flag is set.
fn who_of(alloc: Global, group: bool, bytes: &[u8]) -> Result<Option<Who>, AllocError>
    ensures { IfOk result (λ who. who ≡ who_of group bytes.now) }
{
    if spells(bytes, "OWNER@") {
        return Ok(Some(Who::Owner));
    }
    if spells(bytes, "GROUP@") {
        return Ok(Some(Who::Group));
    }
    if spells(bytes, "EVERYONE@") {
        return Ok(Some(Who::Everyone));
    }
    if spells(bytes, "ANONYMOUS@") {
        return Ok(Some(Who::Anonymous));
    }
    if spells(bytes, "AUTHENTICATED@") {
        return Ok(Some(Who::Authenticated));
    }
    match name_in(alloc, bytes) {
        Ok(name) if group => Ok(Some(Who::Members(name))),
        Ok(name) => Ok(Some(Who::User(name))),
        Err(Failure::Fault(_)) => Ok(None),
        Err(Failure::OutOfMemory) => Err(AllocError),
    }
}

/// The printed form of the entry.
pub fn print_entry(alloc: Global, entry: &Entry) -> Result<String, AllocError>
    ensures { IfOk result (λ text. string_bytes text ≡ entry_text entry.now) }
{
    let mut text = String::new(alloc);
    write_entry(&mut text, entry)?;
    Ok(text)
}

/// Adds the printed form of the entry and LF.
pub(crate) fn write_line(text: &mut String, entry: &Entry) -> Result<(), AllocError>
    ensures { OnOk result
        (string_bytes text.new
        ≡ string_bytes text.old ++ (entry_text entry.now ++ line_feed ∷ [])) }
{
    write_entry(text, entry)?;
    text.push('\n')?;
    Ok(())
}

// Adds the printed form of the entry, part by part, so that no text is made for it alone.
fn write_entry(text: &mut String, entry: &Entry) -> Result<(), AllocError>
    ensures { OnOk result (string_bytes text.new ≡ string_bytes text.old ++ entry_text entry.now) }
{
    text.push_str(kind_letter(entry.kind()))?;
    text.push(':')?;
    push_flags(text, entry.flags())?;
    text.push(':')?;
    text.push_str(who_str(entry.who()))?;
    text.push(':')?;
    entry.mask().push_letters(text)?;
    Ok(())
}

fn kind_letter(kind: EntryKind) -> &'static str
    ensures { result.now ≡ kind_text kind }
{
    match kind {
        EntryKind::Allow => "A",
        EntryKind::Deny => "D",
        EntryKind::Audit => "U",
        EntryKind::Alarm => "L",
    }
}

fn who_str(who: &Who) -> &str
    ensures { result.now ≡ who_text who.now }
{
    match who {
        Who::Owner => "OWNER@",
        Who::Group => "GROUP@",
        Who::Everyone => "EVERYONE@",
        Who::Anonymous => "ANONYMOUS@",
        Who::Authenticated => "AUTHENTICATED@",
        Who::User(name) => name.as_str(),
        Who::Members(name) => name.as_str(),
    }
}

fn push_flags(text: &mut String, flags: EntryFlags) -> Result<(), AllocError>
    ensures { OnOk result (string_bytes text.new ≡ string_bytes text.old ++ flags_text flags) }
{
    push_if(text, flags.file_inherit, 'f')?;
    push_if(text, flags.directory_inherit, 'd')?;
    push_if(text, flags.no_propagate_inherit, 'n')?;
    push_if(text, flags.inherit_only, 'i')?;
    push_if(text, flags.successful_access, 'S')?;
    push_if(text, flags.failed_access, 'F')?;
    push_if(text, flags.identifier_group, 'g')?;
    push_if(text, flags.inherited, 'I')?;
    Ok(())
}

// Adds the letter where the flag is set.
pub(crate) fn push_if(text: &mut String, set: bool, letter: char) -> Result<(), AllocError>
    requires { letter < 128 }
    ensures { OnOk result (string_bytes text.new ≡ string_bytes text.old ++ letter_if set letter) }
{
    if set {
        text.push(letter)?;
    }
    Ok(())
}
