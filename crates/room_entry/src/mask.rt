//! The access mask of an entry.
ghost use Rattle.std.specs.Prelude.{◌≡◌, ◌↔◌, IsTrue, not, [], ◌∷◌, ◌++◌, filter, map, IfOk};
ghost use Rattle.std.specs.Prelude.{OnOk, string_bytes, ◌&&◌, ◌||◌, MatchOption, true, false, find};
ghost use Rattle.std.specs.Prelude.{◌==◌, if◌then◌else◌, Some, None, nat_lt};
ghost use Rattle.std.specs.Cmp.{partial_equiv_from_equiv};
ghost use Rattle.std.specs.Cmp.Lexicographic.{nat_list_eq_equiv};
ghost use Rattle.std.specs.List.{list_all};
ghost use Rattle.std.specs.Option.{option_map};
ghost use Rattle.room_entry.specs.Bits.{all_bits, has, is_set, shares, bits_of, number_of};
ghost use Rattle.room_entry.specs.Single.{is_single};
ghost use Rattle.room_entry.specs.Letters.{bit_named, mask_letters, mask_text, read_mask_of};
ghost use Rattle.room_entry.specs.Letters.{table_text};
ghost use Rattle.room_entry.specs.Pieces.{is_among, same_text};
ghost use Rattle.room_entry.specs.Rights as rights;

use crate::fault::TextFault;
use std::alloc::{AllocError, Global};
use std::marker::Model;

/// A set of access rights (RFC 8881, section 6.2.1.3.1). A contract sees the list of its bits, each
/// as the standard's number for it, in rising order.
#[derive(Clone, Copy, Debug)]
pub struct Mask {
    bits: u32,
}

impl Model for Mask {
    ghost use Rattle.std.specs.Prelude.{List, ℕ, ◌≡◌, bit_and};
    ghost use Rattle.room_entry.specs.Bits.{bits_of, number_of};

    ghost Value = { List ℕ };

    ghost view = { λ m. bits_of m.bits };

    ghost invariant = { λ m. bit_and m.bits 0x1F07FF ≡ m.bits };

    ghost inverse = { λ bits. record { bits = number_of bits } };

    ghost use Rattle.std.proofs.Common.{ap};
    ghost use Rattle.room_entry.specs.BitLaws.{number_of-bits_of};

    ghost inverse_ok = { λ m known.
        ap (λ bits. record { bits = bits }) (number_of-bits_of m.bits known) };
}

// The bits that a mask can have.
const KNOWN_BITS: u32 = 0x1F07FF;

impl Mask {
    /// States for a proof that the bits are known ones, in order.
    pub fn is_known(self)
        ensures { filter (has self) all_bits ≡ self }
    {
        let _bits = self.bits;
    }

    /// The number whose bits these are.
    pub fn number(self) -> u32
        ensures bits { bits_of result ≡ self }
        ensures number { number_of self ≡ result }
    {
        self.bits
    }

    /// The mask of these bits, if each of them is one that a mask can have.
    pub fn from_number(number: u32) -> Option<Mask>
        ensures { result ≡ (if number_of (bits_of number) == number then Some (bits_of number)
            else None) }
    {
        if number & KNOWN_BITS == number {
            Some(Mask { bits: number })
        } else {
            None
        }
    }

    /// The mask with all bits that one can have.
    pub fn all() -> Mask
        ensures { result ≡ all_bits }
    {
        Mask { bits: KNOWN_BITS }
    }

    /// The mask with no bit.
    pub fn empty() -> Mask
        ensures { result ≡ [] }
    {
        Mask { bits: 0 }
    }

    /// Whether there is no bit.
    pub fn is_empty(self) -> bool
        ensures { IsTrue result ↔ (self ≡ []) }
    {
        self.bits == 0
    }

    /// The bits that both masks have.
    pub fn shared_with(self, other: Mask) -> Mask
        ensures { result ≡ filter (has other) self }
    {
        Mask {
            bits: self.bits & other.bits,
        }
    }

    /// Whether the masks have a bit in common.
    pub fn shares(self, other: Mask) -> bool
        ensures { result ≡ shares self other }
    {
        !self.shared_with(other).is_empty()
    }

    /// Whether the masks have the same bits.
    pub fn is_same(self, other: Mask) -> bool
        ensures { result ≡ same_text self other }
    {
        self.bits == other.bits
    }

    /// The bits that the other mask doesn't have.
    pub fn without(self, other: Mask) -> Mask
        ensures { result ≡ filter (λ bit. not (has other bit)) self }
    {
        Mask {
            bits: self.bits & !other.bits,
        }
    }
}

impl Mask {
    /// The bits of either mask.
    pub fn union(self, other: Mask) -> Mask
        ensures { result ≡ filter (λ bit. has self bit || has other bit) all_bits }
    {
        Mask {
            bits: self.bits | other.bits,
        }
    }
}

impl PartialEq for Mask {
    ghost eq = { same_text };

    ghost laws = { partial_equiv_from_equiv nat_list_eq_equiv };

    fn eq(&self, other: &Mask) -> bool {
        self.is_same(*other)
    }
}

impl Eq for Mask {
    ghost laws = { nat_list_eq_equiv };
}

/// The mask that the letters spell, in any order and as often as they come, or `BadMask`.
pub fn read_mask(text: &str) -> Result<Mask, TextFault>
    ensures { result ≡ read_mask_of text.now }
{
    mask_in(text.as_bytes())
}

/// The mask that these bytes spell as letters, or `BadMask`.
pub fn mask_in(letters: &[u8]) -> Result<Mask, TextFault>
    ensures { result ≡ read_mask_of letters.now }
{
    let mut mask = Mask::empty();
    for letter in letters {
        match bit_of(*letter) {
            None => return Err(TextFault::BadMask),
            Some(bit) => mask = mask.union(bit),
        }
    }
    Ok(mask)
}

// The bit that the letter stands for.
fn bit_of(letter: u8) -> Option<Mask>
    ensures { MatchOption result (is_among mask_letters letter ≡ false)
        (λ bit. (is_among mask_letters letter ≡ true) × (bit ≡ bit_named letter)) }
{
    match bit_in(&LETTERS, letter) {
        None => None,
        Some(bits) => Some(Mask { bits }),
    }
}

// The bit that stands beside the letter in a table of both.
fn bit_in(rows: &[(u32, char)], letter: u8) -> Option<u32>
    ensures { result ≡ option_map (λ row. row.0) (find (λ row. row.1 == letter) rows.now) }
{
    rows.iter()
        .find(|row| row.1 as u32 == letter as u32)
        .map(|row| row.0)
}

// The bits that a mask can have, and the letters that stand for them.
const LETTERS: [(u32, char); 16] = [
    (0x1, 'r'),
    (0x2, 'w'),
    (0x4, 'a'),
    (0x8, 'n'),
    (0x10, 'N'),
    (0x20, 'x'),
    (0x40, 'D'),
    (0x80, 't'),
    (0x100, 'T'),
    (0x200, 'h'),
    (0x400, 'H'),
    (0x10000, 'd'),
    (0x20000, 'c'),
    (0x40000, 'C'),
    (0x80000, 'o'),
    (0x100000, 'y'),
];

impl Mask {
    /// Adds the letters of the bits, in the order of the bits.
    pub fn push_letters(self, text: &mut String) -> Result<(), AllocError>
        ensures { OnOk result (string_bytes text.new ≡ string_bytes text.old ++ mask_text self) }
    {
        push_letters_of(self.bits, text)
    }
}

impl Mask {
    /// A mask for each of the bits, in the order of the bits.
    pub fn singles(self, alloc: Global) -> Result<Vec<Mask>, AllocError>
        ensures { IfOk result (λ masks. masks.items ≡ map (λ bit. bit ∷ []) self) }
    {
        singles_of(alloc, self.bits, &LETTERS)
    }
}

// A mask for each bit of a number that a table has, in the order of its rows.
fn singles_of(alloc: Global, bits: u32, rows: &[(u32, char)]) -> Result<Vec<Mask>, AllocError>
    requires { IsTrue (list_all (λ row. is_single row.0) rows.now) }
    ensures { IfOk result (λ masks.
        masks.items ≡ map (λ bit. bit ∷ []) (filter (is_set bits) (map (λ row. row.0) rows.now))) }
{
    let mut masks = Vec::new(alloc);
    for (bit, _letter) in rows {
        if bits / *bit % 2 == 1 {
            masks.push(Mask { bits: *bit })?;
        }
    }
    Ok(masks)
}

// Adds the letters of the bits of a number.
fn push_letters_of(bits: u32, text: &mut String) -> Result<(), AllocError>
    ensures { OnOk result
        (string_bytes text.new ≡ string_bytes text.old ++ mask_text (bits_of bits)) }
{
    push_rows(bits, &LETTERS, text)
}

// Adds the letters of the bits of a number by the rows of a table.
fn push_rows(bits: u32, rows: &[(u32, char)], text: &mut String) -> Result<(), AllocError>
    requires { IsTrue (list_all (λ row. has all_bits row.0 && nat_lt row.1 128) rows.now) }
    ensures { OnOk result
        (string_bytes text.new ≡ string_bytes text.old ++ table_text bits rows.now) }
{
    for (bit, letter) in rows {
        if is_set(bits, *bit) {
            text.push(*letter)?;
        }
    }
    Ok(())
}

// Whether the number has the bit, which is one that a mask can have.
fn is_set(bits: u32, bit: u32) -> bool
    requires { has all_bits bit ≡ true }
    ensures { result ≡ is_set bits bit }
{
    bits & bit != 0
}

/// The rights that requests ask for, each as a mask of one bit.
#[tactic(auto, unfolding(crate::specs::Bits::all_bits))]
impl Mask {
    /// READ_DATA, which is LIST_DIRECTORY on a folder.
    pub fn read_data() -> Mask
        ensures { result ≡ rights.read_data ∷ [] }
    {
        Mask { bits: 0x1 }
    }

    /// WRITE_DATA, which is ADD_FILE on a folder.
    pub fn write_data() -> Mask
        ensures { result ≡ rights.write_data ∷ [] }
    {
        Mask { bits: 0x2 }
    }

    /// APPEND_DATA, which is ADD_SUBDIRECTORY on a folder.
    pub fn append_data() -> Mask
        ensures { result ≡ rights.append_data ∷ [] }
    {
        Mask { bits: 0x4 }
    }

    /// EXECUTE.
    pub fn execute() -> Mask
        ensures { result ≡ rights.execute ∷ [] }
    {
        Mask { bits: 0x20 }
    }

    /// DELETE_CHILD.
    pub fn delete_child() -> Mask
        ensures { result ≡ rights.delete_child ∷ [] }
    {
        Mask { bits: 0x40 }
    }

    /// READ_ATTRIBUTES.
    pub fn read_attributes() -> Mask
        ensures { result ≡ rights.read_attributes ∷ [] }
    {
        Mask { bits: 0x80 }
    }

    /// DELETE.
    pub fn delete() -> Mask
        ensures { result ≡ rights.delete ∷ [] }
    {
        Mask { bits: 0x10000 }
    }

    /// READ_ACL.
    pub fn read_acl() -> Mask
        ensures { result ≡ rights.read_acl ∷ [] }
    {
        Mask { bits: 0x20000 }
    }

    /// WRITE_ACL.
    pub fn write_acl() -> Mask
        ensures { result ≡ rights.write_acl ∷ [] }
    {
        Mask { bits: 0x40000 }
    }

    /// WRITE_OWNER.
    pub fn write_owner() -> Mask
        ensures { result ≡ rights.write_owner ∷ [] }
    {
        Mask { bits: 0x80000 }
    }
}
