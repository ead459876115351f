//! The numbers in a structure's fields: one loop over the fields reads them, and one writes them. One more writes words
//! behind a structure.

ghost use Rattle.std.specs.Prelude.{◌≡◌, ◌+◌, ◌*◌, ◌≤◌, ◌++◌, length, take, drop};
ghost use Rattle.std.specs.Int.{w32, byte_len, from_le_bytes, to_le_bytes};
ghost use Rattle.ioctl_codec.specs.Layout.{width, bytes_of, length_of, are_allowed, numbers_at, spelled};
ghost use Rattle.ioctl_codec.specs.Spelling.{words_bytes};
ghost use Rattle.ioctl_codec.specs.Table.{field_in, fields_in, structure_in, placed};

use crate::number::{u32_at, u64_at};
use crate::structure::{Field, Role, Structure};

// The number in the field at the front, and the bytes after it.
#[inline(always)]
fn number_at(field: Field, bytes: &[u8]) -> (u64, &[u8])
    requires { byte_len (width (field_in field)) ≤ length bytes.now }
    ensures value { let w = width (field_in field) in result.0 ≡ from_le_bytes w (take (byte_len w) bytes.now) }
    ensures rest { result.1.now ≡ drop (byte_len (width (field_in field))) bytes.now }
{
    match field {
        Field::U32(_) => {
            let (number, rest) = u32_at(bytes);
            (u64::from(number), rest)
        }
        Field::U64(_) => u64_at(bytes),
    }
}

// The numbers in the fields at the front of the bytes, by position, and whether each may stand in its field.
#[inline(always)]
pub fn read_fields(fields: &[Field], bytes: &[u8]) -> ([u64; 8], bool)
    requires few { length fields.now ≤ 8 }
    requires enough { bytes_of (fields_in fields.now) ≤ length bytes.now }
    ensures numbers { let fs = fields_in fields.now in placed 0 fs result.0 ≡ numbers_at fs bytes.now }
    ensures allowed { let fs = fields_in fields.now in result.1 ≡ are_allowed fs (numbers_at fs bytes.now) }
{
    let mut numbers = [0; 8];
    let mut allowed = true;
    let mut rest = bytes;
    for (index, field) in fields.iter().enumerate() {
        let (number, after) = number_at(*field, rest);
        numbers[index] = number;
        allowed &= field.allows(number);
        rest = after;
    }
    (numbers, allowed)
}

// Writes a number in such a field at a place, and answers the place behind it.
#[inline(always)]
fn put_number(out: &mut [u8; 64], at: usize, field: Field, number: u64) -> usize
    requires { at + byte_len (width (field_in field)) ≤ 64 }
    ensures next { result ≡ at + byte_len (width (field_in field)) }
    ensures written { let w = width (field_in field) in
        out.new ≡ take at out.old ++ (to_le_bytes w number ++ drop (at + byte_len w) out.old) }
{
    let bytes = number.to_le_bytes();
    match field {
        Field::U32(_) => {
            out[at..at + 4].copy_from_slice(&bytes[..4]);
            at + 4
        }
        Field::U64(_) => {
            out[at..at + 8].copy_from_slice(&bytes);
            at + 8
        }
    }
}

// Writes a structure with these numbers in its fields to the front of a buffer, and answers its length. The rest of the
// buffer stays.
#[inline(always)]
pub fn put_structure(out: &mut [u8; 64], structure: Structure, numbers: &[u64]) -> usize
    requires known { structure.length ≡ length_of (structure_in structure) }
    requires room { structure.length ≤ 64 }
    requires numbers { length numbers.now ≡ length structure.fields.now }
    ensures count { result ≡ length_of (structure_in structure) }
    ensures bytes { let s = structure_in structure in
        out.new ≡ (to_le_bytes w32 (length_of s) ++ spelled s.fields numbers.now) ++ drop result out.old }
{
    out[..4].copy_from_slice(&structure.length.to_le_bytes());
    let mut at = 4;
    for (index, field) in structure.fields.iter().enumerate() {
        at = put_number(out, at, *field, numbers[index]);
    }
    at
}

// Writes words one behind the other from a place on, and answers the place behind them. The rest of the buffer stays.
pub fn put_words(out: &mut [u8; 64], at: usize, words: &[u64]) -> usize
    requires { at + 8 * length words.now ≤ 64 }
    ensures next { result ≡ at + 8 * length words.now }
    ensures written { out.new ≡ take at out.old ++ (words_bytes words.now ++ drop result out.old) }
{
    let mut place = at;
    for word in words {
        place = put_number(out, place, Field::U64(Role::Argument), *word);
    }
    place
}
