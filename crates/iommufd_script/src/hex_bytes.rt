//! Bytes that a script spells in hexadecimal.

ghost use Rattle.std.specs.Prelude.{◌≡◌, ◌==◌, ◌%◌, ◌/◌, ◌≤◌, Some, IfOk, OnErr};
ghost use Rattle.std.specs.Prelude.{length, slice_index};
ghost use Rattle.std.specs.Prelude.{None, true, ◌<◌, ◌+◌, ◌-◌, ◌*◌, map, take, drop, replicate};
ghost use Rattle.std.specs.Char.{digit_value};
ghost use Rattle.std.specs.List.{list_all};
ghost use Rattle.std.specs.Simd.Lanes.{chunk};
ghost use Rattle.iommufd_script.specs.Digits.{bytes_of, is_lower_digit, pairs};

use iofd_words::NoMemory;
use std::alloc::Allocator;
use std::marker::Model;
use std::simd::prelude::*;

/// Bytes, as the digits that the script has for them. They take no memory.
#[derive(Drop)]
pub struct HexBytes<'a> {
    // Two lower-case digits for each byte, the high four bits first.
    digits: &'a [u8],
}

impl<'a> Model for HexBytes<'a> {
    ghost use Rattle.std.specs.Prelude.{List, ℕ};
    ghost use Rattle.std.specs.Prelude.{◌≡◌, ◌%◌, true, length};
    ghost use Rattle.std.specs.List.{list_all};
    ghost use Rattle.iommufd_script.specs.Digits.{pairs, is_lower_digit};

    ghost Value = { List ℕ };

    ghost view = { λ bytes. pairs bytes.digits.now };

    ghost invariant = { λ bytes.
        (list_all is_lower_digit bytes.digits.now ≡ true) × (length bytes.digits.now % 2 ≡ 0) };
}

// Whether each character is a hexadecimal digit in lower case. It goes on past one that isn't, so that the compiler
// can test many at once.
fn are_lower_digits(text: &[u8]) -> bool
    ensures { result ≡ list_all is_lower_digit text.now }
{
    let mut all = true;
    for c in text {
        let c = *c;
        all &= ((b'0' <= c) & (c <= b'9')) | ((b'a' <= c) & (c <= b'f'));
    }
    all
}

// The four bits of a digit. A letter's low bits count from 1, and bit 6 is set in letters alone: none needs a branch.
fn bits_of(digit: u8) -> u8
    requires { digit_value digit < 16 }
    ensures { result ≡ digit_value digit }
{
    (digit & 15) + 9 * (digit >> 6)
}

// How many bytes are decoded together.
const STRIDE: usize = 16;

// What sixteen digits stand for. A decimal one lies 48 above that, and a letter 87; the wrong one of the two, taken
// away, leaves more, or wraps round to more.
fn values_of(digits: u8x16) -> u8x16
    requires { list_all is_lower_digit digits ≡ true }
    ensures { result ≡ map digit_value digits }
{
    (digits - u8x16::splat(48)).simd_min(digits - u8x16::splat(87))
}

// The bytes of the 32 digits from this place on.
fn sixteen_bytes(digits: &[u8], at: usize) -> u8x16
    requires within { at + 32 ≤ length digits.now }
    requires lower { list_all is_lower_digit digits.now ≡ true }
    ensures { result ≡ pairs (chunk at 32 digits.now) }
{
    let front = values_of(u8x16::from_slice(&digits[at..]));
    let back = values_of(u8x16::from_slice(&digits[at + 16..]));
    let (high, low) = front.deinterleave(back);
    high * u8x16::splat(16) + low
}

impl<'a> HexBytes<'a> {
    // The bytes of a field: `-` for none, or the digits of at least one.
    #[tactic(auto, unfolding(crate::specs::Digits::bytes_of))]
    pub fn of(text: &'a [u8]) -> Option<HexBytes<'a>>
        ensures { result ≡ bytes_of text.now }
    {
        if text == b"-".as_slice() {
            return Some(HexBytes { digits: &[] });
        }
        if text.is_empty() || text.len() % 2 != 0 || !are_lower_digits(text) {
            return None;
        }
        Some(HexBytes { digits: text })
    }

    /// How many they are.
    pub fn len(&self) -> usize
        ensures { result ≡ length self.now }
    {
        self.digits.len() / 2
    }

    // The byte at a place.
    pub fn byte_at(&self, i: usize) -> u8
        requires { i < length self.now }
        ensures { result ≡ slice_index self.now i }
    {
        let digits = self.digits;
        bits_of(digits[2 * i]) * 16 + bits_of(digits[2 * i + 1])
    }

    // Writes sixteen or more to the front of a buffer. The last stride overlaps the one before.
    fn write_many(&self, buffer: &mut [u8])
        requires many { 16 ≤ length self.now }
        requires room { length self.now ≤ length buffer.old }
        ensures written { take (length self.now) buffer.new ≡ self.now }
        ensures behind { drop (length self.now) buffer.new ≡ drop (length self.now) buffer.old }
    {
        let last = self.len() - STRIDE;
        let mut done = 0;
        while done < last {
            sixteen_bytes(self.digits, 2 * done).copy_to_slice(&mut buffer[done..]);
            done += STRIDE;
        }
        sixteen_bytes(self.digits, 2 * last).copy_to_slice(&mut buffer[last..]);
    }

    // Writes fewer than sixteen to the front of a buffer, as a whole stride: the digits that are missing are zeros.
    fn write_few(&self, buffer: &mut [u8; 64])
        requires { length self.now < 16 }
        ensures written { take (length self.now) buffer.new ≡ self.now }
        ensures zeros { buffer.old ≡ replicate 64 0
            → drop (length self.now) buffer.new ≡ replicate (64 - length self.now) 0 }
    {
        let mut digits = [b'0'; 32];
        digits[..self.digits.len()].copy_from_slice(self.digits);
        sixteen_bytes(&digits, 0).copy_to_slice(buffer);
    }

    // Writes them to the front of a buffer, which may end behind them.
    fn write_over(&self, buffer: &mut [u8])
        requires { length self.now ≤ length buffer.old }
        ensures { take (length self.now) buffer.new ≡ self.now }
    {
        if self.len() >= STRIDE {
            return self.write_many(buffer);
        }
        for i in 0..self.len() {
            buffer[i] = self.byte_at(i);
        }
    }

    /// Writes them to the front of a buffer, which has to have room for them. What is behind them may change; in a
    /// buffer of zeros it stays zero.
    pub fn write_to(&self, buffer: &mut [u8; 64])
        requires { length self.now ≤ 64 }
        ensures written { take (length self.now) buffer.new ≡ self.now }
        ensures zeros { buffer.old ≡ replicate 64 0
            → drop (length self.now) buffer.new ≡ replicate (64 - length self.now) 0 }
    {
        if self.len() < STRIDE {
            return self.write_few(buffer);
        }
        self.write_many(buffer);
    }

    /// They, in memory of this allocator. The error comes only where the memory was refused; no bytes need none.
    pub fn to_vec<A: Allocator>(&self, alloc: A) -> Result<Vec<u8, A>, NoMemory>
        ensures ok { IfOk result (λ bytes. bytes.items ≡ self.now) }
        ensures memory { OnErr result (0 < length self.now) }
    {
        let len = self.len();
        if len == 0 {
            return Ok(Vec::new(alloc));
        }
        let mut vec = vec![in alloc; 0; len]?;
        self.write_over(&mut vec);
        Ok(vec)
    }
}
