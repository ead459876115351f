//! Text, split at single bytes.

ghost use Rattle.std.specs.Prelude.{◌≡◌, ◌==◌, ◌≤◌, ◌<◌, ◌+◌, [], ◌∷◌, MatchOption};
ghost use Rattle.std.specs.Prelude.{IfErr, IfOk, ℕ, length, not, slice_index_or};
ghost use Rattle.std.specs.List.{position_or_len, prefix_len, slice_split};
ghost use Rattle.std.specs.Simd.Lanes.{chunk};
ghost use Rattle.iommufd_script.specs.Lines.{lines};

use std::simd::prelude::*;

// How many bytes are looked at together, and how many at once in a long text.
const STRIDE: usize = 16;

const WIDE: usize = 64;

// How many of the bytes of a stride from this place on come before the first such byte.
fn count_before(text: &[u8], at: usize, byte: u8) -> usize
    requires { at + 16 ≤ length text.now }
    ensures { result ≡ prefix_len (λ c. not (c == byte)) (chunk at 16 text.now) }
{
    let hits = u8x16::from_slice(&text[at..])
        .simd_eq(u8x16::splat(byte))
        .to_bitmask();
    if hits == 0 {
        STRIDE
    } else {
        hits.trailing_zeros() as usize
    }
}

// The same of a wide stride.
fn count_before_wide(text: &[u8], at: usize, byte: u8) -> usize
    requires { at + 64 ≤ length text.now }
    ensures { result ≡ prefix_len (λ c. not (c == byte)) (chunk at 64 text.now) }
{
    let hits = u8x64::from_slice(&text[at..])
        .simd_eq(u8x64::splat(byte))
        .to_bitmask();
    if hits == 0 {
        WIDE
    } else {
        hits.trailing_zeros() as usize
    }
}

// Where the first such byte is, if it lies in the text's wide strides; else the place behind these.
fn place_in_wide(text: &[u8], byte: u8) -> Result<usize, usize>
    ensures found { IfOk result (λ place. (place ≤ length text.now)
        × (place ≡ position_or_len (λ c. c == byte) text.now)) }
    ensures none { IfErr result (λ end. (end ≤ length text.now)
        × ((k : ℕ) → k < end → slice_index_or text.now k 0 ≡ byte → ⊥)) }
{
    let mut start = 0;
    while text.len() - start >= WIDE {
        let before = count_before_wide(text, start, byte);
        if before < WIDE {
            return Ok(start + before);
        }
        start += WIDE;
    }
    Err(start)
}

// Where the first such byte of a short text is, or the text's length.
fn first_place_of_few(text: &[u8], byte: u8) -> usize
    ensures place { result ≡ position_or_len (λ c. c == byte) text.now }
    ensures within { result ≤ length text.now }
{
    for i in 0..text.len() {
        if text[i] == byte {
            return i;
        }
    }
    text.len()
}

// Where the first such byte is, or the text's length.
pub fn first_place(text: &[u8], byte: u8) -> usize
    ensures place { result ≡ position_or_len (λ c. c == byte) text.now }
    ensures within { result ≤ length text.now }
{
    match place_in_wide(text, byte) {
        Ok(place) => place,
        Err(end) => end + first_place_of_rest(&text[end..], byte),
    }
}

// The same of what is left of a text, mostly less than a wide stride.
fn first_place_of_rest(text: &[u8], byte: u8) -> usize
    ensures place { result ≡ position_or_len (λ c. c == byte) text.now }
    ensures within { result ≤ length text.now }
{
    if text.len() < STRIDE {
        return first_place_of_few(text, byte);
    }
    let mut start = 0;
    while text.len() - start >= STRIDE {
        let before = count_before(text, start, byte);
        if before < STRIDE {
            return start + before;
        }
        start += STRIDE;
    }
    // The text's last stride overlaps the one before, and spares a look at each byte.
    let last = text.len() - STRIDE;
    last + count_before(text, last, byte)
}

// The part before the first such byte, and the text behind it; None where there is no such byte.
pub fn split_at_byte(text: &[u8], byte: u8) -> Option<(&[u8], &[u8])>
    ensures { MatchOption result (slice_split (λ c. c == byte) text.now ≡ text.now ∷ [])
        (λ parts. slice_split (λ c. c == byte) text.now ≡ parts.0.now
        ∷ slice_split (λ c. c == byte) parts.1.now) }
{
    let end = first_place(text, byte);
    if end == text.len() {
        return None;
    }
    let (part, others) = text.split_at(end);
    Some((part, &others[1..]))
}

// The first line, without its line feed, and the text behind it.
pub fn split_line(text: &[u8]) -> (&[u8], &[u8])
    requires { 0 < length text.now }
    ensures lines { lines text.now ≡ result.0.now ∷ lines result.1.now }
    ensures shorter { length result.1.now < length text.now }
{
    let end = first_place(text, b'\n');
    if end == text.len() {
        return (text, &[]);
    }
    let (line, others) = text.split_at(end);
    (line, &others[1..])
}
