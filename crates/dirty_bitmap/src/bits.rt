//! Words of 64 bits, and a map of them by number: one that isn't there has no bit.

ghost use Rattle.std.specs.Prelude.{◌≡◌, ◌<◌, ◌+◌, ◌-◌, ◌==◌, ℕ, if◌then◌else◌, nat_lt, OnOk, OnErr};
ghost use Rattle.std.specs.Int.RustNames.{bit_and, bit_or};
ghost use Rattle.dirty_bitmap.specs.Marks.{has_bit, word_at};

use iofd_words::NoMemory;
use std::alloc::Allocator;
use std::collections::HashMap;
use std::hash::{BuildHasherDefault, FoldHasher};

/// Words of 64 bits by their numbers.
pub(crate) type WordMap<A> = HashMap<u64, u64, BuildHasherDefault<FoldHasher>, A>;

/// The word whose lowest bits are set, so many of them, or all where it has fewer.
pub(crate) fn ones(many: u64) -> u64
    ensures { (k : ℕ) → k < 64 → has_bit result k ≡ nat_lt k many }
{
    if many >= 64 {
        return u64::MAX;
    }
    (1 << many) - 1
}

/// The word of this number.
pub(crate) fn word_in<A: Allocator>(words: &WordMap<A>, number: u64) -> u64
    ensures { result ≡ word_at words.now.entries number }
{
    words.get(&number).copied().unwrap_or(0)
}

/// 64 bits of two words, of which the second is behind the first, from this bit of the first one on.
pub(crate) fn joined(low: u64, high: u64, shift: u64) -> u64
    requires { shift < 64 }
    ensures { (k : ℕ) → k < 64 → has_bit result k
        ≡ (if nat_lt (shift + k) 64 then has_bit low (shift + k) else has_bit high (shift + k - 64)) }
{
    if shift == 0 {
        return low;
    }
    low >> shift | high << (64 - shift)
}

/// Sets these bits in the word, which has some of them then. Its only error is want of memory; it comes only where the
/// word had no bit, and changes nothing.
pub(crate) fn add_bits<A: Allocator + Copy>(
    words: &mut WordMap<A>,
    number: u64,
    bits: u64,
) -> Result<(), NoMemory>
    ensures words { OnOk result ((other : ℕ) → word_at words.new.entries other
        ≡ (if number == other then bit_or (word_at words.old.entries other) bits
        else word_at words.old.entries other)) }
    ensures memory { OnErr result (word_at words.old.entries number ≡ 0) }
    ensures err { OnErr result (words.new.entries ≡ words.old.entries) }
{
    if let Some(word) = words.get_mut(&number) {
        *word |= bits;
        return Ok(());
    }
    match words.insert(number, bits) {
        Ok(_) => Ok(()),
        Err(_) => Err(NoMemory),
    }
}

/// Leaves of the word's bits just these. It takes no memory: a word of which some are left stays in its place, and one
/// of which none is left goes.
pub(crate) fn keep_bits<A: Allocator + Copy>(words: &mut WordMap<A>, number: u64, bits: u64)
    ensures { (other : ℕ) → word_at words.new.entries other
        ≡ (if number == other then bit_and (word_at words.old.entries other) bits
        else word_at words.old.entries other) }
{
    let Some(word) = words.get_mut(&number) else {
        return;
    };
    *word &= bits;
    if *word == 0 {
        let _ = words.remove(&number);
    }
}
