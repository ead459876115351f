//! Lists of a head, each behind its number.

ghost use Rattle.std.specs.Prelude.{◌≡◌, ◌*◌, ◌≤◌, length};
ghost use Rattle.journal_audit_bytes.specs.HeadReading.{HasBytesFor, TakesLeast, counted_at, many_at};
ghost use Rattle.journal_audit_bytes.specs.Reading.{Gives, OnMemory};

use crate::numbers::u16_at;
use crate::spelled::ReadError;
use crate::version::Version;
use std::alloc::Allocator;

/// What a list of a head consists of.
pub trait Element<A: Allocator>: Sized + Drop {
    ghost use Rattle.std.specs.Prelude.{◌≡◌, Option, List, ℕ};
    ghost use Rattle.journal_audit_bytes.specs.declared.version.Version.{Version};

    /// What stands at the front of these bytes of a journal of this version, and the bytes after it.
    ghost at: { Version → List ℕ → Option (Self × List ℕ) };

    /// How many bytes it has at least.
    ghost least: { ℕ };

    /// Reads one from the front. What owns memory takes it of this allocator.
    fn read(alloc: A, version: Version, bytes: &[u8]) -> Result<(Self, &[u8]), ReadError>
        ensures { Gives (λ x. (x.0, x.1.now)) result (at version bytes.now) };

    /// How many bytes it has at least.
    fn least() -> usize
        ensures { result ≡ least };
}

// So many of them. Where the bytes are too few for them, it takes no memory.
fn many_at<A: Allocator + Copy, T: Element<A>>(
    alloc: A,
    version: Version,
    count: usize,
    bytes: &[u8],
) -> Result<(Vec<T, A>, &[u8]), ReadError>
    requires { TakesLeast (T.at version) T.least }
    ensures read { Gives (λ x. (x.0.items, x.1.now)) result (many_at (T.at version) count bytes.now) }
    ensures memory { OnMemory result (count * T.least ≤ length bytes.now) }
{
    if bytes.len() / T::least() < count {
        return Err(ReadError::Torn);
    }
    let mut elements = Vec::with_capacity(alloc, count)?;
    let mut rest = bytes;
    for _ in 0..count {
        let (element, after) = T::read(alloc, version, rest)?;
        elements.push(element)?;
        rest = after;
    }
    Ok((elements, rest))
}

/// As many as the number at the front says, and the bytes after them. Where the bytes are too few for them, it takes no
/// memory.
#[tactic(auto, unfolding(crate::specs::HeadReading::counted_at))]
pub fn counted_at<A: Allocator + Copy, T: Element<A>>(
    alloc: A,
    version: Version,
    bytes: &[u8],
) -> Result<(Vec<T, A>, &[u8]), ReadError>
    requires { TakesLeast (T.at version) T.least }
    ensures read { Gives (λ x. (x.0.items, x.1.now)) result (counted_at (T.at version) bytes.now) }
    ensures memory { OnMemory result (HasBytesFor T.least bytes.now) }
{
    let Some((count, rest)) = u16_at(bytes) else {
        return Err(ReadError::Torn);
    };
    many_at(alloc, version, usize::from(count), rest)
}
