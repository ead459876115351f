//! The entries behind a structure, read and written.

ghost use Rattle.std.specs.Prelude.{◌≡◌, ◌+◌, ◌*◌, ◌^◌, ◌<◌, ◌≤◌, ◌++◌, length, drop};
ghost use Rattle.std.specs.Prelude.{IfOk, OnOk, OnErr};
ghost use Rattle.ioctl_codec.specs.Entries.{AreAddresses, entries_at, entries_bytes, entry_at, entry_bytes};

use crate::number::u64_at;
use iofd_words::{IovaRange, NoMemory, Span};
use std::alloc::Allocator;

// The entry at the front, and the bytes after it.
#[tactic(auto, unfolding(crate::specs::Entries::entry_at))]
fn entry_at(bytes: &[u8]) -> (IovaRange, &[u8])
    requires { 16 ≤ length bytes.now }
    ensures value { result.0 ≡ entry_at bytes.now }
    ensures rest { result.1.now ≡ drop 16 bytes.now }
{
    let (start, bytes) = u64_at(bytes);
    let (last, bytes) = u64_at(bytes);
    (IovaRange { start, last }, bytes)
}

// The entries that the bytes are, in memory of this allocator. The error comes only where there are some and their
// memory was refused.
pub fn read_entries<A: Allocator>(
    alloc: A,
    count: u32,
    bytes: &[u8],
) -> Result<Vec<IovaRange, A>, NoMemory>
    requires { length bytes.now ≡ 16 * count }
    ensures entries { IfOk result (λ entries. entries.items ≡ entries_at count bytes.now) }
    ensures memory { OnErr result (0 < count) }
{
    let mut entries = Vec::with_capacity(alloc, count as usize)?;
    let mut rest = bytes;
    for _index in 0..count {
        let (entry, after) = entry_at(rest);
        entries.push(entry)?;
        rest = after;
    }
    Ok(entries)
}

// Appends an entry.
#[tactic(auto, unfolding(crate::specs::Entries::entry_bytes))]
fn put_entry<A: Allocator>(out: &mut Vec<u8, A>, start: u64, last: u64) -> Result<(), NoMemory>
    ensures bytes { OnOk result
        (out.new.items ≡ out.old.items ++ entry_bytes (record { first = start; last = last })) }
    ensures start { start < 2 ^ 64 }
    ensures last { last < 2 ^ 64 }
{
    out.extend_from_slice(&start.to_le_bytes())?;
    out.extend_from_slice(&last.to_le_bytes())?;
    Ok(())
}

// Appends the ranges, in order.
pub fn put_ranges<A: Allocator>(out: &mut Vec<u8, A>, ranges: &[IovaRange]) -> Result<(), NoMemory>
    ensures bytes { OnOk result (out.new.items ≡ out.old.items ++ entries_bytes ranges.now) }
    ensures fits { OnOk result (AreAddresses ranges.now) }
{
    for range in ranges {
        put_entry(out, range.start, range.last)?;
    }
    Ok(())
}

// Appends the spans, in order.
pub fn put_spans<A: Allocator>(out: &mut Vec<u8, A>, spans: &[Span]) -> Result<(), NoMemory>
    ensures { OnOk result (out.new.items ≡ out.old.items ++ entries_bytes spans.now) }
{
    for span in spans {
        put_entry(out, span.first(), span.last())?;
    }
    Ok(())
}
