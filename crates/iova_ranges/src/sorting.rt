//! Ranges in the order of their starts.

ghost use Rattle.std.specs.Prelude.{◌≡◌, ◌<◌, IfOk, OnErr, length};
ghost use Rattle.std.specs.List.Sorted.{IsNonDecreasingBy, IsPermutation};

use iofd_words::{IovaRange, NoMemory};
use std::alloc::Allocator;

/// The ranges by rising start, in new memory. It fails only where memory does; no ranges need none.
pub fn by_start<A: Allocator>(alloc: A, ranges: &[IovaRange]) -> Result<Vec<IovaRange, A>, NoMemory>
    ensures same { IfOk result (λ sorted. IsPermutation ranges.now sorted.items) }
    ensures rising { IfOk result (λ sorted. IsNonDecreasingBy (λ range. range.first) sorted.items) }
    ensures memory { OnErr result (0 < length ranges.now) }
{
    let mut sorted = copied(alloc, ranges)?;
    sorted.sort_unstable_by_key(|range| range.start);
    Ok(sorted)
}

// The ranges as they stand, in new memory.
fn copied<A: Allocator>(alloc: A, ranges: &[IovaRange]) -> Result<Vec<IovaRange, A>, NoMemory>
    ensures same { IfOk result (λ copy. copy.items ≡ ranges.now) }
    ensures memory { OnErr result (0 < length ranges.now) }
{
    let mut copy = Vec::with_capacity(alloc, ranges.len())?;
    copy.extend_from_slice(ranges)?;
    Ok(copy)
}
