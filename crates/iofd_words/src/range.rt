//! Ranges of addresses, as the interface has them.

ghost use Rattle.std.specs.Prelude.{◌≡◌, ◌<◌, IfOk, OnErr, length};

use crate::lists::copied;
use crate::refusal::NoMemory;
use std::alloc::{Allocator, Global};
use std::marker::Model;

/// The addresses from `start` to `last` (uapi header, `struct iommu_iova_range`). It is what a caller has written, and
/// so it may begin above its last address.
#[derive(Clone, Copy)]
pub struct IovaRange {
    pub start: u64,
    pub last: u64,
}

impl Model for IovaRange {
    ghost use Rattle.iofd_words.specs.Bounds.{Bounds};

    ghost Value = { Bounds };

    ghost view = { λ range. record { first = range.start; last = range.last } };

    ghost inverse = { λ bounds. record { start = bounds.first; last = bounds.last } };
}

/// Ranges of addresses, in the order given.
pub struct RangeList<A: Allocator = Global> {
    ranges: Vec<IovaRange, A>,
}

// Written out, so that it is proved here alone and not in each crate that drops one.
impl<A: Allocator> Drop for RangeList<A> {
    fn drop(self) {
        let RangeList { ranges: _ } = self;
    }
}

impl<A: Allocator> Model for RangeList<A> {
    ghost use Rattle.std.specs.Prelude.{List};
    ghost use Rattle.iofd_words.specs.Bounds.{Bounds};

    ghost Value = { List Bounds };

    ghost view = { λ list. list.ranges.items };
}

impl<A: Allocator> RangeList<A> {
    /// The list of these ranges. It takes no memory.
    pub fn new(ranges: Vec<IovaRange, A>) -> RangeList<A>
        ensures { result ≡ ranges.items }
    {
        RangeList { ranges }
    }

    /// The ranges, in order.
    pub fn as_slice(&self) -> &[IovaRange]
        ensures { result.now ≡ self.now }
    {
        self.ranges.as_slice()
    }

    /// The same ranges in new memory. It fails only where memory does; no ranges need none.
    pub fn copied<B: Allocator>(&self, alloc: B) -> Result<RangeList<B>, NoMemory>
        ensures ok { IfOk result (λ ranges. ranges ≡ self.now) }
        ensures memory { OnErr result (0 < length self.now) }
    {
        Ok(RangeList {
            ranges: copied(alloc, &self.ranges)?,
        })
    }

    /// The ranges as they were handed in. It takes no memory.
    pub fn into_vec(self) -> Vec<IovaRange, A>
        ensures { result.items ≡ self }
    {
        let RangeList { ranges } = self;
        ranges
    }
}
