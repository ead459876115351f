//! What areas amount to.

ghost use Rattle.std.specs.Prelude.{◌≡◌, ◌<◌, ◌≤◌, ◌^◌, IfOk, OnErr, length, map};
ghost use Rattle.iofd_words.specs.Span.{size_of};
ghost use Rattle.area_map_rows.specs.Areas.{bytes_of};
ghost use Rattle.iofd_words.specs.Areas.{most_areas, most_tries};

use crate::iter::Iter;
use crate::marking;
use iofd_words::{NoMemory, Span};
use std::alloc::Allocator;

/// How many addresses the areas have together. The number may be above 2^64 - 1.
pub fn bytes_of<A: Allocator>(areas: Iter<'_, A>) -> u128
    requires { length areas ≤ most_areas }
    ensures { result ≡ bytes_of areas.entry }
{
    let mut bytes: u128 = 0;
    for area in areas {
        bytes += size_of(area.span);
    }
    bytes
}

// How many addresses the span has.
fn size_of(span: Span) -> u128
    ensures value { result ≡ size_of span }
    ensures bound { result ≤ 2 ^ 64 }
{
    u128::from(span.last() - span.first()) + 1
}

/// The spans of the areas, of which there are `count`.
pub fn spans<A: Allocator, B: Allocator>(
    alloc: B,
    areas: Iter<'_, A>,
    count: usize,
) -> Result<Vec<Span, B>, NoMemory>
    requires { count ≡ length areas }
    ensures ok { IfOk result (λ spans. spans.items ≡ map (λ area. area.span) areas.entry) }
    ensures memory { OnErr result (0 < length areas.entry) }
{
    let mut spans = Vec::with_capacity(alloc, count)?;
    for area in areas {
        spans.push(area.span)?;
    }
    Ok(spans)
}

/// The most tries that one of the areas has seen.
pub fn most_tries<A: Allocator>(areas: Iter<'_, A>) -> u8
    ensures { result ≡ most_tries areas.entry }
{
    let mut most = 0;
    for area in areas {
        most = most.max(marking::tries_of(&area.phase));
    }
    most
}
