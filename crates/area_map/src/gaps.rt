//! The least free addresses, past blocks of rows.

ghost use Rattle.std.specs.Prelude.{◌≡◌, ◌+◌, ◌*◌, ◌<◌, ◌≤◌, ◌^◌, MatchOption, drop};
ghost use Rattle.area_map.specs.Blocks.{AreBlocks, IsBlockOf, rows_of};
ghost use Rattle.area_map_rows.specs.Areas.{AreApart, HasNoneFree, IsFirstFree};
ghost use Rattle.area_map_rows.specs.Rows.{in_rows, AreRows, first_free};

use crate::blocks::{self, Block};
use area_map_rows::{Row, gaps, lookups};
use std::alloc::Allocator;

/// The least address from `start` on from which so many addresses meet no area.
pub fn free_from<A: Allocator>(
    rows: &[Row<A>],
    blocks: &[Block],
    start: u64,
    count: u64,
) -> Option<u64>
    requires some { 0 < count }
    requires apart { AreApart (in_rows rows.now) }
    requires rows { AreRows rows.now }
    requires blocks { AreBlocks blocks.now rows.now }
    ensures { MatchOption result (HasNoneFree start count (in_rows rows.now))
        (IsFirstFree start count (in_rows rows.now)) }
{
    let at = free_behind(rows, blocks, start, count);
    if at + u128::from(count) <= 1 << 64 {
        Some(at as u64)
    } else {
        None
    }
}

// From which address on, `start` or one above it, so many addresses are free; it may be too high for an address.
fn free_behind<A: Allocator>(rows: &[Row<A>], blocks: &[Block], start: u64, count: u64) -> u128
    requires apart { AreApart (in_rows rows.now) }
    requires rows { AreRows rows.now }
    requires blocks { AreBlocks blocks.now rows.now }
    ensures value { result ≡ first_free start count (in_rows rows.now) }
    ensures bound { result ≤ 2 ^ 64 }
{
    let below = lookups::rows_below(rows, start);
    // The rows that stand before it would leave the place as it is. Of its block those behind it are looked through,
    // unless the block begins with it.
    let next = blocks::number_from(below);
    let own = &rows[below..blocks::begin_of(rows, next)];
    let at = gaps::free_in_rows(own, u128::from(start), count);
    free_in_blocks(rows, blocks, next, at, count)
}

// From which place on, `start` or one above it, so many addresses are free, as far as the areas go of the rows from the
// block of this number on. Both places may be too high for an address.
fn free_in_blocks<A: Allocator>(
    rows: &[Row<A>],
    blocks: &[Block],
    from: usize,
    start: u128,
    count: u64,
) -> u128
    requires start { start ≤ 2 ^ 64 }
    requires apart { AreApart (in_rows rows.now) }
    requires rows { AreRows rows.now }
    requires blocks { AreBlocks blocks.now rows.now }
    ensures value { result ≡ first_free start count (in_rows (drop (32 * from) rows.now)) }
    ensures bound { result ≤ 2 ^ 64 }
{
    let mut at = start;
    let mut number = from;
    while number < blocks.len() && blocks[number].is_reached(at, count) {
        at = free_in_block(rows, &blocks[number], number, at, count);
        number += 1;
    }
    gaps::free_in_rows(&rows[blocks::begin_of(rows, number)..], at, count)
}

// From which place on so many addresses are free, as far as the areas go of the block of this number, which so many
// addresses from the place `at` on reach. Where no gap of the block is so wide, that is behind it.
fn free_in_block<A: Allocator>(
    rows: &[Row<A>],
    block: &Block,
    number: usize,
    at: u128,
    count: u64,
) -> u128
    requires at { at ≤ 2 ^ 64 }
    requires reached { block.now.first < at + count }
    requires apart { AreApart (in_rows rows.now) }
    requires rows { AreRows rows.now }
    requires block { IsBlockOf (rows_of number rows.now) block.now }
    ensures value { result ≡ first_free at count (in_rows (rows_of number rows.now)) }
    ensures bound { result ≤ 2 ^ 64 }
{
    if block.is_narrow(count) {
        block.behind(at)
    } else {
        gaps::free_in_rows(blocks::rows_of(rows, number), at, count)
    }
}
