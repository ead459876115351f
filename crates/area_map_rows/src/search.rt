//! The search for a row by where rows end. Three rows are looked at in a step, at once, and no jump depends on what is
//! found there: a processor can't foretell it, and a wrong guess costs more than two rows that weren't needed.

ghost use Rattle.std.specs.Prelude.{◌+◌, ◌*◌, ◌<◌, ◌≤◌, length, nat_lt};
ghost use Rattle.std.specs.List.{prefix_len};
ghost use Rattle.area_map_rows.specs.Areas.{AreApart};
ghost use Rattle.area_map_rows.specs.Rows.{in_rows, AreRows, end_of};

use crate::row::Row;
use std::alloc::Allocator;

/// So many rows of which each ends below the address that at most three more do.
pub fn rows_passed<A: Allocator>(rows: &[Row<A>], address: u64) -> usize
    requires apart { AreApart (in_rows rows.now) }
    requires rows { AreRows rows.now }
    ensures below { result ≤ prefix_len (λ row. nat_lt (end_of row) address) rows.now }
    ensures bound { result ≤ length rows.now }
{
    let mut place = 0;
    let mut left = rows.len();
    while left > 3 {
        let part = left / 4;
        place += part * parts_below(rows, place, part, address);
        left -= 3 * part;
    }
    place
}

// How many of the next three parts of the rows end below the address.
fn parts_below<A: Allocator>(rows: &[Row<A>], place: usize, part: usize, address: u64) -> usize
    requires apart { AreApart (in_rows rows.now) }
    requires rows { AreRows rows.now }
    requires some { 0 < part }
    requires bound { place + 3 * part ≤ length rows.now }
    requires passed { place ≤ prefix_len (λ row. nat_lt (end_of row) address) rows.now }
    ensures most { part * result ≤ part * 3 }
    ensures below { place + part * result ≤ prefix_len (λ row. nat_lt (end_of row) address) rows.now }
{
    ends_below(rows, place + part - 1, address)
        + ends_below(rows, place + 2 * part - 1, address)
        + ends_below(rows, place + 3 * part - 1, address)
}

// 1 if the row at the place ends below the address, else 0.
fn ends_below<A: Allocator>(rows: &[Row<A>], place: usize, address: u64) -> usize
    requires apart { AreApart (in_rows rows.now) }
    requires rows { AreRows rows.now }
    requires bound { place < length rows.now }
    ensures most { result ≤ 1 }
    ensures below { 0 < result → place < prefix_len (λ row. nat_lt (end_of row) address) rows.now }
{
    usize::from(rows[place].end() < address)
}
