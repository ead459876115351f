//! Rows of few areas become one, so that rows take little more memory than their areas.

ghost use Rattle.std.specs.Prelude.{◌≡◌, ◌+◌, ◌-◌, ◌<◌, ◌≤◌, ◌++◌, [], IsTrue, false, ℕ, nat_le};
ghost use Rattle.std.specs.Prelude.{get_or, length, set};
ghost use Rattle.std.specs.Prelude.{take, vec_len, vec_capacity};
ghost use Rattle.area_map_rows.specs.Rows.{in_rows, AreRows};
ghost use Rattle.area_map.specs.Kept.{AreJoined, AreJoinedBut};

use area_map_rows::{ROW, Row};
use std::alloc::Allocator;

/// Joins the rows from the one before this place on, up to another place, where two neighbours have few areas: so no
/// two do. Says whether it joined some.
pub fn join_between<A: Allocator>(rows: &mut Vec<Row<A>, A>, from: usize, to: usize) -> bool
    requires order { from ≤ to }
    requires rows { AreRows rows.old.items }
    requires joined { AreJoinedBut (from - 1) to rows.old.items }
    ensures areas { in_rows rows.new.items ≡ in_rows rows.old.items }
    ensures rows { AreRows rows.new.items }
    ensures joined { AreJoined rows.new.items }
    ensures len { vec_len rows.new ≤ vec_len rows.old }
    ensures capacity { vec_capacity rows.new ≡ vec_capacity rows.old }
    ensures before { take (from - 1) rows.new.items ≡ take (from - 1) rows.old.items }
    ensures none { result ≡ false → rows.new.items ≡ rows.old.items }
{
    let count = rows.len();
    let low = from.saturating_sub(1);
    let mut index = to;
    while low < index {
        index -= 1;
        join(rows, index);
    }
    rows.len() < count
}

// Joins the row at this place with the one behind it where both together fill half a row at most.
fn join<A: Allocator>(rows: &mut Vec<Row<A>, A>, index: usize)
    requires { AreRows rows.old.items }
    ensures areas { in_rows rows.new.items ≡ in_rows rows.old.items }
    ensures rows { AreRows rows.new.items }
    ensures len { vec_len rows.new ≤ vec_len rows.old }
    ensures capacity { vec_capacity rows.new ≡ vec_capacity rows.old }
    ensures before { take index rows.new.items ≡ take index rows.old.items }
    ensures none { vec_len rows.old ≤ vec_len rows.new → rows.new.items ≡ rows.old.items }
    ensures joined { (low : ℕ) → low ≤ index → AreJoinedBut low (index + 1) rows.old.items
        → AreJoinedBut low index rows.new.items }
{
    if !are_few(rows, index) {
        return;
    }
    let next = rows.remove(index + 1);
    take_over(rows, index, next);
}

// Whether the row at this place and the one behind it together fill half a row at most.
fn are_few<A: Allocator>(rows: &[Row<A>], index: usize) -> bool
    ensures two { IsTrue result → index + 1 < length rows.now }
    ensures few { IsTrue result → length (get_or rows.now index []) + length (get_or rows.now (index + 1) []) ≤ 16 }
    ensures many { result ≡ false → index + 1 < length rows.now
        → 16 < length (get_or rows.now index []) + length (get_or rows.now (index + 1) []) }
{
    let count = rows.len();
    if count < 2 || index > count - 2 {
        return false;
    }
    fill_half(&rows[index], &rows[index + 1])
}

// Whether the two fill half a row at most.
fn fill_half<A: Allocator>(row: &Row<A>, next: &Row<A>) -> bool
    ensures { result ≡ nat_le (length row.now + length next.now) 16 }
{
    let (first, second) = (row.len(), next.len());
    first <= ROW / 2 && second <= ROW / 2 - first
}

// The areas of the other row come behind those of the row at this place.
fn take_over<A: Allocator>(rows: &mut [Row<A>], index: usize, next: Row<A>)
    requires bound { index < length rows.old }
    requires few { length (get_or rows.old index []) + length next ≤ 32 }
    ensures { rows.new ≡ set rows.old index (get_or rows.old index [] ++ next) }
{
    let row = &mut rows[index];
    row.join(next);
}
