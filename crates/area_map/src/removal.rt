//! Taking areas away.

ghost use Rattle.std.specs.Prelude.{◌≡◌, ◌==◌, ◌+◌, ◌≤◌, false, length, map};
ghost use Rattle.std.specs.Prelude.{not, vec_len, vec_capacity};
ghost use Rattle.std.specs.List.{list_any, filter};
ghost use Rattle.area_map_rows.specs.Areas.{AreKept, areas_outside};
ghost use Rattle.area_map_rows.specs.Rows.{in_rows, AreRows};
ghost use Rattle.area_map.specs.Blocks.{AreBlocks, IsSameBut};
ghost use Rattle.area_map.specs.Kept.{AreJoined, EndsAlike};

use crate::blocks::Blocks;
use crate::joining;
use area_map_rows::{Row, changes};
use iofd_words::Span;
use std::alloc::Allocator;

/// Takes away the areas that lie in the span, and says how many they were. A row that has none left goes.
pub fn remove<A: Allocator>(rows: &mut Vec<Row<A>, A>, blocks: &mut Blocks<A>, span: Span) -> usize
    requires kept { AreKept (in_rows rows.old.items) }
    requires rows { AreRows rows.old.items }
    requires joined { AreJoined rows.old.items }
    requires blocks { AreBlocks blocks.old rows.old.items }
    ensures areas { in_rows rows.new.items ≡ areas_outside span (in_rows rows.old.items) }
    ensures rows { AreRows rows.new.items }
    ensures joined { AreJoined rows.new.items }
    ensures count { result + length (in_rows rows.new.items) ≡ length (in_rows rows.old.items) }
    ensures len { vec_len rows.new ≤ vec_len rows.old }
    ensures capacity { vec_capacity rows.new ≡ vec_capacity rows.old }
    ensures blocks { AreBlocks blocks.new rows.new.items }
    ensures blocks_len { length blocks.new ≡ length blocks.old }
{
    let (from, to, removed) = remove_and_join(rows, span);
    // No gap becomes narrower, so none was parted.
    blocks.renew(rows, from, to, 0);
    removed
}

// Takes away the areas that lie in the span, and joins rows that have few left. Says from which row on and up to which
// rows may have changed, and how many areas went.
fn remove_and_join<A: Allocator>(rows: &mut Vec<Row<A>, A>, span: Span) -> (usize, usize, usize)
    requires kept { AreKept (in_rows rows.old.items) }
    requires rows { AreRows rows.old.items }
    requires joined { AreJoined rows.old.items }
    ensures areas { in_rows rows.new.items ≡ areas_outside span (in_rows rows.old.items) }
    ensures rows { AreRows rows.new.items }
    ensures joined { AreJoined rows.new.items }
    ensures count { result.2 + length (in_rows rows.new.items) ≡ length (in_rows rows.old.items) }
    ensures len { vec_len rows.new ≤ vec_len rows.old }
    ensures capacity { vec_capacity rows.new ≡ vec_capacity rows.old }
    ensures others { IsSameBut result.0 result.1 rows.old.items rows.new.items }
{
    let count = rows.len();
    let (from, to, removed, end) = remove_areas(rows, span);
    if joining::join_between(rows, from, end) {
        (from.saturating_sub(1), count, removed)
    } else {
        (from, to, removed)
    }
}

// Takes away the areas that lie in the span. Says from which row on and up to which rows may have changed, how many
// areas went, and from which row on they are as they were, if in other places.
fn remove_areas<A: Allocator>(rows: &mut Vec<Row<A>, A>, span: Span) -> (usize, usize, usize, usize)
    requires kept { AreKept (in_rows rows.old.items) }
    requires rows { AreRows rows.old.items }
    ensures areas { in_rows rows.new.items ≡ areas_outside span (in_rows rows.old.items) }
    ensures rows { AreRows rows.new.items }
    ensures count { result.2 + length (in_rows rows.new.items) ≡ length (in_rows rows.old.items) }
    ensures len { vec_len rows.new ≤ vec_len rows.old }
    ensures capacity { vec_capacity rows.new ≡ vec_capacity rows.old }
    ensures others { IsSameBut result.0 result.1 rows.old.items rows.new.items }
    ensures rest { EndsAlike result.3 rows.old.items rows.new.items }
    ensures order { result.0 ≤ result.3 }
{
    let count = rows.len();
    let (from, to, removed, empty) = remove_within(rows, span);
    if !empty {
        return (from, to, removed, to);
    }
    drop_empty(rows);
    (from, count, removed, rows.len() - (count - to))
}

// Takes away the areas that lie in the span. Says from which row on and up to which rows may have changed, how many
// areas went, and whether some row has none left.
fn remove_within<A: Allocator>(rows: &mut [Row<A>], span: Span) -> (usize, usize, usize, bool)
    requires kept { AreKept (in_rows rows.old) }
    requires rows { AreRows rows.old }
    ensures rows { rows.new ≡ map (areas_outside span) rows.old }
    ensures count { result.2 + length (in_rows rows.new) ≡ length (in_rows rows.old) }
    ensures empty { result.3 ≡ false → AreRows rows.new }
    ensures others { IsSameBut result.0 result.1 rows.old rows.new }
    ensures order { result.0 ≤ result.1 }
    ensures bound { result.1 ≤ length rows.old }
{
    let (from, to) = changes::meeting(rows, span);
    let part = &mut rows[from..to];
    let removed = remove_each(part, span);
    (from, to, removed, has_empty(part))
}

// Takes the areas that lie in the span out of each row, and says how many they were.
fn remove_each<A: Allocator>(rows: &mut [Row<A>], span: Span) -> usize
    requires kept { AreKept (in_rows rows.old) }
    requires rows { AreRows rows.old }
    ensures areas { rows.new ≡ map (areas_outside span) rows.old }
    ensures count { result + length (in_rows rows.new) ≡ length (in_rows rows.old) }
{
    let mut removed = 0;
    for row in rows.iter_mut() {
        removed += row.remove(span);
    }
    removed
}

// Whether some row has no areas.
fn has_empty<A: Allocator>(rows: &[Row<A>]) -> bool
    ensures { result ≡ list_any (λ row. length row == 0) rows.now }
{
    rows.iter().any(|row| row.len() == 0)
}

// Rows without areas go.
fn drop_empty<A: Allocator>(rows: &mut Vec<Row<A>, A>)
    ensures rows { rows.new.items ≡ filter (λ row. not (length row == 0)) rows.old.items }
    ensures len { vec_len rows.new ≤ vec_len rows.old }
    ensures capacity { vec_capacity rows.new ≡ vec_capacity rows.old }
{
    rows.retain(|row| row.len() != 0);
}
