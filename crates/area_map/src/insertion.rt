//! Adding an area.

ghost use Rattle.std.specs.Prelude.{◌≡◌, ◌+◌, ◌-◌, ◌*◌, ◌<◌, ◌≤◌, [], ◌∷◌, true};
ghost use Rattle.std.specs.Prelude.{false, IsSome, None, OnOk, OnErr};
ghost use Rattle.std.specs.Prelude.{drop, get_or, length, min, nat_le, nat_lt, set, take, vec_len, vec_capacity};
ghost use Rattle.std.specs.List.{prefix_len};
ghost use Rattle.area_map_rows.specs.Areas.{AreApart, with_area};
ghost use Rattle.area_map_rows.specs.Rows.{in_rows, AreRows, end_of};
ghost use Rattle.area_map.specs.Blocks.{AreBlocks, IsSameBut};
ghost use Rattle.area_map.specs.Kept.{AreJoined, IsSpare, room_of, takes_row};
ghost use Rattle.iofd_words.specs.Areas.{areas_meet};

use crate::blocks::{self, Blocks};
use area_map_rows::{ROW, Row};
use iofd_words::{Area, NoMemory};
use std::alloc::Allocator;

/// The most areas that an address space may have.
pub const MOST_AREAS: usize = 65_535;

/// Takes memory for one more row, if there is no spare one.
pub fn reserve<A: Allocator + Copy>(
    rows: &mut Vec<Row<A>, A>,
    blocks: &mut Blocks<A>,
    spare: &mut Option<Row<A>>,
) -> Result<(), NoMemory>
    requires spare { IsSpare spare.old (vec_len rows.old) (vec_capacity rows.old) }
    requires blocks { AreBlocks blocks.old rows.old.items }
    requires places { vec_len rows.old + room_of spare.old ≤ 32 * length blocks.old }
    ensures rows { rows.new.items ≡ rows.old.items }
    ensures spare { IsSpare spare.new (vec_len rows.new) (vec_capacity rows.new) }
    ensures blocks { AreBlocks blocks.new rows.old.items }
    ensures places { vec_len rows.new + room_of spare.new ≤ 32 * length blocks.new }
    ensures ok { OnOk result (IsSome spare.new) }
    ensures err { OnErr result (spare.old ≡ None) }
    ensures unchanged { OnErr result (spare.new ≡ None) }
{
    if spare.is_some() {
        return Ok(());
    }
    let alloc = *rows.allocator();
    rows.reserve(1)?;
    blocks.reserve(alloc, rows.len())?;
    *spare = Some(Row::new(alloc)?);
    Ok(())
}

/// The row to which an area belongs that begins behind so many rows and meets no other area: the next row, or else the
/// last.
pub fn row_for<A: Allocator>(rows: &[Row<A>], below: usize) -> usize
    ensures { result ≡ min below (length rows.now - 1) }
{
    below.min(rows.len().saturating_sub(1))
}

/// Whether one more area in this row takes a row more.
pub fn takes_row<A: Allocator>(rows: &[Row<A>], index: usize) -> bool
    ensures { result ≡ takes_row rows.now index }
{
    match rows.get(index) {
        Some(row) => row.len() >= ROW - 1,
        None => true,
    }
}

/// Takes memory for one more row, if one more area in this row takes one and there is no spare one.
pub fn prepare<A: Allocator + Copy>(
    rows: &mut Vec<Row<A>, A>,
    blocks: &mut Blocks<A>,
    spare: &mut Option<Row<A>>,
    index: usize,
) -> Result<(), NoMemory>
    requires spare { IsSpare spare.old (vec_len rows.old) (vec_capacity rows.old) }
    requires blocks { AreBlocks blocks.old rows.old.items }
    requires places { vec_len rows.old + room_of spare.old ≤ 32 * length blocks.old }
    ensures rows { rows.new.items ≡ rows.old.items }
    ensures spare { IsSpare spare.new (vec_len rows.new) (vec_capacity rows.new) }
    ensures blocks { AreBlocks blocks.new rows.old.items }
    ensures places { vec_len rows.new + room_of spare.new ≤ 32 * length blocks.new }
    ensures ok { OnOk result (takes_row rows.old.items index ≡ true → IsSome spare.new) }
    ensures err { OnErr result (spare.old ≡ None) }
    ensures unchanged { OnErr result (spare.new ≡ None) }
{
    if takes_row(rows, index) {
        reserve(rows, blocks, spare)
    } else {
        Ok(())
    }
}

/// Adds the area to this row, to which it belongs. A row that is full then becomes two.
pub fn add<A: Allocator>(
    rows: &mut Vec<Row<A>, A>,
    blocks: &mut Blocks<A>,
    spare: &mut Option<Row<A>>,
    index: usize,
    area: Area,
)
    requires apart { AreApart (in_rows rows.old.items) }
    requires rows { AreRows rows.old.items }
    requires joined { AreJoined rows.old.items }
    requires blocks { AreBlocks blocks.old rows.old.items }
    requires spare { IsSpare spare.old (vec_len rows.old) (vec_capacity rows.old) }
    requires room { takes_row rows.old.items index ≡ true → IsSome spare.old }
    requires place { index ≡ min (prefix_len (λ row. nat_lt (end_of row) area.span.first) rows.old.items)
        (length rows.old.items - 1) }
    requires alone { areas_meet area.span (in_rows rows.old.items) ≡ false }
    ensures areas { in_rows rows.new.items ≡ with_area area (in_rows rows.old.items) }
    ensures rows { AreRows rows.new.items }
    ensures joined { AreJoined rows.new.items }
    ensures spare { IsSpare spare.new (vec_len rows.new) (vec_capacity rows.new) }
    ensures blocks { AreBlocks blocks.new rows.new.items }
    ensures places { vec_len rows.new + room_of spare.new ≡ vec_len rows.old + room_of spare.old }
    ensures blocks_len { length blocks.new ≡ length blocks.old }
{
    let parted = blocks::widest_at(rows, index);
    let to = add_area(rows, spare, index, area);
    blocks.renew(rows, index, to, parted);
}

// Adds an area to the rows, and not yet to what the blocks tell of them. Says up to which row rows may have changed.
fn add_area<A: Allocator>(
    rows: &mut Vec<Row<A>, A>,
    spare: &mut Option<Row<A>>,
    index: usize,
    area: Area,
) -> usize
    requires apart { AreApart (in_rows rows.old.items) }
    requires rows { AreRows rows.old.items }
    requires joined { AreJoined rows.old.items }
    requires spare { IsSpare spare.old (vec_len rows.old) (vec_capacity rows.old) }
    requires room { takes_row rows.old.items index ≡ true → IsSome spare.old }
    requires place { index ≡ min (prefix_len (λ row. nat_lt (end_of row) area.span.first) rows.old.items)
        (length rows.old.items - 1) }
    requires alone { areas_meet area.span (in_rows rows.old.items) ≡ false }
    ensures areas { in_rows rows.new.items ≡ with_area area (in_rows rows.old.items) }
    ensures rows { AreRows rows.new.items }
    ensures joined { AreJoined rows.new.items }
    ensures spare { IsSpare spare.new (vec_len rows.new) (vec_capacity rows.new) }
    ensures places { vec_len rows.new + room_of spare.new ≡ vec_len rows.old + room_of spare.old }
    ensures others { IsSameBut index result rows.old.items rows.new.items }
{
    if rows.is_empty() {
        add_first(rows, spare, area);
        return 1;
    }
    if add_to(rows, index, area) {
        split(rows, spare, index);
        rows.len()
    } else {
        index + 1
    }
}

// Adds the first area of all in the spare row.
fn add_first<A: Allocator>(rows: &mut Vec<Row<A>, A>, spare: &mut Option<Row<A>>, area: Area)
    requires none { rows.old.items ≡ [] }
    requires spare { IsSpare spare.old (vec_len rows.old) (vec_capacity rows.old) }
    requires some { IsSome spare.old }
    ensures rows { rows.new.items ≡ (area ∷ []) ∷ [] }
    ensures spare { spare.new ≡ None }
{
    if let Some(mut row) = spare.take() {
        row.add(area);
        rows.push(row).unwrap();
    }
}

// Adds the area in this row, and says whether it is full now.
fn add_to<A: Allocator>(rows: &mut [Row<A>], index: usize, area: Area) -> bool
    requires bound { index < length rows.old }
    requires apart { AreApart (get_or rows.old index []) }
    requires few { length (get_or rows.old index []) < 32 }
    requires alone { areas_meet area.span (get_or rows.old index []) ≡ false }
    ensures rows { rows.new ≡ set rows.old index (with_area area (get_or rows.old index [])) }
    ensures full { result ≡ nat_le 32 (length (get_or rows.old index []) + 1) }
{
    let row = &mut rows[index];
    row.add(area);
    row.len() >= ROW
}

// How many areas a full row keeps. The last one keeps all but one, since areas often come by rising start.
fn split_place(index: usize, count: usize) -> usize
    requires { index < count }
    ensures some { 0 < result }
    ensures few { result < 32 }
    ensures half { 16 ≤ result }
    ensures middle { index + 1 < count → result ≡ 16 }
{
    if index + 1 < count { ROW / 2 } else { ROW - 1 }
}

// Makes two rows of this one.
fn split<A: Allocator>(rows: &mut Vec<Row<A>, A>, spare: &mut Option<Row<A>>, index: usize)
    requires bound { index < length rows.old.items }
    requires full { length (get_or rows.old.items index []) ≡ 32 }
    requires before { AreRows (take index rows.old.items) }
    requires behind { AreRows (drop (index + 1) rows.old.items) }
    requires joined { AreJoined rows.old.items }
    requires spare { IsSpare spare.old (vec_len rows.old) (vec_capacity rows.old) }
    requires some { IsSome spare.old }
    ensures areas { in_rows rows.new.items ≡ in_rows rows.old.items }
    ensures rows { AreRows rows.new.items }
    ensures joined { AreJoined rows.new.items }
    ensures spare { spare.new ≡ None }
    ensures len { vec_len rows.new ≡ vec_len rows.old + 1 }
    ensures before { take index rows.new.items ≡ take index rows.old.items }
{
    let at = split_place(index, rows.len());
    if let Some(mut upper) = spare.take() {
        cut(rows, index, at, &mut upper);
        rows.insert(index + 1, upper).unwrap();
    }
}

// The areas of this row from the place on go to the other row.
fn cut<A: Allocator>(rows: &mut [Row<A>], index: usize, at: usize, upper: &mut Row<A>)
    requires bound { index < length rows.old }
    requires few { length (get_or rows.old index []) ≤ 32 }
    requires at { at ≤ length (get_or rows.old index []) }
    requires upper { upper.old ≡ [] }
    ensures rows { rows.new ≡ set rows.old index (take at (get_or rows.old index [])) }
    ensures upper { upper.new ≡ drop at (get_or rows.old index []) }
{
    let row = &mut rows[index];
    row.split(at, upper);
}
