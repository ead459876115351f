//! A row of areas: so many as one insertion or removal moves at most.

ghost use Rattle.std.specs.Prelude.{◌≡◌, ◌+◌, ◌<◌, ◌≤◌, ◌^◌, ◌++◌, false, []};
ghost use Rattle.std.specs.Prelude.{IfOk, length, map, take, drop};
ghost use Rattle.std.specs.Prelude.{vec_capacity};
ghost use Rattle.area_map_rows.specs.Areas.{AreApart, with_area, changed, areas_outside};
ghost use Rattle.area_map_rows.specs.Rows.{end_of, first_free, first_of, has_leaving, starts_from, widest_of, IsCutAt};
ghost use Rattle.iofd_words.specs.Areas.{areas_meet};

use crate::marking::Change;
use crate::{gaps, lookups, marking};
use iofd_words::{Area, NoMemory, Span};
use std::alloc::{Allocator, Global};
use std::marker::Model;

/// For how many areas a row has memory from the beginning on. Between two calls it has fewer.
pub const ROW: usize = 32;

/// Areas by rising start. A contract sees their list.
#[derive(Drop)]
pub struct Row<A: Allocator = Global> {
    areas: Vec<Area, A>,
    // Where the first area begins and the last ends: a search among rows looks at no area. Where there is none, the
    // highest address and 0.
    first: u64,
    end: u64,
    // How many free addresses the widest gap between two neighbours has.
    widest: u64,
    // Whether one of them is leaving: a flush looks at no others.
    leaves: bool,
}

impl<A: Allocator> Model for Row<A> {
    ghost use Rattle.std.specs.Prelude.{List, ◌≡◌, ◌≤◌};
    ghost use Rattle.std.specs.Vec.{vec_capacity};
    ghost use Rattle.iofd_words.specs.declared.rows.Area.{Area};
    ghost use Rattle.area_map_rows.specs.Rows.{end_of, first_of, has_leaving, widest_of};

    ghost Value = { List Area };

    ghost view = { λ row. row.areas.items };

    ghost invariant = { λ row. (32 ≤ vec_capacity row.areas) × (row.end ≡ end_of row.areas.items)
        × (row.widest ≡ widest_of row.areas.items) × (row.first ≡ first_of row.areas.items)
        × (row.leaves ≡ has_leaving row.areas.items) };
}

impl<A: Allocator> Row<A> {
    /// A row without areas. Its only error is want of memory.
    pub fn new(alloc: A) -> Result<Row<A>, NoMemory>
        ensures { IfOk result (λ row. row ≡ []) }
    {
        let areas = Vec::with_capacity(alloc, ROW)?;
        Ok(Row {
            areas,
            first: u64::MAX,
            end: 0,
            widest: 0,
            leaves: false,
        })
    }

    /// Its areas.
    pub fn areas(&self) -> &[Area]
        ensures { result.now ≡ self.now }
    {
        &self.areas
    }

    /// How many areas it has.
    pub fn len(&self) -> usize
        ensures { result ≡ length self.now }
    {
        self.areas.len()
    }

    /// Where its first area begins.
    pub fn first(&self) -> u64
        ensures { result ≡ first_of self.now }
    {
        self.first
    }

    /// Where its last area ends.
    pub fn end(&self) -> u64
        ensures { result ≡ end_of self.now }
    {
        self.end
    }

    /// How many free addresses the widest gap between two of its areas has.
    pub fn widest(&self) -> u64
        ensures { result ≡ widest_of self.now }
    {
        self.widest
    }

    /// Whether one of its areas is leaving.
    pub fn has_leaving(&self) -> bool
        ensures { result ≡ has_leaving self.now }
    {
        self.leaves
    }

    /// Whether so many addresses from the place on end below its first area.
    pub fn starts_from(&self, at: u128, count: u64) -> bool
        requires at { at ≤ 2 ^ 64 }
        requires some { 0 < length self.now }
        ensures { result ≡ starts_from (at + count) self.now }
    {
        at + u128::from(count) <= u128::from(self.first)
    }

    /// From which place on so many addresses are free, as far as its areas go, which begin below that many from the
    /// place on. It looks at each of them only where a gap is so wide.
    pub fn free_from(&self, at: u128, count: u64) -> u128
        requires at { at ≤ 2 ^ 64 }
        requires apart { AreApart self.now }
        requires begun { starts_from (at + count) self.now ≡ false }
        ensures value { result ≡ first_free at count self.now }
        ensures bound { result ≤ 2 ^ 64 }
    {
        if self.widest < count {
            at.max(u128::from(self.end) + 1)
        } else {
            gaps::free_in(&self.areas, at, count)
        }
    }

    /// Adds an area that meets none of them, before the first that begins after it.
    pub fn add(&mut self, area: Area)
        requires apart { AreApart self.old }
        requires alone { areas_meet area.span self.old ≡ false }
        requires few { length self.old < 32 }
        ensures { self.new ≡ with_area area self.old }
    {
        let place = lookups::count_below(&self.areas, area.span.first());
        let parted = gaps::gap_at(&self.areas, place);
        self.leaves = marking::leaves_with(self.leaves, &area);
        self.areas.insert(place, area).unwrap();
        self.first = first_of(&self.areas);
        self.end = end_of(&self.areas);
        // The widest gap stays where it isn't the one that is parted.
        if self.widest <= parted {
            self.widest = gaps::widest_of(&self.areas);
        }
    }

    /// The areas from this place on go to the other row.
    pub fn split(&mut self, at: usize, upper: &mut Row<A>)
        requires at { at ≤ length self.old }
        requires few { length self.old ≤ 32 }
        requires upper { upper.old ≡ [] }
        ensures lower { self.new ≡ take at self.old }
        ensures upper { upper.new ≡ drop at self.old }
    {
        move_rest(&mut self.areas, at, &mut upper.areas);
        self.first = first_of(&self.areas);
        self.end = end_of(&self.areas);
        self.widest = gaps::widest_of(&self.areas);
        self.leaves = marking::has_leaving(&self.areas);
        upper.first = first_of(&upper.areas);
        upper.end = end_of(&upper.areas);
        upper.widest = gaps::widest_of(&upper.areas);
        upper.leaves = marking::has_leaving(&upper.areas);
    }

    /// The areas of the next row come behind its own.
    pub fn join(&mut self, mut next: Row<A>)
        requires { length self.old + length next ≤ 32 }
        ensures { self.new ≡ self.old ++ next }
    {
        self.areas.append(&mut next.areas).unwrap();
        self.first = first_of(&self.areas);
        self.end = end_of(&self.areas);
        self.widest = gaps::widest_of(&self.areas);
        self.leaves = self.leaves || next.leaves;
    }

    /// Changes its areas. It looks at none where none is leaving and the change makes none so.
    pub fn change(&mut self, change: &Change, span: Span)
        ensures { self.new ≡ map (changed change.now span) self.old }
    {
        if self.leaves || change.reaches_live() {
            marking::change_all(&mut self.areas, change, span);
            self.leaves = marking::has_leaving(&self.areas);
        }
    }

    /// Takes away the areas that lie in the span, and says how many they were.
    pub fn remove(&mut self, span: Span) -> usize
        requires { AreApart self.old }
        ensures areas { self.new ≡ areas_outside span self.old }
        ensures count { result + length self.new ≡ length self.old }
    {
        let before = self.areas.len();
        let place = remove_within(&mut self.areas, span);
        self.first = first_of(&self.areas);
        self.end = end_of(&self.areas);
        // What they leave joins the gaps beside them, if areas are left on both sides.
        self.widest = match gaps::gap_at(&self.areas, place) {
            u64::MAX => gaps::widest_of(&self.areas),
            joined => self.widest.max(joined),
        };
        self.leaves = marking::leaves_still(self.leaves, &self.areas);
        before - self.areas.len()
    }
}

// Where the first of the areas begins.
fn first_of(areas: &[Area]) -> u64
    ensures { result ≡ first_of areas.now }
{
    match areas.first() {
        Some(area) => area.span.first(),
        None => u64::MAX,
    }
}

// Where the last of the areas ends.
fn end_of(areas: &[Area]) -> u64
    ensures { result ≡ end_of areas.now }
{
    match areas.last() {
        Some(area) => area.span.last(),
        None => 0,
    }
}

// The areas from this place on go to the end of the others, where there is room for them.
fn move_rest<A: Allocator>(areas: &mut Vec<Area, A>, at: usize, others: &mut Vec<Area, A>)
    requires at { at ≤ length areas.old.items }
    requires none { others.old.items ≡ [] }
    requires room { length areas.old.items ≤ vec_capacity others.old }
    ensures lower { areas.new.items ≡ take at areas.old.items }
    ensures upper { others.new.items ≡ drop at areas.old.items }
    ensures capacity { vec_capacity areas.new ≡ vec_capacity areas.old }
    ensures others_capacity { vec_capacity others.old ≤ vec_capacity others.new }
{
    for area in areas.drain(at..) {
        others.push(area).unwrap();
    }
}

// The areas that lie in the span go, which stand side by side. It answers where they stood.
fn remove_within<A: Allocator>(areas: &mut Vec<Area, A>, span: Span) -> usize
    requires { AreApart areas.old.items }
    ensures areas { areas.new.items ≡ areas_outside span areas.old.items }
    ensures cut { IsCutAt result areas.old.items areas.new.items }
    ensures len { length areas.new.items ≤ length areas.old.items }
    ensures capacity { vec_capacity areas.new ≡ vec_capacity areas.old }
{
    let from = lookups::count_before(areas, span.first());
    let count = lookups::count_until(&areas[from..], span.last());
    remove_between(areas, from, from + count);
    from
}

// The areas from the one place on and before the other go, from the last one on: where all behind go, none moves.
fn remove_between<A: Allocator>(areas: &mut Vec<Area, A>, from: usize, to: usize)
    requires order { from ≤ to }
    requires bound { to ≤ length areas.old.items }
    ensures rest { areas.new.items ≡ take from areas.old.items ++ drop to areas.old.items }
    ensures len { length areas.new.items ≤ length areas.old.items }
    ensures capacity { vec_capacity areas.new ≡ vec_capacity areas.old }
{
    let mut at = to;
    while from < at {
        at -= 1;
        areas.remove(at);
    }
}
