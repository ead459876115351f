//! Areas one after the other.

ghost use Rattle.std.specs.Prelude.{◌≡◌, ◌≤◌, ◌∷◌, ◌++◌, [], List, length, if◌then◌else◌, MatchBool, true};
ghost use Rattle.std.specs.List.{list_all};
ghost use Rattle.std.specs.Option.{MatchOption};
ghost use Rattle.std.specs.Iterator.{YieldsFirstRef, item_count};
ghost use Rattle.area_map_rows.specs.Areas.{AreApart, HasGap, IsCovered, bytes_of};
ghost use Rattle.area_map_rows.specs.Rows.{in_rows, AreRows, up_to};
ghost use Rattle.iofd_words.specs.Areas.{most_areas};
ghost use Rattle.iofd_words.specs.Span.{meets};
ghost use Rattle.iofd_words.specs.declared.rows.Area.{Area};

use crate::row::Row;
use crate::{lookups, totals};
use iofd_words::{Area, Span};
use std::alloc::{Allocator, Global};
use std::marker::Model;

/// Areas by rising start. A contract sees the list of those that are left.
#[derive(Drop)]
pub struct Iter<'a, A: Allocator = Global> {
    row: &'a [Area],
    rows: &'a [Row<A>],
    // The first area that ends above it is the end, if there is one.
    last: Option<u64>,
}

impl<'a, A: Allocator> Model for Iter<'a, A> {
    ghost use Rattle.std.specs.Prelude.{List, ◌++◌};
    ghost use Rattle.iofd_words.specs.declared.rows.Area.{Area};
    ghost use Rattle.area_map_rows.specs.Rows.{in_rows, AreRows, up_to};

    ghost Value = { List Area };

    ghost view = { λ it. up_to it.last (it.row.now ++ in_rows it.rows.now) };

    ghost invariant = { λ it. AreRows it.rows.now };
}

impl<'a, A: Allocator> Iter<'a, A> {
    /// The areas of the row and then of the others, before the first that ends above `last`.
    pub fn new(row: &'a [Area], rows: &'a [Row<A>], last: Option<u64>) -> Iter<'a, A>
        requires { AreRows rows.now }
        ensures { result ≡ up_to last (row.now ++ in_rows rows.now) }
    {
        Iter { row, rows, last }
    }

    /// The areas that are left, once more: it takes no search.
    pub fn again(&self) -> Iter<'a, A>
        ensures { result ≡ self.now }
    {
        Iter {
            row: self.row,
            rows: self.rows,
            last: self.last,
        }
    }

    /// Whether each address of the span, which all these areas meet, lies in one of them. It takes no search.
    pub fn cover(&self, span: Span) -> bool
        requires apart { AreApart self.now }
        requires met { list_all (λ area. meets area.span span) self.now ≡ true }
        ensures { MatchBool result (IsCovered span self.now) (HasGap span self.now) }
    {
        lookups::runs_on(self.again(), span.first(), span.last())
    }

    /// How many addresses the areas have together, of which there are no more than an address space may have. The
    /// number may be above 2^64 - 1.
    pub fn bytes(self) -> u128
        requires { length self ≤ most_areas }
        ensures { result ≡ bytes_of self.entry }
    {
        totals::bytes_of(self)
    }
}

impl<'a, A: Allocator> Iterator for Iter<'a, A> {
    type Item = &'a Area;

    ghost next_gives = { YieldsFirstRef (λ it. it) };

    ghost remaining = { item_count (λ it. it) };

    fn next(&mut self) -> Option<&'a Area> {
        let (area, row, rows) = split_first(self.row, self.rows)?;
        if is_past(self.last, area) {
            return None;
        }
        self.row = row;
        self.rows = rows;
        Some(area)
    }
}

// The first area, and what is left of its row and of the rows.
fn split_first<'a, A: Allocator>(
    row: &'a [Area],
    rows: &'a [Row<A>],
) -> Option<(&'a Area, &'a [Area], &'a [Row<A>])>
    requires { AreRows rows.now }
    ensures parts { MatchOption result (row.now ++ in_rows rows.now ≡ []) (λ found.
        row.now ++ in_rows rows.now ≡ found.0.now ∷ (found.1.now ++ in_rows found.2.now)) }
    ensures rows { MatchOption result (Unit {0}) (λ found. AreRows found.2.now) }
{
    if let Some((area, rest)) = row.split_first() {
        return Some((area, rest, rows));
    }
    let (next, others) = rows.split_first()?;
    let (area, rest) = next.areas().split_first()?;
    Some((area, rest, others))
}

// Whether the area ends above this number, if there is one.
fn is_past(last: Option<u64>, area: &Area) -> bool
    ensures { (areas : List Area) → up_to last (area.now ∷ areas)
        ≡ (if result then [] else area.now ∷ up_to last areas) }
{
    match last {
        Some(last) => last < area.span.last(),
        None => false,
    }
}
