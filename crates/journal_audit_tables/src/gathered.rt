//! The tables that one page table lacks.

ghost use Rattle.std.specs.Prelude.{◌≡◌, ◌≤◌, ◌<◌, ◌+◌, ◌^◌, ◌∷◌, [], ◌&&◌, ◌||◌, IfOk, if◌then◌else◌};
ghost use Rattle.std.specs.List.{flat_map, range_with_len};
ghost use Rattle.iofd_words.specs.Areas.{areas_of, is_of};
ghost use Rattle.iofd_words.specs.TablePlaces.{TablePlace, has_table, is_live, is_place, is_table_of, live_pages};
ghost use Rattle.iofd_words.specs.TablePlaces.{pages_in, place_of, places_from};
ghost use Rattle.journal_audit_tables.specs.Gathered.{Adds, is_known};

use crate::place::{Missing, Pages, first_address};
use iofd_words::{Area, FileNo, NoMemory, ObjId, Phase, Span, TableFrame};
use journal_audit_world::areas;
use std::alloc::{Allocator, Global};
use std::collections::BTreeSet;
use std::marker::Model;

/// Which tables a page table has or was found to lack, and those that it lacks, in turn. Whether a table is one of them
/// costs the logarithm of how many there are.
#[derive(Drop)]
pub(crate) struct Gathered<A: Allocator = Global> {
    file: FileNo,
    hwpt: ObjId,
    known: BTreeSet<(u8, u64), A>,
    found: Vec<Missing, A>,
}

impl<A: Allocator> Model for Gathered<A> {
    ghost use Rattle.journal_audit_tables.specs.Gathered as words;

    ghost Value = { words.Gathered };

    ghost view = { λ g. record { file = g.file; hwpt = g.hwpt; known = g.known.keys; found = g.found.items } };
}

impl<A: Allocator + Copy> Gathered<A> {
    /// None is found yet. The rows of tables are gone through once.
    pub(crate) fn new(
        alloc: A,
        tables: &[TableFrame],
        file: FileNo,
        hwpt: ObjId,
    ) -> Result<Gathered<A>, NoMemory>
        ensures file { IfOk result (λ g. g.file ≡ file) }
        ensures hwpt { IfOk result (λ g. g.hwpt ≡ hwpt) }
        ensures found { IfOk result (λ g. g.found ≡ []) }
        ensures known { IfOk result (λ g. (place : TablePlace)
            → is_known g.known place ≡ has_table tables.now file hwpt place) }
    {
        let mut known = BTreeSet::new(alloc);
        for table in tables {
            learn(&mut known, table, is_table_of(file, hwpt, table))?;
        }
        Ok(Gathered {
            file,
            hwpt,
            known,
            found: Vec::new(alloc),
        })
    }

    /// The tables that were found.
    pub(crate) fn into_found(self) -> Vec<Missing, A>
        ensures { result.items ≡ self.found }
    {
        self.found
    }

    /// One place more.
    pub(crate) fn add(&mut self, level: u8, first: u64) -> Result<(), NoMemory>
        ensures { IfOk result (λ _. Adds self.old self.new (record { level = level; first = first } ∷ [])) }
    {
        if self.known.insert((level, first))? {
            self.found.push(Missing {
                file: self.file,
                hwpt: self.hwpt,
                level,
                first,
            })?;
        }
        Ok(())
    }

    /// The places of this level and below it through which the page goes.
    pub(crate) fn add_page(&mut self, level: u8, page: u64) -> Result<(), NoMemory>
        requires most { level ≤ 5 }
        requires page { page < 2 ^ 52 }
        ensures { IfOk result (λ _. Adds self.old self.new (places_from level page)) }
    {
        let mut left = level;
        while left > 0 {
            let first = first_address(left, page);
            self.add(left, first)?;
            left -= 1;
        }
        Ok(())
    }

    /// Those of so many pages from this one on.
    pub(crate) fn add_pages(&mut self, level: u8, first: u64, count: u64) -> Result<(), NoMemory>
        requires most { level ≤ 5 }
        requires pages { first + count ≤ 2 ^ 52 }
        ensures { IfOk result (λ _. Adds self.old self.new
            (flat_map (places_from level) (range_with_len first count))) }
    {
        for index in 0..count {
            self.add_page(level, first + index)?;
        }
        Ok(())
    }

    /// Those of the span, where they are asked for.
    fn add_span(&mut self, level: u8, span: Span, is_asked: bool) -> Result<(), NoMemory>
        requires { level ≤ 5 }
        ensures { IfOk result (λ _. Adds self.old self.new
            (if is_asked then flat_map (places_from level) (pages_in span) else [])) }
    {
        if is_asked {
            let pages = Pages::of_span(span);
            self.add_pages(level, pages.first, pages.count)?;
        }
        Ok(())
    }

    /// Those of all live areas of the address space.
    pub(crate) fn add_areas(
        &mut self,
        level: u8,
        areas: &[Area],
        file: FileNo,
        ioas: ObjId,
    ) -> Result<(), NoMemory>
        requires { level ≤ 5 }
        ensures { IfOk result (λ _. Adds self.old self.new
            (flat_map (places_from level) (live_pages (areas_of areas.now file ioas)))) }
    {
        for area in areas {
            self.add_span(level, area.span, is_live_of(area, file, ioas))?;
        }
        Ok(())
    }
}

// Whether it is a row of this page table.
fn is_table_of(file: FileNo, hwpt: ObjId, table: &TableFrame) -> bool
    ensures { result ≡ is_table_of file hwpt table.now }
{
    table.file.0 == file.0 && table.hwpt.0 == hwpt.0
}

// Whether it is a live area of this address space.
fn is_live_of(area: &Area, file: FileNo, ioas: ObjId) -> bool
    ensures { result ≡ (is_of file ioas area.now && is_live area.now.phase) }
{
    areas::is_of(file, ioas, area) && matches!(area.phase, Phase::Live)
}

// The row is known too, if it is asked for.
fn learn<A: Allocator + Copy>(
    known: &mut BTreeSet<(u8, u64), A>,
    table: &TableFrame,
    is_asked: bool,
) -> Result<(), NoMemory>
    ensures { IfOk result (λ _. (other : TablePlace) → is_known known.new.keys other
        ≡ (is_known known.old.keys other || (is_asked && is_place (place_of table.now) other))) }
{
    if is_asked {
        known.insert((table.level, table.first.0))?;
    }
    Ok(())
}
