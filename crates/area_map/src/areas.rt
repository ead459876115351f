//! The map of areas.

ghost use Rattle.std.specs.Prelude.{◌≡◌, ◌==◌, ◌↔◌, ◌+◌, ◌*◌, ◌^◌, ◌<◌, ◌≤◌, [], find};
ghost use Rattle.std.specs.Prelude.{length, map, nat_le, not, is_ok, IsOk, IfOk};
ghost use Rattle.std.specs.Prelude.{MatchOption, IfErr, IfSome, IfNone, OnOk, OnErr, IsOkUnless};
ghost use Rattle.std.specs.List.{list_any};
ghost use Rattle.std.specs.Option.{option_copied};
ghost use Rattle.area_map_rows.specs.Areas.{AreKept, with_area, area_of, is_covered, IsCovered, HasGap, marked};
ghost use Rattle.area_map_rows.specs.Areas.{HasNoneFree, IsFirstFree};
ghost use Rattle.area_map_rows.specs.Areas.{without_debt, areas_meeting, areas_within, areas_outside, tried};
ghost use Rattle.iofd_words.specs.Areas.{areas_meet, has_no_room, is_cut, area_at, most_tries};
ghost use Rattle.iofd_words.specs.TablePlaces.{is_live};
ghost use Rattle.area_map.specs.Insertion.{insert_refusal};
ghost use Rattle.area_map.specs.Kept.{leaving_span};

use crate::blocks::Blocks;
use crate::insertion::MOST_AREAS;
use crate::{gaps, insertion, leaving, removal};
use area_map_rows::{Change, Iter, Row, changes, lookups, totals};
use iofd_words::{Area, CallError, Cause, DeviceNo, DeviceSet, NoMemory, Refusal, Span};
use std::alloc::{Allocator, Global};
use std::marker::Model;

/// The areas of one I/O address space: what IOMMU_IOAS_MAP and IOMMU_IOAS_COPY made and IOMMU_IOAS_UNMAP
/// hasn't taken away (uapi header, `linux/iommufd.h`). No two overlap, and there are at most 65,535. A
/// contract sees their list by rising start, for how many more there is memory, the span that `pay` goes over (the
/// least that holds all leaving areas, and none where none is leaving), and how many rows keep them: no two neighbours
/// together fill half a row at most, so there are few.
#[derive(Drop)]
pub struct Areas<A: Allocator = Global> {
    // By rising start. Each has areas, and memory for one more than it has.
    rows: Vec<Row<A>, A>,
    // What is kept of the blocks of rows: a search for free addresses looks into no others than it has to.
    blocks: Blocks<A>,
    // A row without areas, for which there is a place among the rows.
    spare: Option<Row<A>>,
    // How many areas there are.
    count: usize,
    // The least span that holds all leaving areas; none where none is leaving.
    leaving: Option<Span>,
}

impl<A: Allocator> Model for Areas<A> {
    ghost use Rattle.std.specs.Prelude.{◌+◌, ◌*◌, ◌≤◌, length};
    ghost use Rattle.std.specs.Vec.{vec_len, vec_capacity};
    ghost use Rattle.area_map.specs.AreaTable.{AreaTable};
    ghost use Rattle.area_map_rows.specs.Rows.{in_rows};
    ghost use Rattle.area_map.specs.Kept.{room_of, AreInRows, IsSpare};
    ghost use Rattle.area_map.specs.Blocks.{AreBlocks};

    ghost Value = { AreaTable };

    ghost view = { λ map. record {
      areas = in_rows map.rows.items;
      room = room_of map.spare;
      leaving = map.leaving;
      rows = length map.rows.items;
    } };

    ghost invariant = { λ map. AreInRows map.rows.items map.count map.leaving
        × IsSpare map.spare (vec_len map.rows) (vec_capacity map.rows)
        × AreBlocks map.blocks map.rows.items
        × (vec_len map.rows + room_of map.spare ≤ 32 * length map.blocks) };
}

impl<A: Allocator> Areas<A> {
    /// No areas. It takes no memory.
    pub fn new(alloc: A) -> Areas<A>
        ensures { result.areas ≡ [] }
    {
        Areas {
            rows: Vec::new(alloc),
            blocks: Blocks::new(),
            spare: None,
            count: 0,
            leaving: None,
        }
    }

    /// What holds of every map: its areas stand by rising start, each ends below the next one's start, and their number
    /// is one of 64 bits; the span in which areas leave is the least one; the rows are few, since two neighbours that
    /// fit in one are joined. The call does nothing else.
    pub fn facts(&self)
        ensures kept { AreKept self.now.areas }
        ensures few { length self.now.areas < 2 ^ 64 }
        ensures leaving { self.now.leaving ≡ leaving_span self.now.areas }
        ensures rows { 17 * self.now.rows ≤ 2 * length self.now.areas + 17 }
    {
        let _ = &self.count;
        let _ = self.len();
    }

    /// How many areas there are.
    pub fn len(&self) -> usize
        ensures { result ≡ length self.now.areas }
    {
        self.count
    }

    /// Whether there are none.
    pub fn is_empty(&self) -> bool
        ensures { result ≡ (length self.now.areas == 0) }
    {
        self.count == 0
    }

    /// Whether there are as many areas as may be.
    pub fn is_full(&self) -> bool
        ensures { result ≡ has_no_room self.now.areas }
    {
        self.count >= MOST_AREAS
    }

    /// Whether some area is leaving. It looks at no area.
    pub fn has_leaving(&self) -> bool
        ensures { result ≡ list_any (λ area. not (is_live area.phase)) self.now.areas }
    {
        self.leaving.is_some()
    }

    /// The area that holds the address, of any phase. It takes no memory.
    pub fn at(&self, iova: u64) -> Option<&Area>
        ensures { option_copied result ≡ area_at iova self.now.areas }
    {
        lookups::at(&self.rows, iova)
    }

    /// The area of exactly this span, of any phase. It takes no memory.
    pub fn exact(&self, span: Span) -> Option<&Area>
        ensures { option_copied result ≡ area_of span self.now.areas }
    {
        lookups::exact(&self.rows, span)
    }

    /// The first area, of any phase, that ends at the address or above it. It takes no memory.
    pub fn first_reaching(&self, address: u64) -> Option<&Area>
        ensures area { option_copied result ≡ find (λ area. nat_le address area.span.last) self.now.areas }
        ensures kept { AreKept self.now.areas }
    {
        lookups::first_reaching(&self.rows, address)
    }

    /// Whether some area, of any phase, meets the span. It takes no memory.
    pub fn meets(&self, span: Span) -> bool
        ensures { result ≡ areas_meet span self.now.areas }
    {
        lookups::meets(&self.rows, span)
    }

    /// Whether some area, of any phase, meets the span and isn't wholly in it. It takes no memory.
    pub fn cuts(&self, span: Span) -> bool
        ensures { result ≡ is_cut span self.now.areas }
    {
        lookups::cuts(&self.rows, span)
    }

    /// Whether some area meets the span (`meets`), and whether one of them isn't wholly in it (`cuts`), by one search.
    pub fn meets_and_cuts(&self, span: Span) -> (bool, bool)
        ensures meets { result.0 ≡ areas_meet span self.now.areas }
        ensures cuts { result.1 ≡ is_cut span self.now.areas }
    {
        lookups::meets_and_cuts(&self.rows, span)
    }

    /// The least address from `start` on from which this many addresses meet no area; None where there is none below
    /// 2^64. It looks at the rows of a block that it begins in, at the blocks behind, at the rows of those that may
    /// have a gap so wide, and into those rows alone that have one.
    pub fn free_from(&self, start: u64, count: u64) -> Option<u64>
        requires { 0 < count }
        ensures first { MatchOption result (HasNoneFree start count self.now.areas)
            (IsFirstFree start count self.now.areas) }
        ensures kept { AreKept self.now.areas }
    {
        gaps::free_from(&self.rows, self.blocks.all(), start, count)
    }

    /// The areas, by rising start.
    pub fn iter(&self) -> Iter<'_, A>
        ensures areas { result ≡ self.now.areas }
        ensures kept { AreKept self.now.areas }
    {
        Iter::new(&[], &self.rows, None)
    }

    /// The areas that lie in the span, by rising start.
    pub fn within(&self, span: Span) -> Iter<'_, A>
        ensures value { result ≡ areas_within span self.now.areas }
        ensures kept { AreKept self.now.areas }
    {
        lookups::within(&self.rows, span)
    }

    /// The areas that meet the span, of any phase, by rising start. One search finds them; it takes no memory.
    pub fn meeting(&self, span: Span) -> Iter<'_, A>
        ensures value { result ≡ areas_meeting span self.now.areas }
        ensures kept { AreKept self.now.areas }
    {
        lookups::meeting(&self.rows, span)
    }

    /// Adds an area, before the first that begins after it.
    ///
    /// Refused, in this order: Overlap (9, EEXIST) where its span meets that of an area, of any phase;
    /// Full (23, ENOSPC) where there are as many areas as an address space may have. An error leaves the map as it
    /// was, and want of memory, for one more area, comes only where there was no room.
    pub fn insert(&mut self, area: Area) -> Result<(), CallError>
    where
        A: Copy,
        ensures refused { IfSome (insert_refusal area.span self.old.areas)
            (λ cause. result ≡ Err (CallError.Refused (record { cause = cause }))) }
        ensures taken { IfNone (insert_refusal area.span self.old.areas)
            (IsOkUnless result (CallError.Memory (record {}))) }
        ensures memory { result ≡ Err (CallError.Memory (record {})) → self.old.room ≡ 0 }

        ensures ok { OnOk result (self.new.areas ≡ with_area area self.old.areas) }
        ensures err { OnErr result (self.new.areas ≡ self.old.areas) }
        ensures leaving { self.new.leaving ≡ leaving_span self.new.areas }
        ensures rows { 17 * self.new.rows ≤ 2 * length self.new.areas + 17 }
        ensures room { self.old.room ≤ self.new.room + 1 }
        ensures err_room { OnErr result (self.old.room ≤ self.new.room) }
    {
        let span = area.span;
        let below = lookups::rows_below(&self.rows, span.first());
        if lookups::meets_behind(&self.rows, below, span) {
            return Err(refused(Cause::Overlap));
        }
        if self.count >= MOST_AREAS {
            return Err(refused(Cause::Full));
        }
        let index = insertion::row_for(&self.rows, below);
        if insertion::prepare(&mut self.rows, &mut self.blocks, &mut self.spare, index).is_err() {
            return Err(CallError::Memory(NoMemory));
        }
        self.leaving = leaving::with_area(self.leaving, &area);
        self.count += 1;
        insertion::add(
            &mut self.rows,
            &mut self.blocks,
            &mut self.spare,
            index,
            area,
        );
        Ok(())
    }

    /// Takes memory for one more area, if there is no room. The areas stay. After an Ok the next `insert`
    /// doesn't want for memory; an error changes nothing.
    pub fn reserve(&mut self) -> Result<(), NoMemory>
    where
        A: Copy,
        ensures areas { self.new.areas ≡ self.old.areas }
        ensures leaving { self.new.leaving ≡ self.old.leaving }
        ensures rows { self.new.rows ≡ self.old.rows }
        ensures ok { OnOk result (0 < self.new.room) }
        ensures full { OnErr result (self.old.room ≡ 0) }
        ensures room { self.old.room ≤ self.new.room }
        ensures unchanged { OnErr result (self.new ≡ self.old) }
    {
        insertion::reserve(&mut self.rows, &mut self.blocks, &mut self.spare)
    }

    /// Whether each address of the span lies in some area, of any phase. Where one doesn't, Span (10,
    /// ENOENT). It takes no memory.
    pub fn covered(&self, span: Span) -> Result<(), Refusal>
        ensures value { is_ok result ≡ is_covered span self.now.areas }
        ensures covered { IsOk result ↔ IsCovered span self.now.areas }
        ensures gap { IfErr result
            (λ refusal. (refusal ≡ record { cause = Cause.Span }) × HasGap span self.now.areas) }
    {
        if lookups::covers(&self.rows, span) {
            Ok(())
        } else {
            Err(Refusal { cause: Cause::Span })
        }
    }

    /// The spans of all areas, by rising start. Its only error is a refused growth; no areas need no memory.
    pub fn spans<B: Allocator>(&self, alloc: B) -> Result<Vec<Span, B>, NoMemory>
        ensures ok { IfOk result (λ spans. spans.items ≡ map (λ area. area.span) self.now.areas) }
        ensures memory { OnErr result (0 < length self.now.areas) }
    {
        totals::spans(alloc, self.iter(), self.count)
    }

    /// Makes each live area that lies in the span leaving: it owes a flush to each of these devices, and
    /// no try was counted. Every other area stays, a leaving one too. It takes no memory. (VT-d, "IOTLB
    /// invalidation": until its flush a device may still use what it cached.)
    pub fn mark_leaving(&mut self, span: Span, owed: &DeviceSet)
        ensures areas { self.new.areas ≡ map (marked span owed.now) self.old.areas }
        ensures leaving { self.new.leaving ≡ leaving_span self.new.areas }
        ensures rows { 17 * self.new.rows ≤ 2 * length self.new.areas + 17 }
        ensures room { self.new.room ≡ self.old.room }
    {
        changes::change(&mut self.rows, &Change::Leave(owed.copied()), span);
        self.leaving = leaving::with_areas(self.leaving, lookups::within(&self.rows, span));
    }

    /// Takes the device out of the debt of each leaving area. Nothing else changes. It takes no memory.
    pub fn pay(&mut self, device: DeviceNo)
        ensures areas { self.new.areas ≡ map (without_debt device) self.old.areas }
        ensures leaving { self.new.leaving ≡ leaving_span self.new.areas }
        ensures rows { 17 * self.new.rows ≤ 2 * length self.new.areas + 17 }
        ensures room { self.new.room ≡ self.old.room }
    {
        if let Some(hull) = self.leaving {
            changes::change(&mut self.rows, &Change::Pay(device), hull);
        }
    }

    /// The most tries that a leaving area in the span has seen; 0 where none is leaving. It takes no memory.
    pub fn most_tries(&self, span: Span) -> u8
        ensures { result ≡ most_tries (areas_within span self.now.areas) }
    {
        totals::most_tries(self.within(span))
    }

    /// Each leaving area that lies in the span has seen so many tries. Nothing else changes. It takes no memory.
    pub fn set_tries(&mut self, span: Span, tries: u8)
        ensures areas { self.new.areas ≡ map (tried span tries) self.old.areas }
        ensures leaving { self.new.leaving ≡ leaving_span self.new.areas }
        ensures rows { 17 * self.new.rows ≤ 2 * length self.new.areas + 17 }
        ensures room { self.new.room ≡ self.old.room }
    {
        changes::change(&mut self.rows, &Change::SetTries(tries), span);
    }

    /// Takes away the areas that lie in the span. The other areas stay. It takes no memory.
    pub fn remove(&mut self, span: Span)
        ensures areas { self.new.areas ≡ areas_outside span self.old.areas }
        ensures leaving { self.new.leaving ≡ leaving_span self.new.areas }
        ensures rows { 17 * self.new.rows ≤ 2 * length self.new.areas + 17 }
        ensures room { self.old.room ≤ self.new.room }
    {
        self.count -= removal::remove(&mut self.rows, &mut self.blocks, span);
        self.leaving = leaving::without(self.leaving, span, &self.rows);
    }
}

// The refusal for this cause.
fn refused(cause: Cause) -> CallError
    ensures { result ≡ CallError.Refused (record { cause = cause }) }
{
    CallError::Refused(Refusal { cause })
}
