//! How many tables an area of all pages of a width needs. Smaller areas are shown by scripts.

ghost use Rattle.std.specs.Prelude.{◌≡◌, ◌&&◌, ◌^◌, nat_lt};
ghost use Rattle.std.specs.List.{list_all};
ghost use Rattle.iofd_words.specs.Span.{is_whole_pages};
ghost use Rattle.iofd_words.specs.Width.{bits_of};

use area_map::Areas;
use iofd_words::{Area, FileNo, ObjId, Phase, Rights, Span, Width};
use std::alloc::Global;

/// Whether the areas can be asked about.
fn are_of_pages(width: Width, areas: &Areas) -> bool
    ensures { result ≡ list_all (λ area. is_whole_pages area.span && nat_lt area.span.last (2 ^ bits_of width))
        areas.now.areas }
{
    areas.iter().all(|area| area.span.is_whole_pages() && area.span.last() < width.end())
}

/// Adds an area of all pages of the width. Whether there is one.
fn is_added(areas: &mut Areas, width: Width) -> bool {
    let Some(span) = Span::of_length(0, width.end()) else {
        return false;
    };
    let area = Area {
        file: FileNo(1),
        ioas: ObjId(1),
        span,
        memory: 1,
        rights: Rights(3),
        phase: Phase::Live,
    };
    areas.insert(area).is_ok()
}

/// How many tables it needs.
fn counted(alloc: Global, width: Width) -> Option<u64> {
    let mut areas = Areas::new(alloc);
    if is_added(&mut areas, width) && are_of_pages(width, &areas) {
        Some(page_table_spans::tables_for(width, &areas))
    } else {
        None
    }
}

// one table of the highest level, and 512 times as many on each level below it
#[test]
fn an_area_of_all_pages_needs_all_tables(rt: HostRuntime) {
    assert!(rt; counted(rt.alloc(), Width::Bits39) == Some(0x4_0201));
    assert!(rt; counted(rt.alloc(), Width::Bits48) == Some(0x804_0201));
    assert!(rt; counted(rt.alloc(), Width::Bits57) == Some(0x10_0804_0201));
}
