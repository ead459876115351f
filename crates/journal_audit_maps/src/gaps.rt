//! Whether each page of a span lies in an area.

ghost use Rattle.std.specs.Prelude.{◌≡◌, ◌&&◌, ◌==◌, ◌/◌, not, false, IfNone, IfSome};
ghost use Rattle.std.specs.List.{list_any};
ghost use Rattle.iofd_words.specs.Accesses.{has_gap};
ghost use Rattle.iofd_words.specs.Areas.{areas_of};
ghost use Rattle.iofd_words.specs.Span.{size_of};
ghost use Rattle.journal_audit_maps.specs.Gaps.{Reaches, is_page_in};

use crate::asked::Asked;
use iofd_words::{Area, FileNo, ObjId, PAGE_SIZE};
use journal_audit_world::areas::is_of;

// Which page from the first address on is the first that isn't wholly in the area, where this one is. None where it
// isn't.
fn reached_in(area: &Area, first: u64, index: u64) -> Option<u64>
    ensures { Reaches (λ i. is_page_in first i area.now) index result }
{
    let begin = u128::from(first) + 4096 * u128::from(index);
    if begin < u128::from(area.span.first()) || begin + 4095 > u128::from(area.span.last()) {
        return None;
    }
    Some((area.span.last() - first - 4095) / PAGE_SIZE + 1)
}

// The same of the area of the address space that has the page.
fn reached(areas: &[Area], file: FileNo, ioas: ObjId, first: u64, index: u64) -> Option<u64>
    ensures { Reaches (λ i. list_any (is_page_in first i) (areas_of areas.now file ioas)) index result }
{
    for area in areas {
        if is_of(file, ioas, area) {
            let next = reached_in(area, first, index);
            if next.is_some() {
                return next;
            }
        }
    }
    None
}

/// Whether some page of the span lies in no area of the address space, where the span has so many.
pub fn has_gap(areas: &[Area], file: FileNo, ioas: ObjId, asked: Asked, count: u64) -> bool
    requires { count ≡ size_of asked / 4096 }
    ensures { result ≡ has_gap asked (areas_of areas.now file ioas) }
{
    let mut index: u64 = 0;
    for _step in 0..count {
        if index >= count {
            return false;
        }
        let Some(next) = reached(areas, file, ioas, asked.first, index) else {
            return true;
        };
        index = next;
    }
    false
}
