//! The area whose memory a COPY maps again.

ghost use Rattle.std.specs.Prelude.{◌≡◌, ◌==◌, ◌&&◌};
ghost use Rattle.std.specs.Option.{option_copied};
ghost use Rattle.iofd_words.specs.Areas.{areas_of, is_of};
ghost use Rattle.iofd_words.specs.Copies.{is_live_at, is_writable, placed_as, source_in};

use iofd_words::{Area, CopyRequest, FileNo, MapRequest, MemoryObject, ObjId, Phase};
use journal_audit_maps::asked::Asked;
use journal_audit_world::areas::is_of;

/// The MAP where a COPY comes to lie.
pub fn placed_as(request: CopyRequest) -> MapRequest
    ensures { result ≡ placed_as request }
{
    MapRequest {
        flags: request.flags,
        ioas: request.dst_ioas,
        user_va: 0,
        length: request.length,
        iova: request.dst_iova,
    }
}

// Whether the area is live, and has exactly these addresses.
fn is_live_at(asked: Asked, area: &Area) -> bool
    ensures { result ≡ is_live_at asked area.now }
{
    matches!(area.phase, Phase::Live)
        && area.span.first() == asked.first
        && u128::from(area.span.last()) == asked.last
}

// Whether it is one of the address space.
fn is_source(area: &Area, file: FileNo, ioas: ObjId, asked: Asked) -> bool
    ensures { result ≡ (is_of file ioas area.now && is_live_at asked area.now) }
{
    is_of(file, ioas, area) && is_live_at(asked, area)
}

/// The live area of the source's address space that has exactly the source's addresses.
pub fn source_of(areas: &[Area], file: FileNo, request: CopyRequest) -> Option<&Area>
    ensures { option_copied result ≡ source_in (areas_of areas.now file request.src_ioas) request }
{
    let asked = Asked::from(request.src_iova.0, request.length);
    for area in areas {
        if is_source(area, file, request.src_ioas, asked) {
            return Some(area);
        }
    }
    None
}

// Whether it is the memory object of this number, and devices may write it.
fn is_writable_as(number: u64, object: MemoryObject) -> bool
    ensures { result ≡ (object.number == number && object.writable) }
{
    object.number == number && object.writable
}

/// Whether devices may write the memory object of this number.
pub fn is_writable(memory: &[MemoryObject], number: u64) -> bool
    ensures { result ≡ is_writable memory.now number }
{
    for object in memory {
        if is_writable_as(number, *object) {
            return true;
        }
    }
    false
}
