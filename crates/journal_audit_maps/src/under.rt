//! What areas under a span stand in the way of a pin: those that are leaving, and those without the right.

ghost use Rattle.std.specs.Prelude.{◌≡◌, ◌==◌, ◌&&◌, ◌||◌, not, false, find};
ghost use Rattle.std.specs.List.{list_any};
ghost use Rattle.iofd_words.specs.Accesses.{lacks_right, meets_leaving, meets_without_right};
ghost use Rattle.iofd_words.specs.Areas.{areas_of, is_of};
ghost use Rattle.iofd_words.specs.Span.{meets};
ghost use Rattle.iofd_words.specs.TablePlaces as places;

use crate::asked::Asked;
use iofd_words::{AccessKind, Area, FileNo, ObjId, Phase};
use journal_audit_world::areas::is_of;

// Whether the phase is that of a live area.
fn is_live(phase: &Phase) -> bool
    ensures { result ≡ places.is_live phase.now }
{
    matches!(phase, Phase::Live)
}

// Whether it is an area of the address space that has an address in common with these, and is leaving.
fn is_leaving(area: &Area, file: FileNo, ioas: ObjId, asked: Asked) -> bool
    ensures { result ≡ (is_of file ioas area.now
        && (meets area.now.span asked && not (places.is_live area.now.phase))) }
{
    is_of(file, ioas, area) && (asked.meets(area.span) && !is_live(&area.phase))
}

/// Whether an area of the address space that has an address in common with these is leaving.
pub fn meets_leaving(areas: &[Area], file: FileNo, ioas: ObjId, asked: Asked) -> bool
    ensures { result ≡ meets_leaving asked (areas_of areas.now file ioas) }
{
    for area in areas {
        if is_leaving(area, file, ioas, asked) {
            return true;
        }
    }
    false
}

// Whether it may not be read, or not be written where that is asked for too.
fn lacks_right(write: bool, area: &Area) -> bool
    ensures { result ≡ lacks_right write area.now }
{
    !area.rights.allow(AccessKind::Read) || (write && !area.rights.allow(AccessKind::Write))
}

// Whether it is one that lacks a right that is asked for.
fn is_without_right(area: &Area, file: FileNo, ioas: ObjId, asked: Asked, write: bool) -> bool
    ensures { result ≡ (is_of file ioas area.now
        && (meets area.now.span asked && lacks_right write area.now)) }
{
    is_of(file, ioas, area) && (asked.meets(area.span) && lacks_right(write, area))
}

/// Whether one lacks a right that is asked for.
pub fn meets_without_right(
    areas: &[Area],
    file: FileNo,
    ioas: ObjId,
    asked: Asked,
    write: bool,
) -> bool
    ensures { result ≡ meets_without_right asked write (areas_of areas.now file ioas) }
{
    for area in areas {
        if is_without_right(area, file, ioas, asked, write) {
            return true;
        }
    }
    false
}
