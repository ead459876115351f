//! Areas and allowed ranges that would lie outside what an address space can use, with a page table or a device more.

ghost use Rattle.std.specs.Prelude.{◌≡◌, ◌&&◌, ◌++◌, IfOk, map};
ghost use Rattle.std.specs.List.{list_any};
ghost use Rattle.iofd_words.specs.Allowed.{allowed_of};
ghost use Rattle.iofd_words.specs.Areas.{areas_of, is_of};
ghost use Rattle.iofd_refusals.specs.Checks as words;
ghost use Rattle.iofd_words.specs.Files.{device_of};
ghost use Rattle.iofd_words.specs.Objects.{settings_under};
ghost use Rattle.iofd_words.specs.View.{view};
ghost use Rattle.journal_audit_page_tables.specs.Unusable.{meets_unusable};

use crate::unusable::Unusable;
use crate::widths::{width_of, width_under};
use iofd_words::{Area, Config, DeviceNo, FileNo, IovaRange, NoMemory, ObjId, Span};
use journal_audit_world::allowed::row_of;
use journal_audit_world::areas::is_of;
use journal_audit_world::{AllowedRow, World};
use std::alloc::Allocator;

// The addresses of the span.
fn range_of(span: Span) -> IovaRange
    ensures { result ≡ span }
{
    IovaRange {
        start: span.first(),
        last: span.last(),
    }
}

// Whether it is an area of the address space, and has an address that can't be used.
fn is_outside<A: Allocator>(
    config: &Config<A>,
    unusable: &Unusable<A>,
    area: &Area,
    file: FileNo,
    ioas: ObjId,
) -> bool
    ensures { result ≡ (is_of file ioas area.now && meets_unusable config.now unusable.now area.now.span) }
{
    is_of(file, ioas, area) && unusable.meets(config, range_of(area.span))
}

// Whether an area of the address space has an address that can't be used.
fn area_outside<A: Allocator>(
    config: &Config<A>,
    unusable: &Unusable<A>,
    areas: &[Area],
    file: FileNo,
    ioas: ObjId,
) -> bool
    ensures { result ≡ list_any (λ area. meets_unusable config.now unusable.now area.span)
        (areas_of areas.now file ioas) }
{
    for area in areas {
        if is_outside(config, unusable, area, file, ioas) {
            return true;
        }
    }
    false
}

// Whether some range has such an address.
fn some_outside<A: Allocator>(
    config: &Config<A>,
    unusable: &Unusable<A>,
    ranges: &[IovaRange],
) -> bool
    ensures { result ≡ list_any (meets_unusable config.now unusable.now) ranges.now }
{
    for range in ranges {
        if unusable.meets(config, *range) {
            return true;
        }
    }
    false
}

// Whether one of those ranges has such an address.
fn allowed_outside<A: Allocator>(
    config: &Config<A>,
    unusable: &Unusable<A>,
    rows: &[AllowedRow<A>],
    file: FileNo,
    ioas: ObjId,
) -> bool
    ensures { result ≡ list_any (meets_unusable config.now unusable.now) (allowed_of rows.now file ioas) }
{
    match row_of(rows, file, ioas) {
        Some(row) => some_outside(config, unusable, &row.ranges),
        None => false,
    }
}

// Whether an area or one of those ranges has one.
fn are_outside<A: Allocator>(
    world: &World<A>,
    file: FileNo,
    ioas: ObjId,
    unusable: &Unusable<A>,
) -> bool
    ensures { let w = world.now in result ≡ list_any (meets_unusable w.settings unusable.now)
        (map (λ area. area.span) (areas_of w.areas file ioas) ++ allowed_of w.allowed file ioas) }
{
    let areas = area_outside(&world.config, unusable, &world.areas, file, ioas);
    let allowed = allowed_outside(&world.config, unusable, &world.allowed, file, ioas);
    areas | allowed
}

/// Whether with a page table of the width of the device under this id an area or an allowed range would lie outside
/// what the address space can use.
pub fn narrows_by_width<A: Allocator + Copy>(
    alloc: A,
    world: &World<A>,
    file: FileNo,
    ioas: ObjId,
    id: ObjId,
) -> Result<bool, NoMemory>
    ensures { let w = world.now in IfOk result (λ narrow. narrow
        ≡ words.narrows_by_width (view w) file ioas (settings_under w.settings w.objects file id)) }
{
    let Some(width) = width_under(world, file, id) else {
        return Ok(false);
    };
    let mut unusable = Unusable::of(alloc, world, file, ioas)?;
    unusable.add_width(width);
    Ok(are_outside(world, file, ioas, &unusable))
}

/// Whether with the device attached one would.
pub fn narrows<A: Allocator + Copy>(
    alloc: A,
    world: &World<A>,
    file: FileNo,
    ioas: ObjId,
    device: DeviceNo,
) -> Result<bool, NoMemory>
    ensures { let w = world.now in IfOk result (λ narrow. narrow
        ≡ words.narrows (view w) file ioas (device_of w.settings device)) }
{
    let Some(width) = width_of(world, device) else {
        return Ok(false);
    };
    let mut unusable = Unusable::of(alloc, world, file, ioas)?;
    unusable.add_width(width);
    unusable.add_device(device)?;
    Ok(are_outside(world, file, ioas, &unusable))
}
