//! Refusals that HWPT_ALLOC and an attachment to an address space have in common.

ghost use Rattle.std.specs.Prelude.{◌≡◌, ◌&&◌, IfOk, false, length, nat_lt, not};
ghost use Rattle.std.specs.List.{list_any};
ghost use Rattle.iofd_words.specs.Areas.{areas_of, is_of};
ghost use Rattle.iofd_refusals.specs.Checks.{lacks_attached_frames, lacks_new_tables, lacks_room_for_hwpt};
ghost use Rattle.iofd_refusals.specs.Checks.{waits_for_leaving};
ghost use Rattle.iofd_words.specs.Files.{device_of};
ghost use Rattle.iofd_words.specs.Frames.{free_count};
ghost use Rattle.iofd_words.specs.Objects.{settings_under};
ghost use Rattle.iofd_words.specs.TablePlaces.{is_live, lacking, live_pages, places_of};
ghost use Rattle.iofd_words.specs.View.{view};

use iofd_words::{Area, DeviceNo, FileNo, NoMemory, ObjId, Phase, Width};
use journal_audit_tables::coming;
use journal_audit_tables::missing::missing_in_areas;
use journal_audit_world::{World, areas, objects};
use std::alloc::Allocator;

/// Whether the address space has no page table yet, and an area of it is leaving.
pub fn waits_for_leaving<A: Allocator>(world: &World<A>, file: FileNo, ioas: ObjId) -> bool
    ensures { result ≡ waits_for_leaving (view world.now) file ioas }
{
    !objects::has_hwpt(&world.objects, file, ioas) && is_some_leaving(&world.areas, file, ioas)
}

// Whether it is an area of the address space that is leaving.
fn is_leaving(area: &Area, file: FileNo, ioas: ObjId) -> bool
    ensures { result ≡ (is_of file ioas area.now && not (is_live area.now.phase)) }
{
    areas::is_of(file, ioas, area) && !is_live(&area.phase)
}

fn is_some_leaving(areas: &[Area], file: FileNo, ioas: ObjId) -> bool
    ensures { result ≡ list_any (λ area. not (is_live area.phase)) (areas_of areas.now file ioas) }
{
    for area in areas {
        if is_leaving(area, file, ioas) {
            return true;
        }
    }
    false
}

fn is_live(phase: &Phase) -> bool
    ensures { result ≡ is_live phase.now }
{
    matches!(phase, Phase::Live)
}

/// Whether an attachment of the device would have to make a page table, and the file has no room for it.
pub fn lacks_room_for_hwpt<A: Allocator>(
    world: &World<A>,
    file: FileNo,
    ioas: ObjId,
    device: DeviceNo,
) -> bool
    ensures { let w = world.now in result ≡ lacks_room_for_hwpt (view w) file ioas (device_of w.settings device) }
{
    match world.config.device(device) {
        Some(settings) => {
            coming::automatic_hwpt(&world.objects, file, ioas, settings.width()).is_none()
                && objects::is_full(&world.objects, file)
        }
        None => false,
    }
}

// Whether fewer frames are free than a new page table of this width has tables, which maps all live areas. The tables
// are listed.
fn lacks_tables<A: Allocator + Copy>(
    alloc: A,
    world: &World<A>,
    file: FileNo,
    ioas: ObjId,
    width: Width,
) -> Result<bool, NoMemory>
    ensures { let w = world.now in IfOk result (λ lacks. lacks
        ≡ nat_lt (free_count w.settings.pool w.user_pages w.pins w.table_frames)
        (length (lacking (λ place. false) (places_of width (live_pages (areas_of w.areas file ioas)))))) }
{
    let missing = missing_in_areas(alloc, &[], &world.areas, file, ioas, ObjId(0), width)?;
    Ok(world.free_count() < missing.len())
}

/// Whether fewer frames are free than a new page table of the width of the device under this id has tables.
pub fn lacks_new_tables<A: Allocator + Copy>(
    alloc: A,
    world: &World<A>,
    file: FileNo,
    ioas: ObjId,
    device: ObjId,
) -> Result<bool, NoMemory>
    ensures { let w = world.now in IfOk result (λ lacks. lacks
        ≡ lacks_new_tables (view w) file ioas (settings_under w.settings w.objects file device)) }
{
    let Some(device) = coming::device_under(&world.objects, file, device) else {
        return Ok(false);
    };
    match world.config.device(device) {
        Some(settings) => lacks_tables(alloc, world, file, ioas, settings.width()),
        None => Ok(false),
    }
}

/// Whether fewer are free than the page table has that an attachment of the device would make.
pub fn lacks_attached_frames<A: Allocator + Copy>(
    alloc: A,
    world: &World<A>,
    file: FileNo,
    ioas: ObjId,
    device: DeviceNo,
) -> Result<bool, NoMemory>
    ensures { let w = world.now in IfOk result (λ lacks. lacks
        ≡ lacks_attached_frames (view w) file ioas (device_of w.settings device)) }
{
    let Some(settings) = world.config.device(device) else {
        return Ok(false);
    };
    let width = settings.width();
    if coming::automatic_hwpt(&world.objects, file, ioas, width).is_some() {
        return Ok(false);
    }
    lacks_tables(alloc, world, file, ioas, width)
}
