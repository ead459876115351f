//! The areas of address spaces.

ghost use Rattle.std.specs.Prelude.{◌≡◌, ◌==◌, ◌&&◌, not, filter};
ghost use Rattle.std.specs.Option.{option_copied};
ghost use Rattle.iofd_words.specs.Areas.{all_paid, area_at, areas_of, is_of, paid, with_phase};
ghost use Rattle.iofd_words.specs.Span.{holds};

use iofd_words::{Area, DeviceNo, FileNo, ObjId, Phase};
use std::alloc::Allocator;

/// Whether it is an area of this address space.
pub fn is_of(file: FileNo, ioas: ObjId, area: &Area) -> bool
    ensures { result ≡ is_of file ioas area.now }
{
    area.file.0 == file.0 && area.ioas.0 == ioas.0
}

// Whether it is one that holds the address.
fn has_at(area: &Area, file: FileNo, ioas: ObjId, address: u64) -> bool
    ensures { result ≡ (is_of file ioas area.now && holds area.now.span address) }
{
    is_of(file, ioas, area) && area.span.holds(address)
}

/// The area of the address space that holds the address.
pub fn area_at(areas: &[Area], file: FileNo, ioas: ObjId, address: u64) -> Option<&Area>
    ensures { option_copied result ≡ area_at address (areas_of areas.now file ioas) }
{
    for area in areas {
        if has_at(area, file, ioas, address) {
            return Some(area);
        }
    }
    None
}

/// The device owes no area a flush any more.
pub fn pay<A: Allocator>(areas: &mut Vec<Area, A>, device: DeviceNo)
    ensures { areas.new.items ≡ all_paid device areas.old.items }
{
    for area in areas.iter_mut() {
        pay_one(area, device);
    }
}

// Takes the device out of the debt of one.
fn pay_one(area: &mut Area, device: DeviceNo)
    ensures { area.new ≡ with_phase (paid device area.old.phase) area.old }
{
    if let Phase::Leaving { owed, .. } = &mut area.phase {
        owed.remove(device);
    }
}

/// The areas of the address space go.
pub fn remove_of<A: Allocator>(areas: &mut Vec<Area, A>, file: FileNo, ioas: ObjId)
    ensures { areas.new.items ≡ filter (λ area. not (is_of file ioas area)) areas.old.items }
{
    areas.retain(move |area| !(area.file.0 == file.0 && area.ioas.0 == ioas.0));
}

/// The areas of the file go.
pub fn remove_of_file<A: Allocator>(areas: &mut Vec<Area, A>, file: FileNo)
    ensures { areas.new.items ≡ filter (λ area. not (area.file.0 == file.0)) areas.old.items }
{
    areas.retain(move |area| !(area.file.0 == file.0));
}
