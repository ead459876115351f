//! The widths of devices.

ghost use Rattle.std.specs.Prelude.{◌≡◌};
ghost use Rattle.iofd_words.specs.Files.{device_of};
ghost use Rattle.iofd_words.specs.Objects.{settings_under};
ghost use Rattle.journal_audit_page_tables.specs.Widths.{width_set};

use iofd_words::{DeviceNo, FileNo, ObjId, Width};
use journal_audit_tables::coming;
use journal_audit_world::World;
use std::alloc::Allocator;

/// The width that is set for a device.
pub fn width_of<A: Allocator>(world: &World<A>, device: DeviceNo) -> Option<Width>
    ensures { result ≡ width_set (device_of world.now.settings device) }
{
    match world.config.device(device) {
        Some(settings) => Some(settings.width()),
        None => None,
    }
}

/// The width that is set for the device that the file has under this id.
pub fn width_under<A: Allocator>(world: &World<A>, file: FileNo, id: ObjId) -> Option<Width>
    ensures { result ≡ width_set (settings_under world.now.settings world.now.objects file id) }
{
    match coming::device_under(&world.objects, file, id) {
        Some(device) => width_of(world, device),
        None => None,
    }
}
