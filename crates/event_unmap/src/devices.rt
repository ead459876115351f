//! The devices that are attached to an address space.

ghost use Rattle.std.specs.Prelude.{◌≡◌, true, false, IfSome, IfNone};
ghost use Rattle.std.specs.List.{list_all};
ghost use Rattle.iofd_words.specs.Attachments.{devices_of};
ghost use Rattle.iofd_words.specs.Files as files;
ghost use Rattle.iofd_runs.specs.Fits.{devices_rise};
ghost use Rattle.server_state.specs.Held.{objects_in};

use iofd_words::{Attachment, Config, DeviceSet, FileNo, ObjId};
use object_table::ObjectTable;
use server_state::{Held, State, lookups};
use std::alloc::Allocator;

/// The devices that are attached to the file's address space of this id. None where some attachment is of a device that
/// there isn't.
pub(crate) fn attached_to<A: Allocator>(
    state: &State<A>,
    file: FileNo,
    ioas: ObjId,
) -> Option<DeviceSet>
    ensures none { IfNone result
        (list_all (λ a. files.is_device state.now.config a.device) state.now.attachments.items ≡ false) }
    ensures some { IfSome result (λ devices. devices_rise state.now.attachments.items ≡ true
        → devices ≡ devices_of (objects_in state.now.objects) state.now.attachments.items file ioas) }
{
    attached_by(
        &state.config,
        &state.objects,
        &state.attachments,
        file,
        ioas,
    )
}

/// Those of these attachments that lead to the address space, as a set. None where one is of no device of the
/// configuration.
fn attached_by<A: Allocator>(
    config: &Config<A>,
    table: &ObjectTable<Held<A>, A>,
    attachments: &[Attachment],
    file: FileNo,
    ioas: ObjId,
) -> Option<DeviceSet>
    ensures none { IfNone result (list_all (λ a. files.is_device config.now a.device) attachments.now ≡ false) }
    ensures some { IfSome result (λ devices. devices_rise attachments.now ≡ true
        → devices ≡ devices_of (objects_in table.now) attachments.now file ioas) }
{
    let mut devices = DeviceSet::new();
    for attachment in attachments {
        if lookups::is_attached_to(table, file, ioas, attachment) {
            if !config.has_device(attachment.device) {
                return None;
            }
            devices.insert(attachment.device);
        }
    }
    Some(devices)
}
