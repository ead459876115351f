//! How handles are opened and closed.

ghost use Rattle.std.specs.Prelude.{◌≡◌, is_some, if◌then◌else◌, None};
ghost use Rattle.iommufd_c.specs.Configured.{are_rows, settings_of_rows};
ghost use Rattle.iommufd_c.specs.Exports.{IsOpened, IsPortGiven, IsShared};
ghost use Rattle.iommufd_c.specs.Statuses as spec;

use crate::configuring::{DeviceRow, config_of};
use crate::handle::Handle;
use crate::limits::{are_settings_in_limits, is_server_in_limits};
use crate::reserving::ReservedRow;
use crate::status::{DONE, EBADF, EBUSY, EINVAL, ENOMEM, give_status, open_status};
use std::alloc::Global;

/// Opens a server for a handle that is closed: with a pool of so many frames, users with these limits of pinned pages,
/// files of these users, these devices with these reserved spans, and so many passes; with so many lanes, and caches of
/// ports of so many pages.
#[unsafe(no_mangle)]
pub extern "C" fn defnulk_raw_open(
    alloc: Global,
    pool: u32,
    users: &[u64],
    files: &[u16],
    devices: &[DeviceRow],
    reserved: &[ReservedRow],
    passes: u16,
    lanes: u16,
    cache: u16,
    handle: &mut Handle,
) -> i32
    ensures { IsOpened (are_rows devices.now reserved.now)
        (settings_of_rows pool users.now files.now devices.now reserved.now passes) lanes cache handle.old.client
        result handle.new.client }
{
    // Both are asked before anything is copied: whoever opens a handle twice, or asks for what there is no server of,
    // is never told that there is no memory.
    if handle.is_open(alloc) {
        return EBUSY;
    }
    if !are_settings_in_limits(pool, users, files, devices, reserved, passes)
        || !is_server_in_limits(lanes, cache)
    {
        return EINVAL;
    }
    match config_of(alloc, pool, users, files, devices, reserved, passes) {
        Ok(config) => open_status(&handle.open(alloc, &config, lanes, cache)),
        Err(_) => ENOMEM,
    }
}

/// Opens another handle, which is closed, for another caller of the same server, by a pass that this caller has to
/// give.
#[unsafe(no_mangle)]
pub extern "C" fn defnulk_raw_share(alloc: Global, handle: &mut Handle, other: &mut Handle) -> i32
    ensures { IsShared handle.old.client other.old.client result handle.new.client other.new.client }
{
    match handle.share(alloc, other) {
        Ok(()) => DONE,
        Err(error) => give_status(error),
    }
}

/// Opens another handle, which is closed, for the port of a device: of the last one that has none. Its number is told.
#[unsafe(no_mangle)]
pub extern "C" fn defnulk_raw_port(
    alloc: Global,
    handle: &mut Handle,
    other: &mut Handle,
    device: &mut usize,
) -> i32
    ensures { IsPortGiven handle.old.client other.old.client result device.old device.new handle.new.client
        other.new.client }
{
    match handle.port(alloc, other) {
        Ok(number) => {
            *device = number;
            DONE
        }
        Err(error) => give_status(error),
    }
}

/// Closes a handle, and frees what it had; the server with its last handle.
#[unsafe(no_mangle)]
pub extern "C" fn defnulk_raw_close(alloc: Global, handle: &mut Handle) -> i32
    ensures status { result ≡ (if is_some handle.old.client then spec.done else spec.bad_handle) }
    ensures closed { handle.new.client ≡ None }
{
    if handle.close(alloc) { DONE } else { EBADF }
}
