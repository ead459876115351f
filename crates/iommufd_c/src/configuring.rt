//! The configuration of a server, from the arrays of a C program.

ghost use Rattle.std.specs.Prelude.{◌≡◌, ◌≤◌, All, IfOk, None, map, true};
ghost use Rattle.iofd_words.specs.Limits.{first_outside};
ghost use Rattle.iommufd_c.specs.Configured.{are_rows, device_settings, devices_of_rows, settings_of_rows, user_of};

use crate::reserving::{ReservedRow, reserved_for};
use iofd_words::{Config, DeviceConfig, NoMemory, SourceId, SpanList, UserNo, Width};
use std::alloc::Global;

/// A device of a configuration (`struct defnulk_device`).
#[repr(C)]
#[derive(Clone, Copy)]
pub struct DeviceRow {
    /// The id by which the IOMMU knows it.
    pub source: u16,
    /// How many bits its addresses have: 39, 48 or 57.
    pub width: u8,
    /// Whether it has the interrupt range of x86: not 0.
    pub x86: u8,
}

// The device of a row, with these reserved spans.
fn device_of(row: &DeviceRow, reserved: SpanList) -> DeviceConfig
    ensures { result ≡ device_settings row.now reserved }
{
    let width = if row.width == 39 {
        Width::Bits39
    } else if row.width == 48 {
        Width::Bits48
    } else {
        Width::Bits57
    };
    DeviceConfig::new(SourceId(row.source), width, row.x86 != 0, reserved)
}

// The devices of the rows, each with the spans that are reserved for its number.
fn devices_of(
    alloc: Global,
    rows: &[DeviceRow],
    reserved: &[ReservedRow],
) -> Result<Vec<DeviceConfig>, NoMemory>
    requires { All (λ row. row.first ≤ row.last) reserved.now }
    ensures { IfOk result (λ devices. devices.items ≡ devices_of_rows reserved.now rows.now) }
{
    let mut devices = Vec::with_capacity(alloc, rows.len())?;
    for (place, row) in rows.iter().enumerate() {
        let spans = reserved_for(alloc, reserved, place + 1)?;
        devices.push(device_of(row, spans))?;
    }
    Ok(devices)
}

fn files_of(alloc: Global, users: &[u16]) -> Result<Vec<UserNo>, NoMemory>
    ensures { IfOk result (λ files. files.items ≡ map user_of users.now) }
{
    let mut files = Vec::with_capacity(alloc, users.len())?;
    for user in users {
        files.push(UserNo(*user))?;
    }
    Ok(files)
}

fn limits_of(alloc: Global, limits: &[u64]) -> Result<Vec<u64>, NoMemory>
    ensures { IfOk result (λ users. users.items ≡ limits.now) }
{
    Ok(Vec::from_slice(alloc, limits)?)
}

/// The configuration of these arrays, which are within its limits. The error is that memory was wanting.
pub(crate) fn config_of(
    alloc: Global,
    pool: u32,
    users: &[u64],
    files: &[u16],
    devices: &[DeviceRow],
    reserved: &[ReservedRow],
    passes: u16,
) -> Result<Config, NoMemory>
    requires rows { are_rows devices.now reserved.now ≡ true }
    requires within { first_outside (settings_of_rows pool users.now files.now devices.now reserved.now passes) ≡ None }
    ensures { IfOk result (λ config.
        config ≡ settings_of_rows pool users.now files.now devices.now reserved.now passes) }
{
    let users = limits_of(alloc, users)?;
    let files = files_of(alloc, files)?;
    let devices = devices_of(alloc, devices, reserved)?;
    let Ok(config) = Config::new(pool, users, files, devices, passes) else {
        unreachable!()
    };
    Ok(config)
}
