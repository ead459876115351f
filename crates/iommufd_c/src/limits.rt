//! Whether a server is opened with what a C program asks for: it is asked of the arrays as they are, before anything is
//! copied.

ghost use Rattle.std.specs.Prelude.{◌≡◌, ◌&&◌, is_none, length, nat_le};
ghost use Rattle.std.specs.List.{list_all};
ghost use Rattle.iofd_words.specs.Limits.{first_outside};
ghost use Rattle.iofd_words.specs.Settings.{is_between, is_device_in_limits, is_reserved_span};
ghost use Rattle.shared_iommufd.specs.Limits as server;
ghost use Rattle.iommufd_c.specs.Configured.{are_rows, devices_of_rows, is_row, rows_for, settings_of_rows, span_of};
ghost use Rattle.iommufd_c.specs.Configured.{is_reserved_row};

use crate::configuring::DeviceRow;
use crate::reserving::{ReservedRow, span_of};

fn is_between(least: usize, most: usize, number: usize) -> bool
    ensures { result ≡ is_between least most number }
{
    least <= number && number <= most
}

// Whether the row's width is one that there is.
fn is_row(row: &DeviceRow) -> bool
    ensures { result ≡ is_row row.now }
{
    row.width == 39 || row.width == 48 || row.width == 57
}

// Loops are cheaper to prove here than closures.
fn are_device_rows(rows: &[DeviceRow]) -> bool
    ensures { result ≡ list_all is_row rows.now }
{
    let mut all = true;
    for row in rows {
        all &= is_row(row);
    }
    all
}

// Whether the row is a span of one of so many devices.
fn is_reserved_row(row: &ReservedRow, devices: usize) -> bool
    ensures { result ≡ is_reserved_row devices row.now }
{
    is_between(1, devices, usize::from(row.device)) && row.first <= row.last
}

fn are_reserved_rows(rows: &[ReservedRow], devices: usize) -> bool
    ensures { result ≡ list_all (is_reserved_row devices) rows.now }
{
    let mut all = true;
    for row in rows {
        all &= is_reserved_row(row, devices);
    }
    all
}

// Whether each user is one of so many.
fn are_users(users: &[u16], count: usize) -> bool
    ensures { result ≡ list_all (is_between 1 count) users.now }
{
    let mut all = true;
    for user in users {
        all &= is_between(1, count, usize::from(*user));
    }
    all
}

// Whether the row's span may be reserved: it is of whole pages.
fn is_reserved_span(row: &ReservedRow) -> bool
    ensures { result ≡ is_reserved_span (span_of row.now) }
{
    row.first < row.last && span_of(row).is_whole_pages()
}

// Whether the device of this number has as many reserved spans as it may have, each of whole pages.
fn is_device_in_limits(reserved: &[ReservedRow], device: usize) -> bool
    ensures { result ≡ (nat_le (length (rows_for reserved.now device)) 16
        && list_all (λ row. is_reserved_span (span_of row)) (rows_for reserved.now device)) }
{
    let mut count: usize = 0;
    let mut whole = true;
    for row in reserved {
        if usize::from(row.device) == device {
            count += 1;
            whole &= is_reserved_span(row);
        }
    }
    count <= 16 && whole
}

// Whether each device of the rows is within its limits.
fn have_spans_in_limits(rows: &[DeviceRow], reserved: &[ReservedRow]) -> bool
    ensures { result ≡ list_all is_device_in_limits (devices_of_rows reserved.now rows.now) }
{
    let mut all = true;
    for place in 0..rows.len() {
        all = all && is_device_in_limits(reserved, place + 1);
    }
    all
}

// Whether each device's width is one that there is, and each reserved row a span of a device.
fn are_rows(devices: &[DeviceRow], reserved: &[ReservedRow]) -> bool
    ensures { result ≡ are_rows devices.now reserved.now }
{
    are_device_rows(devices) && are_reserved_rows(reserved, devices.len())
}

// Whether there are as many files as there may be, each of one of so many users.
fn are_files_in_limits(files: &[u16], users: usize) -> bool
    ensures { result ≡ (is_between 1 1024 (length files.now) && list_all (is_between 1 users) files.now) }
{
    is_between(1, 1024, files.len()) && are_users(files, users)
}

// Whether there are as many devices as there may be, each within its limits.
fn are_devices_in_limits(devices: &[DeviceRow], reserved: &[ReservedRow]) -> bool
    ensures { result ≡ (nat_le (length devices.now) 256
        && list_all is_device_in_limits (devices_of_rows reserved.now devices.now)) }
{
    devices.len() <= 256 && have_spans_in_limits(devices, reserved)
}

/// Whether each row's width is one that there is, each reserved span one of a device, and all of it within the limits
/// of `Config::new`. It takes no memory.
pub(crate) fn are_settings_in_limits(
    pool: u32,
    users: &[u64],
    files: &[u16],
    devices: &[DeviceRow],
    reserved: &[ReservedRow],
    passes: u16,
) -> bool
    ensures { result ≡ (are_rows devices.now reserved.now && is_none (first_outside
        (settings_of_rows pool users.now files.now devices.now reserved.now passes))) }
{
    are_rows(devices, reserved)
        & is_between(1, 4096, pool as usize)
        & is_between(1, 255, users.len())
        & are_files_in_limits(files, users.len())
        & are_devices_in_limits(devices, reserved)
        & is_between(1, 1024, usize::from(passes))
}

/// Whether so many lanes, and pages of a port's cache, are within the limits of `Server::new`.
pub(crate) fn is_server_in_limits(lanes: u16, cache: u16) -> bool
    ensures { result ≡ is_none (server.first_outside lanes cache) }
{
    is_between(1, 64, usize::from(lanes)) && is_between(1, 4096, usize::from(cache))
}
