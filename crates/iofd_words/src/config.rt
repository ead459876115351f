//! What a server is opened with, and its limits.

ghost use Rattle.std.specs.Prelude.{◌≡◌, ◌<◌, ◌≤◌, ◌&&◌, true, find, IfOk, OnErr, None, length};
ghost use Rattle.std.specs.List.{list_all};
ghost use Rattle.std.specs.Option.{option_copied};
ghost use Rattle.iofd_words.specs.Files as of_number;
ghost use Rattle.iofd_words.specs.Limits.{first_outside};
ghost use Rattle.iofd_words.specs.Settings.{is_between, is_device_in_limits, is_reserved_span};
ghost use Rattle.iofd_words.specs.Span.{holds, meets};
ghost use Rattle.iofd_words.specs.Usable.{interrupt_range, reserved_by};

use crate::lists::{SpanList, copied};
use crate::numbers::{DeviceNo, FileNo, SourceId, UserNo};
use crate::refusal::NoMemory;
use crate::span::{INTERRUPT_RANGE, Span};
use crate::width::Width;
use std::alloc::{Allocator, Global};
use std::marker::Model;

/// A device of a server: its source id, the width of its addresses, whether it has the interrupt range
/// of x86, and its reserved spans.
pub struct DeviceConfig<A: Allocator = Global> {
    source: SourceId,
    width: Width,
    x86: bool,
    reserved: SpanList<A>,
}

// Written out, so that it is proved here alone and not in each crate that drops one.
impl<A: Allocator> Drop for DeviceConfig<A> {
    fn drop(self) {
        let DeviceConfig {
            source: _,
            width: _,
            x86: _,
            reserved: _,
        } = self;
    }
}

impl<A: Allocator> Model for DeviceConfig<A> {
    ghost use Rattle.iofd_words.specs.Settings.{DeviceSettings};

    ghost Value = { DeviceSettings };

    ghost view = { λ device. record {
      source = device.source;
      width = device.width;
      x86 = device.x86;
      reserved = device.reserved;
    } };
}

impl<A: Allocator> DeviceConfig<A> {
    /// A device. It takes no memory.
    pub fn new(source: SourceId, width: Width, x86: bool, reserved: SpanList<A>) -> DeviceConfig<A>
        ensures { result ≡ record { source = source; width = width; x86 = x86; reserved = reserved } }
    {
        DeviceConfig {
            source,
            width,
            x86,
            reserved,
        }
    }

    /// The same device, its spans in new memory. It fails only where memory does; without spans it needs none.
    pub fn copied<B: Allocator>(&self, alloc: B) -> Result<DeviceConfig<B>, NoMemory>
        ensures ok { IfOk result (λ device. device ≡ self.now) }
        ensures memory { OnErr result (0 < length self.now.reserved) }
    {
        Ok(DeviceConfig {
            source: self.source,
            width: self.width,
            x86: self.x86,
            reserved: self.reserved.copied(alloc)?,
        })
    }

    /// The id by which the IOMMU knows it.
    pub fn source(&self) -> SourceId
        ensures { result ≡ self.now.source }
    {
        self.source
    }

    /// The width of its addresses.
    pub fn width(&self) -> Width
        ensures { result ≡ self.now.width }
    {
        self.width
    }

    /// Whether it has the interrupt range of x86.
    pub fn is_x86(&self) -> bool
        ensures { result ≡ self.now.x86 }
    {
        self.x86
    }

    /// The spans that it must not be given addresses in.
    pub fn reserved(&self) -> &[Span]
        ensures { result.now ≡ self.now.reserved }
    {
        self.reserved.as_slice()
    }

    /// The first span that it keeps for itself and that meets this one: its interrupt range, where it is an x86 device,
    /// or a reserved span. It takes no memory.
    pub fn kept_meeting(&self, span: Span) -> Option<Span>
        ensures { result ≡ find (λ one. meets one span) (reserved_by self.now) }
    {
        if self.x86 && INTERRUPT_RANGE.meets(span) {
            return Some(INTERRUPT_RANGE);
        }
        first_meeting(self.reserved.as_slice(), span).copied()
    }

    /// Whether the address is one of its interrupt range, which an x86 device has.
    pub fn is_interrupt(&self, address: u64) -> bool
        ensures { result ≡ (self.now.x86 && holds interrupt_range address) }
    {
        self.x86 && INTERRUPT_RANGE.holds(address)
    }
}

/// Which part of a configuration is outside its limits, or that memory was wanting.
#[derive(Clone, Copy, PartialEq, Eq, Debug)]
pub enum ConfigError {
    /// The pool has 1 to 4096 frames.
    Pool,
    /// There are 1 to 255 users.
    Users,
    /// There are 1 to 1024 files, each of a user that is there.
    Files,
    /// There are at most 256 devices, each with at most 16 reserved spans of whole pages.
    Devices,
    /// There are 1 to 1024 passes.
    Passes,
    /// There was no memory for what is opened with it.
    Memory,
}

/// What a server is opened with. Its values are within the limits.
pub struct Config<A: Allocator = Global> {
    pool: u32,
    users: Vec<u64, A>,
    files: Vec<UserNo, A>,
    devices: Vec<DeviceConfig<A>, A>,
    passes: u16,
}

// Written out, so that it is proved here alone and not in each crate that drops one.
impl<A: Allocator> Drop for Config<A> {
    fn drop(self) {
        let Config {
            pool: _,
            users: _,
            files: _,
            devices: _,
            passes: _,
        } = self;
    }
}

impl<A: Allocator> Model for Config<A> {
    ghost use Rattle.std.specs.Prelude.{◌≡◌, None};
    ghost use Rattle.iofd_words.specs.Settings.{Settings};

    ghost Value = { Settings };

    ghost use Rattle.iofd_words.specs.Limits.{first_outside};

    ghost view = { λ c. record {
      pool = c.pool;
      users = c.users.items;
      files = c.files.items;
      devices = c.devices.items;
      passes = c.passes;
    } };

    ghost invariant = { λ c. first_outside (record {
      pool = c.pool;
      users = c.users.items;
      files = c.files.items;
      devices = c.devices.items;
      passes = c.passes;
    }) ≡ None };
}

impl<A: Allocator> Config<A> {
    ghost use Rattle.iofd_words.specs.Limits.{opened};

    /// The configuration of a pool of so many frames, users with these limits of pinned pages (from
    /// user 1 on), files of these users (from file 1 on), these devices (from device 1 on) and so
    /// many passes. It takes no memory. The error is the first field that is outside its limits.
    pub fn new(
        pool: u32,
        users: Vec<u64, A>,
        files: Vec<UserNo, A>,
        devices: Vec<DeviceConfig<A>, A>,
        passes: u16,
    ) -> Result<Config<A>, ConfigError>
        ensures { result ≡ opened (record {
          pool = pool;
          users = users.items;
          files = files.items;
          devices = devices.items;
          passes = passes;
        }) }
    {
        match first_outside(pool, &users, &files, &devices, passes) {
            Some(error) => Err(error),
            None => Ok(Config {
                pool,
                users,
                files,
                devices,
                passes,
            }),
        }
    }

    /// The same configuration in new memory. It fails only where memory does.
    pub fn copied<B: Allocator + Copy>(&self, alloc: B) -> Result<Config<B>, NoMemory>
        ensures { IfOk result (λ config. config ≡ self.now) }
    {
        Ok(Config {
            pool: self.pool,
            users: copied(alloc, &self.users)?,
            files: copied(alloc, &self.files)?,
            devices: copied_devices(alloc, &self.devices)?,
            passes: self.passes,
        })
    }

    /// What holds of every configuration: it is within its limits. The call does nothing else.
    pub fn facts(&self)
        ensures { first_outside self.now ≡ None }
    {
        let _ = &self.pool;
    }

    /// How many frames the pool has, 1 to 4096.
    pub fn pool(&self) -> u32
        ensures value { result ≡ self.now.pool }
        ensures within { first_outside self.now ≡ None }
    {
        self.pool
    }

    /// The limits of the users' pinned pages, from user 1 on.
    pub fn users(&self) -> &[u64]
        ensures { result.now ≡ self.now.users }
    {
        self.users.as_slice()
    }

    /// The users of the files, from file 1 on.
    pub fn files(&self) -> &[UserNo]
        ensures { result.now ≡ self.now.files }
    {
        self.files.as_slice()
    }

    /// The devices, from device 1 on.
    pub fn devices(&self) -> &[DeviceConfig<A>]
        ensures { result.now ≡ self.now.devices }
    {
        self.devices.as_slice()
    }

    /// Whether there is such a user.
    pub fn has_user(&self, user: UserNo) -> bool
        ensures { result ≡ of_number.is_user self.now user }
    {
        user.0 >= 1 && usize::from(user.0) <= self.users.len()
    }

    /// The user of the file; None where there is no such file.
    pub fn user_of(&self, file: FileNo) -> Option<UserNo>
        ensures { result ≡ of_number.user_of self.now file }
    {
        let place = usize::from(file.0).checked_sub(1)?;
        self.files.get(place).copied()
    }

    /// The settings of the device; None where there is no such device.
    pub fn device(&self, device: DeviceNo) -> Option<&DeviceConfig<A>>
        ensures { option_copied result ≡ of_number.device_of self.now device }
    {
        let place = usize::from(device.0).checked_sub(1)?;
        self.devices.get(place)
    }

    /// Whether there is such a device. Its number is 1 to 256 then.
    pub fn has_device(&self, device: DeviceNo) -> bool
        ensures value { result ≡ of_number.is_device self.now device }
        ensures from { result ≡ true → 1 ≤ device.0 }
        ensures to { result ≡ true → device.0 ≤ 256 }
    {
        device.0 >= 1 && usize::from(device.0) <= self.devices.len()
    }

    /// How many callers there may be.
    pub fn passes(&self) -> u16
        ensures { result ≡ self.now.passes }
    {
        self.passes
    }
}

// The first field that is outside its limits.
fn first_outside<A: Allocator>(
    pool: u32,
    users: &[u64],
    files: &[UserNo],
    devices: &[DeviceConfig<A>],
    passes: u16,
) -> Option<ConfigError>
    ensures { result ≡ first_outside (record {
      pool = pool;
      users = users.now;
      files = files.now;
      devices = devices.now;
      passes = passes;
    }) }
{
    if !is_between(1, 4096, pool as usize) {
        return Some(ConfigError::Pool);
    }
    if !is_between(1, 255, users.len()) {
        return Some(ConfigError::Users);
    }
    if !is_between(1, 1024, files.len()) || !are_known(files, users.len()) {
        return Some(ConfigError::Files);
    }
    if devices.len() > 256 || !are_in_limits(devices) {
        return Some(ConfigError::Devices);
    }
    if !is_between(1, 1024, usize::from(passes)) {
        return Some(ConfigError::Passes);
    }
    None
}

fn is_between(least: usize, most: usize, number: usize) -> bool
    ensures { result ≡ is_between least most number }
{
    least <= number && number <= most
}

// The same devices in new memory.
fn copied_devices<A: Allocator, B: Allocator + Copy>(
    alloc: B,
    devices: &[DeviceConfig<A>],
) -> Result<Vec<DeviceConfig<B>, B>, NoMemory>
    ensures { IfOk result (λ copies. copies.items ≡ devices.now) }
{
    let mut copies = Vec::with_capacity(alloc, devices.len())?;
    for device in devices {
        let copy = device.copied(alloc)?;
        copies.push(copy)?;
    }
    Ok(copies)
}

// Whether each file's user is one of so many.
fn are_known(files: &[UserNo], users: usize) -> bool
    ensures { result ≡ list_all (λ user. is_between 1 users user.0) files.now }
{
    files
        .iter()
        .all(|user| user.0 >= 1 && usize::from(user.0) <= users)
}

// The first of the spans that meets this one.
fn first_meeting(spans: &[Span], span: Span) -> Option<&Span>
    ensures { option_copied result ≡ find (λ one. meets one span) spans.now }
{
    spans.iter().find(|one| one.meets(span))
}

// Whether each device's reserved spans are within their limits.
fn are_in_limits<A: Allocator>(devices: &[DeviceConfig<A>]) -> bool
    ensures { result ≡ list_all is_device_in_limits devices.now }
{
    devices.iter().all(|device| is_in_limits(device))
}

fn is_in_limits<A: Allocator>(device: &DeviceConfig<A>) -> bool
    ensures { result ≡ is_device_in_limits device.now }
{
    let reserved = device.reserved();
    reserved.len() <= 16 && are_reserved_spans(reserved)
}

fn are_reserved_spans(spans: &[Span]) -> bool
    ensures { result ≡ list_all is_reserved_span spans.now }
{
    spans
        .iter()
        .all(|span| span.first() < span.last() && span.is_whole_pages())
}
