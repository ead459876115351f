//! What an address space can't use, gathered once: the widths of its page tables, and the devices that are attached to
//! it.

ghost use Rattle.std.specs.Prelude.{◌≡◌, IfOk, filter, map};
ghost use Rattle.std.specs.List.{list_any};
ghost use Rattle.iofd_words.specs.Attachments.{is_attached_to};
ghost use Rattle.iofd_words.specs.Bounds.{Bounds};
ghost use Rattle.iofd_words.specs.Files.{device_of};
ghost use Rattle.iofd_words.specs.Ranges.{meets_some};
ghost use Rattle.iofd_words.specs.Span.{meets};
ghost use Rattle.iofd_words.specs.Usable.{beyond, reserved_of, unusable};
ghost use Rattle.journal_audit_page_tables.specs.Unusable.{is_of_width, is_table, meets_unusable, with_attached};
ghost use Rattle.journal_audit_page_tables.specs.Unusable.{with_width};

use iofd_words::{
    Attachment, Config, DeviceNo, FileNo, IovaRange, NoMemory, ObjId, Object, ObjectKind, Width,
};
use journal_audit_events::usable::is_kept;
use journal_audit_world::World;
use journal_audit_world::attachments::is_attached_to;
use journal_audit_world::objects::is_hwpt_of;
use std::alloc::{Allocator, Global};
use std::marker::Model;

// ---- one range

// Whether the range has an address that tables of this width don't translate.
fn is_beyond(width: Width, range: IovaRange) -> bool
    ensures { result ≡ meets (beyond width) range }
{
    width.end() <= range.last
}

fn is_kept_by_some<A: Allocator>(config: &Config<A>, devices: &[DeviceNo], range: IovaRange) -> bool
    ensures { result ≡ list_any (λ device. meets_some (reserved_of (device_of config.now device)) range) devices.now }
{
    for device in devices {
        if is_kept(config, *device, range) {
            return true;
        }
    }
    false
}

// ---- one address space

fn is_of_width(width: Width, kind: ObjectKind) -> bool
    ensures { result ≡ is_of_width width kind }
{
    match kind {
        ObjectKind::Hwpt { width: of, .. } => of.bits() == width.bits(),
        _ => false,
    }
}

// Whether it is a page table of this width over the address space.
fn is_table(file: FileNo, ioas: ObjId, width: Width, object: Object) -> bool
    ensures { result ≡ is_table file ioas width object }
{
    is_hwpt_of(file, ioas, object) && is_of_width(width, object.kind)
}

// Whether a page table of this width over the address space is there.
fn has_table(objects: &[Object], file: FileNo, ioas: ObjId, width: Width) -> bool
    ensures { result ≡ list_any (is_table file ioas width) objects.now }
{
    for object in objects {
        if is_table(file, ioas, width, *object) {
            return true;
        }
    }
    false
}

// The devices that are attached to it.
fn devices_of<A: Allocator>(
    alloc: A,
    objects: &[Object],
    attachments: &[Attachment],
    file: FileNo,
    ioas: ObjId,
) -> Result<Vec<DeviceNo, A>, NoMemory>
    ensures { IfOk result (λ devices. devices.items
        ≡ map (λ a. a.device) (filter (is_attached_to objects.now file ioas) attachments.now)) }
{
    let mut devices = Vec::new(alloc);
    for attachment in attachments {
        if is_attached_to(objects, file, ioas, *attachment) {
            devices.push(attachment.device)?;
        }
    }
    Ok(devices)
}

/// What an address space can't use, by what takes it: whether a page table of 39 bits, one of 48 bits and one of 57
/// bits is over it, and the devices that are attached to it.
#[derive(Drop)]
pub struct Unusable<A: Allocator = Global> {
    narrow: bool,
    wide: bool,
    widest: bool,
    devices: Vec<DeviceNo, A>,
}

impl<A: Allocator> Model for Unusable<A> {
    ghost use Rattle.journal_audit_page_tables.specs.Unusable as words;

    ghost Value = { words.Unusable };

    ghost view = { λ told. record {
      narrow = told.narrow;
      wide = told.wide;
      widest = told.widest;
      devices = told.devices.items;
    } };
}

impl<A: Allocator> Unusable<A> {
    /// That of an address space as it is. Objects are gone through once for each attachment.
    pub fn of(
        alloc: A,
        world: &World<A>,
        file: FileNo,
        ioas: ObjId,
    ) -> Result<Unusable<A>, NoMemory>
        ensures { let w = world.now in IfOk result (λ told. (range : Bounds) → meets_unusable w.settings told range
            ≡ meets_some (unusable w.settings w.objects w.attachments file ioas) range) }
    {
        let devices = devices_of(alloc, &world.objects, &world.attachments, file, ioas)?;
        Ok(Unusable {
            narrow: has_table(&world.objects, file, ioas, Width::Bits39),
            wide: has_table(&world.objects, file, ioas, Width::Bits48),
            widest: has_table(&world.objects, file, ioas, Width::Bits57),
            devices,
        })
    }

    /// A page table of this width comes.
    pub fn add_width(&mut self, width: Width)
        ensures { self.new ≡ with_width width self.old }
    {
        match width {
            Width::Bits39 => self.narrow = true,
            Width::Bits48 => self.wide = true,
            Width::Bits57 => self.widest = true,
        }
    }

    /// The device is attached.
    pub fn add_device(&mut self, device: DeviceNo) -> Result<(), NoMemory>
        ensures { IfOk result (λ _. self.new ≡ with_attached device self.old) }
    {
        self.devices.push(device)?;
        Ok(())
    }

    /// Whether the range has an address that can't be used.
    pub fn meets(&self, config: &Config<A>, range: IovaRange) -> bool
        ensures { result ≡ meets_unusable config.now self.now range }
    {
        (self.narrow && is_beyond(Width::Bits39, range))
            || (self.wide && is_beyond(Width::Bits48, range))
            || (self.widest && is_beyond(Width::Bits57, range))
            || is_kept_by_some(config, &self.devices, range)
    }
}
