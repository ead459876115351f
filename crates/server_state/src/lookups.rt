//! Look-ups in what is kept.

ghost use Rattle.std.specs.Prelude.{◌≡◌, ◌||◌, false, true, find, MatchOption};
ghost use Rattle.std.specs.Option.{option_copied, option_map};
ghost use Rattle.iofd_words.specs.Attachments as attachments;
ghost use Rattle.iofd_words.specs.Objects as objects;
ghost use Rattle.object_table.specs.Rows.{row_shown};
ghost use Rattle.object_table.specs.Table.{rows_of};
ghost use Rattle.server_state.specs.Mapping.{is_over};
ghost use Rattle.server_state.specs.Held.{areas_at, kind_in, objects_in, space_of};
ghost use Rattle.server_state.specs.Step.{IsKnown};

use crate::devices;
use crate::held::Held;
use crate::state::State;
use area_map::Areas;
use iofd_words::{Attachment, DeviceNo, FileNo, ObjId, Object, ObjectKind, Width};
use object_table::{Kind, ObjectRef, ObjectTable};
use std::alloc::Allocator;

/// What the object is.
fn kind_in<A: Allocator>(held: &Held<A>) -> ObjectKind
    ensures { result ≡ kind_in held.now }
{
    match held {
        Held::Ioas(_) => ObjectKind::Ioas,
        Held::Hwpt {
            ioas,
            width,
            automatic,
        } => ObjectKind::Hwpt {
            ioas: *ioas,
            width: *width,
            automatic: *automatic,
        },
        Held::Device(device) => ObjectKind::Device(*device),
        Held::Access(ioas) => ObjectKind::Access { ioas: *ioas },
    }
}

/// The kind of the file's object of this id, if it has one.
#[tactic(auto, using(crate::proofs::Objects::kind_of_rows))]
pub fn kind_of<A: Allocator>(
    table: &ObjectTable<Held<A>, A>,
    file: FileNo,
    id: ObjId,
) -> Option<ObjectKind>
    ensures { result ≡ objects.kind_of (objects_in table.now) file id }
{
    Some(kind_in(table.value(file, id)?))
}

/// The areas of the file's address space of this id. None where the id is no address space of the file.
#[tactic(auto, using(crate::proofs::Objects::has_ioas_rows, crate::proofs::Objects::areas_at_rows))]
pub fn areas_of<A: Allocator>(
    table: &ObjectTable<Held<A>, A>,
    file: FileNo,
    ioas: ObjId,
) -> Option<&Areas<A>>
    ensures { MatchOption result
        (objects.has_ioas (objects_in table.now) file ioas ≡ false)
        (λ areas. (objects.has_ioas (objects_in table.now) file ioas ≡ true)
        × (areas_at table.now.rows file ioas ≡ areas.now.areas)) }
{
    match table.value(file, ioas)? {
        Held::Ioas(areas) => Some(areas),
        _ => None,
    }
}

/// Whether the attachment is to the file's address space of this id.
pub fn is_attached_to<A: Allocator>(
    table: &ObjectTable<Held<A>, A>,
    file: FileNo,
    ioas: ObjId,
    attachment: &Attachment,
) -> bool
    ensures { result ≡ attachments.is_attached_to (objects_in table.now) file ioas attachment.now }
{
    attachment.file == file && is_table_over(table, attachment, ioas)
}

fn is_table_over<A: Allocator>(
    table: &ObjectTable<Held<A>, A>,
    attachment: &Attachment,
    ioas: ObjId,
) -> bool
    ensures { result ≡ is_over (objects_in table.now) ioas attachment.now }
{
    match kind_of(table, attachment.file, attachment.hwpt) {
        Some(ObjectKind::Hwpt { ioas: over, .. }) => over == ioas,
        _ => false,
    }
}

impl<A: Allocator> State<A> {
    /// Whether the file's address space of this id has a hardware page table. It goes over the file's page tables.
    pub fn has_hwpt(&self, file: FileNo, ioas: ObjId) -> bool
        requires { IsKnown self.now }
        ensures { result ≡ objects.has_hwpt (objects_in self.now.objects) file ioas }
    {
        self.page_tables.has_over(file, ioas)
    }

    /// The automatic hardware page table of this width over the file's address space of this id. It goes over the
    /// file's page tables.
    pub fn automatic_hwpt(&self, file: FileNo, ioas: ObjId, width: Width) -> Option<ObjId>
        requires { IsKnown self.now }
        ensures { result ≡ option_map (λ object. object.id)
            (objects.automatic_hwpt (objects_in self.now.objects) file ioas width) }
    {
        self.page_tables.automatic_over(file, ioas, width)
    }

    /// Whether the file's address space of this id has users: page tables that stand over it, or access objects that
    /// are attached to it. They are counted with it.
    pub fn has_users(&self, file: FileNo, ioas: ObjId) -> bool
        requires { IsKnown self.now }
        ensures { result ≡ (objects.has_hwpt (objects_in self.now.objects) file ioas
            || objects.has_access_to (objects_in self.now.objects) file ioas) }
    {
        match self.objects.users(file, Kind::Ioas, ioas) {
            Ok(users) => users > 0,
            Err(_) => false,
        }
    }

    /// Whether some device translates by the file's page table of this id.
    pub fn has_device_on(&self, file: FileNo, hwpt: ObjId) -> bool
        requires { IsKnown self.now }
        ensures { result ≡ attachments.has_device_on self.now.attachments.items file hwpt }
    {
        match self.objects.users(file, Kind::Hwpt, hwpt) {
            Ok(users) => users > 0,
            Err(_) => false,
        }
    }

    /// The attachment of the device.
    pub fn attachment_of(&self, device: DeviceNo) -> Option<&Attachment>
        requires { IsKnown self.now }
        ensures { option_copied result ≡ attachments.attachment_of self.now.attachments.items device }
    {
        devices::attachment_in(&self.attachments, device)
    }

    /// The object by which the device is bound.
    pub fn binding_of(&self, device: DeviceNo) -> Option<&Object>
        requires { IsKnown self.now }
        ensures { option_copied result ≡ objects.binding_of self.now.bindings.items device }
    {
        devices::binding_in(&self.bindings, device)
    }

    /// The address space to which the device is attached, by file and id.
    pub fn space_of(&self, device: DeviceNo) -> Option<(FileNo, ObjId)>
        requires { IsKnown self.now }
        ensures { result ≡ space_of (objects_in self.now.objects)
            (attachments.attachment_of self.now.attachments.items device) }
    {
        let attachment = self.attachment_of(device)?;
        match kind_of(&self.objects, attachment.file, attachment.hwpt)? {
            ObjectKind::Hwpt { ioas, .. } => Some((attachment.file, ioas)),
            _ => None,
        }
    }
}
