//! What comes with an event for which page tables need tables.

ghost use Rattle.std.specs.Prelude.{◌≡◌, ◌==◌, ◌&&◌, IfOk};
ghost use Rattle.iofd_words.specs.Objects.{automatic_hwpt, device_under, is_automatic_over};
ghost use Rattle.journal_audit_tables.specs.Coming.{ComingFits, allocated, attached, attached_to, coming_with, mapped};
ghost use Rattle.journal_audit_tables.specs.Coming.{missing_with};

use crate::missing;
use crate::place::{Missing, Pages};
use iofd_words::{
    DeviceNo, Event, FileNo, HwptRequest, Iova, NoMemory, ObjId, Object, ObjectKind, PAGE_SIZE,
    Reply, Width,
};
use journal_audit_world::{World, objects};
use std::alloc::Allocator;

/// What comes for which page tables need tables.
#[derive(Clone, Copy)]
pub enum Coming {
    Nothing,
    /// A live area of so many bytes.
    Area {
        file: FileNo,
        ioas: ObjId,
        iova: Iova,
        length: u64,
    },
    /// A page table over the address space.
    PageTable {
        file: FileNo,
        hwpt: ObjId,
        ioas: ObjId,
        width: Width,
    },
}

/// What comes with the event, by the world before it and its answer.
pub fn coming_with<A: Allocator>(world: &World<A>, event: &Event<A>, reply: Reply) -> Coming
    ensures { result ≡ coming_with world.now event.now reply }
{
    match event {
        Event::Map(file, request) => mapped(*file, request.ioas, request.length, reply),
        Event::Copy(file, request) => mapped(*file, request.dst_ioas, request.length, reply),
        Event::HwptAlloc(file, request) => allocated(world, *file, *request, reply),
        Event::Attach(device, pt_id) => attached(world, *device, *pt_id, reply),
        _ => Coming::Nothing,
    }
}

fn mapped(file: FileNo, ioas: ObjId, length: u64, reply: Reply) -> Coming
    ensures { result ≡ mapped file ioas length reply }
{
    match reply {
        Reply::Iova(iova) => Coming::Area {
            file,
            ioas,
            iova,
            length,
        },
        _ => Coming::Nothing,
    }
}

fn allocated<A: Allocator>(
    world: &World<A>,
    file: FileNo,
    request: HwptRequest,
    reply: Reply,
) -> Coming
    ensures { result ≡ allocated world.now file request reply }
{
    let Reply::Id(id) = reply else {
        return Coming::Nothing;
    };
    let Some(device) = device_under(&world.objects, file, request.device) else {
        return Coming::Nothing;
    };
    match world.config.device(device) {
        Some(settings) => Coming::PageTable {
            file,
            hwpt: id,
            ioas: request.ioas,
            width: settings.width(),
        },
        None => Coming::Nothing,
    }
}

/// The device that the file has under the id.
pub fn device_under(objects: &[Object], file: FileNo, id: ObjId) -> Option<DeviceNo>
    ensures { result ≡ device_under objects.now file id }
{
    objects::device_in(objects::kind_of(objects, file, id)?)
}

fn attached<A: Allocator>(world: &World<A>, device: DeviceNo, pt_id: ObjId, reply: Reply) -> Coming
    ensures { result ≡ attached world.now device pt_id reply }
{
    let Reply::Id(id) = reply else {
        return Coming::Nothing;
    };
    let Some(bound) = objects::binding_of(&world.objects, device) else {
        return Coming::Nothing;
    };
    match world.config.device(device) {
        Some(settings) => attached_to(&world.objects, bound.file, pt_id, id, settings.width()),
        None => Coming::Nothing,
    }
}

// A device of this width is attached to what the file has under an id.
fn attached_to(objects: &[Object], file: FileNo, pt_id: ObjId, id: ObjId, width: Width) -> Coming
    ensures { result ≡ attached_to objects.now file pt_id id width }
{
    if objects::has_ioas(objects, file, pt_id)
        && automatic_hwpt(objects, file, pt_id, width).is_none()
    {
        return Coming::PageTable {
            file,
            hwpt: id,
            ioas: pt_id,
            width,
        };
    }
    Coming::Nothing
}

/// The automatic page table of this width over the address space.
pub fn automatic_hwpt(objects: &[Object], file: FileNo, ioas: ObjId, width: Width) -> Option<Object>
    ensures { result ≡ automatic_hwpt objects.now file ioas width }
{
    for object in objects {
        if is_automatic_of(file, ioas, width, *object) {
            return Some(*object);
        }
    }
    None
}

// Whether it is one of the file.
fn is_automatic_of(file: FileNo, ioas: ObjId, width: Width, object: Object) -> bool
    ensures { result ≡ (object.file.0 == file.0 && is_automatic_over ioas width object.kind) }
{
    object.file.0 == file.0 && is_automatic_over(ioas, width, object.kind)
}

fn is_automatic_over(ioas: ObjId, width: Width, kind: ObjectKind) -> bool
    ensures { result ≡ is_automatic_over ioas width kind }
{
    match kind {
        ObjectKind::Hwpt {
            ioas: over,
            width: of,
            automatic,
        } => over.0 == ioas.0 && automatic && of.bits() == width.bits(),
        _ => false,
    }
}

/// The tables that are missing once it has come, where none was missing before.
pub fn missing_with<A: Allocator + Copy>(
    alloc: A,
    world: &World<A>,
    coming: Coming,
) -> Result<Vec<Missing, A>, NoMemory>
    requires { ComingFits coming }
    ensures { let w = world.now in IfOk result (λ missing. missing.items
        ≡ missing_with coming w.objects w.areas w.table_frames) }
{
    match coming {
        Coming::Nothing => Ok(Vec::new(alloc)),
        Coming::Area {
            file,
            ioas,
            iova,
            length,
        } => {
            let pages = Pages {
                first: iova.0 / PAGE_SIZE,
                count: length / PAGE_SIZE,
            };
            missing::missing_over(
                alloc,
                &world.table_frames,
                &world.objects,
                file,
                ioas,
                pages,
            )
        }
        Coming::PageTable {
            file,
            hwpt,
            ioas,
            width,
        } => missing::missing_in_areas(
            alloc,
            &world.table_frames,
            &world.areas,
            file,
            ioas,
            hwpt,
            width,
        ),
    }
}
