//! The objects of files.

ghost use Rattle.std.specs.Prelude.{◌≡◌, ◌==◌, ◌≤◌, ◌∷◌, ◌++◌, ◌&&◌, not, length, take, drop, filter, IfOk};
ghost use Rattle.std.specs.Prelude.{if◌then◌else◌};
ghost use Rattle.iofd_words.specs.Objects.{access_ioas, access_ioas_of, binding_of, comes_before, device_in};
ghost use Rattle.iofd_words.specs.Objects.{has_access};
ghost use Rattle.iofd_words.specs.Objects.{has_access_to, has_hwpt, has_ioas, is_access, is_access_to, is_automatic};
ghost use Rattle.iofd_words.specs.Objects.{is_bound_as, is_bound_device, is_fresh, is_full, is_hwpt, is_hwpt_over};
ghost use Rattle.iofd_words.specs.Objects.{is_hwpt_under, is_object, kind_of};
ghost use Rattle.iofd_words.specs.Objects.{objects_of, with_access, with_object, without_device_object, without_object};
ghost use Rattle.iofd_words.specs.declared.rows.ObjectKind.TheVariants as kind;

use iofd_words::{DeviceNo, FileNo, NoMemory, ObjId, Object, ObjectKind};
use std::alloc::Allocator;

// ---- one object

/// Whether it is the file's object of this id.
pub fn is_object(file: FileNo, id: ObjId, object: Object) -> bool
    ensures { result ≡ is_object file id object }
{
    object.file.0 == file.0 && object.id.0 == id.0
}

/// Whether it is a hardware page table.
pub fn is_hwpt(kind: ObjectKind) -> bool
    ensures { result ≡ is_hwpt kind }
{
    matches!(kind, ObjectKind::Hwpt { .. })
}

/// Whether it is a hardware page table over the address space.
pub fn is_hwpt_over(ioas: ObjId, kind: ObjectKind) -> bool
    ensures { result ≡ is_hwpt_over ioas kind }
{
    match kind {
        ObjectKind::Hwpt { ioas: over, .. } => over.0 == ioas.0,
        _ => false,
    }
}

/// Whether it is a hardware page table that goes with its last device.
pub fn is_automatic(kind: ObjectKind) -> bool
    ensures { result ≡ is_automatic kind }
{
    match kind {
        ObjectKind::Hwpt { automatic, .. } => automatic,
        _ => false,
    }
}

/// Whether it is a bound device.
pub fn is_bound_device(kind: ObjectKind) -> bool
    ensures { result ≡ is_bound_device kind }
{
    matches!(kind, ObjectKind::Device(_))
}

/// Whether it is this device.
pub fn is_bound_as(device: DeviceNo, kind: ObjectKind) -> bool
    ensures { result ≡ is_bound_as device kind }
{
    match kind {
        ObjectKind::Device(bound) => bound.0 == device.0,
        _ => false,
    }
}

/// The device that is bound by it.
pub fn device_in(kind: ObjectKind) -> Option<DeviceNo>
    ensures { result ≡ device_in kind }
{
    match kind {
        ObjectKind::Device(device) => Some(device),
        _ => None,
    }
}

/// Whether it is an access object.
pub fn is_access(kind: ObjectKind) -> bool
    ensures { result ≡ is_access kind }
{
    matches!(kind, ObjectKind::Access { .. })
}

/// The address space that an access object is attached to.
pub fn access_ioas(kind: ObjectKind) -> Option<ObjId>
    ensures { result ≡ access_ioas kind }
{
    match kind {
        ObjectKind::Access { ioas } => ioas,
        _ => None,
    }
}

/// Whether it is an access object that is attached to the address space.
pub fn is_access_to(ioas: ObjId, kind: ObjectKind) -> bool
    ensures { result ≡ is_access_to ioas kind }
{
    match access_ioas(kind) {
        Some(attached) => attached.0 == ioas.0,
        None => false,
    }
}

// ---- all objects

/// The kind of a file's object, if it has one of this id.
pub fn kind_of(objects: &[Object], file: FileNo, id: ObjId) -> Option<ObjectKind>
    ensures { result ≡ kind_of objects.now file id }
{
    for object in objects {
        if is_object(file, id, *object) {
            return Some(object.kind);
        }
    }
    None
}

/// Whether the file has an address space of this id.
pub fn has_ioas(objects: &[Object], file: FileNo, id: ObjId) -> bool
    ensures { result ≡ has_ioas objects.now file id }
{
    match kind_of(objects, file, id) {
        Some(ObjectKind::Ioas) => true,
        _ => false,
    }
}

/// Whether the file has a page table of this id.
pub fn is_hwpt_under(objects: &[Object], file: FileNo, id: ObjId) -> bool
    ensures { result ≡ is_hwpt_under objects.now file id }
{
    match kind_of(objects, file, id) {
        Some(kind) => is_hwpt(kind),
        None => false,
    }
}

/// Whether it is a hardware page table over the file's address space.
pub fn is_hwpt_of(file: FileNo, ioas: ObjId, object: Object) -> bool
    ensures { result ≡ (object.file.0 == file.0 && is_hwpt_over ioas object.kind) }
{
    object.file.0 == file.0 && is_hwpt_over(ioas, object.kind)
}

/// Whether the address space has a hardware page table.
pub fn has_hwpt(objects: &[Object], file: FileNo, ioas: ObjId) -> bool
    ensures { result ≡ has_hwpt objects.now file ioas }
{
    for object in objects {
        if is_hwpt_of(file, ioas, *object) {
            return true;
        }
    }
    false
}

// Whether it is an access object that is attached to the file's address space.
fn is_access_of(file: FileNo, ioas: ObjId, object: Object) -> bool
    ensures { result ≡ (object.file.0 == file.0 && is_access_to ioas object.kind) }
{
    object.file.0 == file.0 && is_access_to(ioas, object.kind)
}

/// Whether an access object is attached to the address space.
pub fn has_access_to(objects: &[Object], file: FileNo, ioas: ObjId) -> bool
    ensures { result ≡ has_access_to objects.now file ioas }
{
    for object in objects {
        if is_access_of(file, ioas, *object) {
            return true;
        }
    }
    false
}

/// Whether the file has an access object of this id.
pub fn has_access(objects: &[Object], file: FileNo, id: ObjId) -> bool
    ensures { result ≡ has_access objects.now file id }
{
    match kind_of(objects, file, id) {
        Some(kind) => is_access(kind),
        None => false,
    }
}

/// The address space that it is attached to.
pub fn access_ioas_of(objects: &[Object], file: FileNo, id: ObjId) -> Option<ObjId>
    ensures { result ≡ access_ioas_of objects.now file id }
{
    match kind_of(objects, file, id) {
        Some(kind) => access_ioas(kind),
        None => None,
    }
}

/// The object by which a device is bound to a file.
pub fn binding_of(objects: &[Object], device: DeviceNo) -> Option<Object>
    ensures { result ≡ binding_of objects.now device }
{
    for object in objects {
        if is_bound_as(device, object.kind) {
            return Some(*object);
        }
    }
    None
}

/// Whether the file has as many objects as it may have.
pub fn is_full(objects: &[Object], file: FileNo) -> bool
    ensures { result ≡ is_full objects.now file }
{
    count_of(objects, file) >= 65535
}

// How many objects the file has.
fn count_of(objects: &[Object], file: FileNo) -> usize
    ensures { result ≡ length (objects_of objects.now file) }
{
    let mut count: usize = 0;
    for object in objects {
        if object.file.0 == file.0 {
            count += 1;
        }
    }
    count
}

/// Whether the id may be given out.
pub fn is_fresh(objects: &[Object], file: FileNo, id: ObjId) -> bool
    ensures { result ≡ is_fresh objects.now file id }
{
    id.0 >= 1 && id.0 <= 0x7fff_ffff && kind_of(objects, file, id).is_none()
}

// ---- objects come and go

// Whether it stands before the other: by its file, and then by its id.
fn comes_before(a: Object, b: Object) -> bool
    ensures { result ≡ comes_before a b }
{
    a.file.0 < b.file.0 || (a.file.0 == b.file.0 && a.id.0 < b.id.0)
}

// Before which of them the object stands.
fn place_of(objects: &[Object], object: Object) -> usize
    ensures within { result ≤ length objects.now }
    ensures placed { take result objects.now ++ object ∷ drop result objects.now ≡ with_object object objects.now }
{
    for (index, other) in objects.iter().enumerate() {
        if comes_before(object, *other) {
            return index;
        }
    }
    objects.len()
}

/// One more object, by rising file and then by rising id. Its only error is want of memory.
pub fn add<A: Allocator>(objects: &mut Vec<Object, A>, object: Object) -> Result<(), NoMemory>
    ensures { IfOk result (λ _. objects.new.items ≡ with_object object objects.old.items) }
{
    let place = place_of(objects, object);
    objects.insert(place, object)?;
    Ok(())
}

/// The file's object of this id goes, if there is one.
pub fn remove<A: Allocator>(objects: &mut Vec<Object, A>, file: FileNo, id: ObjId)
    ensures { objects.new.items ≡ without_object file id objects.old.items }
{
    objects.retain(move |object| !(object.file.0 == file.0 && object.id.0 == id.0));
}

/// The objects of the file go.
pub fn remove_of_file<A: Allocator>(objects: &mut Vec<Object, A>, file: FileNo)
    ensures { objects.new.items ≡ filter (λ object. not (object.file.0 == file.0)) objects.old.items }
{
    objects.retain(move |object| !(object.file.0 == file.0));
}

/// The file's page table of this id goes, if it is an automatic one that no device uses.
pub fn remove_automatic<A: Allocator>(
    objects: &mut Vec<Object, A>,
    file: FileNo,
    id: ObjId,
    is_used: bool,
)
    ensures { objects.new.items ≡ filter (λ object.
        not (is_object file id object && is_automatic object.kind && not is_used)) objects.old.items }
{
    objects.retain(move |object| {
        !(object.file.0 == file.0 && object.id.0 == id.0 && is_automatic(object.kind) && !is_used)
    });
}

/// The file's device of this id goes, if there is one.
pub fn remove_device<A: Allocator>(objects: &mut Vec<Object, A>, file: FileNo, id: ObjId)
    ensures { objects.new.items ≡ without_device_object file id objects.old.items }
{
    objects.retain(move |object| {
        !(object.file.0 == file.0 && object.id.0 == id.0 && is_bound_device(object.kind))
    });
}

/// The file's access object of this id is attached to this address space from now on, or to none.
pub fn attach_access<A: Allocator>(
    objects: &mut Vec<Object, A>,
    file: FileNo,
    id: ObjId,
    ioas: Option<ObjId>,
)
    ensures { objects.new.items ≡ with_access file id ioas objects.old.items }
{
    for object in objects.iter_mut() {
        attach_one(object, file, id, ioas);
    }
}

// The same of one object, if it is that one.
fn attach_one(object: &mut Object, file: FileNo, id: ObjId, ioas: Option<ObjId>)
    ensures { object.new ≡ (if is_object file id object.old && is_access object.old.kind
        then record object.old { kind = kind.Access ioas } else object.old) }
{
    if is_object(file, id, *object) && is_access(object.kind) {
        object.kind = ObjectKind::Access { ioas };
    }
}
