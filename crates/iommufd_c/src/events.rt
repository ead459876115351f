//! Events of users, files and access objects: each call makes one record, or none.

ghost use Rattle.std.specs.Prelude.{◌≡◌, ◌==◌, false, not};
ghost use Rattle.guarded_core.specs.OfPort.{event_of_port};
ghost use Rattle.iommufd_c.specs.Exports.{IsCalled, IsCalledWith};

use crate::handle::{Call, Handle};
use crate::outcome::{NOTHING, Outcome, call_outcome};
use crate::status::{EINVAL, call_status};
use iofd_words::{Burst, DeviceNo, Event, FileNo, Iova, ObjId, PinRequest, UserNo};
use std::alloc::Global;

// Applies an event by a caller's handle.
fn call(alloc: Global, handle: &mut Handle, event: Event, out: &mut Outcome) -> i32
    requires { event_of_port event ≡ false }
    ensures { IsCalled event handle.old.client result out.new handle.new.client }
{
    let told = handle.of_caller(alloc, Call { event });
    *out = call_outcome(&told);
    call_status(&told)
}

/// Gives a user a page at this address, which begins one. The value is the number of its frame.
#[unsafe(no_mangle)]
pub extern "C" fn defnulk_raw_user_map(
    alloc: Global,
    handle: &mut Handle,
    user: u16,
    va: u64,
    out: &mut Outcome,
) -> i32
    ensures { IsCalled (Event.UserMap (record { 0 = user }) va) handle.old.client result out.new handle.new.client }
{
    call(alloc, handle, Event::UserMap(UserNo(user), va), out)
}

/// Takes a page out of a user's memory.
#[unsafe(no_mangle)]
pub extern "C" fn defnulk_raw_user_unmap(
    alloc: Global,
    handle: &mut Handle,
    user: u16,
    va: u64,
    out: &mut Outcome,
) -> i32
    ensures { IsCalled (Event.UserUnmap (record { 0 = user }) va) handle.old.client result out.new handle.new.client }
{
    call(alloc, handle, Event::UserUnmap(UserNo(user), va), out)
}

/// A user writes 1 to 64 bytes of its own memory, in one page. Other lengths are EINVAL, and nothing is called.
#[unsafe(no_mangle)]
pub extern "C" fn defnulk_raw_user_write(
    alloc: Global,
    handle: &mut Handle,
    user: u16,
    va: u64,
    bytes: &[u8],
    out: &mut Outcome,
) -> i32
    ensures { IsCalledWith bytes.now (Event.UserWrite (record { 0 = user }) va bytes.now) handle.old.client result
        out.new handle.new.client }
{
    let Some(burst) = Burst::new(bytes) else {
        *out = NOTHING;
        return EINVAL;
    };
    call(
        alloc,
        handle,
        Event::UserWrite(UserNo(user), va, burst),
        out,
    )
}

/// Binds a device to a file. The value is the id of its object.
#[unsafe(no_mangle)]
pub extern "C" fn defnulk_raw_bind(
    alloc: Global,
    handle: &mut Handle,
    file: u16,
    device: u16,
    out: &mut Outcome,
) -> i32
    ensures { IsCalled (Event.Bind (record { 0 = file }) (record { 0 = device })) handle.old.client result out.new
        handle.new.client }
{
    call(
        alloc,
        handle,
        Event::Bind(FileNo(file), DeviceNo(device)),
        out,
    )
}

/// Takes the device of this id away from its file.
#[unsafe(no_mangle)]
pub extern "C" fn defnulk_raw_unbind(
    alloc: Global,
    handle: &mut Handle,
    file: u16,
    id: u32,
    out: &mut Outcome,
) -> i32
    ensures { IsCalled (Event.Unbind (record { 0 = file }) (record { 0 = id })) handle.old.client result out.new
        handle.new.client }
{
    call(alloc, handle, Event::Unbind(FileNo(file), ObjId(id)), out)
}

/// Closes a file.
#[unsafe(no_mangle)]
pub extern "C" fn defnulk_raw_close_file(
    alloc: Global,
    handle: &mut Handle,
    file: u16,
    out: &mut Outcome,
) -> i32
    ensures { IsCalled (Event.Close (record { 0 = file })) handle.old.client result out.new handle.new.client }
{
    call(alloc, handle, Event::Close(FileNo(file)), out)
}

/// Makes an access object. The value is its id.
#[unsafe(no_mangle)]
pub extern "C" fn defnulk_raw_access_create(
    alloc: Global,
    handle: &mut Handle,
    file: u16,
    out: &mut Outcome,
) -> i32
    ensures { IsCalled (Event.AccessCreate (record { 0 = file })) handle.old.client result out.new handle.new.client }
{
    call(alloc, handle, Event::AccessCreate(FileNo(file)), out)
}

/// Attaches an access object to an address space.
#[unsafe(no_mangle)]
pub extern "C" fn defnulk_raw_access_attach(
    alloc: Global,
    handle: &mut Handle,
    file: u16,
    access: u32,
    ioas: u32,
    out: &mut Outcome,
) -> i32
    ensures { IsCalled (Event.AccessAttach (record { 0 = file }) (record { 0 = access }) (record { 0 = ioas }))
        handle.old.client result out.new handle.new.client }
{
    call(
        alloc,
        handle,
        Event::AccessAttach(FileNo(file), ObjId(access), ObjId(ioas)),
        out,
    )
}

/// Ends an access object's attachment.
#[unsafe(no_mangle)]
pub extern "C" fn defnulk_raw_access_detach(
    alloc: Global,
    handle: &mut Handle,
    file: u16,
    access: u32,
    out: &mut Outcome,
) -> i32
    ensures { IsCalled (Event.AccessDetach (record { 0 = file }) (record { 0 = access })) handle.old.client result
        out.new handle.new.client }
{
    call(
        alloc,
        handle,
        Event::AccessDetach(FileNo(file), ObjId(access)),
        out,
    )
}

// Which pages are pinned.
fn pages(iova: u64, length: u64, write: bool) -> PinRequest
    ensures { result ≡ record { iova = record { 0 = iova }; length = length; write = write } }
{
    PinRequest {
        iova: Iova(iova),
        length,
        write,
    }
}

/// Pins pages of the address space of an access object.
#[unsafe(no_mangle)]
pub extern "C" fn defnulk_raw_access_pin(
    alloc: Global,
    handle: &mut Handle,
    file: u16,
    access: u32,
    iova: u64,
    length: u64,
    write: u8,
    out: &mut Outcome,
) -> i32
    ensures { IsCalled (Event.AccessPin (record { 0 = file }) (record { 0 = access }) (record {
      iova = record { 0 = iova };
      length = length;
      write = not (write == 0);
    })) handle.old.client result out.new handle.new.client }
{
    let request = pages(iova, length, write != 0);
    call(
        alloc,
        handle,
        Event::AccessPin(FileNo(file), ObjId(access), request),
        out,
    )
}

/// Takes one of an access object's pins of just these pages away.
#[unsafe(no_mangle)]
pub extern "C" fn defnulk_raw_access_unpin(
    alloc: Global,
    handle: &mut Handle,
    file: u16,
    access: u32,
    iova: u64,
    length: u64,
    write: u8,
    out: &mut Outcome,
) -> i32
    ensures { IsCalled (Event.AccessUnpin (record { 0 = file }) (record { 0 = access }) (record {
      iova = record { 0 = iova };
      length = length;
      write = not (write == 0);
    })) handle.old.client result out.new handle.new.client }
{
    let request = pages(iova, length, write != 0);
    call(
        alloc,
        handle,
        Event::AccessUnpin(FileNo(file), ObjId(access), request),
        out,
    )
}

/// Writes 1 to 64 bytes at an address that one of an access object's pins covers. Other lengths are EINVAL, and nothing
/// is called.
#[unsafe(no_mangle)]
pub extern "C" fn defnulk_raw_access_write(
    alloc: Global,
    handle: &mut Handle,
    file: u16,
    access: u32,
    iova: u64,
    bytes: &[u8],
    out: &mut Outcome,
) -> i32
    ensures { IsCalledWith bytes.now (Event.AccessWrite (record { 0 = file }) (record { 0 = access })
        (record { 0 = iova }) bytes.now) handle.old.client result out.new handle.new.client }
{
    let Some(burst) = Burst::new(bytes) else {
        *out = NOTHING;
        return EINVAL;
    };
    call(
        alloc,
        handle,
        Event::AccessWrite(FileNo(file), ObjId(access), Iova(iova), burst),
        out,
    )
}
