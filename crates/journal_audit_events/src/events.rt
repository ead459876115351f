//! Each event: why it is refused, what it may answer, and what comes of it.

ghost use Rattle.std.specs.Prelude.{◌≡◌, None, true, IfOk};
ghost use Rattle.iofd_steps.specs.After.{changed};
ghost use Rattle.iofd_steps.specs.Answers.{Answers};
ghost use Rattle.iofd_refusals.specs.Checks as words;
ghost use Rattle.journal_audit_events.specs.Served.{is_served, needs_none};
ghost use Rattle.journal_audit_world.specs.Decides.{Decides};
ghost use Rattle.journal_audit_world.specs.Kept.{IsKept};
ghost use Rattle.journal_audit_world.specs.Unwritten.{unwritten};

use crate::answers::{is_done, is_free_frame, is_fresh_id};
use crate::{
    access_attach, access_create, access_detach, access_unpin, access_write, allow_iovas, close,
    destroy, detach, device_write, devices, dirty_clear, dirty_enable, ioas_alloc, user_memory,
};
use iofd_words::{Cause, Event, NoMemory, Reply};
use journal_audit_world::World;
use std::alloc::Allocator;

/// Why it is refused, if it is.
pub fn refusal<A: Allocator>(world: &World<A>, event: &Event<A>) -> Option<Cause>
    requires { is_served event.now ≡ true }
    ensures { result ≡ words.refusal world.now event.now }
{
    match event {
        Event::IoasAlloc(file) => ioas_alloc::refusal(world, *file),
        Event::AllowIovas(file, ioas, ranges) => {
            allow_iovas::refusal(world, *file, *ioas, ranges.as_slice())
        }
        Event::Destroy(file, id) => destroy::refusal(world, *file, *id),
        Event::Close(file) => close::refusal(world, *file),
        Event::UserMap(user, va) => user_memory::map_refusal(world, *user, *va),
        Event::UserUnmap(user, va) => user_memory::unmap_refusal(world, *user, *va),
        Event::UserWrite(user, va, bytes) => user_memory::write_refusal(world, *user, *va, *bytes),
        Event::Bind(file, device) => devices::bind_refusal(world, *file, *device),
        Event::Unbind(file, id) => devices::unbind_refusal(world, *file, *id),
        Event::Detach(device) => detach::refusal(world, *device),
        Event::Flush(device) => devices::flush_refusal(world, *device),
        Event::DeviceWrite(device, iova, bytes) => {
            device_write::refusal(world, *device, *iova, *bytes)
        }
        Event::AccessCreate(file) => access_create::refusal(world, *file),
        Event::AccessAttach(file, id, ioas) => access_attach::refusal(world, *file, *id, *ioas),
        Event::AccessDetach(file, id) => access_detach::refusal(world, *file, *id),
        Event::AccessUnpin(file, id, request) => access_unpin::refusal(world, *file, *id, *request),
        Event::AccessWrite(file, id, iova, bytes) => {
            access_write::refusal(world, *file, *id, *iova, *bytes)
        }
        Event::DirtyEnable(file, hwpt, _) => dirty_enable::refusal(world, *file, *hwpt),
        Event::DirtyClear(file, request) => dirty_clear::refusal(world, *file, *request),
        _ => unreachable!(),
    }
}

/// Whether the answer is a lawful one, where nothing refuses the event. Its only error is want of memory.
#[tactic(auto, unfolding(iofd_steps::specs::Answers::Answers))]
pub fn may_answer<A: Allocator + Copy>(
    alloc: A,
    world: &World<A>,
    event: &Event<A>,
    reply: Reply,
) -> Result<bool, NoMemory>
    requires { is_served event.now ≡ true }
    ensures { IfOk result (λ may. Decides may (Answers world.now event.now reply)) }
{
    match event {
        Event::IoasAlloc(file) | Event::AccessCreate(file) | Event::Bind(file, _) => {
            Ok(is_fresh_id(world, *file, reply))
        }
        Event::UserMap(_, _) => Ok(is_free_frame(world, reply)),
        Event::DeviceWrite(device, iova, bytes) => {
            Ok(device_write::may_answer(world, *device, *iova, *bytes, reply))
        }
        Event::DirtyClear(file, request) => {
            dirty_clear::may_answer(alloc, world, *file, *request, reply)
        }
        _ => Ok(is_done(reply)),
    }
}

/// What comes of it at this position, where nothing refuses it. The error is want of memory; the world is in any state
/// then.
pub fn change<A: Allocator + Copy>(
    alloc: A,
    at: u64,
    world: &mut World<A>,
    event: &Event<A>,
    reply: Reply,
) -> Result<(), NoMemory>
    requires served { is_served event.now ≡ true }
    requires kept { IsKept at world.old }
    requires granted { words.refusal world.old event.now ≡ None }
    ensures { IfOk result (λ _. unwritten world.new ≡ unwritten (changed at world.old event.now reply)) }
{
    match event {
        Event::Destroy(file, id) => destroy::change(alloc, at, world, *file, *id, reply),
        Event::Close(file) => close::change(alloc, at, world, *file, reply),
        Event::Detach(device) => detach::change(alloc, at, world, *device, reply),
        Event::AccessUnpin(file, id, request) => {
            access_unpin::change(alloc, at, world, *file, *id, *request, reply)
        }
        Event::IoasAlloc(file) => ioas_alloc::change(world, *file, reply),
        Event::AllowIovas(file, ioas, ranges) => {
            allow_iovas::change(alloc, world, *file, *ioas, ranges.as_slice(), reply)
        }
        Event::UserMap(user, va) => user_memory::map_change(world, *user, *va, reply),
        Event::Bind(file, device) => devices::bind_change(world, *file, *device, reply),
        Event::AccessCreate(file) => access_create::change(world, *file, reply),
        Event::DeviceWrite(device, iova, _) => device_write::change(world, *device, *iova, reply),
        Event::DirtyEnable(file, hwpt, on) => {
            dirty_enable::change(alloc, world, *file, *hwpt, *on, reply)
        }
        _ => {
            change_in_place(at, world, event, reply);
            Ok(())
        }
    }
}

// The events that take no memory.
fn change_in_place<A: Allocator>(at: u64, world: &mut World<A>, event: &Event<A>, reply: Reply)
    requires served { needs_none event.now ≡ true }
    ensures { unwritten world.new ≡ unwritten (changed at world.old event.now reply) }
{
    match event {
        Event::UserUnmap(user, va) => user_memory::unmap_change(world, *user, *va, reply),
        Event::Unbind(file, id) => devices::unbind_change(world, *file, *id, reply),
        Event::Flush(device) => devices::flush_change(world, *device, reply),
        Event::AccessAttach(file, id, ioas) => {
            access_attach::change(world, *file, *id, *ioas, reply)
        }
        Event::AccessDetach(file, id) => access_detach::change(world, *file, *id, reply),
        Event::DirtyClear(file, request) => dirty_clear::change(world, *file, *request, reply),
        Event::UserWrite(_, _, _) => {}
        Event::AccessWrite(_, _, _, _) => {}
        _ => unreachable!(),
    }
}
