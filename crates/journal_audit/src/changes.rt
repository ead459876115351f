//! What comes of events.

ghost use Rattle.std.specs.Prelude.{◌≡◌, None, IfOk};
ghost use Rattle.iofd_steps.specs.After.{changed};
ghost use Rattle.iofd_steps.specs.Answers.{Answers};
ghost use Rattle.iofd_refusals.specs.Checks as words;
ghost use Rattle.journal_audit_world.specs.Kept.{IsKept};
ghost use Rattle.journal_audit_world.specs.Unwritten.{unwritten};

use crate::{copy, map};
use iofd_words::{Event, NoMemory, Reply};
use journal_audit_events::events;
use journal_audit_maps::{access_pin, unmap};
use journal_audit_page_tables::{attach, hwpt_alloc};
use journal_audit_world::World;
use std::alloc::Allocator;

/// What comes of the event at this position, where nothing refuses it and the answer is lawful. The error is want of
/// memory; the world is in any state then.
pub fn change<A: Allocator + Copy>(
    alloc: A,
    at: u64,
    world: &mut World<A>,
    event: &Event<A>,
    reply: Reply,
) -> Result<(), NoMemory>
    requires kept { IsKept at world.old }
    requires granted { words.refusal world.old event.now ≡ None }
    requires answered { Answers world.old event.now reply }
    ensures { IfOk result (λ _. unwritten world.new ≡ unwritten (changed at world.old event.now reply)) }
{
    match event {
        Event::Map(file, request) => map::change(alloc, at, world, *file, *request, reply),
        Event::Copy(file, request) => copy::change(alloc, at, world, *file, *request, reply),
        Event::Unmap(file, request) => unmap::change(alloc, at, world, *file, *request, reply),
        Event::HwptAlloc(file, request) => {
            hwpt_alloc::change(alloc, at, world, *file, *request, reply)
        }
        Event::Attach(device, pt_id) => attach::change(alloc, at, world, *device, *pt_id, reply),
        Event::AccessPin(file, id, request) => {
            access_pin::change(alloc, at, world, *file, *id, *request, reply)
        }
        _ => events::change(alloc, at, world, event, reply),
    }
}
