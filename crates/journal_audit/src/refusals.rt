//! Why events are refused.

ghost use Rattle.std.specs.Prelude.{◌≡◌, IfOk};
ghost use Rattle.iofd_refusals.specs.Checks as words;
ghost use Rattle.journal_audit_world.specs.Kept.{IsKept};

use crate::{copy, map};
use iofd_words::{Cause, Event, NoMemory};
use journal_audit_events::events;
use journal_audit_maps::{access_pin, unmap};
use journal_audit_page_tables::{attach, hwpt_alloc};
use journal_audit_world::World;
use std::alloc::Allocator;

/// Why the event is refused at this position, if it is.
pub fn refusal<A: Allocator + Copy>(
    alloc: A,
    at: u64,
    world: &World<A>,
    event: &Event<A>,
) -> Result<Option<Cause>, NoMemory>
    requires kept { IsKept at world.now }
    ensures { IfOk result (λ cause. cause ≡ words.refusal world.now event.now) }
{
    match event {
        Event::Map(file, request) => map::refusal(alloc, at, world, *file, *request),
        Event::Copy(file, request) => copy::refusal(alloc, at, world, *file, *request),
        Event::Unmap(file, request) => Ok(unmap::refusal(world, *file, *request)),
        Event::HwptAlloc(file, request) => hwpt_alloc::refusal(alloc, at, world, *file, *request),
        Event::Attach(device, pt_id) => attach::refusal(alloc, at, world, *device, *pt_id),
        Event::AccessPin(file, id, request) => {
            access_pin::refusal(alloc, at, world, *file, *id, *request)
        }
        _ => Ok(events::refusal(world, event)),
    }
}
