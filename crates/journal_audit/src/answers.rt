//! What events may answer.

ghost use Rattle.std.specs.Prelude.{◌≡◌, None, IfOk};
ghost use Rattle.iofd_steps.specs.Answers.{Answers};
ghost use Rattle.iofd_refusals.specs.Checks as words;
ghost use Rattle.journal_audit_world.specs.Decides.{Decides};
ghost use Rattle.journal_audit_world.specs.Kept.{IsKept};

use crate::{copy, map};
use iofd_words::{Event, NoMemory, Reply};
use journal_audit_events::answers::{is_done, is_fresh_id};
use journal_audit_events::events;
use journal_audit_maps::unmap;
use journal_audit_page_tables::answers::is_attached;
use journal_audit_world::World;
use std::alloc::Allocator;

/// Whether the answer is a lawful one at this position, where nothing refuses the event.
#[tactic(auto, unfolding(iofd_steps::specs::Answers::Answers))]
pub fn may_answer<A: Allocator + Copy>(
    alloc: A,
    at: u64,
    world: &World<A>,
    event: &Event<A>,
    reply: Reply,
) -> Result<bool, NoMemory>
    requires kept { IsKept at world.now }
    requires granted { words.refusal world.now event.now ≡ None }
    ensures { IfOk result (λ may. Decides may (Answers world.now event.now reply)) }
{
    match event {
        Event::Map(file, request) => map::may_answer(alloc, world, *file, *request, reply),
        Event::Copy(file, request) => copy::may_answer(alloc, world, *file, *request, reply),
        Event::Unmap(file, request) => Ok(unmap::may_answer(at, world, *file, *request, reply)),
        Event::HwptAlloc(file, _) => Ok(is_fresh_id(world, *file, reply)),
        Event::Attach(device, pt_id) => Ok(is_attached(world, *device, *pt_id, reply)),
        Event::AccessPin(_, _, _) => Ok(is_done(reply)),
        _ => events::may_answer(alloc, world, event, reply),
    }
}
