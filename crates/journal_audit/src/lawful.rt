//! One record.

ghost use Rattle.std.specs.Prelude.{◌≡◌, [], None, Some, IsTrue, IfOk};
ghost use Rattle.iofd_steps.specs.Answers.{Answers};
ghost use Rattle.iofd_refusals.specs.Checks as words;
ghost use Rattle.iofd_steps.specs.Run.{Lawful, after};
ghost use Rattle.journal_audit_world.specs.Decides.{Decides};
ghost use Rattle.journal_audit_world.specs.Kept.{IsKept};
ghost use Rattle.journal_audit_world.specs.Unwritten.{unwritten};

use crate::answers::may_answer;
use crate::changes::change;
use crate::refusals::refusal;
use iofd_words::{Cause, NoMemory, Record, Reply};
use journal_audit_events::gone::gone_with;
use journal_audit_tables::coming::coming_with;
use journal_audit_tables::frames::are_free;
use journal_audit_tables::moves::move_tables;
use journal_audit_world::World;
use std::alloc::Allocator;

// Whether the record tells that it was refused for this cause, and moves no frames.
fn is_refused<A: Allocator>(record: &Record<A>, cause: Cause) -> bool
    ensures { Decides result ((record.now.reply ≡ Reply.Refused (record { cause = cause }))
        × ((record.now.taken ≡ []) × (record.now.given ≡ []))) }
{
    match record.reply() {
        Reply::Refused(refusal) => {
            refusal.cause == cause && record.taken().is_empty() && record.given().is_empty()
        }
        _ => false,
    }
}

// Whether a record with a lawful answer, of an event that nothing refuses, moves just the frames that it may. If so the
// world becomes the one after it.
fn go_on<A: Allocator + Copy>(
    alloc: A,
    at: u64,
    world: &mut World<A>,
    record: &Record<A>,
) -> Result<bool, NoMemory>
    requires kept { IsKept at world.old }
    requires granted { words.refusal world.old record.now.event ≡ None }
    requires answered { Answers world.old record.now.event record.now.reply }
    ensures lawful { IfOk result (λ lawful. Decides lawful (Lawful at world.old record.now)) }
    ensures after { IfOk result (λ lawful. IsTrue lawful →
        unwritten world.new ≡ unwritten (after at world.old record.now)) }
{
    let (taken, given) = (record.taken(), record.given());
    if !are_free(alloc, world, taken)? {
        return Ok(false);
    }
    let (event, reply) = (record.event(), record.reply());
    let gone = gone_with(world, event);
    let coming = coming_with(world, event, reply);
    change(alloc, at, world, event, reply)?;
    move_tables(alloc, world, gone, coming, event, reply, taken, given)
}

/// Whether the record is lawful at this position. If it is, the world becomes the one after it. The error is want of
/// memory; the world is in any state then.
pub fn step<A: Allocator + Copy>(
    alloc: A,
    at: u64,
    world: &mut World<A>,
    record: &Record<A>,
) -> Result<bool, NoMemory>
    requires kept { IsKept at world.old }
    ensures lawful { IfOk result (λ lawful. Decides lawful (Lawful at world.old record.now)) }
    ensures after { IfOk result (λ lawful. IsTrue lawful →
        unwritten world.new ≡ unwritten (after at world.old record.now)) }
{
    let event = record.event();
    if let Some(cause) = refusal(alloc, at, world, event)? {
        return Ok(is_refused(record, cause));
    }
    if !may_answer(alloc, at, world, event, record.reply())? {
        return Ok(false);
    }
    go_on(alloc, at, world, record)
}
