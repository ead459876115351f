//! UNMAP: areas go, or are leaving until devices have flushed and access pins are let go.

ghost use Rattle.std.specs.Prelude.{◌≡◌, None, IfOk};
ghost use Rattle.iofd_steps.specs.After.{changed};
ghost use Rattle.iofd_steps.specs.Answers.{Answers};
ghost use Rattle.iofd_refusals.specs.Checks.{refusal, unmap_checks};
ghost use Rattle.iofd_words.specs.FirstTrue.{first_true};
ghost use Rattle.iofd_words.specs.View.{view};
ghost use Rattle.iofd_words.specs.declared.event.Event.TheVariants as event;
ghost use Rattle.iofd_words.specs.declared.reply.Reply.TheVariants as reply;
ghost use Rattle.journal_audit_world.specs.Decides.{Decides};
ghost use Rattle.journal_audit_world.specs.Kept.{IsKept};
ghost use Rattle.journal_audit_world.specs.Unwritten.{unwritten};

use crate::asked::{areas_meet, is_cut};
use crate::leaving::{
    attached_to, have_bytes, is_everything, leave, pending_errno, remove_touched, touched_tries,
    unmapped_span,
};
use crate::waiting::waits;
use iofd_words::{Cause, Errno, FileNo, NoMemory, Reply, UnmapRequest};
use journal_audit_world::{Numbers, World, keeping, objects, over, pages};
use std::alloc::Allocator;

/// Why it is refused, if it is.
#[tactic(auto, unfolding(iofd_refusals::specs::Checks::unmap_checks))]
pub fn refusal<A: Allocator>(world: &World<A>, file: FileNo, request: UnmapRequest) -> Option<Cause>
    ensures { result ≡ first_true (unmap_checks (view world.now) file request) }
{
    if !world.is_open(file) {
        return Some(Cause::Id);
    }
    if pages::is_above_sum(request.iova.0, request.length) {
        return Some(Cause::Sum);
    }
    if request.length == 0 {
        return Some(Cause::Align);
    }
    if !objects::has_ioas(&world.objects, file, request.ioas) {
        return Some(Cause::Id);
    }
    let asked = unmapped_span(request);
    if !is_everything(request) && !areas_meet(&world.areas, file, request.ioas, asked) {
        return Some(Cause::Span);
    }
    if is_cut(&world.areas, file, request.ioas, asked) {
        return Some(Cause::Span);
    }
    None
}

// Whether so many bytes are a lawful answer.
#[tactic(auto, unfolding(iofd_steps::specs::Answers::Answers))]
fn may_tell_bytes<A: Allocator>(
    at: u64,
    world: &World<A>,
    file: FileNo,
    request: UnmapRequest,
    count: u64,
) -> bool
    requires kept { IsKept at world.now }
    requires granted { refusal {A = A} world.now (event.Unmap file request) ≡ None }
    ensures { Decides result (Answers {A = A} world.now (event.Unmap file request) (reply.Bytes count)) }
{
    !waits(at, world, file, request) && have_bytes(&world.areas, file, request, count)
}

// Whether it is one that this is to be called again.
#[tactic(auto, unfolding(iofd_steps::specs::Answers::Answers))]
fn may_tell_pending<A: Allocator>(
    at: u64,
    world: &World<A>,
    file: FileNo,
    request: UnmapRequest,
    errno: Errno,
) -> bool
    requires kept { IsKept at world.now }
    requires granted { refusal {A = A} world.now (event.Unmap file request) ≡ None }
    ensures { Decides result (Answers {A = A} world.now (event.Unmap file request) (reply.Pending errno)) }
{
    waits(at, world, file, request)
        && errno == pending_errno(touched_tries(&world.areas, file, request))
}

/// Whether the answer is a lawful one, where nothing refuses it.
#[tactic(auto, unfolding(iofd_steps::specs::Answers::Answers))]
pub fn may_answer<A: Allocator>(
    at: u64,
    world: &World<A>,
    file: FileNo,
    request: UnmapRequest,
    reply: Reply,
) -> bool
    requires kept { IsKept at world.now }
    requires granted { refusal {A = A} world.now (event.Unmap file request) ≡ None }
    ensures { Decides result (Answers {A = A} world.now (event.Unmap file request) reply) }
{
    match reply {
        Reply::Bytes(count) => may_tell_bytes(at, world, file, request, count),
        Reply::Pending(errno) => may_tell_pending(at, world, file, request, errno),
        _ => false,
    }
}

/// What comes of it, where nothing refuses it and the answer is lawful, at this position. Its only error is want of
/// memory.
#[tactic(auto, unfolding(iofd_steps::specs::After::changed))]
pub fn change<A: Allocator + Copy>(
    alloc: A,
    at: u64,
    world: &mut World<A>,
    file: FileNo,
    request: UnmapRequest,
    reply: Reply,
) -> Result<(), NoMemory>
    requires kept { IsKept at world.old }
    requires granted { refusal {A = A} world.old (event.Unmap file request) ≡ None }
    requires answered { Answers {A = A} world.old (event.Unmap file request) reply }
    ensures { IfOk result (λ _. unwritten world.new
        ≡ unwritten (changed {A = A} at world.old (event.Unmap file request) reply)) }
{
    match reply {
        Reply::Bytes(count) => remove(alloc, at, world, file, request, count),
        Reply::Pending(errno) => {
            wait(at, world, file, request, errno);
            Ok(())
        }
        _ => Ok(()),
    }
}

// Its areas go, with their memory objects and pins.
#[tactic(auto, unfolding(iofd_steps::specs::After::changed))]
fn remove<A: Allocator + Copy>(
    alloc: A,
    at: u64,
    world: &mut World<A>,
    file: FileNo,
    request: UnmapRequest,
    count: u64,
) -> Result<(), NoMemory>
    requires kept { IsKept at world.old }
    requires granted { refusal {A = A} world.old (event.Unmap file request) ≡ None }
    requires answered { Answers {A = A} world.old (event.Unmap file request) (reply.Bytes count) }
    ensures { IfOk result (λ _. unwritten world.new
        ≡ unwritten (changed {A = A} at world.old (event.Unmap file request) (reply.Bytes count))) }
{
    let span = unmapped_span(request);
    let mut asked = Numbers::new(alloc);
    over::add_meeting(
        &mut asked,
        &world.areas,
        file,
        request.ioas,
        span.first,
        span.last,
    )?;
    remove_touched(&mut world.areas, file, request);
    keeping::keep_used(alloc, &mut world.memory, &world.areas, &asked)?;
    keeping::keep_pinned(
        alloc,
        &mut world.pins,
        &world.objects,
        &world.areas,
        &world.access_pins,
        &asked,
    )
}

// They are leaving, with a try more.
#[tactic(auto, unfolding(iofd_steps::specs::After::changed))]
fn wait<A: Allocator>(
    at: u64,
    world: &mut World<A>,
    file: FileNo,
    request: UnmapRequest,
    errno: Errno,
)
    requires kept { IsKept at world.old }
    ensures { unwritten world.new
        ≡ unwritten (changed {A = A} at world.old (event.Unmap file request) (reply.Pending errno)) }
{
    let attached = attached_to(
        &world.config,
        &world.objects,
        &world.attachments,
        file,
        request.ioas,
    );
    let Some(attached) = attached else {
        // Each attached device is one of the configuration.
        unreachable!()
    };
    let most = touched_tries(&world.areas, file, request);
    leave(&mut world.areas, file, request, &attached, most);
}
