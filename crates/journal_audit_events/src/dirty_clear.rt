//! DIRTY_REPORT that clears: tells which pages of a span were written, and takes their marks away.

ghost use Rattle.std.specs.Prelude.{◌≡◌, ℕ, ◌||◌, ◌/◌, not, nat_lt, IfOk};
ghost use Rattle.iofd_steps.specs.After.{changed};
ghost use Rattle.iofd_steps.specs.Answers.{AnswersDirty};
ghost use Rattle.iofd_refusals.specs.Checks.{dirty_checks};
ghost use Rattle.iofd_words.specs.Dirty.{reported_words, tracks};
ghost use Rattle.iofd_words.specs.FirstTrue.{first_true};
ghost use Rattle.iofd_words.specs.View.{view};
ghost use Rattle.iofd_words.specs.declared.event.Event.TheVariants as event;
ghost use Rattle.journal_audit_world.specs.Decides.{Decides};
ghost use Rattle.journal_audit_world.specs.Unwritten.{unwritten};

use iofd_words::{Cause, DirtyRequest, FileNo, NoMemory, PAGE_SIZE, Reply};
use journal_audit_world::{World, objects, pages, tracked};
use std::alloc::Allocator;

// The most pages that a report tells.
const MOST: u64 = 256;

/// Why it is refused, if it is.
#[tactic(auto, unfolding(iofd_refusals::specs::Checks::dirty_checks))]
pub fn refusal<A: Allocator>(world: &World<A>, file: FileNo, request: DirtyRequest) -> Option<Cause>
    ensures { result ≡ first_true (dirty_checks (view world.now) file request) }
{
    if !world.is_open(file) {
        return Some(Cause::Id);
    }
    if !objects::is_hwpt_under(&world.objects, file, request.hwpt) {
        return Some(Cause::Id);
    }
    if pages::is_above_sum(request.iova.0, request.length) {
        return Some(Cause::Sum);
    }
    if request.length == 0
        || !(pages::is_whole(request.length) && pages::is_whole(request.iova.0))
    {
        return Some(Cause::Align);
    }
    if is_untold(world, file, request) {
        return Some(Cause::Tracking);
    }
    None
}

// Whether the page table isn't tracked, or a report doesn't tell so many pages.
fn is_untold<A: Allocator>(world: &World<A>, file: FileNo, request: DirtyRequest) -> bool
    ensures { result
        ≡ (not (tracks world.now.tracked file request.hwpt) || nat_lt 256 (request.length / 4096)) }
{
    !tracked::is_tracked(&world.tracked, file, request.hwpt) || request.length / PAGE_SIZE > MOST
}

/// Whether the answer is a lawful one. Its only error is want of memory.
pub fn may_answer<A: Allocator + Copy>(
    alloc: A,
    world: &World<A>,
    file: FileNo,
    request: DirtyRequest,
    reply: Reply,
) -> Result<bool, NoMemory>
    ensures { IfOk result (λ may.
        Decides may (AnswersDirty (reported_words world.now.tracked file request) reply)) }
{
    let words = tracked::words(alloc, &world.tracked, file, request)?;
    Ok(tells(&words, reply))
}

// Whether the answer tells these words.
fn tells(words: &[u64; 4], reply: Reply) -> bool
    ensures { Decides result (AnswersDirty words.now reply) }
{
    match reply {
        Reply::Dirty(told) => told == *words,
        _ => false,
    }
}

/// What comes of it.
#[tactic(auto, unfolding(iofd_steps::specs::After::changed))]
pub fn change<A: Allocator>(world: &mut World<A>, file: FileNo, request: DirtyRequest, reply: Reply)
    ensures { (at : ℕ) →
        unwritten world.new ≡ unwritten (changed {A = A} at world.old (event.DirtyClear file request) reply) }
{
    if matches!(reply, Reply::Dirty(_)) {
        tracked::clear(&mut world.tracked, file, request);
    }
}
