//! UserMap, UserUnmap and UserWrite: a user gets a page, gives one up, and writes its own memory.

ghost use Rattle.std.specs.Prelude.{◌≡◌, ℕ, IfOk};
ghost use Rattle.iofd_steps.specs.After.{changed};
ghost use Rattle.iofd_refusals.specs.Checks.{user_map_checks, user_unmap_checks, user_write_checks};
ghost use Rattle.iofd_words.specs.FirstTrue.{first_true};
ghost use Rattle.iofd_words.specs.View.{view};
ghost use Rattle.iofd_words.specs.declared.event.Event.TheVariants as event;
ghost use Rattle.journal_audit_world.specs.Unwritten.{unwritten};

use iofd_words::{Burst, Cause, NoMemory, Reply, UserNo, UserPage};
use journal_audit_world::{World, frames, pages};
use std::alloc::Allocator;

/// Why UserMap is refused, if it is.
#[tactic(auto, unfolding(iofd_refusals::specs::Checks::user_map_checks))]
pub fn map_refusal<A: Allocator>(world: &World<A>, user: UserNo, va: u64) -> Option<Cause>
    ensures { result ≡ first_true (user_map_checks (view world.now) user va) }
{
    if !world.config.has_user(user) {
        return Some(Cause::Id);
    }
    if pages::is_no_page(va) {
        return Some(Cause::Align);
    }
    if frames::frame_at(&world.user_pages, user, pages::page_of(va)).is_some() {
        return Some(Cause::Overlap);
    }
    if world.free_count() == 0 {
        return Some(Cause::Frames);
    }
    None
}

/// What comes of UserMap. Its only error is want of memory.
#[tactic(auto, unfolding(iofd_steps::specs::After::changed))]
pub fn map_change<A: Allocator>(
    world: &mut World<A>,
    user: UserNo,
    va: u64,
    reply: Reply,
) -> Result<(), NoMemory>
    ensures { IfOk result (λ _. (at : ℕ) →
        unwritten world.new ≡ unwritten (changed {A = A} at world.old (event.UserMap user va) reply)) }
{
    let Reply::Frame(frame) = reply else {
        return Ok(());
    };
    let page = pages::page_of(va);
    world.user_pages.push(UserPage { user, page, frame })?;
    Ok(())
}

/// Why UserUnmap is refused, if it is.
#[tactic(auto, unfolding(iofd_refusals::specs::Checks::user_unmap_checks))]
pub fn unmap_refusal<A: Allocator>(world: &World<A>, user: UserNo, va: u64) -> Option<Cause>
    ensures { result ≡ first_true (user_unmap_checks (view world.now) user va) }
{
    if !world.config.has_user(user) {
        return Some(Cause::Id);
    }
    if pages::is_no_page(va) {
        return Some(Cause::Align);
    }
    if frames::frame_at(&world.user_pages, user, pages::page_of(va)).is_none() {
        return Some(Cause::Absent);
    }
    None
}

/// What comes of UserUnmap.
#[tactic(auto, unfolding(iofd_steps::specs::After::changed))]
pub fn unmap_change<A: Allocator>(world: &mut World<A>, user: UserNo, va: u64, reply: Reply)
    ensures { (at : ℕ) →
        unwritten world.new ≡ unwritten (changed {A = A} at world.old (event.UserUnmap user va) reply) }
{
    if matches!(reply, Reply::Done) {
        frames::remove_page(&mut world.user_pages, user, pages::page_of(va));
    }
}

/// Why UserWrite is refused, if it is.
#[tactic(auto, unfolding(iofd_refusals::specs::Checks::user_write_checks))]
pub fn write_refusal<A: Allocator>(
    world: &World<A>,
    user: UserNo,
    va: u64,
    bytes: Burst,
) -> Option<Cause>
    ensures { result ≡ first_true (user_write_checks (view world.now) user va bytes) }
{
    if !world.config.has_user(user) {
        return Some(Cause::Id);
    }
    if pages::crosses(va, bytes.as_slice().len()) {
        return Some(Cause::Cross);
    }
    if frames::frame_at(&world.user_pages, user, pages::page_of(va)).is_none() {
        return Some(Cause::Absent);
    }
    None
}
