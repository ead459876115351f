//! Frames that a record takes or gives back, found at the cost of a logarithm.

ghost use Rattle.std.specs.Prelude.{◌≡◌, ◌&&◌, ◌||◌, IfOk, nat_lt};
ghost use Rattle.std.specs.List.{list_all, list_any};
ghost use Rattle.iofd_words.specs.Frames.{is_free};
ghost use Rattle.iofd_words.specs.Tables.{are_different, is_among};
ghost use Rattle.iofd_words.specs.declared.numbers.FrameNo.{FrameNo};
ghost use Rattle.journal_audit_tables.specs.Numbers.{has_number};

use iofd_words::{FrameNo, NoMemory, Pin, TableFrame, UserPage};
use journal_audit_world::World;
use std::alloc::Allocator;
use std::collections::BTreeSet;

/// The frames as a set of numbers.
pub(crate) fn set_of<A: Allocator + Copy>(
    alloc: A,
    frames: &[FrameNo],
) -> Result<BTreeSet<u32, A>, NoMemory>
    ensures { IfOk result (λ set. (frame : FrameNo) → has_number set.keys frame.0 ≡ is_among frames.now frame) }
{
    let mut set = BTreeSet::new(alloc);
    for frame in frames {
        set.insert(frame.0)?;
    }
    Ok(set)
}

/// Whether the frame is one of the set.
pub(crate) fn has<A: Allocator>(set: &BTreeSet<u32, A>, frame: FrameNo) -> bool
    ensures { result ≡ has_number set.now.keys frame.0 }
{
    set.contains(&frame.0)
}

// Whether each is there once.
fn are_different<A: Allocator + Copy>(alloc: A, frames: &[FrameNo]) -> Result<bool, NoMemory>
    ensures { IfOk result (λ different. different ≡ are_different frames.now) }
{
    let mut set = BTreeSet::new(alloc);
    for frame in frames {
        if !set.insert(frame.0)? {
            return Ok(false);
        }
    }
    Ok(true)
}

fn have_page<A: Allocator>(set: &BTreeSet<u32, A>, pages: &[UserPage]) -> bool
    ensures { result ≡ list_any (λ page. has_number set.now.keys page.frame.0) pages.now }
{
    for page in pages {
        if has(set, page.frame) {
            return true;
        }
    }
    false
}

fn have_pin<A: Allocator>(set: &BTreeSet<u32, A>, pins: &[Pin]) -> bool
    ensures { result ≡ list_any (λ pin. has_number set.now.keys pin.frame.0) pins.now }
{
    for pin in pins {
        if has(set, pin.frame) {
            return true;
        }
    }
    false
}

fn have_table<A: Allocator>(set: &BTreeSet<u32, A>, tables: &[TableFrame]) -> bool
    ensures { result ≡ list_any (λ table. has_number set.now.keys table.frame.0) tables.now }
{
    for table in tables {
        if has(set, table.frame) {
            return true;
        }
    }
    false
}

// Whether each is a frame of the pool.
fn are_within(pool: u32, frames: &[FrameNo]) -> bool
    ensures { result ≡ list_all (λ frame. nat_lt frame.0 pool) frames.now }
{
    for frame in frames {
        if frame.0 >= pool {
            return false;
        }
    }
    true
}

/// Whether each of the frames is one that nobody reaches, and no two are one. Each list of rows is gone through once.
pub fn are_free<A: Allocator + Copy>(
    alloc: A,
    world: &World<A>,
    frames: &[FrameNo],
) -> Result<bool, NoMemory>
    ensures { let w = world.now in IfOk result (λ free. free
        ≡ (list_all (λ frame. is_free w.settings.pool w.user_pages w.pins w.table_frames frame.0) frames.now
        && are_different frames.now)) }
{
    if !are_within(world.config.pool(), frames) {
        return Ok(false);
    }
    if !are_different(alloc, frames)? {
        return Ok(false);
    }
    let set = set_of(alloc, frames)?;
    Ok(!are_reached(&set, world))
}

// Whether a row names one of the frames.
fn are_reached<A: Allocator>(set: &BTreeSet<u32, A>, world: &World<A>) -> bool
    ensures { let w = world.now in result
        ≡ (list_any (λ page. has_number set.now.keys page.frame.0) w.user_pages
        || list_any (λ pin. has_number set.now.keys pin.frame.0) w.pins
        || list_any (λ table. has_number set.now.keys table.frame.0) w.table_frames) }
{
    have_page(set, &world.user_pages)
        || have_pin(set, &world.pins)
        || have_table(set, &world.table_frames)
}
