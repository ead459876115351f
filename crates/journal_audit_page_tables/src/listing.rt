//! The pages of a memory object that a page table would pin, listed until one isn't in its user's memory.

ghost use Rattle.std.specs.Prelude.{◌≡◌, ◌≤◌, ◌+◌, ◌^◌, ◌∷◌, [], IfOk, if◌then◌else◌};
ghost use Rattle.iofd_words.specs.Pages.{page_of};
ghost use Rattle.iofd_words.specs.Pins.{pages_of};
ghost use Rattle.journal_audit_world.specs.Keys.{has_pair};
ghost use Rattle.journal_audit_page_tables.specs.PageSets.{frame_in};
ghost use Rattle.journal_audit_page_tables.specs.Listed.{Listed, own_frame, unpinned};

use iofd_words::{FrameNo, MemoryObject, NoMemory, PAGE_SIZE, Pin, UserNo};
use std::alloc::Allocator;
use std::collections::{BTreeMap, BTreeSet};

// Whether the page is pinned.
fn is_pinned<A: Allocator>(pinned: &BTreeSet<(u64, u64), A>, memory: u64, index: u64) -> bool
    ensures { result ≡ has_pair pinned.now.keys memory index }
{
    pinned.contains(&(memory, index))
}

// The frame of the user's page.
fn frame_in<A: Allocator>(
    frames: &BTreeMap<(u16, u64), FrameNo, A>,
    user: UserNo,
    page: u64,
) -> Option<FrameNo>
    ensures { result ≡ frame_in frames.now user page }
{
    frames.get(&(user.0, page)).copied()
}

// One page more: whether it is pinned or there. A pin is added only where it wasn't pinned.
fn list_page<A: Allocator>(
    pins: &mut Vec<Pin, A>,
    memory: u64,
    index: u64,
    is_pinned: bool,
    frame: Option<FrameNo>,
) -> Result<bool, NoMemory>
    ensures { IfOk result (λ whole. Listed (λ page. frame) pins.old.items pins.new.items whole
        (if is_pinned then [] else record { memory = memory; index = index } ∷ [])) }
{
    if is_pinned {
        return Ok(true);
    }
    let Some(frame) = frame else {
        return Ok(false);
    };
    pins.push(Pin {
        memory,
        index,
        frame,
    })?;
    Ok(true)
}

/// The pages of the memory object that aren't pinned: whether each is in its user's memory, and if so their pins, after
/// those before. The first that isn't there ends the list, so that it is no longer than the pages that are there or
/// pinned.
pub fn list_pages<A: Allocator>(
    pins: &mut Vec<Pin, A>,
    pinned: &BTreeSet<(u64, u64), A>,
    frames: &BTreeMap<(u16, u64), FrameNo, A>,
    object: MemoryObject,
) -> Result<bool, NoMemory>
    requires { page_of object.va + object.count ≤ 2 ^ 64 }
    ensures { IfOk result (λ whole. Listed (own_frame (frame_in frames.now) object) pins.old.items pins.new.items whole
        (unpinned pinned.now.keys (pages_of object))) }
{
    let first = object.va / PAGE_SIZE;
    for index in 0..object.count {
        let is_pinned = is_pinned(pinned, object.number, index);
        let frame = frame_in(frames, object.user, first + index);
        if !list_page(pins, object.number, index, is_pinned, frame)? {
            return Ok(false);
        }
    }
    Ok(true)
}
