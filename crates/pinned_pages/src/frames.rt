//! The frames of a user's pages, and their holds.

ghost use Rattle.std.specs.Prelude.{ℕ, ◌≡◌, ◌≤◌, ◌<◌, ◌+◌, ◌*◌, ◌^◌, ◌++◌, [], IsTrue, IfNone};
ghost use Rattle.std.specs.Prelude.{is_none, is_some, length, slice_get, slice_index, vec_capacity, vec_len};
ghost use Rattle.std.specs.List.{cons_option, count_by, filter_map, list_all, range_with_len};
ghost use Rattle.iofd_words.specs.Frames.{frame_at};
ghost use Rattle.iofd_words.specs.Pages.{page_of};
ghost use Rattle.frame_memory.specs.Pool.{may_hold};
ghost use Rattle.frame_memory.specs.UserPages.{are_within};
ghost use Rattle.pinned_pages.specs.Access.{frame_in, row_at};
ghost use Rattle.pinned_pages.specs.Holds.{AreHeld, HasMoreHolds};
ghost use Rattle.pinned_pages.specs.Pages.{or_else, unless};

use crate::access_pins::AccessPins;
use frame_memory::{Pool, UserMap};
use iofd_words::{FrameNo, PAGE_SIZE, UserNo};
use std::alloc::Allocator;

/// The frame of page `index` after the one that holds this user address, if it is in the user's memory.
fn frame_now<A: Allocator>(users: &UserMap<A>, user: UserNo, va: u64, index: u64) -> Option<FrameNo>
    requires { va + index * 4096 < 2 ^ 64 }
    ensures { result ≡ frame_at users.now.pages user (page_of va + index) }
{
    users.frame_at(user, va + PAGE_SIZE * index)
}

/// The frame of page `index` among these.
pub(crate) fn frame_of(frames: &[FrameNo], index: u64) -> Option<FrameNo>
    ensures { result ≡ slice_get frames.now index }
{
    frames.get(index as usize).copied()
}

/// Whether page `index` is pinned, at this frame, or in the user's memory.
pub(crate) fn is_there<A: Allocator>(
    pinned: Option<FrameNo>,
    users: &UserMap<A>,
    user: UserNo,
    va: u64,
    index: u64,
) -> bool
    requires { va + index * 4096 < 2 ^ 64 }
    ensures { result ≡ is_some (or_else pinned (frame_at users.now.pages user (page_of va + index))) }
{
    match pinned {
        Some(_) => true,
        None => frame_now(users, user, va, index).is_some(),
    }
}

/// Whether each of so many pages, from the one that holds this user address on, is pinned by an access or in the
/// user's memory.
pub(crate) fn has_pages<A: Allocator, B: Allocator>(
    access: &AccessPins<A>,
    users: &UserMap<B>,
    user: UserNo,
    va: u64,
    count: u64,
) -> bool
    requires { va + count * 4096 < 2 ^ 64 }
    ensures { result ≡ list_all (λ index. is_some (or_else (frame_in (row_at access.now.rows index))
        (frame_at users.now.pages user (page_of va + index)))) (range_with_len 0 count) }
{
    for index in 0..count {
        let pinned = access.frame(index);
        if !is_there(pinned, users, user, va, index) {
            return false;
        }
    }
    true
}

/// The frame of page `index`: that at which it is pinned, if it is, and else the one that it is now, which gets a hold.
/// It takes no memory.
pub(crate) fn hold_page<A: Allocator, B: Allocator>(
    pinned: Option<FrameNo>,
    users: &UserMap<A>,
    pool: &mut Pool<B>,
    user: UserNo,
    va: u64,
    index: u64,
) -> Option<FrameNo>
    requires end { va + index * 4096 < 2 ^ 64 }
    requires within { IsTrue (are_within users.now.pages pool.old.holds) }
    requires holds { IfNone pinned ((frame : ℕ) → slice_index pool.old.holds frame + 1 < 2 ^ 128) }
    ensures frame { result ≡ or_else pinned (frame_at users.now.pages user (page_of va + index)) }
    ensures pool { HasMoreHolds pool.old pool.new
        (cons_option (unless pinned (frame_at users.now.pages user (page_of va + index))) []) }
{
    if pinned.is_some() {
        return pinned;
    }
    let frame = frame_now(users, user, va, index)?;
    pool.hold(frame);
    Some(frame)
}

/// Appends the frames of these pages, at which accesses pin them or which they are now, and puts a hold on each of the
/// latter. There is room. It takes no memory.
pub(crate) fn hold_all<A: Allocator, B: Allocator, C: Allocator>(
    frames: &mut Vec<FrameNo, A>,
    access: &AccessPins<A>,
    users: &UserMap<B>,
    pool: &mut Pool<C>,
    user: UserNo,
    va: u64,
    count: u64,
)
    requires end { va + count * 4096 < 2 ^ 64 }
    requires room { vec_len frames.old + count ≤ vec_capacity frames.old }
    requires within { IsTrue (are_within users.now.pages pool.old.holds) }
    requires holds { IsTrue (may_hold pool.old.holds (count_by
        (λ index. is_none (frame_in (row_at access.now.rows index))) (range_with_len 0 count))) }
    ensures frames { frames.new.items ≡ frames.old.items
        ++ filter_map (λ index. or_else (frame_in (row_at access.now.rows index))
        (frame_at users.now.pages user (page_of va + index))) (range_with_len 0 count) }
    ensures pool { HasMoreHolds pool.old pool.new
        (filter_map (λ index. unless (frame_in (row_at access.now.rows index))
        (frame_at users.now.pages user (page_of va + index))) (range_with_len 0 count)) }
    ensures capacity { vec_capacity frames.new ≡ vec_capacity frames.old }
{
    for index in 0..count {
        let pinned = access.frame(index);
        if let Some(frame) = hold_page(pinned, users, pool, user, va, index) {
            frames.push_reserved(frame);
        }
    }
}

/// Takes a hold off each of the frames but those of pages that accesses pin, as many as it is there times. It takes no
/// memory.
pub(crate) fn release_others<A: Allocator, B: Allocator>(
    frames: &[FrameNo],
    access: &AccessPins<A>,
    pool: &mut Pool<B>,
)
    requires { AreHeld (filter_map (λ index. unless (frame_in (row_at access.now.rows index))
        (slice_get frames.now index)) (range_with_len 0 (length frames.now))) pool.old.holds }
    ensures { HasMoreHolds pool.new pool.old (filter_map (λ index. unless (frame_in (row_at access.now.rows index))
        (slice_get frames.now index)) (range_with_len 0 (length frames.now))) }
{
    for index in 0..frames.len() {
        if access.frame(index as u64).is_none() {
            pool.release(frames[index]);
        }
    }
}
