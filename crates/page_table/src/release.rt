//! Frames that are given back.

ghost use Rattle.std.specs.Prelude.{ℕ, ◌≡◌, ◌≤◌, drop, slice_index, take, vec_capacity, vec_len};
ghost use Rattle.std.specs.List.Sorted.{IsNonDecreasingBy, IsPermutation};
ghost use Rattle.page_table_words.specs.Released.{HasFewerHolds, times};

use frame_memory::Pool;
use iofd_words::FrameNo;
use std::alloc::Allocator;

// Puts the frames in order, by rising number.
fn sort_by_number(frames: &mut [FrameNo])
    ensures same { IsPermutation frames.old frames.new }
    ensures rising { IsNonDecreasingBy (λ frame. frame.0) frames.new }
{
    frames.sort_unstable_by_key(|frame| frame.0);
}

/// Puts the frames from this place on in order, by rising number. Those before it stay.
pub fn sort_from<A: Allocator>(frames: &mut Vec<FrameNo, A>, start: usize)
    requires { start ≤ vec_len frames.old }
    ensures front { take start frames.new.items ≡ take start frames.old.items }
    ensures same { IsPermutation (drop start frames.old.items) (drop start frames.new.items) }
    ensures rising { IsNonDecreasingBy (λ frame. frame.0) (drop start frames.new.items) }
    ensures len { vec_len frames.new ≡ vec_len frames.old }
    ensures capacity { vec_capacity frames.new ≡ vec_capacity frames.old }
{
    sort_by_number(&mut frames[start..]);
}

/// Takes a hold off each of the frames, which has one for each time that it is listed.
pub(crate) fn release_all<A: Allocator>(pool: &mut Pool<A>, frames: &[FrameNo])
    requires { (frame : ℕ) → times frame frames.now ≤ slice_index pool.old.holds frame }
    ensures { HasFewerHolds pool.old pool.new frames.now }
{
    for frame in frames {
        pool.release(*frame);
    }
}
