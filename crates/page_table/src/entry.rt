//! The entries of tables.

ghost use Rattle.std.specs.Prelude.{ℕ, ◌≡◌, ◌≤◌, ◌<◌, ◌+◌, ◌*◌, ◌/◌, ◌%◌, ◌^◌};
ghost use Rattle.std.specs.Prelude.{◌==◌, not, length};
ghost use Rattle.page_table_words.specs.Entries.{WritesEntry, entry_at};
ghost use Rattle.iofd_words.specs.Levels.{index_at};

use crate::levels::index;
use frame_memory::Pool;
use iofd_words::{FrameNo, PAGE_SIZE, Rights};
use std::alloc::Allocator;

/// An entry of a table (VT-d, "Second-Stage Paging Entries"): bit 0 read, bit 1 write, the frame's number from bit 12
/// on.
#[derive(Clone, Copy, PartialEq, Eq)]
pub(crate) struct Entry(pub(crate) u64);

impl Entry {
    /// How many entries a table has.
    pub(crate) const COUNT: usize = 512;

    /// Entry `index`, below 512, of the table in this frame.
    pub(crate) fn at<A: Allocator>(pool: &Pool<A>, frame: FrameNo, index: usize) -> Entry
        requires frame { frame.0 < length pool.now.holds }
        requires within { index < 512 }
        ensures { result.0 ≡ entry_at pool.now frame.0 index }
    {
        Entry(pool.word(frame, index))
    }

    /// The entry of the table in this frame, one of this level, through which the page goes.
    pub(crate) fn read<A: Allocator>(pool: &Pool<A>, frame: FrameNo, level: u8, page: u64) -> Entry
        requires frame { frame.0 < length pool.now.holds }
        requires some { 0 < level }
        requires few { level ≤ 5 }
        ensures { result.0 ≡ entry_at pool.now frame.0 (index_at level page) }
    {
        Entry::at(pool, frame, index(level, page))
    }

    /// Makes this the entry of the table in this frame, one of this level, through which the page goes. Every other
    /// entry stays, each other frame's bytes and every hold.
    pub(crate) fn write<A: Allocator>(
        self,
        pool: &mut Pool<A>,
        frame: FrameNo,
        level: u8,
        page: u64,
    )
        requires frame { frame.0 < length pool.old.holds }
        requires some { 0 < level }
        requires few { level ≤ 5 }
        ensures { WritesEntry pool.old pool.new frame.0 level page self.0 }
    {
        self.put(pool, frame, index(level, page));
    }

    /// Makes this entry `index`, below 512, of the table in this frame. Every other entry stays, each other frame's
    /// bytes and every hold.
    pub(crate) fn put<A: Allocator>(self, pool: &mut Pool<A>, frame: FrameNo, index: usize)
        requires frame { frame.0 < length pool.old.holds }
        requires within { index < 512 }
        ensures { (level page : ℕ) → index ≡ index_at level page →
            WritesEntry pool.old pool.new frame.0 level page self.0 }
    {
        pool.set_word(frame, index, self.0);
    }

    /// The entry that leads to this frame with these rights.
    pub(crate) fn to(frame: FrameNo, rights: Rights) -> Entry
        requires { rights.0 < 4 }
        ensures { result.0 ≡ 4096 * frame.0 + rights.0 }
    {
        Entry(PAGE_SIZE * u64::from(frame.0) + u64::from(rights.0))
    }

    /// Whether it has a right. One that has none isn't present.
    pub(crate) fn is_present(self) -> bool
        ensures { result ≡ not (self.0 % 4 == 0) }
    {
        self.0 & 3 != 0
    }

    /// The rights that it gives.
    pub(crate) fn rights(self) -> Rights
        ensures { result.0 ≡ self.0 % 4 }
    {
        Rights((self.0 & 3) as u8)
    }

    /// The frame to which it leads.
    pub(crate) fn frame(self) -> FrameNo
        requires { self.0 / 4096 < 2 ^ 32 }
        ensures { result.0 ≡ self.0 / 4096 }
    {
        FrameNo((self.0 >> 12) as u32)
    }
}
