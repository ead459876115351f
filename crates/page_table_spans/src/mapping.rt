//! Spans that are mapped or cleared.

ghost use Rattle.std.specs.Prelude.{◌≡◌, ◌≤◌, ◌<◌, ◌+◌, ◌-◌, ◌*◌, ◌^◌, ◌++◌};
ghost use Rattle.std.specs.Prelude.{List, length, vec_len, vec_capacity};
ghost use Rattle.std.specs.List.{range_with_len};
ghost use Rattle.iofd_words.specs.Width.{bits_of};
ghost use Rattle.iofd_words.specs.Levels.{levels_of};
ghost use Rattle.frame_memory.specs.Pool.{free_count};
ghost use Rattle.page_table_words.specs.Mapped.{Becomes, IsTable};
ghost use Rattle.page_table_words.specs.Rows.{MappedPage};
ghost use Rattle.page_table_words.specs.Stands.{IfStands};
ghost use Rattle.page_table_spans.specs.Spans.{ClearsSpan, HasFrames, MapsSpan};
ghost use Rattle.page_table_spans.specs.Spans.{frames_for, held_once, lacked, with_lacked};

use frame_memory::Pool;
use iofd_words::{FrameNo, Rights};
use page_table::Table;
use std::alloc::Allocator;

/// Maps the pages from `first_page` on to these frames, in turn, with these rights, in place of what they were. Tables
/// that they lack are made of the least free frames, page after page from the upper one down, and those frames are
/// appended to `out`. So many are free, and there is room for them. Every other page stays, and every frame that is no
/// table's. It costs the levels for each page, and takes no memory.
pub fn map<A: Allocator, B: Allocator>(
    table: &mut Table,
    pool: &mut Pool<A>,
    first_page: u64,
    frames: &[FrameNo],
    rights: Rights,
    out: &mut Vec<FrameNo, B>,
)
    requires table { HasFrames pool.old table.old (range_with_len first_page (length frames.now))
        (vec_capacity out.old - vec_len out.old) }
    requires below { (first_page + length frames.now) * 4096 ≤ 2 ^ bits_of table.old.width }
    requires some_right { 0 < rights.0 }
    requires no_other { rights.0 < 4 }
    ensures same { table.new ≡ table.old }
    ensures stands { IsTable pool.new table.new }
    ensures mapped { IfStands pool.old table.old (λ rows pages.
        (others : List MappedPage) → MapsSpan pages others first_page frames.now rights →
        Becomes pool.old pool.new table.new
        (with_lacked rows (levels_of table.old.width) (range_with_len first_page (length frames.now)) pool.old.holds)
        others) }
    ensures holds { IfStands pool.old table.old (λ rows pages.
        pool.new.holds ≡ held_once pool.old.holds
        (frames_for (lacked rows (levels_of table.old.width) (range_with_len first_page (length frames.now)))
        pool.old.holds)) }
    ensures out { IfStands pool.old table.old (λ rows pages.
        out.new.items ≡ out.old.items ++
        frames_for (lacked rows (levels_of table.old.width) (range_with_len first_page (length frames.now)))
        pool.old.holds) }
    ensures free { IfStands pool.old table.old (λ rows pages.
        free_count pool.new.holds
        + length (lacked rows (levels_of table.old.width) (range_with_len first_page (length frames.now)))
        ≡ free_count pool.old.holds) }
    ensures capacity { vec_capacity out.new ≡ vec_capacity out.old }
{
    let mut page = first_page;
    for frame in frames {
        table.map(pool, page, *frame, rights, out).unwrap();
        page += 1;
    }
}

/// Unmaps `count` pages from `first_page` on, as far as they are mapped. Their tables stay, and every other page. It
/// costs the levels for each page, and takes no memory.
pub fn clear<A: Allocator>(table: &mut Table, pool: &mut Pool<A>, first_page: u64, count: u64)
    requires table { IsTable pool.old table.old }
    requires below { (first_page + count) * 4096 ≤ 2 ^ bits_of table.old.width }
    ensures same { table.new ≡ table.old }
    ensures holds { pool.new.holds ≡ pool.old.holds }
    ensures stands { IsTable pool.new table.new }
    ensures cleared { IfStands pool.old table.old (λ rows pages.
        (others : List MappedPage) → ClearsSpan pages others first_page count →
        Becomes pool.old pool.new table.new rows others) }
{
    for page in first_page..first_page + count {
        table.clear(pool, page);
    }
}
