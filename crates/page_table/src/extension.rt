//! Tables that a page lacks.

ghost use Rattle.std.specs.Prelude.{ℕ, ◌≡◌, ◌≤◌, ◌<◌, ◌+◌, ◌-◌, ◌++◌, List};
ghost use Rattle.std.specs.Prelude.{slice_index, vec_len, vec_capacity};
ghost use Rattle.iofd_words.specs.declared.numbers.FrameNo.{FrameNo};
ghost use Rattle.frame_memory.specs.Pool.{free_count};
ghost use Rattle.page_table_words.specs.Extended.{AddsTable, Extends};
ghost use Rattle.page_table_words.specs.Reached.{EndsAt, IsLowest};
ghost use Rattle.page_table_words.specs.Rows.{MappedPage, TableRow};
ghost use Rattle.page_table_words.specs.Stands.{Stands};
ghost use Rattle.page_table_words.specs.Taken.{least_frames};

use crate::entry::Entry;
use frame_memory::Pool;
use iofd_words::{FrameNo, Rights};
use std::alloc::Allocator;

/// Makes the tables of the levels below this one through which the page goes, which has none there, of the least free
/// frames from the upper level down, and appends their frames. There are so many free frames, and there is room. It
/// answers the frame of the last level's table.
pub(crate) fn extend<A: Allocator, B: Allocator>(
    pool: &mut Pool<A>,
    level: u8,
    table: FrameNo,
    page: u64,
    out: &mut Vec<FrameNo, B>,
) -> FrameNo
    requires some { 0 < level }
    requires few { level ≤ 5 }
    requires table { EndsAt pool.old level page table }
    requires free { level ≤ free_count pool.old.holds + 1 }
    requires room { vec_len out.old + level ≤ vec_capacity out.old + 1 }
    ensures out { out.new.items ≡ out.old.items ++ least_frames pool.old.holds (level - 1) }
    ensures len { vec_len out.new + 1 ≡ vec_len out.old + level }
    ensures capacity { vec_capacity out.new ≡ vec_capacity out.old }
    ensures free { free_count pool.new.holds + level ≡ free_count pool.old.holds + 1 }
    ensures tables { (levels : ℕ) (root : FrameNo) (rows : List TableRow) (pages : List MappedPage) →
        Stands pool.old levels root rows pages → IsLowest rows level page table →
        Extends pool.old pool.new levels root rows pages level page result }
{
    if level == 1 {
        return table;
    }
    let next = add_table(pool, level, table, page);
    out.push_reserved(next);
    extend(pool, level - 1, next, page, out)
}

/// Makes the least free frame an empty table, and the entry of this table, one of this level, through which the page
/// goes its name.
fn add_table<A: Allocator>(pool: &mut Pool<A>, level: u8, table: FrameNo, page: u64) -> FrameNo
    requires some { 0 < level }
    requires few { level ≤ 5 }
    requires held { 0 < slice_index pool.old.holds table.0 }
    requires free { 0 < free_count pool.old.holds }
    ensures { AddsTable pool.old pool.new level page table result }
{
    let frame = pool.take().unwrap();
    Entry::to(frame, Rights(3)).write(pool, table, level, page);
    frame
}
