//! All tables below a table.

ghost use Rattle.std.specs.Prelude.{ℕ, ◌≡◌, ◌≢◌, ◌≤◌, ◌<◌, ◌+◌, ◌-◌, ◌%◌};
ghost use Rattle.std.specs.Prelude.{◌^◌, ◌++◌, IsTrue, length, vec_len};
ghost use Rattle.std.specs.Prelude.{vec_capacity};
ghost use Rattle.page_table_words.specs.Entries.{entry_at};
ghost use Rattle.page_table_words.specs.Under.{HoldsTable, frames_under};

use crate::entry::Entry;
use frame_memory::Pool;
use iofd_words::FrameNo;
use std::alloc::Allocator;

// How many entries are tested together.
const STRIDE: usize = 16;

// Whether none of the entries from this one on is present, a stride of them. It goes on past one that is, so that the
// compiler can test many at once.
fn are_absent<A: Allocator>(pool: &Pool<A>, table: FrameNo, first: usize) -> bool
    requires frame { table.0 < length pool.now.holds }
    requires within { first + 16 ≤ 512 }
    ensures { IsTrue result → (k : ℕ) → first ≤ k → k < first + 16 → entry_at pool.now table.0 k % 4 ≡ 0 }
{
    let mut absent = true;
    for index in first..first + STRIDE {
        absent &= !Entry::at(pool, table, index).is_present();
    }
    absent
}

// The first entry of the table, from this one on, that is present, or 512.
fn next_present<A: Allocator>(pool: &Pool<A>, table: FrameNo, start: usize) -> usize
    requires frame { table.0 < length pool.now.holds }
    requires within { start ≤ 512 }
    ensures from { start ≤ result }
    ensures within { result ≤ 512 }
    ensures absent { (k : ℕ) → start ≤ k → k < result → entry_at pool.now table.0 k % 4 ≡ 0 }
    ensures present { result < 512 → entry_at pool.now table.0 result % 4 ≢ 0 }
{
    let mut index = start;
    while index < Entry::COUNT {
        if Entry::at(pool, table, index).is_present() {
            return index;
        }
        index += if Entry::COUNT - index >= STRIDE && are_absent(pool, table, index) {
            STRIDE
        } else {
            1
        };
    }
    index
}

/// How many tables there are: this one, of this level, and all below it. It visits each of their entries.
pub(crate) fn count<A: Allocator>(pool: &Pool<A>, level: u8, table: FrameNo) -> u64
    requires some { 0 < level }
    requires few { level ≤ 5 }
    requires table { HoldsTable pool.now level table }
    ensures value { result ≡ length (frames_under pool.now (level - 1) table) }
    ensures small { result ≤ 1000 ^ level }
{
    let mut total = 1;
    if level > 1 {
        let mut index = next_present(pool, table, 0);
        while index < Entry::COUNT {
            let entry = Entry::at(pool, table, index);
            total += count(pool, level - 1, entry.frame());
            index = next_present(pool, table, index + 1);
        }
    }
    total
}

/// Appends the frames of this table, of this level, and of all below it. There is room. It visits each of their
/// entries.
pub(crate) fn collect<A: Allocator, B: Allocator>(
    pool: &Pool<A>,
    level: u8,
    table: FrameNo,
    out: &mut Vec<FrameNo, B>,
)
    requires some { 0 < level }
    requires few { level ≤ 5 }
    requires table { HoldsTable pool.now level table }
    requires room { vec_len out.old + length (frames_under pool.now (level - 1) table) ≤ vec_capacity out.old }
    ensures out { out.new.items ≡ out.old.items ++ frames_under pool.now (level - 1) table }
    ensures len { vec_len out.new ≡ vec_len out.old + length (frames_under pool.now (level - 1) table) }
    ensures capacity { vec_capacity out.new ≡ vec_capacity out.old }
{
    out.push_reserved(table);
    if level > 1 {
        let mut index = next_present(pool, table, 0);
        while index < Entry::COUNT {
            let entry = Entry::at(pool, table, index);
            collect(pool, level - 1, entry.frame(), out);
            index = next_present(pool, table, index + 1);
        }
    }
}
