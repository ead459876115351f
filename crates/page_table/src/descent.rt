//! The way of a page from a table down.

ghost use Rattle.std.specs.Prelude.{ℕ, ◌≡◌, ◌≤◌, ◌<◌, List, is_some, true};
ghost use Rattle.iofd_words.specs.declared.numbers.FrameNo.{FrameNo};
ghost use Rattle.page_table_words.specs.Emptied.{GoesDown};
ghost use Rattle.page_table_words.specs.Reached.{GoesThrough, IsLowest};
ghost use Rattle.page_table_words.specs.Rows.{MappedPage, TableRow, table_at};
ghost use Rattle.page_table_words.specs.Stands.{Stands};

use crate::entry::Entry;
use frame_memory::Pool;
use iofd_words::{FrameNo, Rights};
use std::alloc::Allocator;

/// A table that was reached from the root: its frame, its level, and the rights that all entries on the way gave. The
/// frame stands first so that it all fits a machine word.
#[derive(Clone, Copy, PartialEq, Eq)]
pub(crate) struct Reached {
    pub(crate) frame: FrameNo,
    pub(crate) level: u8,
    pub(crate) rights: Rights,
}

/// The lowest table through which the page goes, from this one of its tables down. The rights are those of this one and
/// of all entries below. It costs the levels.
pub(crate) fn descend<A: Allocator>(pool: &Pool<A>, from: Reached, page: u64) -> Reached
    requires some { 0 < from.level }
    requires few { from.level ≤ 5 }
    requires rights { from.rights.0 ≡ 3 }
    requires table { GoesThrough pool.now from.level page from.frame }
    ensures some { 0 < result.level }
    ensures down { result.level ≤ from.level }
    ensures rights { result.rights.0 ≡ 3 }
    ensures lowest { (levels : ℕ) (root : FrameNo) (rows : List TableRow) (pages : List MappedPage) →
        Stands pool.now levels root rows pages → table_at rows from.level page ≡ Some from.frame →
        IsLowest rows result.level page result.frame }
{
    let mut reached = from;
    while reached.level > 1 {
        let entry = Entry::read(pool, reached.frame, reached.level, page);
        if !entry.is_present() {
            return reached;
        }
        reached = Reached {
            frame: entry.frame(),
            level: reached.level - 1,
            rights: Rights(reached.rights.0 & entry.rights().0),
        };
    }
    reached
}

/// The table of this level through which the page goes, which is there, from an upper one of its tables down: its
/// frame. It costs the levels between them.
pub(crate) fn descend_to<A: Allocator>(
    pool: &Pool<A>,
    from: FrameNo,
    top: u8,
    level: u8,
    page: u64,
) -> FrameNo
    requires some { 0 < level }
    requires down { level ≤ top }
    requires few { top ≤ 5 }
    requires table { GoesDown pool.now from top level page }
    ensures { (levels : ℕ) (root : FrameNo) (rows : List TableRow) (pages : List MappedPage) →
        Stands pool.now levels root rows pages → table_at rows top page ≡ Some from →
        is_some (table_at rows level page) ≡ true → table_at rows level page ≡ Some result }
{
    let mut frame = from;
    let mut above = top;
    while above > level {
        frame = Entry::read(pool, frame, above, page).frame();
        above -= 1;
    }
    frame
}
