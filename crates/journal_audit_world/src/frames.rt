//! Users' pages and the frames of the pool.

ghost use Rattle.std.specs.Prelude.{◌≡◌, ◌==◌, ◌&&◌, ◌||◌, ◌<◌, ◌≤◌, ℕ, not, length, false, slice_index_or};
ghost use Rattle.std.specs.List.{count_by, list_any, range_with_len};
ghost use Rattle.iofd_words.specs.Frames.{frame_at, free_count, is_free, is_reached, without_page};

use iofd_words::{FrameNo, Pin, TableFrame, UserNo, UserPage};
use std::alloc::Allocator;

// The most frames that a pool has.
const MOST: usize = 4096;

// Whether it is the row of the user's page.
fn is_page_of(user: UserNo, page: u64, row: UserPage) -> bool
    ensures { result ≡ (row.user.0 == user.0 && row.page == page) }
{
    row.user.0 == user.0 && row.page == page
}

/// The frame of a page in a user's memory.
pub fn frame_at(pages: &[UserPage], user: UserNo, page: u64) -> Option<FrameNo>
    ensures { result ≡ frame_at pages.now user page }
{
    for other in pages {
        if is_page_of(user, page, *other) {
            return Some(other.frame);
        }
    }
    None
}

fn has_page(pages: &[UserPage], frame: u32) -> bool
    ensures { result ≡ list_any (λ p. p.frame.0 == frame) pages.now }
{
    for page in pages {
        if page.frame.0 == frame {
            return true;
        }
    }
    false
}

fn has_pin(pins: &[Pin], frame: u32) -> bool
    ensures { result ≡ list_any (λ pin. pin.frame.0 == frame) pins.now }
{
    for pin in pins {
        if pin.frame.0 == frame {
            return true;
        }
    }
    false
}

fn has_table(tables: &[TableFrame], frame: u32) -> bool
    ensures { result ≡ list_any (λ table. table.frame.0 == frame) tables.now }
{
    for table in tables {
        if table.frame.0 == frame {
            return true;
        }
    }
    false
}

/// Whether it is a frame of the pool that nobody reaches.
pub fn is_free(
    pool: u32,
    pages: &[UserPage],
    pins: &[Pin],
    tables: &[TableFrame],
    frame: u32,
) -> bool
    ensures { result ≡ is_free pool pages.now pins.now tables.now frame }
{
    frame < pool && !(has_page(pages, frame) || has_pin(pins, frame) || has_table(tables, frame))
}

// Marks the frame as reached.
fn mark(reached: &mut [bool], frame: FrameNo)
    ensures { (f : ℕ) → f < length reached.old
        → slice_index_or reached.new f false ≡ (slice_index_or reached.old f false || (frame.0 == f)) }
{
    let place = frame.0 as usize;
    if place < reached.len() {
        reached[place] = true;
    }
}

// The frames of users' pages, marked as well.
fn mark_pages(reached: &mut [bool], pages: &[UserPage])
    ensures { (f : ℕ) → f < length reached.old
        → slice_index_or reached.new f false ≡ (slice_index_or reached.old f false || list_any (λ p. p.frame.0 == f)
        pages.now) }
{
    for page in pages {
        mark(reached, page.frame);
    }
}

// Those of pins.
fn mark_pins(reached: &mut [bool], pins: &[Pin])
    ensures { (f : ℕ) → f < length reached.old
        → slice_index_or reached.new f false ≡ (slice_index_or reached.old f false || list_any (λ pin. pin.frame.0 ==
        f) pins.now) }
{
    for pin in pins {
        mark(reached, pin.frame);
    }
}

// Those of tables.
fn mark_tables(reached: &mut [bool], tables: &[TableFrame])
    ensures { (f : ℕ) → f < length reached.old
        → slice_index_or reached.new f false ≡ (slice_index_or reached.old f false || list_any (λ t. t.frame.0 == f)
        tables.now) }
{
    for table in tables {
        mark(reached, table.frame);
    }
}

// How many of the first frames aren't marked.
fn unmarked(reached: &[bool], pool: u32) -> usize
    requires { pool ≤ length reached.now }
    ensures { result ≡ count_by (λ f. not (slice_index_or reached.now f false)) (range_with_len 0 pool) }
{
    (0..pool).filter(|frame| !reached[*frame as usize]).count()
}

/// How many frames of the pool nobody reaches. Each list of rows is gone through once.
pub fn free_count(pool: u32, pages: &[UserPage], pins: &[Pin], tables: &[TableFrame]) -> usize
    requires { pool ≤ 4096 }
    ensures { result ≡ free_count pool pages.now pins.now tables.now }
{
    let mut reached = [false; MOST];
    mark_pages(&mut reached, pages);
    mark_pins(&mut reached, pins);
    mark_tables(&mut reached, tables);
    unmarked(&reached, pool)
}

/// Takes the page out of the user's memory.
pub fn remove_page<A: Allocator>(pages: &mut Vec<UserPage, A>, user: UserNo, page: u64)
    ensures { pages.new.items ≡ without_page pages.old.items user page }
{
    pages.retain(move |other| !(other.user.0 == user.0 && other.page == page));
}
