//! Pins and users' pages by what is asked for: each list of rows is gone through once, and a page is found at the cost
//! of a logarithm.

ghost use Rattle.std.specs.Prelude.{◌≡◌, ℕ, IfOk, is_some};
ghost use Rattle.iofd_words.specs.Frames.{frame_at};
ghost use Rattle.iofd_words.specs.Pins.{ObjectPage, pinned_frame};
ghost use Rattle.iofd_words.specs.declared.numbers.UserNo.{UserNo};
ghost use Rattle.journal_audit_world.specs.Keys.{has_pair};
ghost use Rattle.journal_audit_page_tables.specs.PageSets.{frame_in, frame_of_row, or_else};

use iofd_words::{FrameNo, NoMemory, Pin, UserPage};
use std::alloc::Allocator;
use std::collections::{BTreeMap, BTreeSet};

/// The pages of memory objects that are pinned, each by the number of its object and its index.
pub fn pinned_pages<A: Allocator + Copy>(
    alloc: A,
    pins: &[Pin],
) -> Result<BTreeSet<(u64, u64), A>, NoMemory>
    ensures { IfOk result (λ set. (page : ObjectPage)
        → has_pair set.keys page.memory page.index ≡ is_some (pinned_frame pins.now page)) }
{
    let mut set = BTreeSet::new(alloc);
    for pin in pins {
        set.insert((pin.memory, pin.index))?;
    }
    Ok(set)
}

/// The frames of users' pages, each by its user and its number.
pub fn frames_by_page<A: Allocator + Copy>(
    alloc: A,
    pages: &[UserPage],
) -> Result<BTreeMap<(u16, u64), FrameNo, A>, NoMemory>
    ensures { IfOk result (λ index. (user : UserNo) (page : ℕ)
        → frame_in index user page ≡ frame_at pages.now user page) }
{
    let mut index = BTreeMap::new(alloc);
    for page in pages {
        add(&mut index, page)?;
    }
    Ok(index)
}

// The row's frame too, if its page has none.
fn add<A: Allocator + Copy>(
    index: &mut BTreeMap<(u16, u64), FrameNo, A>,
    row: &UserPage,
) -> Result<(), NoMemory>
    ensures { IfOk result (λ _. (user : UserNo) (page : ℕ) → frame_in index.new user page
        ≡ or_else (frame_in index.old user page) (frame_of_row row.now user page)) }
{
    if index.contains_key(&(row.user.0, row.page)) {
        return Ok(());
    }
    index.insert((row.user.0, row.page), row.frame)?;
    Ok(())
}
