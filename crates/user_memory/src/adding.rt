//! The pages of a memory object that comes.

ghost use Rattle.std.specs.Prelude.{◌≡◌, ◌≤◌, ◌+◌, ◌*◌, ◌^◌, [], true, if◌then◌else◌};
ghost use Rattle.std.specs.Prelude.{IfOk, OnOk, OnErr};
ghost use Rattle.iofd_words.specs.Pages.{is_whole};
ghost use Rattle.pinned_pages.specs.Holds.{HasMoreHolds};
ghost use Rattle.user_memory.specs.Adding.{MayPin, charged_for, frames_of, pages_for};

use frame_memory::{Pool, UserMap};
use iofd_words::{MemoryObject, NoMemory};
use mem_account::Accounts;
use pinned_pages::Pages;
use std::alloc::Allocator;

/// The pages of the object, with one pin if `pinned`. An error changes nothing.
pub(crate) fn object_pages<A: Allocator + Copy, B: Allocator, C: Allocator, D: Allocator>(
    alloc: A,
    row: MemoryObject,
    pinned: bool,
    users: &UserMap<B>,
    pool: &mut Pool<C>,
    accounts: &mut Accounts<D>,
) -> Result<Pages<A>, NoMemory>
    requires start { is_whole row.va ≡ true }
    requires end { row.va + row.count * 4096 ≤ 2 ^ 48 }
    requires may { pinned ≡ true → MayPin users.now.pages pool.old.holds accounts.old row }
    ensures pages { IfOk result (λ pages. pages.pages ≡ pages_for users.now.pages row pinned) }
    ensures pool { OnOk result
        (HasMoreHolds pool.old pool.new (if pinned then frames_of users.now.pages row else [])) }
    ensures accounts { OnOk result (accounts.new ≡ charged_for accounts.old row pinned) }
    ensures pool_err { OnErr result (pool.new ≡ pool.old) }
    ensures accounts_err { OnErr result (accounts.new ≡ accounts.old) }
{
    let mut pages = Pages::new(alloc, row.user, row.va, row.count, row.writable);
    if !pinned {
        return Ok(pages);
    }
    pages.reserve()?;
    pages.pin_reserved(users, pool, accounts);
    Ok(pages)
}
