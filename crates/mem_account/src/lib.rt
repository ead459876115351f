//! How many pinned pages each user has, and may have (iommufd.rst, accounting of locked memory).
#![tactic(auto)]

ghost use Rattle.std.specs.Prelude.{◌≡◌, ◌↔◌, ◌+◌, ◌<◌, ◌≤◌, length, map, IsErr, IfErr};
ghost use Rattle.std.specs.Prelude.{IfOk, IsTrue, OnOk, OnErr};
ghost use Rattle.mem_account.specs.Accounts.{charged, fresh, has_room, held_by, is_user, limit_of, refunded};

use iofd_words::{Cause, NoMemory, Refusal, UserNo};
use std::alloc::{Allocator, Global};
use std::marker::Model;

/// What one user holds and may hold, in pages.
#[derive(Clone, Copy, PartialEq, Eq)]
pub struct Account {
    pub limit: u64,
    pub held: u64,
}

/// The accounts of all users, who are numbered from 1. No user holds more than the limit allows.
#[derive(Drop)]
pub struct Accounts<A: Allocator = Global> {
    accounts: Vec<Account, A>,
}

impl<A: Allocator> Model for Accounts<A> {
    ghost use Rattle.std.specs.Prelude.{List};
    ghost use Rattle.mem_account.specs.declared.Account.{Account};
    ghost use Rattle.mem_account.specs.Within.{AreWithin};

    ghost Value = { List Account };

    ghost view = { λ a. a.accounts.items };

    ghost invariant = { λ a. AreWithin a.accounts.items };
}

impl<A: Allocator> Accounts<A> {
    /// Accounts with these limits, from user 1 on, which hold nothing. It takes all the memory that
    /// accounts ever need; NoMemory where that is refused. No users need none.
    pub fn new(alloc: A, limits: &[u64]) -> Result<Accounts<A>, NoMemory>
        ensures ok { IfOk result (λ accounts. accounts ≡ map fresh limits.now) }
        ensures memory { OnErr result (0 < length limits.now) }
    {
        let accounts = opened(alloc, limits)?;
        Ok(Accounts { accounts })
    }

    /// Whether there is such a user.
    pub fn has(&self, user: UserNo) -> bool
        ensures { result ≡ is_user self.now user.0 }
    {
        user.0 >= 1 && usize::from(user.0) <= self.accounts.len()
    }

    /// How many pages the user holds: the sum of the charges less the refunds.
    pub fn held(&self, user: UserNo) -> u64
        requires { IsTrue (is_user self.now user.0) }
        ensures value { result ≡ held_by self.now user.0 }
        ensures within { result ≤ limit_of self.now user.0 }
    {
        let account = &self.accounts[usize::from(user.0) - 1];
        account.held
    }

    /// Whether the user may hold so many pages more.
    pub fn has_room(&self, user: UserNo, pages: u64) -> bool
        requires { IsTrue (is_user self.now user.0) }
        ensures { result ≡ has_room self.now user.0 pages }
    {
        let account = &self.accounts[usize::from(user.0) - 1];
        pages <= account.limit - account.held
    }

    /// How many pages more the user may hold.
    pub fn room(&self, user: UserNo) -> u64
        requires { IsTrue (is_user self.now user.0) }
        ensures { held_by self.now user.0 + result ≡ limit_of self.now user.0 }
    {
        let account = &self.accounts[usize::from(user.0) - 1];
        account.limit - account.held
    }

    /// Charges the user with so many pages. It is refused by 7 (ENOMEM, cause Account) exactly where the
    /// user would hold more than the limit, and then nothing changes.
    pub fn charge(&mut self, user: UserNo, pages: u64) -> Result<(), Refusal>
        requires { IsTrue (is_user self.old user.0) }
        ensures ok { OnOk result (self.new ≡ charged self.old user.0 pages) }
        ensures refused { IsErr result ↔ (limit_of self.old user.0 < held_by self.old user.0 + pages) }
        ensures cause { IfErr result (λ refusal. refusal.cause ≡ Cause.Account) }
        ensures err { OnErr result (self.new ≡ self.old) }
    {
        let at = usize::from(user.0) - 1;
        let account = self.accounts[at];
        if pages > account.limit - account.held {
            return Err(Refusal {
                cause: Cause::Account,
            });
        }
        self.accounts[at].held = account.held + pages;
        Ok(())
    }

    /// Gives the user so many pages back, which the user holds.
    pub fn refund(&mut self, user: UserNo, pages: u64)
        requires user { IsTrue (is_user self.old user.0) }
        requires held { pages ≤ held_by self.old user.0 }
        ensures { self.new ≡ refunded self.old user.0 pages }
    {
        self.accounts[usize::from(user.0) - 1].held -= pages;
    }
}

// An account that holds nothing, for each limit.
fn opened<A: Allocator>(alloc: A, limits: &[u64]) -> Result<Vec<Account, A>, NoMemory>
    ensures ok { IfOk result (λ accounts. accounts.items ≡ map fresh limits.now) }
    ensures memory { OnErr result (0 < length limits.now) }
{
    let mut accounts = Vec::with_capacity(alloc, limits.len())?;
    for limit in limits {
        let account = Account {
            limit: *limit,
            held: 0,
        };
        accounts.push(account)?;
    }
    Ok(accounts)
}
