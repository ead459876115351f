//! Pins of runs of a memory object's pages, by accesses.

ghost use Rattle.std.specs.Prelude.{ℕ, ◌≡◌, ◌≤◌, ◌<◌, ◌+◌, ◌^◌};
ghost use Rattle.std.specs.Prelude.{IsTrue, IfSome, IfNone, OnOk, OnErr, IsOkUnless, is_none, is_some, None};
ghost use Rattle.std.specs.Prelude.{slice_index};
ghost use Rattle.mem_account.specs.Accounts.{charged, held_by, is_user, refunded};
ghost use Rattle.frame_memory.specs.Pool.{may_hold};
ghost use Rattle.frame_memory.specs.UserPages.{are_within};
ghost use Rattle.pinned_pages.specs.Access.{is_in};
ghost use Rattle.pinned_pages.specs.Accesses.{IsAccessPinned, IsAccessReleased, access_refusal, gone_count};
ghost use Rattle.pinned_pages.specs.Accesses.{gone_frames};
ghost use Rattle.pinned_pages.specs.Accesses.{is_last, run_count, run_frames, run_is_present, run_rows};
ghost use Rattle.pinned_pages.specs.Holds.{AreHeld, HasMoreHolds, times};
ghost use Rattle.pinned_pages.specs.Pages.{access_pins, frame_now, frame_of, held_frames, or_else, pinned_count};

use super::{Pages, refused};
use crate::frames;
use frame_memory::{Pool, UserMap};
use iofd_words::{CallError, Cause, NoMemory};
use mem_account::Accounts;
use std::alloc::Allocator;

impl<A: Allocator> Pages<A> {
    /// Whether each page of a run, so many from `first` on, is pinned or in its user's memory now. It takes no memory.
    pub fn has_run<B: Allocator>(&self, first: u64, count: u64, users: &UserMap<B>) -> bool
        requires { first + count ≤ self.now.pages.count }
        ensures { result ≡ run_is_present self.now.pages users.now.pages first count }
    {
        for at in 0..count {
            let index = first + at;
            let pinned = self.frame(index);
            if !frames::is_there(pinned, users, self.user, self.va, index) {
                return false;
            }
        }
        true
    }

    /// How many pages of a run, so many from `first` on, aren't pinned. It takes no memory.
    pub fn new_in_run(&self, first: u64, count: u64) -> u64
        requires { first + count ≤ self.now.pages.count }
        ensures value { result ≡ run_count self.now.pages first count }
        ensures few { result ≤ count }
    {
        // As many pages as an object has can be counted.
        let all = self.count;
        prove!(count <= all);
        let mut new = 0;
        for at in 0..count {
            if self.frame(first + at).is_none() {
                new += 1;
            }
        }
        new
    }

    /// How many pages of a run no access pins.
    fn new_rows(&self, first: u64, count: u64) -> u64
        requires { first + count ≤ self.now.pages.count }
        ensures { result ≡ run_rows self.now.pages first count }
    {
        // As many pages as an object has can be counted.
        let all = self.count;
        prove!(count <= all);
        let mut new = 0;
        for at in 0..count {
            if self.access.get(first + at).is_none() {
                new += 1;
            }
        }
        new
    }

    /// Takes memory for a pin by an access on each page of a run, so many from `first` on. After an Ok the next such
    /// pin of it doesn't want for memory. An error comes only where there was too little room, and changes nothing but
    /// that there may be some more room.
    pub fn reserve_for_access(&mut self, first: u64, count: u64) -> Result<(), NoMemory>
    where
        A: Copy,
        requires run { first + count ≤ self.old.pages.count }
        ensures pages { self.new.pages ≡ self.old.pages }
        ensures capacity { self.new.capacity ≡ self.old.capacity }
        ensures ok { OnOk result (run_rows self.old.pages first count ≤ self.new.room) }
        ensures full { OnErr result (self.old.room < run_rows self.old.pages first count) }
        ensures room { self.old.room ≤ self.new.room }
        ensures enough { run_rows self.old.pages first count ≤ self.old.room → self.new ≡ self.old }
    {
        // Where there is room for all of them, it doesn't matter how many have a row.
        if self.access.has_room(count) {
            return Ok(());
        }
        let rows = self.new_rows(first, count);
        self.access.reserve(rows)
    }

    /// Puts one pin by an access on each page of a run, so many from `first` on. A page that page tables or accesses
    /// pin keeps its frame, and is charged no more; each other is pinned at the frame that it is in its user's memory
    /// now, which gets a hold, and the user is charged for it.
    ///
    /// It is refused, in this order: Absent (8, EFAULT) where a page that isn't pinned isn't in its user's memory;
    /// Account (7, ENOMEM) where the user would hold more pages than the limit. An error leaves the pages, the pool and
    /// the accounts as they were; want of memory comes only where there was too little room.
    ///
    /// It asks that the users' pages lie in the pool, that each frame may have as many holds more as the run has pages,
    /// and that one pin more on each page can be counted.
    pub fn pin_by_access<B: Allocator, C: Allocator, D: Allocator>(
        &mut self,
        first: u64,
        count: u64,
        users: &UserMap<B>,
        pool: &mut Pool<C>,
        accounts: &mut Accounts<D>,
    ) -> Result<(), CallError>
    where
        A: Copy,
        requires run { first + count ≤ self.old.pages.count }
        requires user { IsTrue (is_user accounts.old self.old.pages.user.0) }
        requires pins { (index : ℕ) → IsTrue (is_in first count index) → access_pins self.old.pages index + 1 < 2 ^ 64 }
        requires within { IsTrue (are_within users.now.pages pool.old.holds) }
        requires holds { IsTrue (may_hold pool.old.holds (run_count self.old.pages first count)) }

        ensures refused { IfSome (access_refusal self.old.pages users.now.pages accounts.old first count)
            (λ cause. result ≡ Err (CallError.Refused (record { cause = cause }))) }
        ensures taken { IfNone (access_refusal self.old.pages users.now.pages accounts.old first count)
            (IsOkUnless result (CallError.Memory (record {}))) }
        ensures memory { result ≡ Err (CallError.Memory (record {}))
            → self.old.room < run_rows self.old.pages first count }

        ensures pages { OnOk result (IsAccessPinned first count users.now.pages self.old.pages self.new.pages) }
        ensures pool { OnOk result
            (HasMoreHolds pool.old pool.new (run_frames self.old.pages users.now.pages first count)) }
        ensures accounts { OnOk result (accounts.new
            ≡ charged accounts.old self.old.pages.user.0 (run_count self.old.pages first count)) }
        ensures capacity { self.new.capacity ≡ self.old.capacity }

        ensures err { OnErr result (self.new.pages ≡ self.old.pages) }
        ensures pool_err { OnErr result (pool.new ≡ pool.old) }
        ensures accounts_err { OnErr result (accounts.new ≡ accounts.old) }
    {
        if !self.has_run(first, count, users) {
            return Err(refused(Cause::Absent));
        }
        let new = self.new_in_run(first, count);
        if !accounts.has_room(self.user, new) {
            return Err(refused(Cause::Account));
        }
        self.reserve_for_access(first, count)?;
        self.pin_run_reserved(first, count, users, pool, accounts);
        Ok(())
    }

    /// As `pin_by_access`, where nothing refuses it (`has_run`, `Accounts::has_room` of `new_in_run`) and there is
    /// memory (`reserve_for_access`). It takes no memory.
    pub fn pin_run_reserved<B: Allocator, C: Allocator, D: Allocator>(
        &mut self,
        first: u64,
        count: u64,
        users: &UserMap<B>,
        pool: &mut Pool<C>,
        accounts: &mut Accounts<D>,
    )
    where
        A: Copy,
        requires run { first + count ≤ self.old.pages.count }
        requires user { IsTrue (is_user accounts.old self.old.pages.user.0) }
        requires pins { (index : ℕ) → IsTrue (is_in first count index) → access_pins self.old.pages index + 1 < 2 ^ 64 }
        requires within { IsTrue (are_within users.now.pages pool.old.holds) }
        requires holds { IsTrue (may_hold pool.old.holds (run_count self.old.pages first count)) }
        requires granted { access_refusal self.old.pages users.now.pages accounts.old first count ≡ None }
        requires memory { run_rows self.old.pages first count ≤ self.old.room }
        ensures pages { IsAccessPinned first count users.now.pages self.old.pages self.new.pages }
        ensures capacity { self.new.capacity ≡ self.old.capacity }
        ensures pool { HasMoreHolds pool.old pool.new (run_frames self.old.pages users.now.pages first count) }
        ensures accounts { accounts.new
            ≡ charged accounts.old self.old.pages.user.0 (run_count self.old.pages first count) }

        // Each pinned page has one frame, before and after.
        ensures held { (frame : ℕ) → times frame (held_frames self.new.pages)
            ≡ times frame (held_frames self.old.pages)
            + times frame (run_frames self.old.pages users.now.pages first count) }
        ensures count { pinned_count self.new.pages ≡ pinned_count self.old.pages + run_count self.old.pages first
            count }
    {
        let user = self.user;
        let new = self.pin_pages(first, count, users, pool);
        let _ = accounts.charge(user, new);
    }

    /// Puts one pin by an access on each page of a run. How many of them nothing pinned before. It takes no memory.
    fn pin_pages<B: Allocator, C: Allocator>(
        &mut self,
        first: u64,
        count: u64,
        users: &UserMap<B>,
        pool: &mut Pool<C>,
    ) -> u64
    where
        A: Copy,
        requires run { first + count ≤ self.old.pages.count }
        requires pins { (index : ℕ) → IsTrue (is_in first count index) → access_pins self.old.pages index + 1 < 2 ^ 64 }
        requires within { IsTrue (are_within users.now.pages pool.old.holds) }
        requires holds { IsTrue (may_hold pool.old.holds (run_count self.old.pages first count)) }
        requires present { IsTrue (run_is_present self.old.pages users.now.pages first count) }
        requires memory { run_rows self.old.pages first count ≤ self.old.room }
        ensures pages { IsAccessPinned first count users.now.pages self.old.pages self.new.pages }
        ensures capacity { self.new.capacity ≡ self.old.capacity }
        ensures pool { HasMoreHolds pool.old pool.new (run_frames self.old.pages users.now.pages first count) }
        ensures anew { result ≡ run_count self.old.pages first count }
    {
        // As many pages as an object has can be counted.
        let all = self.count;
        prove!(count <= all);
        let mut new = 0;
        for at in 0..count {
            if self.pin_page(first + at, users, pool) {
                new += 1;
            }
        }
        new
    }

    /// Puts one pin by an access on a page. Whether nothing pinned it before. It takes no memory.
    fn pin_page<B: Allocator, C: Allocator>(
        &mut self,
        index: u64,
        users: &UserMap<B>,
        pool: &mut Pool<C>,
    ) -> bool
    where
        A: Copy,
        requires within { index < self.old.pages.count }
        requires pins { access_pins self.old.pages index + 1 < 2 ^ 64 }
        requires users { IsTrue (are_within users.now.pages pool.old.holds) }
        requires holds { IfNone (frame_of self.old.pages index)
            ((frame : ℕ) → slice_index pool.old.holds frame + 1 < 2 ^ 128) }
        requires present { IsTrue (is_some (or_else (frame_of self.old.pages index)
            (frame_now self.old.pages users.now.pages index))) }
        requires memory { access_pins self.old.pages index ≡ 0 → 0 < self.old.room }
        ensures pages { IsAccessPinned index 1 users.now.pages self.old.pages self.new.pages }
        ensures capacity { self.new.capacity ≡ self.old.capacity }
        ensures room { self.old.room ≤ self.new.room + run_rows self.old.pages index 1 }
        ensures pool { HasMoreHolds pool.old pool.new (run_frames self.old.pages users.now.pages index 1) }
        ensures anew { result ≡ is_none (frame_of self.old.pages index) }
    {
        if let Some(_) = self.access.pin_again(index) {
            return false;
        }
        let pinned = frames::frame_of(&self.frames, index);
        if let Some(frame) = frames::hold_page(pinned, users, pool, self.user, self.va, index) {
            self.access.add(index, frame);
        }
        pinned.is_none()
    }

    /// Takes one pin by an access off each page of a run, so many from `first` on. A page that something still pins
    /// keeps its frame; off the frame of each other a hold goes, and the user gets the page back. With the last pin by
    /// an access on any page the memory for them goes back. It takes no memory.
    ///
    /// It asks that a pin by an access stands on each of the pages, that the user holds as many pages as are pinned
    /// (`Accounts::held`), and that their frames have their holds (`AreHeld`).
    pub fn unpin_by_access<B: Allocator, C: Allocator>(
        &mut self,
        first: u64,
        count: u64,
        pool: &mut Pool<B>,
        accounts: &mut Accounts<C>,
    )
    where
        A: Copy,
        requires run { first + count ≤ self.old.pages.count }
        requires pins { (index : ℕ) → IsTrue (is_in first count index) → 1 ≤ access_pins self.old.pages index }
        requires user { IsTrue (is_user accounts.old self.old.pages.user.0) }
        requires held { pinned_count self.old.pages ≤ held_by accounts.old self.old.pages.user.0 }
        requires holds { AreHeld (held_frames self.old.pages) pool.old.holds }
        ensures pages { IsAccessReleased first count self.old.pages self.new.pages }
        ensures pool { HasMoreHolds pool.new pool.old (gone_frames self.old.pages first count) }
        ensures accounts { accounts.new
            ≡ refunded accounts.old self.old.pages.user.0 (gone_count self.old.pages first count) }
        ensures capacity { self.new.capacity ≡ self.old.capacity }

        // Each pinned page has one frame, before and after.
        ensures held { (frame : ℕ) → times frame (held_frames self.old.pages)
            ≡ times frame (held_frames self.new.pages) + times frame (gone_frames self.old.pages first count) }
        ensures count { pinned_count self.old.pages
            ≡ pinned_count self.new.pages + gone_count self.old.pages first count }
    {
        let user = self.user;
        let gone = self.unpin_pages(first, count, pool);
        accounts.refund(user, gone);
        self.free_rows();
    }

    /// Gives the memory for pages that accesses pin back, where none is.
    fn free_rows(&mut self)
    where
        A: Copy,
        ensures pages { self.new.pages ≡ self.old.pages }
        ensures capacity { self.new.capacity ≡ self.old.capacity }
    {
        self.access.free();
    }

    /// Takes one pin by an access off each page of a run, each of which has one. How many pages nothing pins any more.
    /// It takes no memory.
    fn unpin_pages<B: Allocator>(&mut self, first: u64, count: u64, pool: &mut Pool<B>) -> u64
        requires run { first + count ≤ self.old.pages.count }
        requires pins { (index : ℕ) → IsTrue (is_in first count index) → 1 ≤ access_pins self.old.pages index }
        requires holds { AreHeld (gone_frames self.old.pages first count) pool.old.holds }
        ensures pages { IsAccessReleased first count self.old.pages self.new.pages }
        ensures pool { HasMoreHolds pool.new pool.old (gone_frames self.old.pages first count) }
        ensures capacity { self.new.capacity ≡ self.old.capacity }
        ensures gone { result ≡ gone_count self.old.pages first count }
    {
        // As many pages as an object has can be counted.
        let all = self.count;
        prove!(count <= all);
        let mut gone = 0;
        for at in 0..count {
            if self.unpin_page(first + at, pool) {
                gone += 1;
            }
        }
        gone
    }

    /// Takes one pin by an access off a page, which has one. Whether nothing pins it any more. It takes no memory.
    fn unpin_page<B: Allocator>(&mut self, index: u64, pool: &mut Pool<B>) -> bool
        requires within { index < self.old.pages.count }
        requires pins { 1 ≤ access_pins self.old.pages index }
        requires holds { AreHeld (gone_frames self.old.pages index 1) pool.old.holds }
        ensures pages { IsAccessReleased index 1 self.old.pages self.new.pages }
        ensures capacity { self.new.capacity ≡ self.old.capacity }
        ensures pool { HasMoreHolds pool.new pool.old (gone_frames self.old.pages index 1) }
        ensures last { result ≡ is_last self.old.pages index }
    {
        if let Some(_) = self.access.unpin_one(index) {
            return false;
        }
        let Some(pin) = self.access.get(index) else {
            return false;
        };
        self.access.remove(index);
        if self.table_pins > 0 {
            return false;
        }
        pool.release(pin.frame);
        true
    }
}
