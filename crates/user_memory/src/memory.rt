//! The users' memory.

ghost use Rattle.std.specs.Prelude.{ℕ, ◌≡◌, ◌==◌, ◌&&◌, ◌<◌, ◌≤◌, ◌+◌, ◌*◌};
ghost use Rattle.std.specs.Prelude.{◌^◌, [], ◌∷◌, false, true, None, find};
ghost use Rattle.std.specs.Prelude.{is_none, length, nat_lt, slice_get, if◌then◌else◌};
ghost use Rattle.std.specs.Prelude.{IsSome, IfOk, IfSome};
ghost use Rattle.std.specs.Prelude.{OnOk, OnErr};
ghost use Rattle.std.specs.List.{list_all, list_any};
ghost use Rattle.std.specs.List.Sorted.{IsNonDecreasing};
ghost use Rattle.iofd_words.specs.Copies as copies;
ghost use Rattle.iofd_words.specs.Files.{numbered};
ghost use Rattle.iofd_words.specs.Frames as frames;
ghost use Rattle.iofd_words.specs.Pages.{is_whole, page_of};
ghost use Rattle.iofd_words.specs.Pins.{ObjectPage};
ghost use Rattle.frame_memory.specs.Pool.{FramePool, given, least_free};
ghost use Rattle.frame_memory.specs.UserPages.{HasOneMore, user_page};
ghost use Rattle.memory_objects.specs.Objects.{times_of};
ghost use Rattle.memory_objects.specs.Runs.{covers};
ghost use Rattle.user_memory.specs.Changes.{HasLess, HasObject, HasPins, HasRunPinned, HasRunReleased, HasShare};
ghost use Rattle.user_memory.specs.Changes.{HoldsFollow, SameObjects, Settles, never, once};
ghost use Rattle.user_memory.specs.Invariant.{ObjectsTell};
ghost use Rattle.user_memory.specs.Memory.{IsBacked, access_pins, are_of, areas_over, frame_now, has_memory, has_room};
ghost use Rattle.user_memory.specs.Memory.{held_by, lacks_page, new_in_runs, new_pages, newly_pinned, pinned_frame};
ghost use Rattle.user_memory.specs.Memory.{rows_at, rows_of, run_lies, table_pins};

use crate::adding;
use frame_memory::{Pool, UserMap};
use iofd_words::{FrameNo, MemoryObject, NoMemory, PAGE_SIZE, UserNo};
use mem_account::Accounts;
use memory_objects::{MemoryObjects, PageRun};
use std::alloc::{Allocator, Global};
use std::marker::Model;

/// The memory of all users. A contract sees the users' pages and limits, for how many more pages there is room, and the
/// memory objects; what a user has pinned is counted by the pins. The frames are a pool's, which each call that changes
/// them is lent.
#[derive(Drop)]
pub struct UserMemory<A: Allocator = Global> {
    alloc: A,
    users: UserMap<A>,
    accounts: Accounts<A>,
    objects: MemoryObjects<A>,
}

impl<A: Allocator> Model for UserMemory<A> {
    ghost use Rattle.std.specs.Prelude.{map};
    ghost use Rattle.user_memory.specs.Invariant.{AccountsTell};
    ghost use Rattle.user_memory.specs.Memory.{Memory};

    ghost Value = { Memory };

    ghost view = { λ m. record {
      pages = m.users.pages;
      limits = map (λ account. account.limit) m.accounts;
      objects = m.objects.objects;
      room = m.users.room;
    } };

    ghost invariant = { λ m. AccountsTell m.accounts m.objects.objects };
}

impl<A: Allocator + Copy> UserMemory<A> {
    /// The memory of users with these limits of pinned pages, from user 1 on: no pages and no objects. NoMemory
    /// where there is none for the limits.
    pub fn new(alloc: A, limits: &[u64]) -> Result<UserMemory<A>, NoMemory>
        ensures pages { IfOk result (λ memory. memory.pages ≡ []) }
        ensures limits { IfOk result (λ memory. memory.limits ≡ limits.now) }
        ensures objects { IfOk result (λ memory. memory.objects ≡ []) }
    {
        Ok(UserMemory {
            alloc,
            users: UserMap::new(alloc),
            accounts: Accounts::new(alloc, limits)?,
            objects: MemoryObjects::new(alloc),
        })
    }

    /// Adds a memory object with one area over it, and with one pin if `pinned`. Its number is above all others. Where
    /// it is pinned its pages are there, and the user may have them pinned. An error changes nothing.
    pub fn add<B: Allocator>(
        &mut self,
        pool: &mut Pool<B>,
        row: MemoryObject,
        pinned: bool,
    ) -> Result<(), NoMemory>
        requires start { is_whole row.va ≡ true }
        requires end { row.va + row.count * 4096 ≤ 2 ^ 48 }
        requires user { IsSome (numbered self.old.limits row.user.0) }
        requires rises { list_all (λ other. nat_lt other.number row.number) (rows_of self.old) ≡ true }
        requires present { pinned ≡ true → frames.has_pages (frames.frame_at self.old.pages) row.user
            (page_of row.va) row.count ≡ true }
        requires room { pinned ≡ true → has_room self.old row.user row.count ≡ true }
        requires backed { IsBacked self.old pool.old.holds }
        ensures object { OnOk result (HasObject (if pinned then 1 else 0) row self.old self.new) }
        ensures settles { OnOk result (Settles self.old self.new pool.old pool.new) }
        ensures room { self.new.room ≡ self.old.room }
        ensures err { OnErr result (self.new ≡ self.old) }
        ensures pool_err { OnErr result (pool.new ≡ pool.old) }
    {
        self.objects.reserve()?;
        // So many pages and pins leave room for the holds.
        self.users.facts();
        self.objects.facts();
        let pages = adding::object_pages(
            self.alloc,
            row,
            pinned,
            &self.users,
            pool,
            &mut self.accounts,
        )?;
        self.objects.insert(row.number, pages);
        Ok(())
    }
}

impl<A: Allocator> UserMemory<A> {
    /// The frame of the user's page that holds this user address, in bytes. It takes no memory.
    pub fn frame_at(&self, user: UserNo, va: u64) -> Option<FrameNo>
        ensures { result ≡ frames.frame_at self.now.pages user (page_of va) }
    {
        self.users.frame_at(user, va)
    }

    /// Whether the user's pages from this user address on, so many of them, are in the user's memory.
    pub fn has_pages(&self, user: UserNo, va: u64, count: u64) -> bool
        requires { page_of va + count < 2 ^ 64 }
        ensures { result ≡ frames.has_pages (frames.frame_at self.now.pages) user (page_of va) count }
    {
        for index in 0..count {
            let page = va / PAGE_SIZE + index;
            if self.users.frame_of_page(user, page).is_none() {
                return false;
            }
        }
        true
    }

    /// How many pinned pages the user has.
    pub fn held(&self, user: UserNo) -> u64
        requires { IsSome (numbered self.now.limits user.0) }
        ensures { result ≡ held_by self.now user }
    {
        self.accounts.held(user)
    }

    /// Whether the user may have so many pinned pages more.
    pub fn has_room(&self, user: UserNo, count: u128) -> bool
        ensures { result ≡ has_room self.now user count }
    {
        self.accounts.has(user) && count <= u128::from(self.accounts.room(user))
    }

    /// The frame at which page `index`, counted from 0, of the object of this number is pinned.
    pub fn frame(&self, number: u64, index: u64) -> Option<FrameNo>
        ensures { result ≡ pinned_frame self.now (record { memory = number; index = index }) }
    {
        self.objects.frame(number, index)
    }

    /// The frames at which page tables pin the pages of the object of this number, in order: those of all its pages,
    /// and none where no page table pins it or there is no such object. It costs one look-up, and takes no memory.
    pub fn frames(&self, number: u64) -> &[FrameNo]
        ensures each { 0 < table_pins self.now number → (index : ℕ) → slice_get result.now index
            ≡ pinned_frame self.now (record { memory = number; index = index }) }
        ensures count { 0 < table_pins self.now number →
            IfSome (find (λ row. row.number == number) (rows_of self.now))
            (λ row. length result.now ≡ row.count) }
        ensures none { table_pins self.now number ≡ 0 → result.now ≡ [] }
    {
        self.objects.frames(number)
    }

    /// Whether no page table pins the object, and a page that no access pins isn't in its user's memory.
    pub fn lacks_page(&self, number: u64) -> bool
        ensures { result ≡ lacks_page self.now number }
    {
        !self.objects.are_present(&[number], &self.users)
    }

    /// What holds of the memory objects at any time. The call does nothing else.
    pub fn objects_told(&self)
        ensures { ObjectsTell self.now.objects }
    {
        let _ = &self.objects;
    }

    /// Whether there is an object of this number, and devices may write its memory. It costs one look-up.
    pub fn is_writable(&self, number: u64) -> bool
        ensures { result ≡ copies.is_writable (rows_of self.now) number }
    {
        match self.objects.get(number) {
            Some(row) => row.writable,
            None => false,
        }
    }

    /// How many pages pinning the object pins anew.
    pub fn new_pages(&self, number: u64) -> u64
        ensures value { result ≡ new_pages self.now number }
        ensures few { result ≤ 2 ^ 36 }
        ensures facts { ObjectsTell self.now.objects }
    {
        self.objects.new_count(number)
    }

    /// How many pages pinning these objects pins anew, each page once, however often its object is there. The numbers
    /// rise or stay. It takes no memory.
    pub fn newly_pinned(&self, numbers: &[u64]) -> u128
        requires { IsNonDecreasing numbers.now }
        ensures { result ≡ newly_pinned self.now numbers.now }
    {
        self.objects.new_pages(numbers)
    }

    /// Gives the user the page that holds this user address: the least free frame, which reads zero. The user hasn't
    /// the page, and a frame is free. NoMemory comes only where there was no room for one more page; an error changes
    /// nothing.
    pub fn map_page<B: Allocator>(
        &mut self,
        pool: &mut Pool<B>,
        user: UserNo,
        va: u64,
    ) -> Result<FrameNo, NoMemory>
    where
        A: Copy,
        requires absent { frames.frame_at self.old.pages user (page_of va) ≡ None }
        requires free { IsSome (least_free pool.old.holds) }
        ensures least { IfOk result (λ frame. least_free pool.old.holds ≡ Some frame.0) }
        ensures pages { IfOk result (λ frame. HasOneMore self.old.pages self.new.pages
            (user_page user (page_of va) frame)) }
        ensures limits { self.new.limits ≡ self.old.limits }
        ensures objects { SameObjects self.old self.new }
        ensures pool { IfOk result (λ frame. pool.new ≡ given pool.old frame.0) }
        ensures holds { OnOk result (HoldsFollow self.old self.new pool.old pool.new) }
        ensures room { self.old.room ≤ self.new.room + 1 }
        ensures memory { OnErr result (self.old.room ≡ 0) }
        ensures err { OnErr result (self.new ≡ self.old) }
        ensures pool_err { OnErr result (pool.new ≡ pool.old) }
    {
        match self.users.map(pool, user, va) {
            Ok(frame) => Ok(frame),
            // Nothing refuses it, so only memory was lacking.
            Err(_) => Err(NoMemory),
        }
    }

    /// Takes the user's page that holds this user address away, which the user has. Pins keep its frame.
    pub fn unmap_page<B: Allocator>(&mut self, pool: &mut Pool<B>, user: UserNo, va: u64)
        requires present { IsSome (frames.frame_at self.old.pages user (page_of va)) }
        requires backed { IsBacked self.old pool.old.holds }
        ensures pages { IfSome (frames.frame_at self.old.pages user (page_of va))
            (λ frame. HasOneMore self.new.pages self.old.pages (user_page user (page_of va) frame)) }
        ensures limits { self.new.limits ≡ self.old.limits }
        ensures objects { SameObjects self.old self.new }
        ensures holds { HoldsFollow self.old self.new pool.old pool.new }
        ensures room { self.old.room ≤ self.new.room }
        ensures bytes { pool.new.bytes ≡ pool.old.bytes }
    {
        // The page is there, so that nothing refuses it.
        let _ = self.users.unmap(pool, user, va);
    }

    /// Puts a pin on each of these objects for each time that its number is there. They are all the user's, whose
    /// pages are there, and who may have them pinned. NoMemory comes only where an object that isn't pinned has no
    /// memory for the frames of its pages; an error changes nothing.
    pub fn pin<B: Allocator>(
        &mut self,
        pool: &mut Pool<B>,
        user: UserNo,
        numbers: &[u64],
    ) -> Result<(), NoMemory>
        requires own { are_of user (rows_at self.old numbers.now) ≡ true }
        requires present { list_any (lacks_page self.old) numbers.now ≡ false }
        requires room { has_room self.old user (newly_pinned self.old numbers.now) ≡ true }
        requires areas { (number : ℕ) → table_pins self.old number
            + times_of number numbers.now ≤ areas_over self.old number }
        requires backed { IsBacked self.old pool.old.holds }
        ensures pins { OnOk result (HasPins (λ n. times_of n numbers.now) self.old self.new) }
        ensures memory { OnErr result (list_all (has_memory self.old) numbers.now ≡ false) }
        ensures settles { OnOk result (Settles self.old self.new pool.old pool.new) }
        ensures pages { self.new.pages ≡ self.old.pages }
        ensures limits { self.new.limits ≡ self.old.limits }
        ensures room { self.new.room ≡ self.old.room }
        ensures err { OnErr result (SameObjects self.old self.new) }
        ensures pool_err { OnErr result (pool.new ≡ pool.old) }
    {
        self.objects.reserve_frames(numbers)?;
        // So many pages and pins leave room for the holds.
        self.users.facts();
        self.objects.facts();
        self.objects
            .pin_by_table(numbers, &self.users, pool, &mut self.accounts);
        Ok(())
    }

    /// One area more lies over the object of this number, over which one lies already, with one pin more if `pinned`:
    /// then the object is the user's, its pages are there, and the user may have them pinned. It costs a few look-ups
    /// by number, and memory only where the pin is the first one: NoMemory comes only then, and only where the object
    /// has no memory for the frames of its pages. An error changes nothing.
    pub fn share<B: Allocator>(
        &mut self,
        pool: &mut Pool<B>,
        user: UserNo,
        number: u64,
        pinned: bool,
    ) -> Result<(), NoMemory>
        requires there { 1 ≤ areas_over self.old number }
        requires few { areas_over self.old number + 1 < 2 ^ 64 }
        requires own { pinned ≡ true → are_of user (rows_at self.old (number ∷ [])) ≡ true }
        requires present { pinned ≡ true → lacks_page self.old number ≡ false }
        requires room { pinned ≡ true → has_room self.old user (new_pages self.old number) ≡ true }
        requires backed { IsBacked self.old pool.old.holds }
        ensures share { OnOk result (HasShare (if pinned then 1 else 0) number self.old self.new) }
        ensures memory { OnErr result (pinned ≡ true) }
        ensures first { OnErr result (table_pins self.old number ≡ 0) }
        ensures lacking { OnErr result (has_memory self.old number ≡ false) }
        ensures settles { OnOk result (Settles self.old self.new pool.old pool.new) }
        ensures pages { self.new.pages ≡ self.old.pages }
        ensures limits { self.new.limits ≡ self.old.limits }
        ensures room { self.new.room ≡ self.old.room }
        ensures err { OnErr result (SameObjects self.old self.new) }
        ensures pool_err { OnErr result (pool.new ≡ pool.old) }
    {
        if pinned {
            return self.share_pinned(pool, user, number);
        }
        self.objects.add_area(number);
        Ok(())
    }

    /// What `share` does where the area has a pin.
    fn share_pinned<B: Allocator>(
        &mut self,
        pool: &mut Pool<B>,
        user: UserNo,
        number: u64,
    ) -> Result<(), NoMemory>
        requires there { 1 ≤ areas_over self.old number }
        requires few { areas_over self.old number + 1 < 2 ^ 64 }
        requires own { are_of user (rows_at self.old (number ∷ [])) ≡ true }
        requires present { lacks_page self.old number ≡ false }
        requires room { has_room self.old user (new_pages self.old number) ≡ true }
        requires backed { IsBacked self.old pool.old.holds }
        ensures share { OnOk result (HasShare 1 number self.old self.new) }
        ensures lacking { OnErr result (has_memory self.old number ≡ false) }
        ensures settles { OnOk result (Settles self.old self.new pool.old pool.new) }
        ensures pages { self.new.pages ≡ self.old.pages }
        ensures limits { self.new.limits ≡ self.old.limits }
        ensures room { self.new.room ≡ self.old.room }
        ensures err { OnErr result (SameObjects self.old self.new) }
        ensures pool_err { OnErr result (pool.new ≡ pool.old) }
    {
        self.objects.reserve_frames(&[number])?;
        // So many pages and pins leave room for the holds.
        self.users.facts();
        self.objects.facts();
        self.objects.add_area(number);
        self.objects
            .pin_by_table(&[number], &self.users, pool, &mut self.accounts);
        Ok(())
    }

    /// Takes a pin off the object of this number, which has one. It takes no memory.
    pub fn unpin<B: Allocator>(&mut self, pool: &mut Pool<B>, number: u64)
        requires pins { 1 ≤ table_pins self.old number }
        requires backed { IsBacked self.old pool.old.holds }
        ensures less { HasLess never (once number) self.old self.new }
        ensures settles { Settles self.old self.new pool.old pool.new }
        ensures room { self.new.room ≡ self.old.room }
    {
        self.objects
            .unpin_by_table(&[number], pool, &mut self.accounts);
    }

    /// An area less lies over the object of this number, over which one lies whose pin is off. With its last area it
    /// goes, and no access pins a page of it. It takes no memory.
    pub fn remove_area(&mut self, number: u64)
        requires pins { table_pins self.old number + 1 ≤ areas_over self.old number }
        requires access { areas_over self.old number ≡ 1
            → (index : ℕ) → access_pins self.old (record { memory = number; index = index }) ≡ 0 }
        ensures less { HasLess (once number) never self.old self.new }
        ensures settles { (pool : FramePool) → Settles self.old self.new pool pool }
        ensures room { self.new.room ≡ self.old.room }
    {
        self.objects.remove_area(number);
    }

    /// Whether some page of the run is neither pinned nor in its user's memory. Where one is, a pin of the run is
    /// refused by Absent (8, EFAULT). It takes no memory.
    pub fn lacks_page_in(&self, run: PageRun) -> bool
        requires { run_lies self.now run ≡ true }
        ensures { result ≡ list_any (λ page. is_none (frame_now self.now page)) (new_in_runs self.now (run ∷ [])) }
    {
        !self.objects.has_run(run, &self.users)
    }

    /// How many pages of the run aren't pinned. It takes no memory.
    pub fn new_pages_in(&self, run: PageRun) -> u64
        requires { run_lies self.now run ≡ true }
        ensures { result ≡ length (new_in_runs self.now (run ∷ [])) }
    {
        self.objects.new_in_run(run)
    }

    /// Puts one pin by an access on each page of the run. A page that is pinned keeps its frame; each other is pinned
    /// at the frame that it is in its user's memory now, and the user, who may have them pinned, is charged for it.
    /// NoMemory comes only where no access pins some page of the run yet; an error changes nothing.
    pub fn pin_by_access<B: Allocator>(
        &mut self,
        pool: &mut Pool<B>,
        run: PageRun,
    ) -> Result<(), NoMemory>
    where
        A: Copy,
        requires lies { run_lies self.old run ≡ true }
        requires present { list_any (λ page. is_none (frame_now self.old page)) (new_in_runs self.old (run ∷ []))
            ≡ false }
        requires room { IfSome (find (λ row. row.number == run.number) (rows_of self.old))
            (λ row. has_room self.old row.user (length (new_in_runs self.old (run ∷ []))) ≡ true) }
        requires few { (page : ObjectPage) → covers run page.memory page.index ≡ true
            → access_pins self.old page + 1 < 2 ^ 64 }
        requires backed { IsBacked self.old pool.old.holds }
        ensures more { OnOk result (HasRunPinned run self.old self.new) }
        ensures settles { OnOk result (Settles self.old self.new pool.old pool.new) }
        ensures memory { OnErr result ((page : ObjectPage) × (covers run page.memory page.index ≡ true)
            × (access_pins self.old page ≡ 0)) }
        ensures pages { self.new.pages ≡ self.old.pages }
        ensures limits { self.new.limits ≡ self.old.limits }
        ensures room { self.new.room ≡ self.old.room }
        ensures err { OnErr result (SameObjects self.old self.new) }
        ensures pool_err { OnErr result (pool.new ≡ pool.old) }
    {
        self.objects.reserve_for_access(run)?;
        // So many pages and pins leave room for the holds.
        self.users.facts();
        self.objects.facts();
        self.objects
            .pin_by_access(run, &self.users, pool, &mut self.accounts);
        Ok(())
    }

    /// Takes one pin by an access off each page of the run, each of which has one. A page that something still pins
    /// keeps its frame; each other is pinned no longer, and its user gets it back. It takes no memory.
    pub fn unpin_by_access<B: Allocator>(&mut self, pool: &mut Pool<B>, run: PageRun)
    where
        A: Copy,
        requires lies { run_lies self.old run ≡ true }
        requires pins { (page : ObjectPage) → covers run page.memory page.index ≡ true
            → 1 ≤ access_pins self.old page }
        requires backed { IsBacked self.old pool.old.holds }
        ensures less { HasRunReleased run self.old self.new }
        ensures settles { Settles self.old self.new pool.old pool.new }
        ensures room { self.new.room ≡ self.old.room }
    {
        self.objects.unpin_by_access(run, pool, &mut self.accounts);
    }
}
