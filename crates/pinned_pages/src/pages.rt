//! A memory object and its pins.

ghost use Rattle.std.specs.Prelude.{ℕ, ◌≡◌, ◌==◌, ◌≤◌, ◌<◌, ◌+◌, ◌*◌, ◌^◌, []};
ghost use Rattle.std.specs.Prelude.{IsTrue, IfSome, IfNone, OnOk, OnErr};
ghost use Rattle.std.specs.Prelude.{IsOkUnless, if◌then◌else◌, is_some, length, slice_get, None, true};
ghost use Rattle.iofd_words.specs.Pages.{is_whole};
ghost use Rattle.mem_account.specs.Accounts.{held_by, is_user};
ghost use Rattle.frame_memory.specs.Pool.{may_hold};
ghost use Rattle.frame_memory.specs.UserPages.{are_within};
ghost use Rattle.pinned_pages.specs.Access.{are_counted};
ghost use Rattle.pinned_pages.specs.Holds.{AreHeld, HasMoreHolds, times};
ghost use Rattle.pinned_pages.specs.Pages.{are_present, charged_first, count_of_others, frame_of, held_frames};
ghost use Rattle.pinned_pages.specs.Pages.{is_pinned, last_count};
ghost use Rattle.pinned_pages.specs.Pages.{last_frames, needed, new_count, new_frames, pin_refusal, pinned};
ghost use Rattle.pinned_pages.specs.Pages.{pinned_count, refunded_last, released, unpinned};

mod accesses;

use crate::access_pins::AccessPins;
use crate::frames;
use frame_memory::{Pool, UserMap};
use iofd_words::{CallError, Cause, FrameNo, NoMemory, Refusal, UserNo};
use mem_account::Accounts;
use std::alloc::{Allocator, Global};
use std::marker::Model;

/// The pages that a MAP made ready for devices. Page tables pin them, all or none, once for each area over them that
/// stands in an address space with a hardware page table; accesses pin any run of them. A page is pinned and charged
/// once, by tables and accesses together, at the frame that it was when the first of their pins came, for as long as
/// one stands on it. A contract sees whose pages they are, how many pins by tables stand on them, their frames while
/// some does, the pages that accesses pin, and for how many frames and rows of such pages there is memory.
///
/// Memory grows with the pages that are pinned, not with the object.
#[derive(Drop)]
pub struct Pages<A: Allocator = Global> {
    user: UserNo,
    writable: bool,
    va: u64,
    count: u64,
    table_pins: u64,
    // Of all pages, while a page table pins them.
    frames: Vec<FrameNo, A>,
    // The pages on which a pin by an access stands, whatever page tables do.
    access: AccessPins<A>,
}

impl<A: Allocator> Model for Pages<A> {
    ghost use Rattle.std.specs.Prelude.{vec_capacity};
    ghost use Rattle.pinned_pages.specs.Kept.{AreKept};
    ghost use Rattle.pinned_pages.specs.Pages.{MemoryPages};

    ghost Value = { MemoryPages };

    ghost view = { λ p. record {
      pages = record {
        user = p.user;
        va = p.va;
        count = p.count;
        writable = p.writable;
        table_pins = p.table_pins;
        frames = p.frames.items;
        access = p.access.rows;
      };
      capacity = vec_capacity p.frames;
      room = p.access.room;
    } };

    ghost invariant = { λ p. AreKept (record {
      user = p.user;
      va = p.va;
      count = p.count;
      writable = p.writable;
      table_pins = p.table_pins;
      frames = p.frames.items;
      access = p.access.rows;
    }) };
}

impl<A: Allocator> Pages<A> {
    /// So many pages of the user from this user address on, in bytes, none of them pinned. They may be written if
    /// `writable`. It takes no memory.
    pub fn new(alloc: A, user: UserNo, va: u64, count: u64, writable: bool) -> Pages<A>
    where
        A: Copy,
        requires start { is_whole va ≡ true }
        requires end { va + count * 4096 ≤ 2 ^ 48 }
        ensures pages { result.pages ≡ unpinned user va count writable }
    {
        Pages {
            user,
            va,
            count,
            writable,
            table_pins: 0,
            frames: Vec::new(alloc),
            access: AccessPins::new(alloc),
        }
    }

    /// Whose pages they are.
    pub fn user(&self) -> UserNo
        ensures { result ≡ self.now.pages.user }
    {
        self.user
    }

    /// The user address of the first page, in bytes.
    pub fn va(&self) -> u64
        ensures { result ≡ self.now.pages.va }
    {
        self.va
    }

    /// How many pages there are.
    pub fn count(&self) -> u64
        ensures { result ≡ self.now.pages.count }
    {
        self.count
    }

    /// Whether they may be written.
    pub fn is_writable(&self) -> bool
        ensures { result ≡ self.now.pages.writable }
    {
        self.writable
    }

    /// What holds of the pages of every memory object: where no page table pins them they have no frames, else one
    /// each, and those that access objects pin are counted. The call does nothing else.
    pub fn facts(&self)
        ensures pinned { 0 < self.now.pages.table_pins → length self.now.pages.frames ≡ self.now.pages.count }
        ensures unpinned { self.now.pages.table_pins ≡ 0 → self.now.pages.frames ≡ [] }
        ensures counted { IsTrue (are_counted self.now.pages.count self.now.pages.access) }
    {
        let _ = &self.table_pins;
    }

    /// How many pins by page tables stand on the pages. They are pinned, all of them, where it isn't 0.
    pub fn table_pins(&self) -> u64
        ensures value { result ≡ self.now.pages.table_pins }
        ensures pinned { 0 < result → length self.now.pages.frames ≡ self.now.pages.count }
        ensures unpinned { result ≡ 0 → self.now.pages.frames ≡ [] }
        ensures counted { IsTrue (are_counted self.now.pages.count self.now.pages.access) }
    {
        self.table_pins
    }

    /// The frames of all pages in order, where a page table pins them, and else none.
    pub fn frames(&self) -> &[FrameNo]
        ensures frames { result.now ≡ self.now.pages.frames }
        ensures count { length result.now ≡ (if self.now.pages.table_pins == 0 then 0 else self.now.pages.count) }
        ensures each { 0 < self.now.pages.table_pins
            → (index : ℕ) → slice_get result.now index ≡ frame_of self.now.pages index }
    {
        &self.frames
    }

    /// The frame of page `index`, counted from 0, where page tables or accesses pin it. It takes no memory.
    pub fn frame(&self, index: u64) -> Option<FrameNo>
        ensures frame { result ≡ frame_of self.now.pages index }
        ensures pinned { is_some result ≡ is_pinned self.now.pages index }
    {
        match self.access.frame(index) {
            Some(frame) => Some(frame),
            None => frames::frame_of(&self.frames, index),
        }
    }

    /// Whether each page that no access pins is in its user's memory now. It takes no memory.
    pub fn are_present<B: Allocator>(&self, users: &UserMap<B>) -> bool
        ensures { result ≡ are_present self.now.pages users.now.pages }
    {
        frames::has_pages(&self.access, users, self.user, self.va, self.count)
    }

    /// How many pages `pin_by_table` would pin that aren't pinned yet.
    pub fn new_count(&self) -> u64
        ensures value { result ≡ new_count self.now.pages }
        ensures few { result ≤ 2 ^ 36 }
    {
        if self.table_pins == 0 {
            self.others()
        } else {
            0
        }
    }

    /// How many pages no access pins.
    fn others(&self) -> u64
        ensures value { result ≡ count_of_others self.now.pages }
        ensures few { result ≤ 2 ^ 36 }
    {
        self.count - self.access.len() as u64
    }

    /// Takes memory for the frames of all pages, if no page table pins them and there is none. After an Ok the next pin
    /// by a page table doesn't want for memory; an error changes nothing.
    pub fn reserve(&mut self) -> Result<(), NoMemory>
        ensures pages { self.new.pages ≡ self.old.pages }
        ensures ok { OnOk result (needed self.old.pages ≤ self.new.capacity) }
        ensures enough { needed self.old.pages ≤ self.old.capacity → self.new ≡ self.old }
        ensures capacity { self.old.capacity ≤ self.new.capacity }
        ensures room { self.new.room ≡ self.old.room }
        ensures full { OnErr result (self.old.capacity < needed self.old.pages) }
        ensures unchanged { OnErr result (self.new ≡ self.old) }
    {
        if self.table_pins == 0 && (self.frames.capacity() as u64) < self.count {
            self.frames.reserve(self.count as usize)?;
        }
        Ok(())
    }

    /// Gives the memory for frames back, where no page table pins them. It takes none.
    pub fn free_frames(&mut self)
        ensures pages { self.new.pages ≡ self.old.pages }
        ensures room { self.new.room ≡ self.old.room }
        ensures capacity { self.new.capacity ≤ self.old.capacity }
        ensures none { self.old.pages.table_pins ≡ 0 → self.new.capacity ≡ 0 }
    {
        self.frames.shrink_to_fit();
    }

    /// Puts one more pin on the pages, for an area in an address space that has a page table. By the first each page
    /// that no access pins is pinned at the frame that it is in its user's memory now, which gets a hold, and the user
    /// is charged for these; the others keep their frames. By later pins nothing else changes.
    ///
    /// The first is refused, in this order: Absent (8, EFAULT) where a page that no access pins isn't in its user's
    /// memory; Account (7, ENOMEM) where the user would hold more pages than the limit. An error leaves the pages, the
    /// pool and the accounts as they were; want of memory comes only where there was none for all frames.
    ///
    /// The first asks that the users' pages lie in the pool, and that each frame may have as many holds more as pages
    /// are pinned anew.
    pub fn pin_by_table<B: Allocator, C: Allocator, D: Allocator>(
        &mut self,
        users: &UserMap<B>,
        pool: &mut Pool<C>,
        accounts: &mut Accounts<D>,
    ) -> Result<(), CallError>
        requires user { IsTrue (is_user accounts.old self.old.pages.user.0) }
        requires pins { self.old.pages.table_pins + 1 < 2 ^ 64 }
        requires within { self.old.pages.table_pins ≡ 0 → IsTrue (are_within users.now.pages pool.old.holds) }
        requires holds { self.old.pages.table_pins ≡ 0
            → IsTrue (may_hold pool.old.holds (new_count self.old.pages)) }

        ensures refused { IfSome (pin_refusal self.old.pages users.now.pages accounts.old)
            (λ cause. result ≡ Err (CallError.Refused (record { cause = cause }))) }
        ensures taken { IfNone (pin_refusal self.old.pages users.now.pages accounts.old)
            (IsOkUnless result (CallError.Memory (record {}))) }
        ensures memory { result ≡ Err (CallError.Memory (record {})) → self.old.capacity < needed self.old.pages }

        ensures pages { OnOk result (self.new.pages ≡ pinned self.old.pages users.now.pages) }
        ensures pool { OnOk result (HasMoreHolds pool.old pool.new (new_frames self.old.pages users.now.pages)) }
        ensures accounts { OnOk result (accounts.new ≡ charged_first self.old.pages accounts.old) }
        ensures capacity { self.old.capacity ≤ self.new.capacity }
        ensures enough { needed self.old.pages ≤ self.old.capacity → self.new.capacity ≡ self.old.capacity }
        ensures room { self.new.room ≡ self.old.room }

        ensures err { OnErr result (self.new ≡ self.old) }
        ensures pool_err { OnErr result (pool.new ≡ pool.old) }
        ensures accounts_err { OnErr result (accounts.new ≡ accounts.old) }
    {
        if self.table_pins == 0 {
            if !self.are_present(users) {
                return Err(refused(Cause::Absent));
            }
            if !accounts.has_room(self.user, self.new_count()) {
                return Err(refused(Cause::Account));
            }
            self.reserve()?;
        }
        self.pin_reserved(users, pool, accounts);
        Ok(())
    }

    /// As `pin_by_table`, where nothing refuses it (`are_present`, `Accounts::has_room`) and there is memory
    /// (`reserve`). It takes no memory.
    pub fn pin_reserved<B: Allocator, C: Allocator, D: Allocator>(
        &mut self,
        users: &UserMap<B>,
        pool: &mut Pool<C>,
        accounts: &mut Accounts<D>,
    )
        requires user { IsTrue (is_user accounts.old self.old.pages.user.0) }
        requires pins { self.old.pages.table_pins + 1 < 2 ^ 64 }
        requires within { self.old.pages.table_pins ≡ 0 → IsTrue (are_within users.now.pages pool.old.holds) }
        requires holds { self.old.pages.table_pins ≡ 0
            → IsTrue (may_hold pool.old.holds (new_count self.old.pages)) }
        requires granted { pin_refusal self.old.pages users.now.pages accounts.old ≡ None }
        requires memory { needed self.old.pages ≤ self.old.capacity }
        ensures pages { self.new.pages ≡ pinned self.old.pages users.now.pages }
        ensures capacity { self.new.capacity ≡ self.old.capacity }
        ensures room { self.new.room ≡ self.old.room }
        ensures pool { HasMoreHolds pool.old pool.new (new_frames self.old.pages users.now.pages) }
        ensures accounts { accounts.new ≡ charged_first self.old.pages accounts.old }

        // Each pinned page has one frame, before and after.
        ensures held { (frame : ℕ) → times frame (held_frames self.new.pages)
            ≡ times frame (held_frames self.old.pages) + times frame (new_frames self.old.pages users.now.pages) }
        ensures count { pinned_count self.new.pages ≡ pinned_count self.old.pages + new_count self.old.pages }
    {
        if self.table_pins > 0 {
            self.table_pins += 1;
            return;
        }
        let _ = accounts.charge(self.user, self.new_count());
        frames::hold_all(
            &mut self.frames,
            &self.access,
            users,
            pool,
            self.user,
            self.va,
            self.count,
        );
        self.table_pins = 1;
    }

    /// Takes one pin off the pages. With the last no page is pinned any more but those that accesses pin, which keep
    /// their frames: a hold goes off the frame of each other, and the user gets these pages back; before it nothing
    /// else changes. The memory for the frames stays. It takes no memory.
    ///
    /// The last asks that the user holds as many pages as are pinned (`Accounts::held`), and that their frames have
    /// their holds (`AreHeld`).
    pub fn unpin_by_table<B: Allocator, C: Allocator>(
        &mut self,
        pool: &mut Pool<B>,
        accounts: &mut Accounts<C>,
    )
        requires some { 0 < self.old.pages.table_pins }
        requires user { IsTrue (is_user accounts.old self.old.pages.user.0) }
        requires held { self.old.pages.table_pins ≡ 1
            → pinned_count self.old.pages ≤ held_by accounts.old self.old.pages.user.0 }
        requires holds { self.old.pages.table_pins ≡ 1 → AreHeld (held_frames self.old.pages) pool.old.holds }
        ensures pages { self.new.pages ≡ released self.old.pages }
        ensures pool { HasMoreHolds pool.new pool.old (last_frames self.old.pages) }
        ensures accounts { accounts.new ≡ refunded_last self.old.pages accounts.old }
        ensures capacity { self.new.capacity ≡ self.old.capacity }
        ensures room { self.new.room ≡ self.old.room }

        // Each pinned page has one frame, before and after.
        ensures held { (frame : ℕ) → times frame (held_frames self.old.pages)
            ≡ times frame (held_frames self.new.pages) + times frame (last_frames self.old.pages) }
        ensures count { pinned_count self.old.pages ≡ pinned_count self.new.pages + last_count self.old.pages }
    {
        if self.table_pins > 1 {
            self.table_pins -= 1;
            return;
        }
        let others = self.others();
        frames::release_others(&self.frames, &self.access, pool);
        accounts.refund(self.user, others);
        self.frames.clear();
        self.table_pins = 0;
    }
}

/// The refusal for this cause.
fn refused(cause: Cause) -> CallError
    ensures { result ≡ CallError.Refused (record { cause = cause }) }
{
    CallError::Refused(Refusal { cause })
}
