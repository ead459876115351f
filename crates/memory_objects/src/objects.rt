//! All memory objects, by number.

ghost use Rattle.std.specs.Prelude.{ℕ, ◌≡◌, ◌==◌, ◌+◌, ◌<◌, ◌≤◌, ◌^◌, ◌&&◌};
ghost use Rattle.std.specs.Prelude.{◌++◌, ◌∷◌, [], false, find, length};
ghost use Rattle.std.specs.Prelude.{slice_get, if◌then◌else◌, IsTrue, IfNone, IfSome, OnOk, OnErr};
ghost use Rattle.std.specs.List.Sorted.{IsNonDecreasing};
ghost use Rattle.std.specs.Option.{option_map};
ghost use Rattle.mem_account.specs.Accounts.{has_room, is_user};
ghost use Rattle.memory_objects.specs.Backed.{AccountsMove, AreBacked, CanPin, Fits, HoldsMove};
ghost use Rattle.memory_objects.specs.Objects.{access_pins_on, passes};
ghost use Rattle.memory_objects.specs.Runs.{CanPinRun, HasRun, RoomGrows, RunIsPinned, RunIsReleased, covers};
ghost use Rattle.memory_objects.specs.Runs.{frame_after, has_room_for, lies_within, run_count_in, run_is_there};
ghost use Rattle.pinned_pages.specs.Holds.{times};
ghost use Rattle.memory_objects.specs.Invariant.{GoneAreFew, MemoryInvariant};
ghost use Rattle.memory_objects.specs.Objects.{MemoryGrows, SamePins, access_frame_in, all_pass, all_pinned};
ghost use Rattle.memory_objects.specs.Objects.{all_unpinned, are_below, may_go};
ghost use Rattle.memory_objects.specs.Objects.{can_pin, frame_now_in, has_memory, have_areas, have_pins, is_of};
ghost use Rattle.memory_objects.specs.Objects.{is_pinned_anew, is_unpinned, new_count_in, new_pages, object_at};
ghost use Rattle.memory_objects.specs.Objects.{pinned_by, pinned_frame, pins_on, rows_of, with_area, without_areas};
ghost use Rattle.pinned_pages.specs.Pages.{frame_of, held_frames, or_else, pinned_count};

use crate::entry::Entry;
use crate::run::PageRun;
use crate::{accesses, lookups, pinning, questions, removal, reserving};
use frame_memory::{Pool, UserMap};
use iofd_words::{FrameNo, MemoryObject, NoMemory, UserNo};
use mem_account::Accounts;
use pinned_pages::Pages;
use std::alloc::{Allocator, Global};
use std::marker::Model;

/// The memory objects of all users, each with its pages, their pins, and how many areas lie over it. A contract sees
/// them by rising number, for how many more there is room, and what stays of objects that are gone: entries without
/// memory for frames, never more of them than there are objects.
///
/// Several calls take a list of numbers, as those of the areas of one address space: an object's number stands there
/// once for each area meant that lies over it, and a number of no object says nothing. An object is found by one look
/// where the numbers follow each other, and by binary search else.
#[derive(Drop)]
pub struct MemoryObjects<A: Allocator = Global> {
    // By rising number. Over some no area lies any more: they are gone, and their entries go later.
    entries: Vec<Entry<Pages<A>>, A>,
    // How many of them are.
    gone: usize,
}

impl<A: Allocator> Model for MemoryObjects<A> {
    ghost use Rattle.std.specs.Prelude.{◌-◌, length, vec_capacity, vec_len};
    ghost use Rattle.memory_objects.specs.Invariant.{AreEntries};
    ghost use Rattle.memory_objects.specs.Objects.{ObjectTable, gone_among, standing};

    ghost Value = { ObjectTable };

    ghost view = { λ m. record {
      objects = standing m.entries.items;
      room = vec_capacity m.entries - length (standing m.entries.items);
      gone = gone_among m.entries.items;
    } };

    ghost invariant = { λ m. AreEntries m.entries.items (vec_len m.entries) m.gone };
}

impl<A: Allocator> MemoryObjects<A> {
    /// No objects. It takes no memory.
    pub fn new(alloc: A) -> MemoryObjects<A>
        ensures objects { result.objects ≡ [] }
        ensures gone { result.gone ≡ [] }
    {
        MemoryObjects {
            entries: Vec::new(alloc),
            gone: 0,
        }
    }

    /// What holds of the memory objects: their number is one of 64 bits. The call does nothing else.
    pub fn facts(&self)
        ensures { length self.now.objects < 2 ^ 64 }
    {
        let _ = self.len();
    }

    /// How many objects there are.
    pub fn len(&self) -> usize
        ensures count { result ≡ length self.now.objects }
        ensures gone { GoneAreFew self.now.objects self.now.gone }
    {
        self.entries.len() - self.gone
    }

    /// The row of the object of this number. It takes no memory.
    pub fn get(&self, number: u64) -> Option<MemoryObject>
        ensures row { result ≡ find (λ row. row.number == number) (rows_of self.now.objects) }
        ensures invariant { MemoryInvariant self.now.objects }
    {
        let entry = lookups::object_at(&self.entries, number)?;
        Some(MemoryObject {
            number: entry.number,
            user: entry.pages.user(),
            va: entry.pages.va(),
            count: entry.pages.count(),
            writable: entry.pages.is_writable(),
        })
    }

    /// How many pins by page tables stand on the object of this number. It takes no memory.
    pub fn table_pins(&self, number: u64) -> Option<u64>
        ensures { result ≡ option_map (λ object. object.pages.pages.table_pins) (object_at self.now.objects number) }
    {
        match lookups::object_at(&self.entries, number) {
            Some(entry) => Some(entry.pages.table_pins()),
            None => None,
        }
    }

    /// The frame at which page `index`, counted from 0, of the object of this number is pinned. It takes no memory.
    pub fn frame(&self, number: u64, index: u64) -> Option<FrameNo>
        ensures { result ≡ pinned_frame self.now.objects number index }
    {
        match lookups::object_at(&self.entries, number) {
            Some(entry) => entry.pages.frame(index),
            None => None,
        }
    }

    /// The frames at which page tables pin the pages of the object of this number, in order: those of all its pages,
    /// and none where no page table pins it or there is no such object. It costs one look-up, and takes no memory.
    pub fn frames(&self, number: u64) -> &[FrameNo]
        ensures each { IfSome (object_at self.now.objects number) (λ object. 0 < object.pages.pages.table_pins
            → (index : ℕ) → slice_get result.now index ≡ pinned_frame self.now.objects number index) }
        ensures none { IfNone (object_at self.now.objects number) (result.now ≡ []) }
        ensures count { IfSome (object_at self.now.objects number) (λ object. length result.now
            ≡ (if object.pages.pages.table_pins == 0 then 0 else object.pages.pages.count)) }
    {
        match lookups::object_at(&self.entries, number) {
            Some(entry) => entry.pages.frames(),
            None => &[],
        }
    }

    /// Takes memory for one more object, if there is no room. After an Ok the next `insert` doesn't want for memory;
    /// an error changes nothing.
    pub fn reserve(&mut self) -> Result<(), NoMemory>
        ensures objects { self.new.objects ≡ self.old.objects }
        ensures ok { OnOk result (0 < self.new.room) }
        ensures full { OnErr result (self.old.room ≡ 0) }
        ensures room { self.old.room ≤ self.new.room }
        ensures gone { GoneAreFew self.new.objects self.new.gone }
        ensures unchanged { OnErr result (self.new ≡ self.old) }
    {
        if self.entries.reserve(1).is_ok() {
            return Ok(());
        }
        if self.gone == 0 {
            return Err(NoMemory);
        }
        removal::sweep(&mut self.entries);
        self.gone = 0;
        Ok(())
    }

    /// Adds an object with one area over it. Its number is above all others, and at most one pin by a page table stands
    /// on its pages: that of its area. There is room (`reserve`). It takes no memory.
    pub fn insert(&mut self, number: u64, pages: Pages<A>)
        requires room { 0 < self.old.room }
        requires rises { IsTrue (are_below self.old.objects number) }
        requires pins { pages.pages.table_pins ≤ 1 }
        requires unpinned { pages.pages.table_pins ≡ 0 → pinned_count pages.pages ≡ 0 }
        requires access { pages.pages.access ≡ [] }
        ensures objects { self.new.objects
            ≡ self.old.objects ++ record { number = number; areas = 1; pages = pages } ∷ [] }
        ensures frames { (n index : ℕ) → pinned_frame self.new.objects n index
            ≡ (if number == n then frame_of pages.pages index else pinned_frame self.old.objects n index) }
        ensures pins { (frame : ℕ) → pins_on self.new.objects frame
            ≡ pins_on self.old.objects frame + times frame (held_frames pages.pages) }
        ensures pinned { (user : ℕ) → pinned_by self.new.objects user
            ≡ pinned_by self.old.objects user + (if pages.pages.user.0 == user then pinned_count pages.pages else 0) }
        ensures room { self.old.room ≡ self.new.room + 1 }
        ensures gone { GoneAreFew self.new.objects self.new.gone }
        ensures invariant { MemoryInvariant self.new.objects }
    {
        // Where no page table pins them they have no frames.
        pages.facts();
        self.gone = removal::make_way(&mut self.entries, self.gone, number);
        self.entries.push_reserved(Entry {
            number,
            areas: 1,
            pages,
        });
    }

    /// One area more lies over the object of this number. It takes no memory.
    pub fn add_area(&mut self, number: u64)
        requires { IfSome (object_at self.old.objects number) (λ object. object.areas + 1 < 2 ^ 64) }
        ensures objects { self.new.objects ≡ with_area number self.old.objects }
        ensures rows { rows_of self.new.objects ≡ rows_of self.old.objects }
        ensures pins { SamePins self.old.objects self.new.objects }
        ensures room { self.new.room ≡ self.old.room }
        ensures gone { GoneAreFew self.new.objects self.new.gone }
        ensures invariant { MemoryInvariant self.new.objects }
    {
        removal::add_area(&mut self.entries, number);
    }

    /// An area less lies over the object of this number. With its last area it goes. The area's pin is off, and no
    /// access pins a page of an object that goes. It takes no memory.
    pub fn remove_area(&mut self, number: u64)
        requires pins { IsTrue (have_areas (number ∷ []) self.old.objects) }
        requires access { IsTrue (may_go (number ∷ []) self.old.objects) }
        ensures objects { self.new.objects ≡ without_areas (number ∷ []) self.old.objects }
        ensures pins { SamePins self.old.objects self.new.objects }
        ensures room { self.old.room ≤ self.new.room }
        ensures gone { GoneAreFew self.new.objects self.new.gone }
        ensures invariant { MemoryInvariant self.new.objects }
    {
        self.gone = removal::remove_area(&mut self.entries, self.gone, number);
    }

    /// Whether all pages of these objects are in their users' memory, but for those that a page table or an access pins
    /// already. It takes no memory. Where one isn't, a pin of them all is refused by Absent (8, EFAULT).
    pub fn are_present<B: Allocator>(&self, numbers: &[u64], users: &UserMap<B>) -> bool
        ensures { result ≡ all_pass (can_pin users.now.pages) self.now.objects numbers.now }
    {
        questions::can_pin(&self.entries, numbers, users)
    }

    /// How many pages pinning the object of this number pins anew. It takes no memory.
    pub fn new_count(&self, number: u64) -> u64
        ensures value { result ≡ new_count_in (object_at self.now.objects number) }
        ensures few { result ≤ 2 ^ 36 }
    {
        questions::new_count(&self.entries, number)
    }

    /// How many pages pinning these objects pins anew, each page once. The numbers rise or stay. It takes no memory.
    pub fn new_pages(&self, numbers: &[u64]) -> u128
        requires { IsNonDecreasing numbers.now }
        ensures { result ≡ new_pages self.now.objects numbers.now }
    {
        questions::new_pages(&self.entries, numbers)
    }

    /// Whether these objects, whose numbers rise or stay, are the user's, and the user may hold all of their pages
    /// that aren't pinned yet, as one sum. It takes no memory. Where the user may not, a pin of them all is refused
    /// by Account (7, ENOMEM).
    pub fn fit<B: Allocator>(&self, numbers: &[u64], user: UserNo, accounts: &Accounts<B>) -> bool
        requires sorted { IsNonDecreasing numbers.now }
        requires user { IsTrue (is_user accounts.now user.0) }
        ensures value { result ≡ (all_pass (is_of user.0) self.now.objects numbers.now
            && has_room accounts.now user.0 (new_pages self.now.objects numbers.now)) }
        ensures fits { IsTrue result → Fits self.now.objects numbers.now accounts.now }
    {
        questions::fit(&self.entries, numbers, user, accounts)
    }

    /// Takes memory for the frames of these objects, where pinning them needs some and there is none. After an Ok
    /// pinning them doesn't want for memory; an error comes only where memory was lacking. The objects stay either
    /// way.
    pub fn reserve_frames(&mut self, numbers: &[u64]) -> Result<(), NoMemory>
        ensures objects { MemoryGrows self.old.objects self.new.objects }
        ensures ok { OnOk result (IsTrue (all_pass has_memory self.new.objects numbers.now)) }
        ensures err { OnErr result (all_pass has_memory self.old.objects numbers.now ≡ false) }
        ensures rows { rows_of self.new.objects ≡ rows_of self.old.objects }
        ensures pins { SamePins self.old.objects self.new.objects }
        ensures room { self.new.room ≡ self.old.room }
        ensures gone { GoneAreFew self.new.objects self.new.gone }
        ensures invariant { MemoryInvariant self.new.objects }
    {
        reserving::reserve_all(&mut self.entries, numbers)
    }

    /// Puts a pin on the pages of each of these objects for each time that its number is there, as areas over it come
    /// into an address space with a page table. By an object's first pin each of its pages that no access pins is
    /// pinned at the frame that it is in its user's memory now, which gets a hold, and the user is charged for it; the
    /// others keep their frames. By later ones nothing else changes. It takes no memory.
    ///
    /// What refuses it was asked before (`are_present`, then `fit`), the memory was taken (`reserve_frames`), and
    /// each frame may have as many holds more as pages are pinned anew.
    pub fn pin_by_table<B: Allocator, C: Allocator, D: Allocator>(
        &mut self,
        numbers: &[u64],
        users: &UserMap<B>,
        pool: &mut Pool<C>,
        accounts: &mut Accounts<D>,
    )
        requires { CanPin self.old.objects numbers.now users.now.pages pool.old.holds accounts.old }
        ensures objects { self.new.objects ≡ all_pinned users.now.pages numbers.now self.old.objects }
        ensures rows { rows_of self.new.objects ≡ rows_of self.old.objects }
        ensures frames { (number index : ℕ) → pinned_frame self.new.objects number index
            ≡ (if is_pinned_anew self.old.objects numbers.now number
            then or_else (access_frame_in (object_at self.old.objects number) index)
            (frame_now_in users.now.pages (object_at self.old.objects number) index)
            else pinned_frame self.old.objects number index) }
        ensures room { self.new.room ≡ self.old.room }
        ensures pool { HoldsMove self.old.objects self.new.objects pool.old pool.new }
        ensures accounts { AccountsMove self.old.objects self.new.objects accounts.old accounts.new }
        ensures backed { AreBacked self.old.objects pool.old.holds accounts.old
            → AreBacked self.new.objects pool.new.holds accounts.new }
        ensures gone { GoneAreFew self.new.objects self.new.gone }
        ensures invariant { MemoryInvariant self.new.objects }
    {
        pinning::pin_all(&mut self.entries, numbers, users, pool, accounts);
    }

    /// Takes a pin off the pages of each of these objects for each time that its number is there. With an object's
    /// last pin no page of it is pinned any more but those that accesses pin, which keep their frames: a hold goes off
    /// the frame of each other, and the user gets these pages back. It takes no memory.
    pub fn unpin_by_table<B: Allocator, C: Allocator>(
        &mut self,
        numbers: &[u64],
        pool: &mut Pool<B>,
        accounts: &mut Accounts<C>,
    )
        requires pins { IsTrue (have_pins numbers.now self.old.objects) }
        requires backed { AreBacked self.old.objects pool.old.holds accounts.old }
        ensures objects { self.new.objects ≡ all_unpinned numbers.now self.old.objects }
        ensures rows { rows_of self.new.objects ≡ rows_of self.old.objects }
        ensures frames { (number index : ℕ) → pinned_frame self.new.objects number index
            ≡ (if is_unpinned self.old.objects numbers.now number
            then access_frame_in (object_at self.old.objects number) index
            else pinned_frame self.old.objects number index) }
        ensures room { self.new.room ≡ self.old.room }
        ensures pool { HoldsMove self.old.objects self.new.objects pool.old pool.new }
        ensures accounts { AccountsMove self.old.objects self.new.objects accounts.old accounts.new }
        ensures backed { AreBacked self.new.objects pool.new.holds accounts.new }
        ensures gone { GoneAreFew self.new.objects self.new.gone }
        ensures invariant { MemoryInvariant self.new.objects }
    {
        pinning::unpin_all(&mut self.entries, numbers, pool, accounts);
    }

    /// Whether each page of the run is pinned or in its user's memory. It takes no memory. Where one isn't, a pin of it
    /// by an access is refused by Absent (8, EFAULT).
    pub fn has_run<B: Allocator>(&self, run: PageRun, users: &UserMap<B>) -> bool
        requires { IsTrue (lies_within run (object_at self.now.objects run.number)) }
        ensures { result ≡ passes (run_is_there users.now.pages run) (object_at self.now.objects run.number) }
    {
        accesses::has_run(&self.entries, run, users)
    }

    /// How many pages of the run aren't pinned. It takes no memory.
    pub fn new_in_run(&self, run: PageRun) -> u64
        requires { IsTrue (lies_within run (object_at self.now.objects run.number)) }
        ensures { result ≡ run_count_in run (object_at self.now.objects run.number) }
    {
        accesses::new_in_run(&self.entries, run)
    }

    /// Takes memory for a pin by an access on each page of the run, where there is none. After an Ok the next such pin
    /// of it doesn't want for memory; an error comes only where memory was lacking. The objects stay either way.
    pub fn reserve_for_access(&mut self, run: PageRun) -> Result<(), NoMemory>
    where
        A: Copy,
        requires { IsTrue (lies_within run (object_at self.old.objects run.number)) }
        ensures objects { RoomGrows run.number self.old.objects self.new.objects }
        ensures ok { OnOk result (IsTrue (passes (has_room_for run) (object_at self.new.objects run.number))) }
        ensures err { OnErr result (passes (has_room_for run) (object_at self.old.objects run.number) ≡ false) }
        ensures rows { rows_of self.new.objects ≡ rows_of self.old.objects }
        ensures pins { SamePins self.old.objects self.new.objects }
        ensures room { self.new.room ≡ self.old.room }
        ensures gone { GoneAreFew self.new.objects self.new.gone }
        ensures invariant { MemoryInvariant self.new.objects }
    {
        accesses::reserve_run(&mut self.entries, run)
    }

    /// Puts one pin by an access on each page of the run. A page that is pinned keeps its frame, and is charged no
    /// more; each other is pinned at the frame that it is in its user's memory now, which gets a hold, and the user is
    /// charged for it. It takes no memory.
    ///
    /// What refuses it was asked before (`has_run`, then `Accounts::has_room` of `new_in_run`), and the memory was
    /// taken (`reserve_for_access`).
    pub fn pin_by_access<B: Allocator, C: Allocator, D: Allocator>(
        &mut self,
        run: PageRun,
        users: &UserMap<B>,
        pool: &mut Pool<C>,
        accounts: &mut Accounts<D>,
    )
    where
        A: Copy,
        requires { CanPinRun self.old.objects run users.now.pages pool.old.holds accounts.old }
        ensures objects { RunIsPinned run users.now.pages self.old.objects self.new.objects }
        ensures rows { rows_of self.new.objects ≡ rows_of self.old.objects }
        ensures frames { (number index : ℕ) → pinned_frame self.new.objects number index
            ≡ frame_after run users.now.pages self.old.objects number index }
        ensures pins { (number index : ℕ) → access_pins_on self.new.objects number index
            ≡ access_pins_on self.old.objects number index + (if covers run number index then 1 else 0) }
        ensures room { self.new.room ≡ self.old.room }
        ensures pool { HoldsMove self.old.objects self.new.objects pool.old pool.new }
        ensures accounts { AccountsMove self.old.objects self.new.objects accounts.old accounts.new }
        ensures gone { GoneAreFew self.new.objects self.new.gone }
        ensures invariant { MemoryInvariant self.new.objects }
    {
        accesses::pin_run(&mut self.entries, run, users, pool, accounts);
    }

    /// Takes one pin by an access off each page of the run, each of which has one. A page that something still pins
    /// keeps its frame; off the frame of each other a hold goes, and the user gets the page back. It takes no memory.
    pub fn unpin_by_access<B: Allocator, C: Allocator>(
        &mut self,
        run: PageRun,
        pool: &mut Pool<B>,
        accounts: &mut Accounts<C>,
    )
    where
        A: Copy,
        requires run { HasRun self.old.objects run }
        requires backed { AreBacked self.old.objects pool.old.holds accounts.old }
        ensures objects { RunIsReleased run self.old.objects self.new.objects }
        ensures rows { rows_of self.new.objects ≡ rows_of self.old.objects }
        ensures pins { (number index : ℕ) → access_pins_on self.new.objects number index
            + (if covers run number index then 1 else 0) ≡ access_pins_on self.old.objects number index }
        ensures room { self.new.room ≡ self.old.room }
        ensures pool { HoldsMove self.old.objects self.new.objects pool.old pool.new }
        ensures accounts { AccountsMove self.old.objects self.new.objects accounts.old accounts.new }
        ensures gone { GoneAreFew self.new.objects self.new.gone }
        ensures invariant { MemoryInvariant self.new.objects }
    {
        accesses::unpin_run(&mut self.entries, run, pool, accounts);
    }
}
