//! Pins by accesses, of a run of one memory object's pages.

ghost use Rattle.std.specs.Prelude.{◌≡◌, false, IsTrue, OnOk, OnErr, vec_len, vec_capacity};
ghost use Rattle.memory_objects.specs.Backed.{AccountsMove, AreBacked, HoldsMove};
ghost use Rattle.memory_objects.specs.Invariant.{MemoryInvariant};
ghost use Rattle.memory_objects.specs.Objects.{are_rising, gone_among, object_at, passes, rows_of, standing};
ghost use Rattle.memory_objects.specs.Runs.{CanPinRun, HasRun, RoomGrows, RunIsPinned, RunIsReleased, has_room_for};
ghost use Rattle.memory_objects.specs.Runs.{lies_within, run_count_in, run_is_there};

use crate::entry::Entry;
use crate::lookups;
use crate::run::PageRun;
use frame_memory::{Pool, UserMap};
use iofd_words::NoMemory;
use mem_account::Accounts;
use pinned_pages::Pages;
use std::alloc::Allocator;

/// Whether each page of the run is pinned or in its user's memory.
pub(crate) fn has_run<A: Allocator, B: Allocator>(
    entries: &[Entry<Pages<A>>],
    run: PageRun,
    users: &UserMap<B>,
) -> bool
    requires rising { IsTrue (are_rising entries.now) }
    requires lies { IsTrue (lies_within run (object_at (standing entries.now) run.number)) }
    ensures { result ≡ passes (run_is_there users.now.pages run) (object_at (standing entries.now) run.number) }
{
    match lookups::object_at(entries, run.number) {
        Some(entry) => entry.pages.has_run(run.first, run.count, users),
        None => true,
    }
}

/// How many pages of the run aren't pinned.
pub(crate) fn new_in_run<A: Allocator>(entries: &[Entry<Pages<A>>], run: PageRun) -> u64
    requires rising { IsTrue (are_rising entries.now) }
    requires lies { IsTrue (lies_within run (object_at (standing entries.now) run.number)) }
    ensures { result ≡ run_count_in run (object_at (standing entries.now) run.number) }
{
    match lookups::object_at(entries, run.number) {
        Some(entry) => entry.pages.new_in_run(run.first, run.count),
        None => 0,
    }
}

/// Takes memory for a pin by an access on each page of the run.
pub(crate) fn reserve_run<A: Allocator + Copy>(
    entries: &mut Vec<Entry<Pages<A>>, A>,
    run: PageRun,
) -> Result<(), NoMemory>
    requires rising { IsTrue (are_rising entries.old.items) }
    requires lies { IsTrue (lies_within run (object_at (standing entries.old.items) run.number)) }
    ensures objects { RoomGrows run.number (standing entries.old.items) (standing entries.new.items) }
    ensures rows { rows_of (standing entries.new.items) ≡ rows_of (standing entries.old.items) }
    ensures kept { MemoryInvariant (standing entries.old.items) → MemoryInvariant (standing entries.new.items) }
    ensures ok { OnOk result
        (IsTrue (passes (has_room_for run) (object_at (standing entries.new.items) run.number))) }
    ensures err { OnErr result (passes (has_room_for run) (object_at (standing entries.old.items) run.number) ≡ false) }
    ensures gone { gone_among entries.new.items ≡ gone_among entries.old.items }
    ensures rising { IsTrue (are_rising entries.new.items) }
    ensures len { vec_len entries.new ≡ vec_len entries.old }
    ensures capacity { vec_capacity entries.new ≡ vec_capacity entries.old }
{
    match lookups::place_of(entries, run.number) {
        Some(place) => {
            let entry = &mut entries[place];
            entry.pages.reserve_for_access(run.first, run.count)
        }
        None => Ok(()),
    }
}

/// Puts one pin by an access on each page of the run. It takes no memory.
pub(crate) fn pin_run<A: Allocator + Copy, B: Allocator, C: Allocator, D: Allocator>(
    entries: &mut Vec<Entry<Pages<A>>, A>,
    run: PageRun,
    users: &UserMap<B>,
    pool: &mut Pool<C>,
    accounts: &mut Accounts<D>,
)
    requires rising { IsTrue (are_rising entries.old.items) }
    requires can { CanPinRun (standing entries.old.items) run users.now.pages pool.old.holds accounts.old }
    ensures objects { RunIsPinned run users.now.pages (standing entries.old.items) (standing entries.new.items) }
    ensures rows { rows_of (standing entries.new.items) ≡ rows_of (standing entries.old.items) }
    ensures kept { MemoryInvariant (standing entries.old.items) → MemoryInvariant (standing entries.new.items) }
    ensures gone { gone_among entries.new.items ≡ gone_among entries.old.items }
    ensures rising { IsTrue (are_rising entries.new.items) }
    ensures pool { HoldsMove (standing entries.old.items) (standing entries.new.items) pool.old pool.new }
    ensures accounts { AccountsMove (standing entries.old.items) (standing entries.new.items)
        accounts.old accounts.new }
    ensures len { vec_len entries.new ≡ vec_len entries.old }
    ensures capacity { vec_capacity entries.new ≡ vec_capacity entries.old }
{
    let Some(place) = lookups::place_of(entries, run.number) else {
        return;
    };
    let entry = &mut entries[place];
    entry
        .pages
        .pin_run_reserved(run.first, run.count, users, pool, accounts);
    // What accesses pin are pages of the object.
    entry.pages.facts();
}

/// Takes one pin by an access off each page of the run. It takes no memory.
pub(crate) fn unpin_run<A: Allocator + Copy, B: Allocator, C: Allocator>(
    entries: &mut Vec<Entry<Pages<A>>, A>,
    run: PageRun,
    pool: &mut Pool<B>,
    accounts: &mut Accounts<C>,
)
    requires rising { IsTrue (are_rising entries.old.items) }
    requires has { HasRun (standing entries.old.items) run }
    requires backed { AreBacked (standing entries.old.items) pool.old.holds accounts.old }
    ensures objects { RunIsReleased run (standing entries.old.items) (standing entries.new.items) }
    ensures rows { rows_of (standing entries.new.items) ≡ rows_of (standing entries.old.items) }
    ensures kept { MemoryInvariant (standing entries.old.items) → MemoryInvariant (standing entries.new.items) }
    ensures gone { gone_among entries.new.items ≡ gone_among entries.old.items }
    ensures rising { IsTrue (are_rising entries.new.items) }
    ensures pool { HoldsMove (standing entries.old.items) (standing entries.new.items) pool.old pool.new }
    ensures accounts { AccountsMove (standing entries.old.items) (standing entries.new.items)
        accounts.old accounts.new }
    ensures len { vec_len entries.new ≡ vec_len entries.old }
    ensures capacity { vec_capacity entries.new ≡ vec_capacity entries.old }
{
    let Some(place) = lookups::place_of(entries, run.number) else {
        return;
    };
    let entry = &mut entries[place];
    entry
        .pages
        .unpin_by_access(run.first, run.count, pool, accounts);
    // What accesses pin are pages of the object.
    entry.pages.facts();
}
