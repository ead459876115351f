//! Pins by page tables, object by object.

ghost use Rattle.std.specs.Prelude.{◌≡◌, ◌∷◌, [], IsTrue, vec_len, vec_capacity};
ghost use Rattle.memory_objects.specs.Backed.{AccountsMove, AreBacked, CanPin, HoldsMove};
ghost use Rattle.memory_objects.specs.Objects.{all_pinned, all_unpinned, are_rising, gone_among, have_pins};
ghost use Rattle.memory_objects.specs.Objects.{standing};

use crate::entry::Entry;
use crate::lookups;
use frame_memory::{Pool, UserMap};
use mem_account::Accounts;
use pinned_pages::Pages;
use std::alloc::Allocator;

/// Pins the pages of the object of this number once more. It takes no memory.
fn pin_one<A: Allocator, B: Allocator, C: Allocator, D: Allocator>(
    entries: &mut Vec<Entry<Pages<A>>, A>,
    number: u64,
    users: &UserMap<B>,
    pool: &mut Pool<C>,
    accounts: &mut Accounts<D>,
)
    requires rising { IsTrue (are_rising entries.old.items) }
    requires can { CanPin (standing entries.old.items) (number ∷ []) users.now.pages pool.old.holds accounts.old }
    ensures entries { standing entries.new.items
        ≡ all_pinned users.now.pages (number ∷ []) (standing entries.old.items) }
    ensures gone { gone_among entries.new.items ≡ gone_among entries.old.items }
    ensures rising { IsTrue (are_rising entries.new.items) }
    ensures pool { HoldsMove (standing entries.old.items) (standing entries.new.items) pool.old pool.new }
    ensures accounts { AccountsMove (standing entries.old.items) (standing entries.new.items)
        accounts.old accounts.new }
    ensures len { vec_len entries.new ≡ vec_len entries.old }
    ensures capacity { vec_capacity entries.new ≡ vec_capacity entries.old }
{
    if let Some(place) = lookups::place_of(entries, number) {
        let entry = &mut entries[place];
        prove!(entry.pages.table_pins() < entry.areas);
        entry.pages.pin_reserved(users, pool, accounts);
    }
}

/// Pins the pages of each of these objects once more for each time that its number is there. It takes no memory.
pub(crate) fn pin_all<A: Allocator, B: Allocator, C: Allocator, D: Allocator>(
    entries: &mut Vec<Entry<Pages<A>>, A>,
    numbers: &[u64],
    users: &UserMap<B>,
    pool: &mut Pool<C>,
    accounts: &mut Accounts<D>,
)
    requires rising { IsTrue (are_rising entries.old.items) }
    requires can { CanPin (standing entries.old.items) numbers.now users.now.pages pool.old.holds accounts.old }
    ensures entries { standing entries.new.items
        ≡ all_pinned users.now.pages numbers.now (standing entries.old.items) }
    ensures gone { gone_among entries.new.items ≡ gone_among entries.old.items }
    ensures rising { IsTrue (are_rising entries.new.items) }
    ensures pool { HoldsMove (standing entries.old.items) (standing entries.new.items) pool.old pool.new }
    ensures accounts { AccountsMove (standing entries.old.items) (standing entries.new.items)
        accounts.old accounts.new }
    ensures len { vec_len entries.new ≡ vec_len entries.old }
    ensures capacity { vec_capacity entries.new ≡ vec_capacity entries.old }
{
    for number in numbers {
        pin_one(entries, *number, users, pool, accounts);
    }
}

/// Takes one pin off the pages of the object of this number. It takes no memory.
fn unpin_one<A: Allocator, B: Allocator, C: Allocator>(
    entries: &mut Vec<Entry<Pages<A>>, A>,
    number: u64,
    pool: &mut Pool<B>,
    accounts: &mut Accounts<C>,
)
    requires rising { IsTrue (are_rising entries.old.items) }
    requires pins { IsTrue (have_pins (number ∷ []) (standing entries.old.items)) }
    requires backed { AreBacked (standing entries.old.items) pool.old.holds accounts.old }
    ensures entries { standing entries.new.items ≡ all_unpinned (number ∷ []) (standing entries.old.items) }
    ensures gone { gone_among entries.new.items ≡ gone_among entries.old.items }
    ensures rising { IsTrue (are_rising entries.new.items) }
    ensures pool { HoldsMove (standing entries.old.items) (standing entries.new.items) pool.old pool.new }
    ensures accounts { AccountsMove (standing entries.old.items) (standing entries.new.items)
        accounts.old accounts.new }
    ensures len { vec_len entries.new ≡ vec_len entries.old }
    ensures capacity { vec_capacity entries.new ≡ vec_capacity entries.old }
{
    if let Some(place) = lookups::place_of(entries, number) {
        let entry = &mut entries[place];
        entry.pages.unpin_by_table(pool, accounts);
    }
}

/// Takes one pin off the pages of each of these objects for each time that its number is there. It takes no memory.
pub(crate) fn unpin_all<A: Allocator, B: Allocator, C: Allocator>(
    entries: &mut Vec<Entry<Pages<A>>, A>,
    numbers: &[u64],
    pool: &mut Pool<B>,
    accounts: &mut Accounts<C>,
)
    requires rising { IsTrue (are_rising entries.old.items) }
    requires pins { IsTrue (have_pins numbers.now (standing entries.old.items)) }
    requires backed { AreBacked (standing entries.old.items) pool.old.holds accounts.old }
    ensures entries { standing entries.new.items ≡ all_unpinned numbers.now (standing entries.old.items) }
    ensures gone { gone_among entries.new.items ≡ gone_among entries.old.items }
    ensures rising { IsTrue (are_rising entries.new.items) }
    ensures pool { HoldsMove (standing entries.old.items) (standing entries.new.items) pool.old pool.new }
    ensures accounts { AccountsMove (standing entries.old.items) (standing entries.new.items)
        accounts.old accounts.new }
    ensures backed { AreBacked (standing entries.new.items) pool.new.holds accounts.new }
    ensures len { vec_len entries.new ≡ vec_len entries.old }
    ensures capacity { vec_capacity entries.new ≡ vec_capacity entries.old }
{
    for number in numbers {
        unpin_one(entries, *number, pool, accounts);
    }
}
