//! Questions about several memory objects before they are pinned.

ghost use Rattle.std.specs.Prelude.{◌≡◌, ◌+◌, ◌^◌, ◌<◌, ◌≤◌, ◌==◌, ◌&&◌, length};
ghost use Rattle.std.specs.Prelude.{slice_index, take, IsTrue};
ghost use Rattle.std.specs.List.{list_any};
ghost use Rattle.std.specs.List.Sorted.{IsNonDecreasing};
ghost use Rattle.mem_account.specs.Accounts.{has_room, is_user};
ghost use Rattle.memory_objects.specs.Backed.{Fits};
ghost use Rattle.memory_objects.specs.Objects.{all_pass, are_rising, can_pin, is_of, new_count_in, new_pages};
ghost use Rattle.memory_objects.specs.Objects.{object_at, passes, standing};

use crate::entry::Entry;
use crate::lookups;
use frame_memory::UserMap;
use iofd_words::UserNo;
use mem_account::Accounts;
use pinned_pages::Pages;
use std::alloc::Allocator;

/// Whether the object of this number is pinned by a page table, or all its pages are in their user's memory.
fn can_pin_one<A: Allocator, B: Allocator>(
    entries: &[Entry<Pages<A>>],
    number: u64,
    users: &UserMap<B>,
) -> bool
    requires { IsTrue (are_rising entries.now) }
    ensures { result ≡ passes (can_pin users.now.pages) (object_at (standing entries.now) number) }
{
    match lookups::object_at(entries, number) {
        Some(entry) => entry.pages.table_pins() != 0 || entry.pages.are_present(users),
        None => true,
    }
}

/// Whether each of these objects is pinned by a page table, or all its pages are in their user's memory.
pub(crate) fn can_pin<A: Allocator, B: Allocator>(
    entries: &[Entry<Pages<A>>],
    numbers: &[u64],
    users: &UserMap<B>,
) -> bool
    requires { IsTrue (are_rising entries.now) }
    ensures { result ≡ all_pass (can_pin users.now.pages) (standing entries.now) numbers.now }
{
    for number in numbers {
        if !can_pin_one(entries, *number, users) {
            return false;
        }
    }
    true
}

/// Whether the object of this number is the user's.
fn is_of<A: Allocator>(entries: &[Entry<Pages<A>>], number: u64, user: UserNo) -> bool
    requires { IsTrue (are_rising entries.now) }
    ensures { result ≡ passes (is_of user.0) (object_at (standing entries.now) number) }
{
    match lookups::object_at(entries, number) {
        Some(entry) => entry.pages.user().0 == user.0,
        None => true,
    }
}

/// Whether each of these objects is the user's.
fn are_of<A: Allocator>(entries: &[Entry<Pages<A>>], numbers: &[u64], user: UserNo) -> bool
    requires { IsTrue (are_rising entries.now) }
    ensures { result ≡ all_pass (is_of user.0) (standing entries.now) numbers.now }
{
    for number in numbers {
        if !is_of(entries, *number, user) {
            return false;
        }
    }
    true
}

/// How many pages pinning the object of this number pins anew.
pub(crate) fn new_count<A: Allocator>(entries: &[Entry<Pages<A>>], number: u64) -> u64
    requires { IsTrue (are_rising entries.now) }
    ensures value { result ≡ new_count_in (object_at (standing entries.now) number) }
    ensures few { result ≤ 2 ^ 36 }
{
    match lookups::object_at(entries, number) {
        Some(entry) => entry.pages.new_count(),
        None => 0,
    }
}

/// Whether the number at this place stands before it too, where numbers rise or stay.
fn is_repeated(numbers: &[u64], at: usize) -> bool
    requires sorted { IsNonDecreasing numbers.now }
    requires within { at < length numbers.now }
    ensures { result ≡ list_any (λ n. n == slice_index numbers.now at) (take at numbers.now) }
{
    at > 0 && numbers[at - 1] == numbers[at]
}

/// How many pages pinning these objects pins anew, each object once, whose numbers rise or stay.
pub(crate) fn new_pages<A: Allocator>(entries: &[Entry<Pages<A>>], numbers: &[u64]) -> u128
    requires rising { IsTrue (are_rising entries.now) }
    requires sorted { IsNonDecreasing numbers.now }
    ensures { result ≡ new_pages (standing entries.now) numbers.now }
{
    let mut sum = 0_u128;
    for (i, number) in numbers.iter().enumerate() {
        if !is_repeated(numbers, i) {
            sum += u128::from(new_count(entries, *number));
        }
    }
    sum
}

/// Whether these objects, whose numbers rise or stay, are the user's, who may hold all of their pages that aren't
/// pinned yet.
pub(crate) fn fit<A: Allocator, B: Allocator>(
    entries: &[Entry<Pages<A>>],
    numbers: &[u64],
    user: UserNo,
    accounts: &Accounts<B>,
) -> bool
    requires rising { IsTrue (are_rising entries.now) }
    requires sorted { IsNonDecreasing numbers.now }
    requires user { IsTrue (is_user accounts.now user.0) }
    ensures value { result ≡ (all_pass (is_of user.0) (standing entries.now) numbers.now
        && has_room accounts.now user.0 (new_pages (standing entries.now) numbers.now)) }
    ensures fits { IsTrue result → Fits (standing entries.now) numbers.now accounts.now }
{
    are_of(entries, numbers, user) && new_pages(entries, numbers) <= u128::from(accounts.room(user))
}
