//! Memory objects by rising number: where one of them stands. One over which no area lies is gone.

ghost use Rattle.std.specs.Prelude.{◌≡◌, ◌<◌, ◌≤◌, IsTrue, IfSome, IfNone, length, nat_lt, slice_get};
ghost use Rattle.std.specs.List.{prefix_len};
ghost use Rattle.std.specs.Option.{option_copied};
ghost use Rattle.memory_objects.specs.Objects.{are_below, are_rising, object_at, standing};

use crate::entry::Entry;
use pinned_pages::Pages;
use std::alloc::Allocator;

/// How many entries have a lower number.
fn count_below<A: Allocator>(entries: &[Entry<Pages<A>>], number: u64) -> usize
    requires { IsTrue (are_rising entries.now) }
    ensures value { result ≡ prefix_len (λ entry. nat_lt entry.number number) entries.now }
    ensures bound { result ≤ length entries.now }
{
    entries.partition_point(|entry| entry.number < number)
}

/// Whether all entries have a lower number, those of objects that are gone too: it looks at the last.
pub(crate) fn are_below<A: Allocator>(entries: &[Entry<Pages<A>>], number: u64) -> bool
    requires { IsTrue (are_rising entries.now) }
    ensures { result ≡ are_below entries.now number }
{
    match entries.last() {
        Some(entry) => entry.number < number,
        None => true,
    }
}

/// Where the entry of this number stands, by binary search.
fn searched_place<A: Allocator>(entries: &[Entry<Pages<A>>], number: u64) -> Option<usize>
    requires { IsTrue (are_rising entries.now) }
    ensures some { IfSome result (λ place. slice_get entries.now place ≡ object_at entries.now number) }
    ensures within { IfSome result (λ place. place < length entries.now) }
    ensures none { IfNone result (object_at entries.now number ≡ None) }
{
    let place = count_below(entries, number);
    if place == entries.len() {
        return None;
    }
    if entries[place].number == number {
        Some(place)
    } else {
        None
    }
}

/// Where the entry of this number would stand if no number were missing between the first entry's and it: as far from
/// the first as the numbers are apart, or last.
fn dense_place<A: Allocator>(entries: &[Entry<Pages<A>>], number: u64) -> usize
    requires { 0 < length entries.now }
    ensures { result < length entries.now }
{
    let apart = number.saturating_sub(entries[0].number);
    let last = entries.len() - 1;
    if apart < last as u64 {
        apart as usize
    } else {
        last
    }
}

/// Where the entry of this number stands. One look finds it where the numbers follow each other, and a binary search
/// else.
fn entry_place<A: Allocator>(entries: &[Entry<Pages<A>>], number: u64) -> Option<usize>
    requires { IsTrue (are_rising entries.now) }
    ensures some { IfSome result (λ place. slice_get entries.now place ≡ object_at entries.now number) }
    ensures within { IfSome result (λ place. place < length entries.now) }
    ensures none { IfNone result (object_at entries.now number ≡ None) }
{
    if entries.is_empty() {
        return None;
    }
    let place = dense_place(entries, number);
    if entries[place].number == number {
        return Some(place);
    }
    searched_place(entries, number)
}

/// Where the object of this number stands, if it isn't gone.
pub(crate) fn place_of<A: Allocator>(entries: &[Entry<Pages<A>>], number: u64) -> Option<usize>
    requires { IsTrue (are_rising entries.now) }
    ensures some { IfSome result (λ place. slice_get entries.now place ≡ object_at (standing entries.now) number) }
    ensures within { IfSome result (λ place. place < length entries.now) }
    ensures none { IfNone result (object_at (standing entries.now) number ≡ None) }
{
    let Some(place) = entry_place(entries, number) else {
        return None;
    };
    if entries[place].areas == 0 {
        None
    } else {
        Some(place)
    }
}

/// The object of this number.
pub(crate) fn object_at<A: Allocator>(
    entries: &[Entry<Pages<A>>],
    number: u64,
) -> Option<&Entry<Pages<A>>>
    requires { IsTrue (are_rising entries.now) }
    ensures { option_copied result ≡ object_at (standing entries.now) number }
{
    let place = place_of(entries, number)?;
    Some(&entries[place])
}
