//! Areas over memory objects, one more or one less. An object over which none is left is gone: its memory is given
//! back at once, and its entry with many others, so that no removal goes over all objects.

ghost use Rattle.std.specs.Prelude.{◌≡◌, ◌∷◌, ◌<◌, ◌≤◌, ◌+◌, ◌^◌, [], true, IsTrue};
ghost use Rattle.std.specs.Prelude.{IfSome, if◌then◌else◌, length};
ghost use Rattle.std.specs.Prelude.{vec_len, vec_capacity};
ghost use Rattle.memory_objects.specs.Objects.{are_below, are_freed, are_rising, gone_among, have_areas, object_at};
ghost use Rattle.memory_objects.specs.Objects.{standing, with_area, without_areas};

use crate::entry::Entry;
use crate::lookups;
use pinned_pages::Pages;
use std::alloc::Allocator;

/// One area more lies over the object of this number. It takes no memory.
pub(crate) fn add_area<A: Allocator>(entries: &mut Vec<Entry<Pages<A>>, A>, number: u64)
    requires rising { IsTrue (are_rising entries.old.items) }
    requires few { IfSome (object_at (standing entries.old.items) number) (λ object. object.areas + 1 < 2 ^ 64) }
    ensures entries { standing entries.new.items ≡ with_area number (standing entries.old.items) }
    ensures gone { gone_among entries.new.items ≡ gone_among entries.old.items }
    ensures rising { IsTrue (are_rising entries.new.items) }
    ensures len { vec_len entries.new ≡ vec_len entries.old }
    ensures capacity { vec_capacity entries.new ≡ vec_capacity entries.old }
{
    if let Some(place) = lookups::place_of(entries, number) {
        let entry = &mut entries[place];
        entry.areas += 1;
    }
}

/// One area less lies over the object of this number. Whether it was the last, so that the object is gone. It takes no
/// memory.
fn drop_area<A: Allocator>(entries: &mut Vec<Entry<Pages<A>>, A>, number: u64) -> bool
    requires rising { IsTrue (are_rising entries.old.items) }
    requires pins { IsTrue (have_areas (number ∷ []) (standing entries.old.items)) }
    requires freed { IsTrue (are_freed entries.old.items) }
    ensures entries { standing entries.new.items ≡ without_areas (number ∷ []) (standing entries.old.items) }
    ensures rising { IsTrue (are_rising entries.new.items) }
    ensures gone { length (standing entries.old.items)
        ≡ length (standing entries.new.items) + (if result then 1 else 0) }
    ensures freed { IsTrue (are_freed entries.new.items) }
    ensures len { vec_len entries.new ≡ vec_len entries.old }
    ensures capacity { vec_capacity entries.new ≡ vec_capacity entries.old }
{
    let Some(place) = lookups::place_of(entries, number) else {
        return false;
    };
    let entry = &mut entries[place];
    entry.areas -= 1;
    if entry.areas != 0 {
        return false;
    }
    entry.pages.free_frames();
    true
}

/// Takes the entries of objects that are gone away. It takes no memory.
pub(crate) fn sweep<A: Allocator>(entries: &mut Vec<Entry<Pages<A>>, A>)
    requires { IsTrue (are_rising entries.old.items) }
    ensures entries { entries.new.items ≡ standing entries.old.items }
    ensures same { standing entries.new.items ≡ standing entries.old.items }
    ensures none { gone_among entries.new.items ≡ [] }
    ensures len { vec_len entries.new ≡ length (standing entries.old.items) }
    ensures rising { IsTrue (are_rising entries.new.items) }
    ensures capacity { vec_capacity entries.new ≡ vec_capacity entries.old }
{
    entries.retain(|entry| entry.areas != 0);
}

/// One area less lies over the object of this number; with its last one the object is gone. So many entries are gone
/// before, and as many as it answers after: never more than half of them. It takes no memory.
pub(crate) fn remove_area<A: Allocator>(
    entries: &mut Vec<Entry<Pages<A>>, A>,
    gone: usize,
    number: u64,
) -> usize
    requires rising { IsTrue (are_rising entries.old.items) }
    requires gone { length (standing entries.old.items) + gone ≡ vec_len entries.old }
    requires few { gone + gone ≤ vec_len entries.old }
    requires freed { IsTrue (are_freed entries.old.items) }
    requires pins { IsTrue (have_areas (number ∷ []) (standing entries.old.items)) }
    ensures entries { standing entries.new.items ≡ without_areas (number ∷ []) (standing entries.old.items) }
    ensures rising { IsTrue (are_rising entries.new.items) }
    ensures gone { length (standing entries.new.items) + result ≡ vec_len entries.new }
    ensures few { result + result ≤ vec_len entries.new }
    ensures freed { IsTrue (are_freed entries.new.items) }
    ensures fewer { length (standing entries.new.items) ≤ length (standing entries.old.items) }
    ensures capacity { vec_capacity entries.new ≡ vec_capacity entries.old }
{
    if !drop_area(entries, number) {
        return gone;
    }
    let more = gone + 1;
    if more <= entries.len() / 2 {
        return more;
    }
    sweep(entries);
    0
}

/// Makes room for an entry of this number behind all others: it sweeps where the vector is full, or where an entry of
/// an object that is gone has as high a number. Neither is so after `reserve`, where numbers only rise. So many entries
/// are gone before, and as many as it answers after. It takes no memory.
pub(crate) fn make_way<A: Allocator>(
    entries: &mut Vec<Entry<Pages<A>>, A>,
    gone: usize,
    number: u64,
) -> usize
    requires rising { IsTrue (are_rising entries.old.items) }
    requires gone { length (standing entries.old.items) + gone ≡ vec_len entries.old }
    requires few { gone + gone ≤ vec_len entries.old }
    requires freed { IsTrue (are_freed entries.old.items) }
    requires room { length (standing entries.old.items) < vec_capacity entries.old }
    requires below { IsTrue (are_below (standing entries.old.items) number) }
    ensures entries { standing entries.new.items ≡ standing entries.old.items }
    ensures rising { IsTrue (are_rising entries.new.items) }
    ensures gone { length (standing entries.new.items) + result ≡ vec_len entries.new }
    ensures few { result + result ≤ vec_len entries.new }
    ensures freed { IsTrue (are_freed entries.new.items) }
    ensures room { vec_len entries.new < vec_capacity entries.new }
    ensures below { IsTrue (are_below entries.new.items number) }
    ensures capacity { vec_capacity entries.new ≡ vec_capacity entries.old }
{
    if entries.len() < entries.capacity() && lookups::are_below(entries, number) {
        return gone;
    }
    sweep(entries);
    0
}
