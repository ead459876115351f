//! Memory objects, which stand by rising number.

ghost use Rattle.std.specs.Prelude.{◌≡◌, ◌==◌, ◌<◌, true, false, length, MatchOption};
ghost use Rattle.std.specs.List.{list_any, HoldsAt};
ghost use Rattle.journal_audit_world.specs.Kept.{numbers_rise};

use iofd_words::MemoryObject;

// Whether the memory object of this number stands there.
fn is_at(memory: &[MemoryObject], place: usize, number: u64) -> bool
    ensures { result ≡ true → (place < length memory.now) × HoldsAt (λ m. m.number ≡ number) memory.now place }
{
    place < memory.len() && memory[place].number == number
}

/// Where the memory object of this number stands. It is looked for at this place and behind it first, and else found by
/// search.
pub fn place_of(memory: &[MemoryObject], number: u64, near: usize) -> Option<usize>
    requires { numbers_rise memory.now ≡ true }
    ensures { MatchOption result (list_any (λ m. m.number == number) memory.now ≡ false)
        (λ place. (place < length memory.now) × HoldsAt (λ m. m.number ≡ number) memory.now place) }
{
    if is_at(memory, near, number) {
        return Some(near);
    }
    let next = near.saturating_add(1);
    if is_at(memory, next, number) {
        return Some(next);
    }
    match memory.binary_search_by_key(&number, |object| object.number) {
        Ok(place) => Some(place),
        Err(_) => None,
    }
}
