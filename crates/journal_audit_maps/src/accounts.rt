//! Users' accounts: how many pinned pages they have.

ghost use Rattle.std.specs.Prelude.{◌≡◌, ◌&&◌, ◌==◌, true, nat_lt};
ghost use Rattle.std.specs.List.{count_by};
ghost use Rattle.iofd_refusals.specs.Checks.{passes_limit};
ghost use Rattle.iofd_words.specs.Files.{limit_of, user_of};
ghost use Rattle.iofd_words.specs.View.{view};
ghost use Rattle.journal_audit_maps.specs.Held.{is_of_user};
ghost use Rattle.journal_audit_world.specs.Kept.{IsKept, numbers_rise};

use iofd_words::{Config, FileNo, MemoryObject, Pin, UserNo};
use journal_audit_world::World;
use journal_audit_world::memory::place_of;
use std::alloc::Allocator;

// Whether the pin is of a page of a memory object of the user. Where its object stands is looked for first where the
// one before stood, and is told.
fn is_of_user(memory: &[MemoryObject], user: UserNo, pin: &Pin, near: &mut usize) -> bool
    requires { numbers_rise memory.now ≡ true }
    ensures { result ≡ is_of_user memory.now user pin.now }
{
    let Some(place) = place_of(memory, pin.memory, *near) else {
        return false;
    };
    *near = place;
    is_page_of(memory[place], user, pin)
}

// Whether it is of a page of this memory object, and that is of the user.
fn is_page_of(object: MemoryObject, user: UserNo, pin: &Pin) -> bool
    ensures { result ≡ (object.user.0 == user.0 && nat_lt pin.now.index object.count) }
{
    object.user.0 == user.0 && pin.index < object.count
}

// How many such pins there are. Memory objects are searched, or found beside the one before.
fn count_of(pins: &[Pin], memory: &[MemoryObject], user: UserNo) -> usize
    requires { numbers_rise memory.now ≡ true }
    ensures { result ≡ count_by (is_of_user memory.now user) pins.now }
{
    let mut count = 0;
    let mut near = 0;
    for pin in pins {
        if is_of_user(memory, user, pin, &mut near) {
            count += 1;
        }
    }
    count
}

// How many pinned pages the user may have.
fn limit_of<A: Allocator>(config: &Config<A>, user: UserNo) -> Option<u64>
    ensures { result ≡ limit_of config.now user }
{
    let place = usize::from(user.0).checked_sub(1)?;
    config.users().get(place).copied()
}

/// Whether with so many pinned pages more the user of the file would have more than its limit allows. They are counted
/// only where those of all users are more.
pub fn passes_limit<A: Allocator>(at: u64, world: &World<A>, file: FileNo, count: usize) -> bool
    requires kept { IsKept at world.now }
    ensures { result ≡ passes_limit (view world.now) (user_of world.now.settings file) count }
{
    let Some(user) = world.config.user_of(file) else {
        return false;
    };
    let Some(limit) = limit_of(&world.config, user) else {
        return false;
    };
    if world.pins.len() as u128 + count as u128 <= u128::from(limit) {
        return false;
    }
    let held = count_of(&world.pins, &world.memory, user);
    held as u128 + count as u128 > u128::from(limit)
}
