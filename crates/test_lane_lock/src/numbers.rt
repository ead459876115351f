//! The value that the tests keep under a lock: numbers, each with the pass that added it, as many as there is room
//! for.

ghost use Rattle.std.specs.Prelude.{◌≤◌, vec_capacity};

use iofd_words::{NoMemory, PassNo};
use lane_lock::Kept;
use std::alloc::{AllocError, Global};

#[derive(Clone, Copy)]
pub struct Entry {
    pub pass: PassNo,
    pub number: u64,
}

#[derive(Drop)]
pub struct Numbers {
    pub entries: Vec<Entry>,
    room: usize,
    ghost reserved: { room ≤ vec_capacity entries },
}

impl Numbers {
    // No numbers, and room for so many.
    pub fn new(alloc: Global, room: usize) -> Result<Numbers, AllocError> {
        Ok(Numbers {
            entries: Vec::with_capacity(alloc, room)?,
            room,
        })
    }

    // Whether this is the only number, and the pass added it.
    pub fn is_only(&self, pass: PassNo, number: u64) -> bool {
        match self.entries.as_slice() {
            [entry] => entry.pass == pass && entry.number == number,
            _ => false,
        }
    }

    // Whether the numbers of the pass are 0, 1, 2 and so on, `count` of them.
    pub fn counts_up(&self, pass: PassNo, count: u64) -> bool {
        let mut next = 0;
        for entry in &self.entries {
            if entry.pass == pass {
                if entry.number != next || next >= count {
                    return false;
                }
                next += 1;
            }
        }
        next == count
    }
}

impl Kept for Numbers {
    type Act = u64;

    type Stamp = u64;

    type Record = Entry;

    ghost use Rattle.std.specs.Prelude.{◌≡◌, ◌≤◌, ◌++◌, ◌∷◌, [], length};

    ghost history = { λ it. it.entries.items };

    ghost maker = { λ entry. entry.pass.0 };

    ghost AHEAD = { 0 };

    const AHEAD: u64 = 0;

    ghost may = { λ _ _. Unit {0} };

    ghost gives = { λ before pass number stamp after. (stamp ≡ length before.entries.items)
        × (after.entries.items
        ≡ before.entries.items ++ record { pass = record { 0 = pass }; number = number } ∷ []) };

    ghost wants = { λ it _. it.room ≤ length it.entries.items };

    fn apply(&mut self, pass: PassNo, number: &u64) -> Result<u64, NoMemory> {
        let at = self.entries.len() as u64;
        if self.entries.len() >= self.room {
            return Err(NoMemory);
        }
        self.entries.push_reserved(Entry {
            pass,
            number: *number,
        });
        Ok(at)
    }

    fn len(&self) -> u64 {
        self.entries.len() as u64
    }
}
