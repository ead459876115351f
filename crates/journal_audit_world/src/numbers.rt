//! A set of numbers.

ghost use Rattle.std.specs.Prelude.{◌≡◌, ◌==◌, ◌&&◌, ◌||◌, ℕ, [], IfOk};
ghost use Rattle.journal_audit_world.specs.Keys.{has_number};

use iofd_words::NoMemory;
use std::alloc::{Allocator, Global};
use std::collections::BTreeSet;
use std::marker::Model;

/// A set of numbers. Whether it has one is told by a look where that is below or above all of them, and else at the
/// cost of a logarithm.
#[derive(Drop)]
pub struct Numbers<A: Allocator = Global> {
    low: u64,
    high: u64,
    set: BTreeSet<u64, A>,
}

impl<A: Allocator> Model for Numbers<A> {
    ghost use Rattle.std.specs.Prelude.{List, ℕ};
    ghost use Rattle.journal_audit_world.specs.Keys.{AreWithin};

    ghost Value = { List ℕ };

    ghost view = { λ numbers. numbers.set.keys };

    ghost invariant = { λ numbers. AreWithin numbers.low numbers.high numbers.set.keys };
}

impl<A: Allocator> Numbers<A> {
    /// No number. It takes no memory.
    pub fn new(alloc: A) -> Numbers<A>
        ensures { result ≡ [] }
    {
        Numbers {
            low: u64::MAX,
            high: 0,
            set: BTreeSet::new(alloc),
        }
    }

    /// Whether it is one of them.
    pub fn has(&self, number: u64) -> bool
        ensures { result ≡ has_number self.now number }
    {
        if number < self.low || self.high < number {
            return false;
        }
        self.set.contains(&number)
    }
}

impl<A: Allocator + Copy> Numbers<A> {
    /// The number too, if it is asked for.
    pub fn add_if(&mut self, number: u64, is_asked: bool) -> Result<(), NoMemory>
        ensures { IfOk result (λ _. (other : ℕ) → has_number self.new other
            ≡ (has_number self.old other || (is_asked && number == other))) }
    {
        if is_asked {
            self.set.insert(number)?;
            self.low = self.low.min(number);
            self.high = self.high.max(number);
        }
        Ok(())
    }
}
