//! A set of pairs of numbers.

ghost use Rattle.std.specs.Prelude.{◌≡◌, ◌==◌, ◌&&◌, ◌||◌, ℕ, [], IfOk};
ghost use Rattle.journal_audit_world.specs.Keys.{has_pair};

use iofd_words::NoMemory;
use std::alloc::{Allocator, Global};
use std::collections::BTreeSet;
use std::marker::Model;

/// A set of pairs of numbers. Whether it has one is told at the cost of a logarithm.
#[derive(Drop)]
pub struct Pairs<A: Allocator = Global> {
    set: BTreeSet<(u64, u64), A>,
}

impl<A: Allocator> Model for Pairs<A> {
    ghost use Rattle.std.specs.Prelude.{List, ℕ};

    ghost Value = { List (ℕ × ℕ) };

    ghost view = { λ pairs. pairs.set.keys };
}

impl<A: Allocator> Pairs<A> {
    /// No pair. It takes no memory.
    pub fn new(alloc: A) -> Pairs<A>
        ensures { result ≡ [] }
    {
        Pairs {
            set: BTreeSet::new(alloc),
        }
    }

    /// Whether it is one of them.
    pub fn has(&self, a: u64, b: u64) -> bool
        ensures { result ≡ has_pair self.now a b }
    {
        self.set.contains(&(a, b))
    }
}

impl<A: Allocator + Copy> Pairs<A> {
    /// The pair too, if it is asked for.
    pub fn add_if(&mut self, a: u64, b: u64, is_asked: bool) -> Result<(), NoMemory>
        ensures { IfOk result (λ _. (c d : ℕ) → has_pair self.new c d
            ≡ (has_pair self.old c d || (is_asked && (a == c && b == d)))) }
    {
        if is_asked {
            self.set.insert((a, b))?;
        }
        Ok(())
    }
}
