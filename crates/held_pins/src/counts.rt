//! How often each key is counted.

ghost use Rattle.std.specs.Prelude.{◌≡◌, ◌<◌, ◌+◌, [], if◌then◌else◌, IsTrue, IsFalse, OnOk, OnErr, nat_lt, not};
ghost use Rattle.std.specs.BTreeMap.{is_at};
ghost use Rattle.held_pins.specs.Counts.{count_in, ArePositive, WeighsMore};

use iofd_words::NoMemory;
use std::alloc::{Allocator, Global};
use std::collections::HashMap;
use std::hash::{BuildHasherDefault, FoldHasher, Hash};
use std::marker::Model;

/// How often each key is counted. A contract sees the rows of those that are, in whatever order. Each call finds its
/// key by hash.
#[derive(Drop)]
pub(crate) struct Counts<K: Ord + Hash, A: Allocator = Global> {
    rows: HashMap<K, u16, BuildHasherDefault<FoldHasher>, A>,
}

impl<K: Ord + Hash, A: Allocator> Model for Counts<K, A> {
    ghost use Rattle.std.specs.Prelude.{List, ℕ};
    ghost use Rattle.held_pins.specs.Counts.{ArePositive};

    ghost Value = { List (K × ℕ) };

    ghost view = { λ counts. counts.rows.entries };

    ghost invariant = { λ counts. ArePositive counts.rows.entries };
}

impl<K: Ord + Hash + Copy, A: Allocator> Counts<K, A> {
    /// No key is counted. It takes no memory.
    pub(crate) fn new(alloc: A) -> Counts<K, A>
        ensures { result ≡ [] }
    {
        Counts {
            rows: HashMap::new(alloc),
        }
    }

    /// How often the key is counted.
    pub(crate) fn count(&self, key: K) -> u16
        ensures { result ≡ count_in K.cmp self.now key }
    {
        self.rows.get(&key).copied().unwrap_or(0)
    }

    /// Counts the key once more. Its only error is want of memory; it comes only where the key isn't counted yet, and
    /// changes nothing.
    pub(crate) fn add(&mut self, key: K) -> Result<(), NoMemory>
    where
        A: Copy,
        requires { count_in K.cmp self.old key < 65535 }
        ensures counts { OnOk result ((other : K) → count_in K.cmp self.new other
            ≡ count_in K.cmp self.old other + (if is_at (K.cmp key) other then 1 else 0)) }
        ensures weights { OnOk result (WeighsMore K.cmp self.old self.new key) }
        ensures positive { ArePositive self.new }
        ensures full { OnErr result (count_in K.cmp self.old key ≡ 0) }
        ensures err { OnErr result (self.new ≡ self.old) }
    {
        if self.add_again(key) {
            return Ok(());
        }
        self.add_first(key)
    }

    /// Counts the key once more where it is counted already. Whether it was; if not it does nothing. It takes no
    /// memory.
    pub(crate) fn add_again(&mut self, key: K) -> bool
        requires { count_in K.cmp self.old key < 65535 }
        ensures test { result ≡ nat_lt 0 (count_in K.cmp self.old key) }
        ensures counts { IsTrue result → (other : K) → count_in K.cmp self.new other
            ≡ count_in K.cmp self.old other + (if is_at (K.cmp key) other then 1 else 0) }
        ensures weights { IsTrue result → WeighsMore K.cmp self.old self.new key }
        ensures positive { ArePositive self.new }
        ensures unchanged { IsFalse result → self.new ≡ self.old }
    {
        match self.rows.get_mut(&key) {
            Some(count) => {
                *count += 1;
                true
            }
            None => false,
        }
    }

    /// Counts the key, which isn't counted yet. Its only error is want of memory, and changes nothing.
    pub(crate) fn add_first(&mut self, key: K) -> Result<(), NoMemory>
    where
        A: Copy,
        requires { count_in K.cmp self.old key ≡ 0 }
        ensures counts { OnOk result ((other : K) → count_in K.cmp self.new other
            ≡ count_in K.cmp self.old other + (if is_at (K.cmp key) other then 1 else 0)) }
        ensures weights { OnOk result (WeighsMore K.cmp self.old self.new key) }
        ensures positive { ArePositive self.new }
        ensures err { OnErr result (self.new ≡ self.old) }
    {
        match self.rows.insert(key, 1) {
            Ok(_) => Ok(()),
            Err(_) => Err(NoMemory),
        }
    }

    /// Counts the key once less, which is counted. Whether that was the last time. It takes no memory.
    pub(crate) fn remove(&mut self, key: K) -> bool
        requires { 0 < count_in K.cmp self.old key }
        ensures counts { (other : K) → count_in K.cmp self.new other + (if is_at (K.cmp key) other then 1 else 0)
            ≡ count_in K.cmp self.old other }
        ensures weights { WeighsMore K.cmp self.new self.old key }
        ensures positive { ArePositive self.new }
        ensures last { result ≡ not (nat_lt 1 (count_in K.cmp self.old key)) }
    {
        if self.remove_one(key) {
            return false;
        }
        let _ = self.rows.remove(&key);
        true
    }

    /// Counts the key, which is counted, once less where it is counted more than once. Whether it was; if not it does
    /// nothing. It takes no memory.
    fn remove_one(&mut self, key: K) -> bool
        requires { 0 < count_in K.cmp self.old key }
        ensures test { result ≡ nat_lt 1 (count_in K.cmp self.old key) }
        ensures counts { IsTrue result → (other : K) → count_in K.cmp self.new other
            + (if is_at (K.cmp key) other then 1 else 0) ≡ count_in K.cmp self.old other }
        ensures weights { IsTrue result → WeighsMore K.cmp self.new self.old key }
        ensures positive { ArePositive self.new }
        ensures unchanged { IsFalse result → self.new ≡ self.old }
    {
        match self.rows.get_mut(&key) {
            Some(count) if *count > 1 => {
                *count -= 1;
                true
            }
            Some(_) => false,
            None => false,
        }
    }
}
