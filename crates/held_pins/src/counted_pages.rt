//! Pages of objects, and how often each is counted.

ghost use Rattle.std.specs.Prelude.{◌≡◌, ◌<◌, ◌+◌, [], if◌then◌else◌, IsTrue, false, OnOk, OnErr, IfSome, IfNone};
ghost use Rattle.std.specs.BTreeMap.{is_at};
ghost use Rattle.std.specs.BTreeMap.Range.{IsLeBy};
ghost use Rattle.std.specs.BTreeSet as set;
ghost use Rattle.held_pins.specs.Counts.{count_in, IsFirstFrom};
ghost use Rattle.held_pins.specs.PageOrder.{count_exchanged, page_cmp};
ghost use Rattle.held_pins.specs.declared.keys.PageKey.{PageKey};

use crate::counts::Counts;
use crate::keys::PageKey;
use iofd_words::NoMemory;
use std::alloc::{Allocator, Global};
use std::collections::BTreeSet;
use std::marker::Model;

/// How often each page is counted. A contract sees the rows of those that are, in whatever order they are. A page is
/// found by hash; to find the next one that is counted costs the logarithm of how many there are.
#[derive(Drop)]
pub(crate) struct CountedPages<A: Allocator = Global> {
    counts: Counts<PageKey, A>,
    // The pages that are counted: others only where a page is counted first, or no longer.
    order: BTreeSet<PageKey, A>,
    // The same pages, by keys of which object and access object are exchanged.
    by_access: BTreeSet<PageKey, A>,
}

impl<A: Allocator> Model for CountedPages<A> {
    ghost use Rattle.std.specs.Prelude.{List, ℕ};
    ghost use Rattle.held_pins.specs.PageOrder.{AreInOrder};
    ghost use Rattle.held_pins.specs.declared.keys.PageKey.{PageKey};

    ghost Value = { List (PageKey × ℕ) };

    ghost view = { λ pages. pages.counts };

    ghost invariant = { λ pages. AreInOrder pages.counts pages.order pages.by_access };
}

impl<A: Allocator> CountedPages<A> {
    /// No page is counted. It takes no memory.
    pub(crate) fn new(alloc: A) -> CountedPages<A>
    where
        A: Copy,
        ensures { result ≡ [] }
    {
        CountedPages {
            counts: Counts::new(alloc),
            order: BTreeSet::new(alloc),
            by_access: BTreeSet::new(alloc),
        }
    }

    /// How often the page is counted.
    pub(crate) fn count(&self, key: PageKey) -> u16
        ensures { result ≡ count_in page_cmp self.now key }
    {
        self.counts.count(key)
    }

    /// Counts the page once more. Its only error is want of memory; it comes only where the page isn't counted yet, and
    /// changes nothing.
    pub(crate) fn add(&mut self, key: PageKey) -> Result<(), NoMemory>
    where
        A: Copy,
        requires { count_in page_cmp self.old key < 65535 }
        ensures counts { OnOk result ((other : PageKey) → count_in page_cmp self.new other
            ≡ count_in page_cmp self.old other + (if is_at (page_cmp key) other then 1 else 0)) }
        ensures full { OnErr result (count_in page_cmp self.old key ≡ 0) }
        ensures err { OnErr result (self.new ≡ self.old) }
    {
        if self.counts.add_again(key) {
            return Ok(());
        }
        if self.order.insert(key).is_err() {
            return Err(NoMemory);
        }
        let exchanged = key.exchanged();
        if self.by_access.insert(exchanged).is_err() {
            let _ = self.order.remove(&key);
            return Err(NoMemory);
        }
        if self.counts.add_first(key).is_err() {
            let _ = self.order.remove(&key);
            let _ = self.by_access.remove(&exchanged);
            return Err(NoMemory);
        }
        Ok(())
    }

    /// Counts the page once less, which is counted. It takes no memory.
    pub(crate) fn remove(&mut self, key: PageKey)
        requires { 0 < count_in page_cmp self.old key }
        ensures counts { (other : PageKey) → count_in page_cmp self.new other
            + (if is_at (page_cmp key) other then 1 else 0) ≡ count_in page_cmp self.old other }
    {
        if self.counts.remove(key) {
            let _ = self.order.remove(&key);
            let _ = self.by_access.remove(&key.exchanged());
        }
    }

    /// The least page that is counted and isn't below this one.
    pub(crate) fn first_from(&self, key: PageKey) -> Option<PageKey>
        ensures found { IfSome result (λ least. IsFirstFrom page_cmp (count_in page_cmp self.now) key least) }
        ensures none { IfNone result ((other : PageKey) → IsLeBy page_cmp key other
            → count_in page_cmp self.now other ≡ 0) }
    {
        first_in(&self.order, key)
    }

    /// The same by keys of which object and access object are exchanged: so is this one, and the answer.
    pub(crate) fn first_by_access(&self, key: PageKey) -> Option<PageKey>
        ensures found { IfSome result (λ least. IsFirstFrom page_cmp (count_exchanged self.now) key least) }
        ensures none { IfNone result ((other : PageKey) → IsLeBy page_cmp key other
            → count_exchanged self.now other ≡ 0) }
    {
        first_in(&self.by_access, key)
    }
}

/// The least of the pages that isn't below this one.
fn first_in<A: Allocator>(order: &BTreeSet<PageKey, A>, key: PageKey) -> Option<PageKey>
    ensures there { IfSome result (λ least. IsTrue (set.contains page_cmp order.now least)) }
    ensures reached { IfSome result (λ least. IsLeBy page_cmp key least) }
    ensures least { IfSome result (λ least. (other : PageKey) → IsLeBy page_cmp key other
        → IsTrue (set.contains page_cmp order.now other) → IsLeBy page_cmp least other) }
    ensures none { IfNone result ((other : PageKey) → IsLeBy page_cmp key other
        → set.contains page_cmp order.now other ≡ false) }
{
    match order.range(key..).next() {
        Some(least) => Some(*least),
        None => None,
    }
}
