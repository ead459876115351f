//! What a port keeps of its device's pages, and what an access finds.

ghost use Rattle.std.specs.Prelude.{◌≡◌, [], nat_eq};
ghost use Rattle.std.specs.Map.{lookup};
ghost use Rattle.iofd_words.specs.Pages.{page_of};
ghost use Rattle.port_cache.specs.Cached.{Leaves, compared, with_right};

use iofd_words::{AccessKind, Iova, NoMemory, PAGE_SIZE, Translation};
use lru::{DefaultHasher, LruCache};
use std::alloc::{Allocator, Global};
use std::num::NonZeroUsize;

// Two lines of cache, which many processors fetch together.
const TWO_LINES: usize = 128;

/// Pages, each with what it is translated to, the most recently used first; and how many turns the device had had when
/// they were last compared with the server.
pub struct PortCache<A: Allocator + Copy = Global> {
    pub pages: LruCache<u64, Translation, DefaultHasher, A>,
    pub turns: u64,
    // Memory that nobody uses. It was taken right after the pages' own, so that what is taken next, the pages of
    // another port, shares no line of cache with it: each hit writes the pages' order, and ports are used by threads of
    // their own.
    apart: Vec<u8, A>,
}

// Written out, so that it is proved here alone and not in each crate that drops one.
impl<A: Allocator + Copy> Drop for PortCache<A> {
    fn drop(self) {
        let PortCache {
            pages: _,
            turns: _,
            apart: _,
        } = self;
    }
}

/// What an access finds under a guard: how many turns the device has had, and what the page is translated to, with the
/// right that was asked for.
#[derive(Clone, Copy)]
pub struct Found {
    pub turns: u64,
    pub translation: Option<Translation>,
}

/// The translation, if it has the right.
pub fn with_right(translation: Translation, kind: AccessKind) -> Option<Translation>
    ensures { result ≡ with_right kind (Some translation) }
{
    if translation.rights.allow(kind) {
        Some(translation)
    } else {
        None
    }
}

// The page of an address.
fn page_of(iova: Iova) -> u64
    ensures { result ≡ page_of iova.0 }
{
    iova.0 / PAGE_SIZE
}

impl<A: Allocator + Copy> PortCache<A> {
    ghost use Rattle.std.specs.Prelude.{IfOk};
    ghost use Rattle.std.specs.NonZero.{non_zero_usize_get};

    /// An empty cache of so many pages. Memory for them is taken as they come, and two lines to be apart from others.
    pub fn new(alloc: A, most: NonZeroUsize) -> Result<PortCache<A>, NoMemory>
        ensures { IfOk result (λ cache. (cache.pages.cap ≡ non_zero_usize_get most) × (cache.pages.entries ≡ [])) }
    {
        let pages = LruCache::sparse(alloc, most)?;
        let apart = Vec::with_capacity(alloc, TWO_LINES)?;
        Ok(PortCache {
            pages,
            turns: 0,
            apart,
        })
    }

    /// What is kept of the address's page, with the right; nothing where the device has had another turn since.
    pub fn kept(&self, turns: u64, iova: Iova, kind: AccessKind) -> Option<Translation>
        ensures { result
            ≡ with_right kind (lookup (nat_eq (page_of iova.0)) (compared self.now.turns turns self.now.pages.entries)) }
    {
        if self.turns != turns {
            return None;
        }
        with_right(*self.pages.peek(&page_of(iova))?, kind)
    }

    /// Keeps what an access to the address found, and nothing that another turn of the device ended. Where there is no
    /// memory for a new page it isn't kept.
    pub fn keep(&mut self, iova: Iova, found: &Found)
        ensures most { self.new.pages.cap ≡ self.old.pages.cap }
        ensures turns { self.new.turns ≡ found.now.turns }
        ensures leaves { Leaves self.old.pages.cap (page_of iova.0) found.now.translation
            (compared self.old.turns found.now.turns self.old.pages.entries) self.new.pages.entries }
    {
        if self.turns != found.turns {
            self.clear();
            self.turns = found.turns;
        }
        if let Some(translation) = found.translation {
            let _len = self.pages.len();
            let _ = self.pages.put(page_of(iova), translation);
        }
    }

    /// Forgets all pages.
    pub fn clear(&mut self)
        ensures most { self.new.pages.cap ≡ self.old.pages.cap }
        ensures empty { self.new.pages.entries ≡ [] }
    {
        self.pages.clear();
    }
}
