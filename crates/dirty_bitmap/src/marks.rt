//! The marked pages of one page table.

ghost use Rattle.std.specs.Prelude.{◌≡◌, ◌<◌, ◌≤◌, ◌+◌, ◌*◌, ◌/◌, ◌^◌, ◌==◌, ◌&&◌, ◌||◌};
ghost use Rattle.std.specs.Prelude.{ℕ, false, not, nat_le, OnOk, OnErr};
ghost use Rattle.iofd_words.specs.DirtyWords.{dirty_words, is_page_of, is_told};
ghost use Rattle.dirty_bitmap.specs.Marks.{has_bit, is_marked};

use crate::bits::{WordMap, add_bits, joined, keep_bits, ones, word_in};
use iofd_words::{NoMemory, PAGE_SIZE, Span};
use std::alloc::{Allocator, Global};
use std::collections::HashMap;
use std::marker::Model;

// How many pages a word has.
const WORD_PAGES: u64 = 64;

// How many pages a report tells at most.
const REPORT_PAGES: u64 = 256;

// The part of the span that a report tells.
pub(crate) fn told(span: Span) -> Span
    ensures { (page : ℕ) → is_page_of result page ≡ is_told span page }
{
    let last = span.first() / PAGE_SIZE + (REPORT_PAGES - 1);
    if span.last() / PAGE_SIZE <= last {
        return span;
    }
    match Span::new(span.first(), last * PAGE_SIZE + (PAGE_SIZE - 1)) {
        Some(told) => told,
        None => unreachable!(),
    }
}

/// The marked pages of a page table: those that devices have written. A page is its address divided by 4096, and may be
/// any number. A contract sees what is kept, and asks it by a test, `is_marked`, which pages are marked.
#[derive(Drop)]
pub struct Marks<A: Allocator = Global> {
    // A bit a page, 64 pages in each word, by the page's number divided by 64. A word that has no mark any more goes.
    words: WordMap<A>,
}

impl<A: Allocator> Model for Marks<A> {
    ghost use Rattle.dirty_bitmap.specs.Marks.{Words};

    ghost Value = { Words };

    ghost view = { λ marks. marks.words.entries };
}

impl<A: Allocator> Marks<A> {
    /// No page is marked. It takes no memory.
    pub fn new(alloc: A) -> Marks<A>
        ensures { (page : ℕ) → is_marked result page ≡ false }
    {
        Marks {
            words: HashMap::new(alloc),
        }
    }

    /// The words of a report of the span, of addresses in bytes: bit k of word j is page `first / 4096 + 64 * j + k` of
    /// it, whether it is marked; what is beyond the span is 0. Of a span of more than 256 pages the first 256 are told.
    /// It changes nothing and takes no memory.
    pub fn report(&self, span: Span) -> [u64; 4]
        ensures { result ≡ dirty_words (is_marked self.now) span }
    {
        let first = span.first() / PAGE_SIZE;
        let last = span.last() / PAGE_SIZE;
        let number = first / WORD_PAGES;
        let shift = first % WORD_PAGES;
        let words = [
            self.word_up_to(number, last),
            self.word_up_to(number + 1, last),
            self.word_up_to(number + 2, last),
            self.word_up_to(number + 3, last),
            self.word_up_to(number + 4, last),
        ];
        [
            joined(words[0], words[1], shift),
            joined(words[1], words[2], shift),
            joined(words[2], words[3], shift),
            joined(words[3], words[4], shift),
        ]
    }

    // The word of this number, without the marks of pages behind the last. It looks up none that has just such pages.
    fn word_up_to(&self, number: u64, last: u64) -> u64
        requires { last < 2 ^ 52 }
        ensures { (k : ℕ) → k < 64 → has_bit result k
            ≡ (is_marked self.now (number * 64 + k) && nat_le (number * 64 + k) last) }
    {
        if number > last / WORD_PAGES {
            return 0;
        }
        word_in(&self.words, number) & ones(last + 1 - number * WORD_PAGES)
    }
}

impl<A: Allocator + Copy> Marks<A> {
    /// Marks the page. Its only error is want of memory; it comes only where no page of its word is marked, and changes
    /// nothing.
    pub fn set(&mut self, page: u64) -> Result<(), NoMemory>
        ensures marks { OnOk result ((other : ℕ)
            → is_marked self.new other ≡ (is_marked self.old other || page == other)) }
        ensures memory { OnErr result ((other : ℕ) → other / 64 ≡ page / 64 → is_marked self.old other ≡ false) }
        ensures err { OnErr result (self.new ≡ self.old) }
    {
        add_bits(&mut self.words, page / WORD_PAGES, 1 << (page % WORD_PAGES))
    }

    /// Takes away the marks of the pages of the span, of addresses in bytes, and no others. It takes no memory. It
    /// looks at each word of 64 pages of the span: five at most where the span has 256.
    pub fn clear(&mut self, span: Span)
        ensures { (page : ℕ) → is_marked self.new page ≡ (is_marked self.old page && not (is_page_of span page)) }
    {
        let first = span.first() / PAGE_SIZE;
        let last = span.last() / PAGE_SIZE;
        for number in first / WORD_PAGES..last / WORD_PAGES + 1 {
            self.clear_word(number, first, last);
        }
    }

    // Takes away the marks of the pages from the first to the last that are in the word of this number.
    fn clear_word(&mut self, number: u64, first: u64, last: u64)
        requires within { number ≤ last / 64 }
        requires small { last < 2 ^ 52 }
        ensures { (page : ℕ) → is_marked self.new page
            ≡ (is_marked self.old page && not (number == page / 64 && (nat_le first page && nat_le page last))) }
    {
        let base = number * WORD_PAGES;
        let before = ones(first.saturating_sub(base));
        let behind = !ones((last + 1).saturating_sub(base));
        keep_bits(&mut self.words, number, before | behind);
    }
}
