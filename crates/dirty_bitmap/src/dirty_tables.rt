//! The page tables whose pages are tracked.

ghost use Rattle.std.specs.Prelude.{◌≡◌, ◌/◌, ◌==◌, ◌&&◌, ◌||◌, ℕ, true, false, not, IsFalse, OnOk, OnErr};
ghost use Rattle.iofd_words.specs.declared.numbers.FileNo.{FileNo};
ghost use Rattle.iofd_words.specs.declared.numbers.ObjId.{ObjId};
ghost use Rattle.iofd_words.specs.DirtyWords.{dirty_words, is_page_of, is_told};
ghost use Rattle.dirty_bitmap.specs.Tracking.{is_dirty, is_file, is_table, is_tracked};

use crate::marks::{Marks, told};
use iofd_words::{FileNo, NoMemory, ObjId, Span};
use std::alloc::{Allocator, Global};
use std::collections::BTreeMap;
use std::marker::Model;

/// The page tables of all files whose pages are tracked, each with its marked pages. A contract sees what is kept, and
/// asks it by two tests which page tables are tracked (`is_tracked`) and which of their pages are marked (`is_dirty`).
/// To find a page table costs the logarithm of how many are tracked.
#[derive(Drop)]
pub struct DirtyTables<A: Allocator = Global> {
    // By file and id.
    tables: BTreeMap<(u16, u32), Marks<A>, A>,
    alloc: A,
}

impl<A: Allocator> Model for DirtyTables<A> {
    ghost use Rattle.dirty_bitmap.specs.Tracking.{Tables};

    ghost Value = { Tables };

    ghost view = { λ dirty. dirty.tables.entries };
}

impl<A: Allocator> DirtyTables<A> {
    /// No page table is tracked. It takes no memory.
    pub fn new(alloc: A) -> DirtyTables<A>
    where
        A: Copy,
        ensures tracks { (file : FileNo) (hwpt : ObjId) → is_tracked result file hwpt ≡ false }
        ensures marks { (file : FileNo) (hwpt : ObjId) (page : ℕ) → is_dirty result file hwpt page ≡ false }
    {
        DirtyTables {
            tables: BTreeMap::new(alloc),
            alloc,
        }
    }

    /// Whether the page table's pages are tracked. Where they aren't, none is marked.
    pub fn is_tracked(&self, file: FileNo, hwpt: ObjId) -> bool
        ensures test { result ≡ is_tracked self.now file hwpt }
        ensures untracked { IsFalse result → (page : ℕ) → is_dirty self.now file hwpt page ≡ false }
    {
        self.tables.contains_key(&(file.0, hwpt.0))
    }

    /// The words of a report of the span, of addresses in bytes, as `Marks::report` tells them; zeros where the page
    /// table isn't tracked. It changes nothing and takes no memory.
    pub fn report(&self, file: FileNo, hwpt: ObjId, span: Span) -> [u64; 4]
        ensures { result ≡ dirty_words (is_dirty self.now file hwpt) span }
    {
        match self.tables.get(&(file.0, hwpt.0)) {
            Some(marks) => marks.report(span),
            None => [0; 4],
        }
    }

    /// The page table isn't tracked any more, and its marks are gone. Nothing changes where it wasn't. It takes no
    /// memory.
    pub fn stop(&mut self, file: FileNo, hwpt: ObjId)
        ensures tracks { (f : FileNo) (h : ObjId)
            → is_tracked self.new f h ≡ (is_tracked self.old f h && not (is_table file hwpt f h)) }
        ensures marks { (f : FileNo) (h : ObjId) (page : ℕ)
            → is_dirty self.new f h page ≡ (is_dirty self.old f h page && not (is_table file hwpt f h)) }
    {
        let _ = self.tables.remove(&(file.0, hwpt.0));
    }

    /// No page table of the file is tracked any more, and their marks are gone. It takes no memory, and looks at all
    /// that are tracked.
    pub fn stop_file(&mut self, file: FileNo)
        ensures tracks { (f : FileNo) (h : ObjId)
            → is_tracked self.new f h ≡ (is_tracked self.old f h && not (is_file file f)) }
        ensures marks { (f : FileNo) (h : ObjId) (page : ℕ)
            → is_dirty self.new f h page ≡ (is_dirty self.old f h page && not (is_file file f)) }
    {
        self.tables.retain(|key, _| key.0 != file.0);
    }
}

impl<A: Allocator + Copy> DirtyTables<A> {
    /// The page table is tracked from now on, and none of its pages is marked: where it was tracked its marks are gone.
    /// Its only error is want of memory; it comes only where it wasn't tracked, and changes nothing.
    pub fn start(&mut self, file: FileNo, hwpt: ObjId) -> Result<(), NoMemory>
        ensures tracks { OnOk result ((f : FileNo) (h : ObjId)
            → is_tracked self.new f h ≡ (is_tracked self.old f h || is_table file hwpt f h)) }
        ensures marks { OnOk result ((f : FileNo) (h : ObjId) (page : ℕ)
            → is_dirty self.new f h page ≡ (is_dirty self.old f h page && not (is_table file hwpt f h))) }
        ensures memory { OnErr result (is_tracked self.old file hwpt ≡ false) }
        ensures err { OnErr result (self.new ≡ self.old) }
    {
        match self.tables.insert((file.0, hwpt.0), Marks::new(self.alloc)) {
            Ok(_) => Ok(()),
            Err(_) => Err(NoMemory),
        }
    }

    /// Marks the page, its address divided by 4096, where the page table is tracked; else nothing happens, and no
    /// memory is taken. Its only error is want of memory; it comes only where the page is to be marked and none of its
    /// word is, and changes nothing.
    pub fn mark(&mut self, file: FileNo, hwpt: ObjId, page: u64) -> Result<(), NoMemory>
        ensures tracks { (f : FileNo) (h : ObjId) → is_tracked self.new f h ≡ is_tracked self.old f h }
        ensures marks { OnOk result ((f : FileNo) (h : ObjId) (other : ℕ) → is_dirty self.new f h other
            ≡ (is_dirty self.old f h other
            || (is_tracked self.old f h && (is_table file hwpt f h && page == other)))) }
        ensures memory { OnErr result
            ((is_tracked self.old file hwpt ≡ true)
            × ((other : ℕ) → other / 64 ≡ page / 64 → is_dirty self.old file hwpt other ≡ false)) }
        ensures err { OnErr result (self.new ≡ self.old) }
    {
        match self.tables.get_mut(&(file.0, hwpt.0)) {
            Some(marks) => marks.set(page),
            None => Ok(()),
        }
    }

    /// Takes away the marks that the page table has of pages of the span, of addresses in bytes, and no others. It
    /// takes no memory.
    pub fn clear(&mut self, file: FileNo, hwpt: ObjId, span: Span)
        ensures tracks { (f : FileNo) (h : ObjId) → is_tracked self.new f h ≡ is_tracked self.old f h }
        ensures marks { (f : FileNo) (h : ObjId) (page : ℕ) → is_dirty self.new f h page
            ≡ (is_dirty self.old f h page && not (is_table file hwpt f h && is_page_of span page)) }
    {
        match self.tables.get_mut(&(file.0, hwpt.0)) {
            Some(marks) => marks.clear(span),
            None => {}
        }
    }

    /// `report`, and where it is asked for, the marks that it tells are taken away, and no others. It takes no memory.
    pub fn report_flagged(&mut self, file: FileNo, hwpt: ObjId, span: Span, clear: bool) -> [u64; 4]
        ensures words { result ≡ dirty_words (is_dirty self.old file hwpt) span }
        ensures tracks { (f : FileNo) (h : ObjId) → is_tracked self.new f h ≡ is_tracked self.old f h }
        ensures marks { (f : FileNo) (h : ObjId) (page : ℕ) → is_dirty self.new f h page
            ≡ (is_dirty self.old f h page && not (is_table file hwpt f h && (clear && is_told span page))) }
    {
        let words = self.report(file, hwpt, span);
        if clear {
            self.clear(file, hwpt, told(span));
        }
        words
    }
}
