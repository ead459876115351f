//! A hardware page table.

ghost use Rattle.std.specs.Prelude.{◌≡◌, ◌≤◌, ◌<◌, ◌+◌, ◌-◌, ◌*◌, ◌^◌, []};
ghost use Rattle.std.specs.Prelude.{◌∷◌, ◌++◌, not, IfOk, IfSome, IfNone};
ghost use Rattle.std.specs.Prelude.{OnOk, OnErr, length, vec_len, vec_capacity};
ghost use Rattle.std.specs.List.{count_by, range_with_len};
ghost use Rattle.frame_memory.specs.Pool.{free_count, given, least_free};
ghost use Rattle.iofd_words.specs.Levels.{levels_of};
ghost use Rattle.page_table_words.specs.Emptied.{GivesUp, HasEmpty, IsEmpty, without_table};
ghost use Rattle.page_table_words.specs.Mapped.{Becomes, HasRoom, IsBelow, IsTable, root_row};
ghost use Rattle.page_table_words.specs.Needed.{AreOrdered, is_absent, needed, needed_at};
ghost use Rattle.page_table_words.specs.Pruned.{CanPrune, Prunes, gone, left};
ghost use Rattle.page_table_words.specs.Reached.{EndsAt, IsLowest};
ghost use Rattle.page_table_words.specs.Released.{CanRelease, GivesBack, Releases};
ghost use Rattle.page_table_words.specs.Rows.{with_page, without_page};
ghost use Rattle.page_table_words.specs.Stands.{IfStands, TableStands};
ghost use Rattle.page_table_words.specs.Taken.{least_frames, missing, with_tables};
ghost use Rattle.page_table.specs.Walks.{walk_of};

use crate::descent::{Reached, descend, descend_to};
use crate::entry::Entry;
use crate::extension::extend;
use crate::levels::{first_page, levels, number};
use crate::prune::{count_idle, cut_idle};
use crate::release::{release_all, sort_from};
use crate::visit::{collect, count};
use crate::walk::Walk;
use frame_memory::Pool;
use iofd_words::{Cause, FrameNo, PAGE_SIZE, Refusal, Rights, Span, Width};
use std::alloc::Allocator;
use std::marker::Model;

/// A hardware page table: second-stage tables of VT-d in frames of a pool, which is lent to each call. A contract sees
/// its width and the frame of its root; what its rows of table frames and its mapped pages are is told by the words of
/// the pool.
#[derive(Drop)]
pub struct Table {
    width: Width,
    root: FrameNo,
}

impl Model for Table {
    ghost use Rattle.page_table_words.specs.Stands.{TableRoot};

    ghost Value = { TableRoot };

    ghost view = { λ table. record { width = table.width; root = table.root } };
}

impl Table {
    /// A table of this width that maps no page. Its root is the least free frame, which is appended to `out`, where
    /// there is room. It is refused by 6 (ENOMEM, cause Frames) exactly where no frame is free, and then nothing
    /// changes. It takes no memory.
    pub fn new<A: Allocator, B: Allocator>(
        pool: &mut Pool<A>,
        width: Width,
        out: &mut Vec<FrameNo, B>,
    ) -> Result<Table, Refusal>
        requires { vec_len out.old < vec_capacity out.old }
        ensures refused { IfNone (least_free pool.old.holds) (result ≡ Err (record { cause = Cause.Frames })) }
        ensures taken { IfSome (least_free pool.old.holds)
            (λ frame. result ≡ Ok (record { width = width; root = record { 0 = frame } })) }
        ensures pool { IfOk result (λ table. pool.new ≡ given pool.old table.root.0) }
        ensures table { IfOk result (λ table. Becomes pool.old pool.new table (root_row table ∷ []) []) }
        ensures out { IfOk result (λ table. out.new.items ≡ out.old.items ++ table.root ∷ []) }
        ensures capacity { vec_capacity out.new ≡ vec_capacity out.old }
        ensures pool_err { OnErr result (pool.new ≡ pool.old) }
        ensures out_err { OnErr result (out.new.items ≡ out.old.items) }
    {
        let root = pool.take()?;
        out.push_reserved(root);
        Ok(Table { width, root })
    }

    /// The width of the addresses that it translates.
    pub fn width(&self) -> Width
        ensures { result ≡ self.now.width }
    {
        self.width
    }

    /// The frame of its root, which a context entry names (VT-d, "Context Entry").
    pub fn root(&self) -> FrameNo
        ensures { result ≡ self.now.root }
    {
        self.root
    }

    /// Maps the page, by its number, to this frame with these rights, in place of what it was. Tables that it lacks are
    /// made of the least free frames, from the root down, which are appended to `out`, where there is room. Every other
    /// page stays.
    ///
    /// It is refused by 6 (ENOMEM, cause Frames) exactly where fewer frames are free than it lacks tables, and then
    /// nothing changes. It costs the levels, and takes no memory.
    pub fn map<A: Allocator, B: Allocator>(
        &mut self,
        pool: &mut Pool<A>,
        page: u64,
        frame: FrameNo,
        rights: Rights,
        out: &mut Vec<FrameNo, B>,
    ) -> Result<(), Refusal>
        requires table { HasRoom pool.old self.old page (vec_capacity out.old - vec_len out.old) }
        requires below { IsBelow self.old.width page }
        requires some_right { 0 < rights.0 }
        requires no_other { rights.0 < 4 }
        ensures same { self.new ≡ self.old }
        ensures refused { IfStands pool.old self.old (λ rows pages.
            free_count pool.old.holds < missing rows (levels_of self.old.width) page →
            result ≡ Err (record { cause = Cause.Frames })) }
        ensures taken { IfStands pool.old self.old (λ rows pages.
            missing rows (levels_of self.old.width) page ≤ free_count pool.old.holds → result ≡ Ok (record {})) }
        ensures table { OnOk result (IfStands pool.old self.old (λ rows pages.
            Becomes pool.old pool.new self.new (with_tables rows (levels_of self.old.width) page pool.old.holds)
            (with_page pages page frame rights))) }
        ensures out { OnOk result (IfStands pool.old self.old (λ rows pages.
            out.new.items
            ≡ out.old.items ++ least_frames pool.old.holds (missing rows (levels_of self.old.width) page))) }
        ensures free { OnOk result (IfStands pool.old self.old (λ rows pages.
            free_count pool.new.holds + missing rows (levels_of self.old.width) page ≡ free_count pool.old.holds)) }
        ensures capacity { vec_capacity out.new ≡ vec_capacity out.old }
        ensures pool_err { OnErr result (pool.new ≡ pool.old) }
        ensures out_err { OnErr result (out.new.items ≡ out.old.items) }
    {
        let lowest = self.lowest(pool, page);
        if pool.free_count() < u32::from(lowest.level - 1) {
            return Err(Refusal {
                cause: Cause::Frames,
            });
        }
        let last = extend(pool, lowest.level, lowest.frame, page, out);
        Entry::to(frame, rights).write(pool, last, 1, page);
        Ok(())
    }

    /// Unmaps the page, by its number, if it is mapped: one at or above the end of the width isn't. Its tables stay,
    /// and every other page. It costs the levels, and takes no memory.
    pub fn clear<A: Allocator>(&mut self, pool: &mut Pool<A>, page: u64)
        requires { IsTable pool.old self.old }
        ensures same { self.new ≡ self.old }
        ensures holds { pool.new.holds ≡ pool.old.holds }
        ensures table { IfStands pool.old self.old (λ rows pages.
            Becomes pool.old pool.new self.new rows (without_page pages page)) }
    {
        if page >= self.width.end() / PAGE_SIZE {
            return;
        }
        let lowest = self.lowest(pool, page);
        if lowest.level == 1 {
            Entry(0).write(pool, lowest.frame, 1, page);
        }
    }

    /// Where the address leads, in bytes: to a mapped page's frame with its rights; beyond, at or above the end of the
    /// width; or nowhere. It costs the levels, and takes no memory.
    pub fn walk<A: Allocator>(&self, pool: &Pool<A>, iova: u64) -> Walk
        requires { IsTable pool.now self.now }
        ensures { IfStands pool.now self.now (λ rows pages.
            result ≡ walk_of self.now.width pages iova) }
    {
        if iova >= self.width.end() {
            return Walk::Beyond;
        }
        let page = iova / PAGE_SIZE;
        let lowest = self.lowest(pool, page);
        if lowest.level > 1 {
            return Walk::None;
        }
        let entry = Entry::read(pool, lowest.frame, 1, page);
        if !entry.is_present() {
            return Walk::None;
        }
        Walk::Hit {
            frame: entry.frame(),
            rights: Rights(lowest.rights.0 & entry.rights().0),
        }
    }

    /// How many tables aren't there through which a page of the spans goes, so how many frames it takes to map all
    /// their pages. Each is counted once, however many spans go through it. The spans lie below the end of the width
    /// and rise, each before the next. It costs the levels for each table that the spans go through, and takes no
    /// memory.
    pub fn needs<A: Allocator>(&self, pool: &Pool<A>, spans: &[Span]) -> u64
        requires table { IsTable pool.now self.now }
        requires spans { AreOrdered self.now.width spans.now }
        ensures { IfStands pool.now self.now (λ rows pages.
            result ≡ needed rows (levels_of self.now.width) spans.now) }
    {
        let mut total = 0;
        for level in 1..levels(self.width) {
            total += self.needs_at(pool, level, spans);
        }
        total
    }

    /// How many table frames it has, the root among them. It visits each entry of each table above the last level.
    pub fn frames<A: Allocator>(&self, pool: &Pool<A>) -> u64
        requires { IsTable pool.now self.now }
        ensures { IfStands pool.now self.now (λ rows pages.
            result ≡ length rows) }
    {
        count(pool, levels(self.width), self.root)
    }

    /// Gives each table frame back: the hold on it goes off, and it is free. They are appended to `out` by rising
    /// number, where there is room. Nothing else changes. It visits each entry of each table above the last level, and
    /// takes no memory.
    pub fn release<A: Allocator, B: Allocator>(self, pool: &mut Pool<A>, out: &mut Vec<FrameNo, B>)
        requires { CanRelease pool.old self (vec_capacity out.old - vec_len out.old) }
        ensures out { IfStands pool.old self (λ rows pages.
            GivesBack rows out.old.items out.new.items) }
        ensures pool { IfStands pool.old self (λ rows pages.
            Releases rows pool.old pool.new) }
        ensures capacity { vec_capacity out.new ≡ vec_capacity out.old }
    {
        let start = out.len();
        collect(pool, levels(self.width), self.root, out);
        sort_from(out, start);
        release_all(pool, &out[start..]);
    }

    /// How many tables below the root go where it is pruned: those through which no mapped page goes and no page of a
    /// kept span. It visits the entries of each table, and takes no memory.
    pub fn prunable<A: Allocator>(&self, pool: &Pool<A>, kept: &[Span]) -> u64
        requires { IsTable pool.now self.now }
        ensures { IfStands pool.now self.now (λ rows pages.
            result ≡ length (gone (levels_of self.now.width) pages kept.now rows)) }
    {
        count_idle(pool, levels(self.width), 0, self.root, kept)
    }

    /// Takes the tables below the root away through which no mapped page goes and no page of a kept span, and gives
    /// their frames back: the hold on each goes off, and it is free. They are appended to `out` by rising number, where
    /// there is room. Every mapped page stays; of the pool nothing else changes but the entries that led to them. It
    /// visits the entries of each table, and takes no memory.
    pub fn prune<A: Allocator, B: Allocator>(
        &mut self,
        pool: &mut Pool<A>,
        kept: &[Span],
        out: &mut Vec<FrameNo, B>,
    )
        requires { CanPrune pool.old self.old kept.now (vec_capacity out.old - vec_len out.old) }
        ensures same { self.new ≡ self.old }
        ensures table { IfStands pool.old self.old (λ rows pages.
            TableStands pool.new self.new (left (levels_of self.old.width) pages kept.now rows) pages) }
        ensures out { IfStands pool.old self.old (λ rows pages.
            GivesBack (gone (levels_of self.old.width) pages kept.now rows) out.old.items out.new.items) }
        ensures pool { IfStands pool.old self.old (λ rows pages.
            Prunes (gone (levels_of self.old.width) pages kept.now rows)
            (left (levels_of self.old.width) pages kept.now rows) pool.old pool.new) }
        ensures capacity { vec_capacity out.new ≡ vec_capacity out.old }
    {
        let start = out.len();
        cut_idle(pool, levels(self.width), 0, self.root, kept, out);
        sort_from(out, start);
        release_all(pool, &out[start..]);
    }

    /// Whether this level's table of this number is there. It costs the levels, and takes no memory.
    pub fn has<A: Allocator>(&self, pool: &Pool<A>, level: u8, number: u64) -> bool
        requires table { IsTable pool.now self.now }
        requires some { 0 < level }
        requires low { level < levels_of self.now.width }
        requires number { number < 2 ^ (9 * (levels_of self.now.width - level)) }
        ensures { IfStands pool.now self.now (λ rows pages.
            result ≡ not (is_absent rows level number)) }
    {
        self.lowest(pool, first_page(level, number)).level <= level
    }

    /// Takes this level's table of this number away, which is there, below the root, and through which no mapped page
    /// goes, with no table below it. Its frame is given back: the hold on it goes off, and it is appended to `out`,
    /// where there is room. Every other table stays, and every mapped page. It costs the levels, and takes no memory.
    pub fn remove_empty<A: Allocator, B: Allocator>(
        &mut self,
        pool: &mut Pool<A>,
        level: u8,
        number: u64,
        out: &mut Vec<FrameNo, B>,
    )
        requires table { HasEmpty pool.old self.old (levels_of self.old.width) level number }
        requires some { 0 < level }
        requires number { number < 2 ^ (9 * (levels_of self.old.width - level)) }
        requires room { vec_len out.old < vec_capacity out.old }
        ensures same { self.new ≡ self.old }
        ensures table { IfStands pool.old self.old (λ rows pages.
            IsEmpty (levels_of self.old.width) rows pages level number →
            TableStands pool.new self.new (without_table level number rows) pages) }
        ensures given { IfStands pool.old self.old (λ rows pages.
            IsEmpty (levels_of self.old.width) rows pages level number →
            GivesUp pool.old pool.new rows (without_table level number rows) out.old.items out.new.items) }
        ensures len { vec_len out.new ≡ vec_len out.old + 1 }
        ensures capacity { vec_capacity out.new ≡ vec_capacity out.old }
    {
        let page = first_page(level, number);
        let above = descend_to(pool, self.root, levels(self.width), level + 1, page);
        let frame = descend_to(pool, above, level + 1, level, page);
        Entry(0).write(pool, above, level + 1, page);
        pool.release(frame);
        out.push_reserved(frame);
    }

    // The lowest table through which the page goes. It costs the levels.
    fn lowest<A: Allocator>(&self, pool: &Pool<A>, page: u64) -> Reached
        requires table { IsTable pool.now self.now }
        requires below { IsBelow self.now.width page }
        ensures some { 0 < result.level }
        ensures few { result.level ≤ 5 }
        ensures rights { result.rights.0 ≡ 3 }
        ensures ends { EndsAt pool.now result.level page result.frame }
        ensures lowest { IfStands pool.now self.now (λ rows pages.
            IsLowest rows result.level page result.frame) }
    {
        let top = Reached {
            level: levels(self.width),
            frame: self.root,
            rights: Rights(3),
        };
        descend(pool, top, page)
    }

    // How many of this level's tables the spans go through that aren't there. Two neighbours share at most their
    // border.
    fn needs_at<A: Allocator>(&self, pool: &Pool<A>, level: u8, spans: &[Span]) -> u64
        requires table { IsTable pool.now self.now }
        requires spans { AreOrdered self.now.width spans.now }
        requires some { 0 < level }
        requires low { level < levels_of self.now.width }
        requires few { level ≤ 5 }
        ensures small { result ≤ 2 ^ 52 }
        ensures needed { IfStands pool.now self.now (λ rows pages.
            result ≡ needed_at rows (levels_of self.now.width) level spans.now) }
    {
        let mut total = 0;
        let mut next = 0;
        for span in spans {
            let first = number(level, span.first() / PAGE_SIZE).max(next);
            next = number(level, span.last() / PAGE_SIZE) + 1;
            total += self.absent_between(pool, level, first, next);
        }
        total
    }

    // How many of this level's tables from one number to before another aren't there.
    fn absent_between<A: Allocator>(&self, pool: &Pool<A>, level: u8, first: u64, end: u64) -> u64
        requires table { IsTable pool.now self.now }
        requires some { 0 < level }
        requires low { level < levels_of self.now.width }
        requires few { level ≤ 5 }
        requires order { first ≤ end }
        requires end { end ≤ 2 ^ (9 * (levels_of self.now.width - level)) }
        ensures small { result ≤ end - first }
        ensures absent { IfStands pool.now self.now (λ rows pages.
            result ≡ count_by (is_absent rows level) (range_with_len first (end - first))) }
    {
        let mut total = 0;
        for number in first..end {
            if self.lowest(pool, first_page(level, number)).level > level {
                total += 1;
            }
        }
        total
    }
}
