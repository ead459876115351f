//! The hardware page tables of all files.

ghost use Rattle.std.specs.Prelude.{ℕ, ◌≡◌, ◌<◌, ◌-◌, length, Option, None, List, [], ◌∷◌};
ghost use Rattle.std.specs.Prelude.{◌++◌, IfSome, IsSome, OnErr};
ghost use Rattle.std.specs.Prelude.{OnOk};
ghost use Rattle.std.specs.Prelude.{vec_capacity, vec_len};
ghost use Rattle.std.specs.Option.{option_map};
ghost use Rattle.iofd_words.specs.Objects as objects;
ghost use Rattle.iofd_words.specs.declared.rows.Object.{Object};
ghost use Rattle.iofd_words.specs.declared.rows.TableFrame.{TableFrame};
ghost use Rattle.frame_memory.specs.Pool.{given, least_free};
ghost use Rattle.page_table_words.specs.Released.{GivesBack, Releases};
ghost use Rattle.page_table_words.specs.Rows.{MappedPage};
ghost use Rattle.page_table_set.specs.Removed.{CanRemove, CanRemoveFile, rows_found, rows_of_file};
ghost use Rattle.page_table_set.specs.Removed.{without_file, without_hwpt, without_tables, without_tables_of};
ghost use Rattle.page_table_set.specs.PageTables.{AllStand, IfAllStand, Stand, hwpt_at, hwpt_of, objects_of};
ghost use Rattle.page_table_set.specs.PageTables.{root_frame};
ghost use Rattle.page_table_set.specs.PageTables.{rows_of, walk_through, with_hwpt};

use crate::hwpt::Hwpt;
use crate::{insertion, lookups, removal};
use frame_memory::Pool;
use iofd_words::{FileNo, FrameNo, NoMemory, ObjId, Object, Width};
use page_table::{Table, Walk, sort_from};
use std::alloc::{Allocator, Global};
use std::marker::Model;

/// The hardware page tables of all files, by rising file and then by rising id.
#[derive(Drop)]
pub struct PageTables<A: Allocator = Global> {
    pub(crate) tables: Vec<Hwpt, A>,
}

impl<A: Allocator> Model for PageTables<A> {
    ghost use Rattle.std.specs.Prelude.{◌-◌, IsTrue, vec_capacity, vec_len};
    ghost use Rattle.page_table_set.specs.PageTables.{PageTables, are_by_file};

    ghost Value = { PageTables };

    ghost view = { λ p. record { tables = p.tables.items; room = vec_capacity p.tables - vec_len p.tables } };

    ghost invariant = { λ p. IsTrue (are_by_file p.tables.items) };
}

impl<A: Allocator> PageTables<A> {
    /// No page tables. It takes no memory.
    pub fn new(alloc: A) -> PageTables<A>
        ensures { result.tables ≡ [] }
    {
        PageTables {
            tables: Vec::new(alloc),
        }
    }

    /// All of them, by rising file and then by rising id.
    pub fn as_slice(&self) -> &[Hwpt]
        ensures { result.now ≡ self.now.tables }
    {
        &self.tables
    }

    /// Takes memory for one page table more, if there is no room. No page table changes.
    pub fn reserve(&mut self) -> Result<(), NoMemory>
        ensures tables { self.new.tables ≡ self.old.tables }
        ensures ok { OnOk result (0 < self.new.room) }
        ensures full { OnErr result (self.old.room ≡ 0) }
    {
        self.tables.reserve(1)?;
        Ok(())
    }

    /// Whether one of them is over the file's address space of this id.
    #[tactic(auto, using(crate::proofs::Objects::has_over_rows))]
    pub fn has_over(&self, file: FileNo, ioas: ObjId) -> bool
        ensures { result ≡ objects.has_hwpt (objects_of self.now) file ioas }
    {
        lookups::has_over(&self.tables, file, ioas)
    }

    /// The automatic one of this width over the file's address space of this id, by its own id. It goes over the file's
    /// page tables.
    #[tactic(auto, using(crate::proofs::Objects::automatic_rows))]
    pub fn automatic_over(&self, file: FileNo, ioas: ObjId, width: Width) -> Option<ObjId>
        ensures { result ≡ option_map (λ object. object.id)
            (objects.automatic_hwpt (objects_of self.now) file ioas width) }
    {
        Some(
            lookups::automatic_over(&self.tables, file, ioas, width)?
                .object
                .id,
        )
    }

    /// Adds a page table of this width, as this object of its file, which is none yet. It maps no page. Its root is the
    /// least free frame, which is appended to `out`. There is room for it and for the frame's number, and some frame is
    /// free. It takes no memory.
    pub fn insert<B: Allocator, C: Allocator>(
        &mut self,
        pool: &mut Pool<B>,
        object: Object,
        width: Width,
        out: &mut Vec<FrameNo, C>,
    )
        requires room { 0 < self.old.room }
        requires free { IsSome (least_free pool.old.holds) }
        requires place { vec_len out.old < vec_capacity out.old }
        ensures tables { IfSome (least_free pool.old.holds) (λ frame.
            self.new.tables ≡ with_hwpt (hwpt_at object width frame) self.old.tables) }
        ensures pool { IfSome (least_free pool.old.holds) (λ frame. pool.new ≡ given pool.old frame) }
        ensures stand { IfSome (least_free pool.old.holds) (λ frame.
            (frames : List TableFrame) (leads : Object → ℕ → Option MappedPage) →
            AllStand pool.old frames leads self.old.tables → rows_of frames object ≡ [] →
            ((page : ℕ) → leads object page ≡ None) →
            AllStand pool.new (frames ++ root_frame (hwpt_at object width frame) ∷ []) leads self.new.tables) }
        ensures out { IfSome (least_free pool.old.holds) (λ frame.
            out.new.items ≡ out.old.items ++ record { 0 = frame } ∷ []) }
        ensures capacity { vec_capacity out.new ≡ vec_capacity out.old }
    {
        let Ok(table) = Table::new(pool, width, out) else {
            // Some frame is free.
            unreachable!()
        };
        insertion::insert(&mut self.tables, Hwpt { object, table });
    }

    /// How many table frames the file's page table of this id has, its root among them; 0 where there is no such page
    /// table. It visits each entry of each table above the last level.
    pub fn frames<B: Allocator>(&self, pool: &Pool<B>, file: FileNo, id: ObjId) -> u64
        requires { Stand pool.now self.now.tables }
        ensures { IfAllStand pool.now self.now.tables (λ frames leads.
            result ≡ length (rows_found frames (hwpt_of self.now.tables file id))) }
    {
        match lookups::find(&self.tables, file, id) {
            Some(hwpt) => hwpt.table.frames(pool),
            None => 0,
        }
    }

    /// Takes the file's page table of this id away, if there is one, and gives its table frames back: the hold on each
    /// goes off, and it is free. They are appended to `out` by rising number, where there is room. Nothing else
    /// changes. It visits each entry of each table above the last level, and takes no memory.
    pub fn remove<B: Allocator, C: Allocator>(
        &mut self,
        pool: &mut Pool<B>,
        file: FileNo,
        id: ObjId,
        out: &mut Vec<FrameNo, C>,
    )
        requires { CanRemove pool.old self.old.tables file id (vec_capacity out.old - vec_len out.old) }
        ensures tables { self.new.tables ≡ without_hwpt file id self.old.tables }
        ensures stand { IfAllStand pool.old self.old.tables (λ frames leads.
            AllStand pool.new (without_tables file id frames) leads self.new.tables) }
        ensures out { IfAllStand pool.old self.old.tables (λ frames leads.
            GivesBack (rows_found frames (hwpt_of self.old.tables file id)) out.old.items out.new.items) }
        ensures pool { IfAllStand pool.old self.old.tables (λ frames leads.
            Releases (rows_found frames (hwpt_of self.old.tables file id)) pool.old pool.new) }
        ensures capacity { vec_capacity out.new ≡ vec_capacity out.old }
    {
        let Some(hwpt) = removal::take(&mut self.tables, file, id) else {
            return;
        };
        hwpt.table.release(pool, out);
    }

    /// Takes all page tables of the file away, and gives their table frames back: the hold on each goes off, and it is
    /// free. They are appended to `out` by rising number, where there is room. Nothing else changes. It visits each
    /// entry of each of their tables above the last level, and takes no memory.
    pub fn remove_file<B: Allocator, C: Allocator>(
        &mut self,
        pool: &mut Pool<B>,
        file: FileNo,
        out: &mut Vec<FrameNo, C>,
    )
        requires { CanRemoveFile pool.old self.old.tables file (vec_capacity out.old - vec_len out.old) }
        ensures tables { self.new.tables ≡ without_file file self.old.tables }
        ensures stand { IfAllStand pool.old self.old.tables (λ frames leads.
            AllStand pool.new (without_tables_of file frames) leads self.new.tables) }
        ensures out { IfAllStand pool.old self.old.tables (λ frames leads.
            GivesBack (rows_of_file frames file self.old.tables) out.old.items out.new.items) }
        ensures pool { IfAllStand pool.old self.old.tables (λ frames leads.
            Releases (rows_of_file frames file self.old.tables) pool.old pool.new) }
        ensures capacity { vec_capacity out.new ≡ vec_capacity out.old }
    {
        let start = out.len();
        while let Some(id) = lookups::first_of(&self.tables, file) {
            self.remove(pool, file, id, out);
        }
        sort_from(out, start);
    }

    /// Where the address leads through the file's page table of this id, in bytes: to a mapped page's frame with its
    /// rights; beyond, at or above the end of its width; or nowhere, also where there is no such page table. It costs
    /// the levels, and takes no memory.
    pub fn walk<B: Allocator>(&self, pool: &Pool<B>, file: FileNo, id: ObjId, iova: u64) -> Walk
        requires { Stand pool.now self.now.tables }
        ensures { (frames : List TableFrame) (leads : Object → ℕ → Option MappedPage) →
            AllStand pool.now frames leads self.now.tables →
            result ≡ walk_through leads iova (hwpt_of self.now.tables file id) }
    {
        match lookups::find(&self.tables, file, id) {
            Some(hwpt) => hwpt.table.walk(pool, iova),
            None => Walk::None,
        }
    }
}
