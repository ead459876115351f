//! The objects of one file, in a slab.

ghost use Rattle.std.specs.Prelude.{◌≡◌, if◌then◌else◌, ◌&&◌, ℕ, nat_le, Some, IsSome, IsOk, IfOk};
ghost use Rattle.std.specs.Prelude.{OnOk, OnErr, IfErr};
ghost use Rattle.std.specs.Prelude.{None, false, option_copied};
ghost use Rattle.std.specs.List.{list_any};
ghost use Rattle.std.specs.Borrow.{sem};
ghost use Rattle.slab.specs.Slab.{entries, slab_len};
ghost use Rattle.object_table.specs.Table.{IsWhy, inserted, removed, keeps_file_open, greatest_count};
ghost use Rattle.object_table.specs.Layout.{IsInLimits, entry_at, next_id, file_rows, file_refusal, row_of};

use crate::kind::Typed;
use iofd_words::{CallError, Cause, NoMemory, ObjId, Refusal};
use slab::Slab;
use std::alloc::{Allocator, Global};

/// How many objects a file may have.
const GREATEST_COUNT: usize = 65_535;

/// Keys of the slab below this have an id, which is one more: ids are 1 to 2^31 - 1.
const KEY_END: usize = 2_147_483_647;

/// An object: how many use it, and what it holds.
#[derive(Drop)]
pub(crate) struct Entry<V> {
    pub(crate) users: u32,
    pub(crate) value: V,
}

/// A file: whether it is open, and its objects, each under its id less 1.
#[derive(Drop)]
pub(crate) struct FileObjects<V, A: Allocator = Global> {
    pub(crate) is_open: bool,
    pub(crate) objects: Slab<Entry<V>, A>,
}

impl<V, A: Allocator> FileObjects<V, A> {
    ghost use Rattle.object_table.specs.Lends.{lends_slot};

    /// The object at the id, if the file is open and has one.
    pub(crate) fn entry(&self, id: ObjId) -> Option<&Entry<V>>
        ensures { option_copied result ≡ entry_at self.now id }
    {
        if !self.is_open || id.0 == 0 {
            return None;
        }
        self.objects.get(id.0 as usize - 1)
    }

    /// The object at the id, for writing.
    pub(crate) fn entry_mut(&mut self, id: ObjId) -> &mut Entry<V>
        requires { IsSome (entry_at self.old id) }
        ensures* writes_back { sem 𝓛 (lends_slot V.row A.row A.Allocator self.entry id result) }
        ensures value { entry_at self.old id ≡ Some result.now }
    {
        &mut self.objects[id.0 as usize - 1]
    }

    /// Makes room for one more object, and says which id it will get.
    pub(crate) fn reserve(&mut self) -> Result<ObjId, CallError>
        ensures id { IfOk result (λ id. next_id self.new ≡ Some id) }
        ensures unused { IfOk result (λ id. entry_at self.old id ≡ None) }
        ensures ok { OnOk result (file_refusal self.old ≡ None) }
        ensures why { IfErr result (IsWhy (file_refusal self.old)) }
        ensures mark { self.new.is_open ≡ self.old.is_open }
        ensures rows { (number : ℕ) → file_rows number self.new ≡ file_rows number self.old }
        ensures had_room { IsSome (next_id self.old) → IsOk result × (self.new ≡ self.old) }
        ensures kept { OnErr result (next_id self.new ≡ next_id self.old) }
        ensures limits { IsInLimits self.old → IsInLimits self.new }
    {
        if !self.is_open {
            return Err(CallError::Refused(Refusal { cause: Cause::Id }));
        }
        if self.is_full() {
            return Err(CallError::Refused(Refusal { cause: Cause::Full }));
        }
        // Whether that worked is told by the room that there is now: so an error leaves none behind.
        let _ = self.objects.reserve(1);
        if self.objects.len() >= self.objects.capacity() {
            return Err(CallError::Memory(NoMemory));
        }
        let key = self.objects.vacant_key();
        if key >= KEY_END {
            // Never: a slab of at most 65,535 values has no key past them. Its contract doesn't say so.
            return Err(CallError::Memory(NoMemory));
        }
        Ok(ObjId(key as u32 + 1))
    }

    /// Adds an object where room is reserved, and gives its id.
    pub(crate) fn add(&mut self, entry: Entry<V>) -> ObjId
        requires { IsSome (next_id self.old) }
        ensures id { next_id self.old ≡ Some result }
        ensures unused { entry_at self.old result ≡ None }
        ensures mark { self.new.is_open ≡ self.old.is_open }
        ensures rows { (number : ℕ) → file_rows number self.new ≡
            inserted (row_of (record { 0 = number }) result entry) (file_rows number self.old) }
        ensures limits { IsInLimits self.old → IsInLimits self.new }
    {
        let key = self.objects.insert_reserved(entry);
        ObjId(key as u32 + 1)
    }

    /// Takes the object at the id out.
    pub(crate) fn take(&mut self, id: ObjId) -> Entry<V>
        requires { IsSome (entry_at self.old id) }
        ensures value { entry_at self.old id ≡ Some result }
        ensures mark { self.new.is_open ≡ self.old.is_open }
        ensures rows { (number : ℕ) → file_rows number self.new ≡
            removed (record { 0 = number }) id (file_rows number self.old) }
        ensures next { IsInLimits self.old → next_id self.new ≡ Some id }
        ensures limits { IsInLimits self.old → IsInLimits self.new }
    {
        self.objects.remove(id.0 as usize - 1)
    }

    /// The objects by rising key, if the file is open.
    pub(crate) fn iter(&self) -> Option<slab::Iter<'_, Entry<V>>>
        ensures { result ≡ (if self.now.is_open then Some (entries self.now.objects) else None) }
    {
        if self.is_open {
            Some(self.objects.iter())
        } else {
            None
        }
    }

    /// Whether the file is open and has as many objects as it may have.
    pub(crate) fn is_full(&self) -> bool
        ensures { result ≡ self.now.is_open && nat_le greatest_count (slab_len self.now.objects) }
    {
        self.is_open && self.objects.len() >= GREATEST_COUNT
    }

    /// How many objects the file has; none where it is closed.
    pub(crate) fn count(&self) -> usize
        ensures { result ≡ (if self.now.is_open then slab_len self.now.objects else 0) }
    {
        if self.is_open { self.objects.len() } else { 0 }
    }

    /// Drops all objects and gives their memory back.
    pub(crate) fn close(&mut self)
    where
        V: Drop,
        ensures closed { self.new.is_open ≡ false }
        ensures emptied { slab_len self.new.objects ≡ 0 }
        ensures limits { IsInLimits self.new }
    {
        self.is_open = false;
        self.objects.clear();
        self.objects.shrink_to_fit();
    }
}

impl<V: Typed, A: Allocator> FileObjects<V, A> {
    /// Whether an object keeps the file from being closed.
    pub(crate) fn is_held(&self) -> bool
        ensures { result ≡ list_any (λ e. keeps_file_open (V.kind e.1.value)) (entries self.now.objects) }
    {
        for (_, entry) in self.objects.iter() {
            if entry.value.kind().keeps_file_open() {
                return true;
            }
        }
        false
    }
}
