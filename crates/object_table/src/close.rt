//! How objects go, one at a time or with their file.

ghost use Rattle.std.specs.Prelude.{◌≡◌, None, Some, IfOk, OnOk, OnErr, IfErr};
ghost use Rattle.std.specs.Option.{option_map};

use crate::file_objects::Entry;
use crate::kind::{Kind, Typed};
use crate::table::{ObjectTable, place_of};
use iofd_words::{Cause, FileNo, ObjId, Refusal};
use std::alloc::Allocator;

impl<V: Typed, A: Allocator> ObjectTable<V, A> {
    ghost use Rattle.object_table.specs.Table.{own, removed, closed, reserved_id, destroy_refusal, close_refusal};
    ghost use Rattle.object_table.specs.Table.{OthersKeepRoom};

    /// Takes the object out of its file and hands back what it held (`IOMMU_DESTROY`). It takes no memory.
    ///
    /// Refused by 11 (ENOENT) as `get`, and then by 12 (EBUSY) where the object has users. A refused call
    /// changes nothing; a good one changes no other row, and the next object of the file gets the id, for
    /// which there is room.
    pub fn destroy(&mut self, file: FileNo, kind: Kind, id: ObjId) -> Result<V, Refusal>
        ensures value { IfOk result (λ value.
            option_map (λ row. row.value) (own V.kind self.old file kind id) ≡ Some value) }
        ensures ok { OnOk result (destroy_refusal V.kind self.old file kind id ≡ None) }
        ensures rows { OnOk result (self.new.rows ≡ removed file id self.old.rows) }
        ensures files { self.new.files ≡ self.old.files }
        ensures room { OthersKeepRoom file self.old self.new }
        ensures next { OnOk result (reserved_id self.new file ≡ Some id) }

        ensures refused { IfErr result (λ refusal.
            destroy_refusal V.kind self.old file kind id ≡ Some refusal.cause) }
        ensures unchanged { OnErr result (self.new ≡ self.old) }
    {
        if self.own_entry(file, kind, id)?.users > 0 {
            return Err(Refusal {
                cause: Cause::InUse,
            });
        }
        let Entry { users: _, value } = self.files[file.0 as usize - 1].take(id);
        Ok(value)
    }

    /// Closes the file for good: all its objects go, with what they held, and their memory is given back.
    ///
    /// Refused by 11 (ENOENT) where the file is closed or unknown, and then by 12 (EBUSY) where it has a
    /// device or an access (this project's rule; the kernel's `release` destroys them). A refused call
    /// changes nothing; a good one changes no row of another file.
    pub fn close_file(&mut self, file: FileNo) -> Result<(), Refusal>
    where
        V: Drop,
        ensures ok { OnOk result (close_refusal V.kind self.old file ≡ None) }
        ensures closed { OnOk result (self.new ≡ closed self.old file) }
        ensures refused { IfErr result (λ refusal. close_refusal V.kind self.old file ≡ Some refusal.cause) }
        ensures unchanged { OnErr result (self.new ≡ self.old) }
    {
        let Some(place) = place_of(file, self.files.len()) else {
            return Err(Refusal { cause: Cause::Id });
        };
        let objects = &mut self.files[place];
        if !objects.is_open {
            return Err(Refusal { cause: Cause::Id });
        }
        if objects.is_held() {
            return Err(Refusal {
                cause: Cause::InUse,
            });
        }
        objects.close();
        Ok(())
    }
}
