//! One hardware page table, as an object of its file.

ghost use Rattle.std.specs.Prelude.{◌≡◌};

use iofd_words::Object;
use page_table::Table;
use std::marker::Model;

/// A hardware page table: which object of a file it is, with its id and its address space, and its tables in frames of
/// the pool.
#[derive(Drop)]
pub struct Hwpt {
    pub(crate) object: Object,
    pub(crate) table: Table,
}

impl Model for Hwpt {
    ghost use Rattle.page_table_set.specs.PageTables.{Hwpt};

    ghost Value = { Hwpt };

    ghost view = { λ h. record { object = h.object; table = h.table } };
}

impl Hwpt {
    /// Its file, its id, and over which address space it is.
    pub fn object(&self) -> &Object
        ensures { result.now ≡ self.now.object }
    {
        &self.object
    }
}
