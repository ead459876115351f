//! What the server keeps of the world.

use crate::held::Held;
use dirty_bitmap::DirtyTables;
use frame_memory::Pool;
use held_pins::HeldPins;
use iofd_words::{Attachment, Config, Object};
use iova_ranges::AllowedTable;
use object_table::ObjectTable;
use page_table_set::PageTables;
use std::alloc::{Allocator, Global};
use user_memory::UserMemory;

/// What shows the rows of the world: objects with the areas of address spaces, devices, the users' memory and the
/// frames. The events change its fields; which worlds it shows is said by `specs/Shows.antt`.
#[derive(Drop)]
pub struct State<A: Allocator = Global> {
    /// From where memory is taken.
    pub alloc: A,
    /// What the server was opened with.
    pub config: Config<A>,
    /// The files, and what each object of theirs holds.
    pub objects: ObjectTable<Held<A>, A>,
    /// The ranges that address spaces allow to addresses which the server chooses.
    pub allowed: AllowedTable<A>,
    /// The objects by which devices are bound, by rising device.
    pub bindings: Vec<Object, A>,
    /// The page tables of all files: what asks for them goes over these alone.
    pub page_tables: PageTables<A>,
    /// By which page table each device translates, by rising device.
    pub attachments: Vec<Attachment, A>,
    /// The pins that access objects hold.
    pub access_pins: HeldPins<A>,
    /// The page tables whose written pages are tracked, with the pages that were written.
    pub dirty: DirtyTables<A>,
    /// The users' pages and accounts, and the memory objects with their pins.
    pub memory: UserMemory<A>,
    /// The frames.
    pub pool: Pool<A>,
}
