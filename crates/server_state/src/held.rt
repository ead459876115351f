//! What an object holds.

use area_map::Areas;
use iofd_words::{DeviceNo, ObjId, Width};
use object_table::{Kind, Typed};
use std::alloc::{Allocator, Global};

/// What an object of a file is, and for an address space its areas.
#[derive(Drop)]
pub enum Held<A: Allocator = Global> {
    /// An I/O address space.
    Ioas(Areas<A>),
    /// A hardware page table over an address space of its file.
    Hwpt {
        ioas: ObjId,
        width: Width,
        automatic: bool,
    },
    /// A bound device.
    Device(DeviceNo),
    /// An access object, with the address space of its file that it is attached to.
    Access(Option<ObjId>),
}

impl<A: Allocator> Typed for Held<A> {
    ghost use Rattle.server_state.specs.Held.{held_kind};

    ghost kind = { held_kind };

    fn kind(&self) -> Kind {
        match self {
            Held::Ioas(_) => Kind::Ioas,
            Held::Hwpt { .. } => Kind::Hwpt,
            Held::Device(_) => Kind::Device,
            Held::Access(_) => Kind::Access,
        }
    }
}
