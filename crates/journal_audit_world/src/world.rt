//! The world of the definitions, as plain vectors.

ghost use Rattle.std.specs.Prelude.{◌≡◌, ◌==◌};
ghost use Rattle.iofd_words.specs.Files.{is_open};
ghost use Rattle.iofd_words.specs.Frames.{free_count, is_free};
ghost use Rattle.iofd_words.specs.World.{opening};

use crate::tracked::TrackedRow;
use crate::{files, frames};
use iofd_words::{
    AccessPin, Area, Attachment, Config, FileNo, FrameNo, IovaRange, MemoryObject, ObjId, Object,
    Pin, TableFrame, UserPage,
};
use std::alloc::{Allocator, Global};
use std::marker::Model;

/// The ranges that are allowed in an address space, in the order given.
#[derive(Drop)]
pub struct AllowedRow<A: Allocator = Global> {
    pub file: FileNo,
    pub ioas: ObjId,
    pub ranges: Vec<IovaRange, A>,
}

impl<A: Allocator> Model for AllowedRow<A> {
    ghost use Rattle.iofd_words.specs.Allowed.{AllowedRanges};

    ghost Value = { AllowedRanges };

    ghost view = { λ row. record { file = row.file; ioas = row.ioas; spans = row.ranges.items } };
}

/// The world that the records of a journal have left: the rows of the definitions, in their order. What was written
/// into frames is left out, since no refusal, no answer and no later row depends on it.
#[derive(Drop)]
pub struct World<A: Allocator = Global> {
    pub config: Config<A>,
    pub closed: Vec<FileNo, A>,
    pub objects: Vec<Object, A>,
    pub memory: Vec<MemoryObject, A>,
    pub areas: Vec<Area, A>,
    pub allowed: Vec<AllowedRow<A>, A>,
    pub user_pages: Vec<UserPage, A>,
    pub pins: Vec<Pin, A>,
    pub attachments: Vec<Attachment, A>,
    pub access_pins: Vec<AccessPin, A>,
    pub table_frames: Vec<TableFrame, A>,
    pub tracked: Vec<TrackedRow<A>, A>,
}

impl<A: Allocator> Model for World<A> {
    ghost use Rattle.std.specs.Prelude.{[]};
    ghost use Rattle.iofd_words.specs.World as words;

    ghost Value = { words.World };

    ghost view = { λ w. record {
      settings = w.config;
      closed = w.closed.items;
      objects = w.objects.items;
      memory = w.memory.items;
      areas = w.areas.items;
      allowed = w.allowed.items;
      user_pages = w.user_pages.items;
      pins = w.pins.items;
      attachments = w.attachments.items;
      access_pins = w.access_pins.items;
      table_frames = w.table_frames.items;
      tracked = w.tracked.items;
      writes = [];
    } };
}

impl<A: Allocator + Copy> World<A> {
    /// The world at the opening: all frames are free, all files open and empty. It takes no memory.
    pub fn opening(alloc: A, config: Config<A>) -> World<A>
        ensures { result ≡ opening config }
    {
        World {
            config,
            closed: Vec::new(alloc),
            objects: Vec::new(alloc),
            memory: Vec::new(alloc),
            areas: Vec::new(alloc),
            allowed: Vec::new(alloc),
            user_pages: Vec::new(alloc),
            pins: Vec::new(alloc),
            attachments: Vec::new(alloc),
            access_pins: Vec::new(alloc),
            table_frames: Vec::new(alloc),
            tracked: Vec::new(alloc),
        }
    }
}

impl<A: Allocator> World<A> {
    /// Whether the file is there and isn't closed.
    pub fn is_open(&self, file: FileNo) -> bool
        ensures { result ≡ is_open self.now.settings self.now.closed file }
    {
        files::is_open(&self.config, &self.closed, file)
    }

    /// Whether it is a frame of the pool that nobody reaches.
    pub fn is_free(&self, frame: FrameNo) -> bool
        ensures { let w = self.now in result ≡ is_free w.settings.pool w.user_pages w.pins w.table_frames frame.0 }
    {
        frames::is_free(
            self.config.pool(),
            &self.user_pages,
            &self.pins,
            &self.table_frames,
            frame.0,
        )
    }

    /// How many of those there are. Each list of rows is gone through once.
    pub fn free_count(&self) -> usize
        ensures { let w = self.now in result ≡ free_count w.settings.pool w.user_pages w.pins w.table_frames }
    {
        frames::free_count(
            self.config.pool(),
            &self.user_pages,
            &self.pins,
            &self.table_frames,
        )
    }
}
