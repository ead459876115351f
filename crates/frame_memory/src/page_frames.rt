//! Users' pages by hash: the frame of each is found at once, and one more or one less moves at most one other.

ghost use Rattle.std.specs.Prelude.{◌≡◌, ◌<◌, ◌≤◌, ◌+◌, [], None, length, IsSome, IsTrue, IfSome};
ghost use Rattle.std.specs.Prelude.{OnOk, OnErr};
ghost use Rattle.iofd_words.specs.Frames.{frame_at};
ghost use Rattle.frame_memory.specs.UserPages.{are_rising, user_page, with_page, without_page, HasOneMore};

use iofd_words::{FrameNo, NoMemory, UserNo};
use std::alloc::{Allocator, Global};
use std::collections::HashMap;
use std::hash::{BuildHasherDefault, FoldHasher};
use std::marker::Model;

/// The frame of each user's page. A contract sees the pages by rising user and page, and how many more there is
/// room for.
#[derive(Drop)]
pub(crate) struct PageFrames<A: Allocator = Global> {
    frames: HashMap<(u16, u64), FrameNo, BuildHasherDefault<FoldHasher>, A>,
}

impl<A: Allocator> Model for PageFrames<A> {
    ghost use Rattle.std.specs.HashMap.{IsUnique, spare};
    ghost use Rattle.frame_memory.specs.UserPages.{UserPages};
    ghost use Rattle.frame_memory.specs.PageFrames.{is_same, pages_of};

    ghost Value = { UserPages };

    ghost view = { λ map. record { pages = pages_of map.frames.entries; room = spare map.frames } };

    ghost invariant = { λ map. IsUnique is_same map.frames };
}

impl<A: Allocator> PageFrames<A> {
    /// No pages. It takes no memory.
    pub(crate) fn new(alloc: A) -> PageFrames<A>
        ensures { result.pages ≡ [] }
    {
        PageFrames {
            frames: HashMap::new(alloc),
        }
    }

    /// How many pages there are.
    pub(crate) fn len(&self) -> usize
        ensures { result ≡ length self.now.pages }
    {
        self.frames.len()
    }

    /// The frame of this page of the user.
    pub(crate) fn get(&self, user: UserNo, page: u64) -> Option<FrameNo>
        ensures { result ≡ frame_at self.now.pages user page }
    {
        self.frames.get(&(user.0, page)).copied()
    }

    /// Makes room for one more page. Its only error is want of memory, and changes nothing.
    pub(crate) fn reserve(&mut self) -> Result<(), NoMemory>
    where
        A: Copy,
        ensures pages { self.new.pages ≡ self.old.pages }
        ensures ok { OnOk result (0 < self.new.room) }
        ensures full { OnErr result (self.old.room ≡ 0) }
        ensures err { OnErr result (self.new ≡ self.old) }
        ensures room { self.old.room ≤ self.new.room }
    {
        // A part of the growth may have come before the error: only the capacity tells whether there is room.
        let _ = self.frames.reserve(1);
        if self.frames.capacity() == self.frames.len() {
            return Err(NoMemory);
        }
        Ok(())
    }

    /// Adds the page, which isn't there. There is room. It takes no memory.
    pub(crate) fn add(&mut self, user: UserNo, page: u64, frame: FrameNo)
    where
        A: Copy,
        requires room { 0 < self.old.room }
        requires absent { frame_at self.old.pages user page ≡ None }
        ensures pages { self.new.pages ≡ with_page self.old.pages user page frame }
        ensures more { HasOneMore self.old.pages self.new.pages (user_page user page frame) }
        ensures rising { IsTrue (are_rising self.new.pages) }
        ensures room { self.old.room ≤ self.new.room + 1 }
    {
        let _ = self.frames.insert((user.0, page), frame);
    }

    /// Takes the page away, which is there.
    pub(crate) fn remove(&mut self, user: UserNo, page: u64)
        requires { IsSome (frame_at self.old.pages user page) }
        ensures pages { self.new.pages ≡ without_page self.old.pages user page }
        ensures less { IfSome (frame_at self.old.pages user page)
            (λ frame. HasOneMore self.new.pages self.old.pages (user_page user page frame)) }
        ensures rising { IsTrue (are_rising self.new.pages) }
        ensures room { self.old.room ≤ self.new.room }
    {
        let _ = self.frames.remove(&(user.0, page));
    }
}
