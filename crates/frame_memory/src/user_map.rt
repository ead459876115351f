//! The pages of the users' memory.

ghost use Rattle.std.specs.Prelude.{◌≡◌, ◌<◌, ◌≤◌, ◌+◌, ◌-◌, ◌^◌, [], length, slice_index, IfOk};
ghost use Rattle.std.specs.Prelude.{IfSome, IfNone, OnOk};
ghost use Rattle.std.specs.Prelude.{OnErr, IsOkUnless};
ghost use Rattle.iofd_words.specs.Frames.{frame_at};
ghost use Rattle.iofd_words.specs.Pages.{page_of};
ghost use Rattle.frame_memory.specs.Pool.{given, least_free, with_holds};
ghost use Rattle.frame_memory.specs.UserPages.{user_page, with_page, without_page, map_refusal, HasOneMore};

use crate::page_frames::PageFrames;
use crate::pool::Pool;
use iofd_words::{CallError, Cause, FrameNo, NoMemory, PAGE_SIZE, Refusal, UserNo};
use std::alloc::{Allocator, Global};
use std::marker::Model;

/// Which page of which user's memory is which frame. A contract sees the pages by rising user and page, and how many
/// more there is room for. A page is found by its hash; one more or one less moves at most one of the others.
#[derive(Drop)]
pub struct UserMap<A: Allocator = Global> {
    pages: PageFrames<A>,
}

impl<A: Allocator> Model for UserMap<A> {
    ghost use Rattle.std.specs.Prelude.{IsTrue};
    ghost use Rattle.frame_memory.specs.UserPages.{UserPages, are_rising};

    ghost Value = { UserPages };

    ghost view = { λ map. map.pages };

    ghost invariant = { λ map. IsTrue (are_rising map.pages.pages) };
}

impl<A: Allocator> UserMap<A> {
    /// No pages. It takes no memory.
    pub fn new(alloc: A) -> UserMap<A>
        ensures { result.pages ≡ [] }
    {
        UserMap {
            pages: PageFrames::new(alloc),
        }
    }

    /// What holds of the users' pages: their number is one of 64 bits. The call does nothing else.
    pub fn facts(&self)
        ensures { length self.now.pages < 2 ^ 64 }
    {
        let _ = self.len();
    }

    /// How many pages there are.
    pub fn len(&self) -> usize
        ensures { result ≡ length self.now.pages }
    {
        self.pages.len()
    }

    /// The frame of the user's page that holds this user address, in bytes. It takes no memory.
    pub fn frame_at(&self, user: UserNo, va: u64) -> Option<FrameNo>
        ensures { result ≡ frame_at self.now.pages user (page_of va) }
    {
        self.frame_of_page(user, va / PAGE_SIZE)
    }

    /// The frame of the user's page of this number, which is its address over 4096. It takes no memory.
    pub fn frame_of_page(&self, user: UserNo, page: u64) -> Option<FrameNo>
        ensures { result ≡ frame_at self.now.pages user page }
    {
        self.pages.get(user, page)
    }

    /// Gives the user the page that holds this user address, in bytes: the least free frame, with one hold, which
    /// reads zero.
    ///
    /// Refused, in this order: Overlap (9, EEXIST) where the user has the page already; Frames (6, ENOMEM)
    /// where no frame is free. An error leaves the pages, their room and the pool as they were; want of memory
    /// comes only where there was no room for one more page.
    pub fn map<B: Allocator>(
        &mut self,
        pool: &mut Pool<B>,
        user: UserNo,
        va: u64,
    ) -> Result<FrameNo, CallError>
    where
        A: Copy,
        ensures refused { IfSome (map_refusal self.old.pages pool.old.holds user (page_of va))
            (λ cause. result ≡ Err (CallError.Refused (record { cause = cause }))) }
        ensures taken { IfNone (map_refusal self.old.pages pool.old.holds user (page_of va))
            (IsOkUnless result (CallError.Memory (record {}))) }
        ensures memory { result ≡ Err (CallError.Memory (record {})) → self.old.room ≡ 0 }

        ensures least { IfOk result (λ frame. least_free pool.old.holds ≡ Some frame.0) }
        ensures pages { IfOk result (λ frame. self.new.pages ≡ with_page self.old.pages user (page_of va) frame) }
        ensures more { IfOk result
            (λ frame. HasOneMore self.old.pages self.new.pages (user_page user (page_of va) frame)) }
        ensures pool { IfOk result (λ frame. pool.new ≡ given pool.old frame.0) }
        ensures room { self.old.room ≤ self.new.room + 1 }

        ensures err { OnErr result (self.new ≡ self.old) }
        ensures pool_err { OnErr result (pool.new ≡ pool.old) }
    {
        if self.frame_at(user, va).is_some() {
            return Err(refused(Cause::Overlap));
        }
        if !pool.has_free() {
            return Err(refused(Cause::Frames));
        }
        if self.pages.reserve().is_err() {
            return Err(CallError::Memory(NoMemory));
        }
        let frame = pool.take()?;
        self.pages.add(user, va / PAGE_SIZE, frame);
        Ok(frame)
    }

    /// Takes the user's page that holds this user address away, and a hold off its frame. It is refused by 8
    /// (EFAULT, cause Absent) exactly where the user hasn't the page, and then nothing changes. It takes no memory.
    pub fn unmap<B: Allocator>(
        &mut self,
        pool: &mut Pool<B>,
        user: UserNo,
        va: u64,
    ) -> Result<(), Refusal>
        requires { IfSome (frame_at self.old.pages user (page_of va))
            (λ frame. 0 < slice_index pool.old.holds frame.0) }
        ensures refused { IfNone (frame_at self.old.pages user (page_of va))
            (result ≡ Err (record { cause = Cause.Absent })) }
        ensures taken { IfSome (frame_at self.old.pages user (page_of va)) (λ frame. result ≡ Ok (record {})) }

        ensures pages { OnOk result (self.new.pages ≡ without_page self.old.pages user (page_of va)) }
        ensures less { IfSome (frame_at self.old.pages user (page_of va))
            (λ frame. HasOneMore self.new.pages self.old.pages (user_page user (page_of va) frame)) }
        ensures pool { IfSome (frame_at self.old.pages user (page_of va))
            (λ frame. pool.new ≡ with_holds pool.old frame.0 (slice_index pool.old.holds frame.0 - 1)) }
        ensures room { self.old.room ≤ self.new.room }

        ensures err { OnErr result (self.new ≡ self.old) }
        ensures pool_err { OnErr result (pool.new ≡ pool.old) }
    {
        let Some(frame) = self.frame_at(user, va) else {
            return Err(Refusal {
                cause: Cause::Absent,
            });
        };
        self.pages.remove(user, va / PAGE_SIZE);
        pool.release(frame);
        Ok(())
    }
}

// The refusal for this cause.
fn refused(cause: Cause) -> CallError
    ensures { result ≡ CallError.Refused (record { cause = cause }) }
{
    CallError::Refused(Refusal { cause })
}
