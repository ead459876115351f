//! What a core tells a port, and how an access goes by it.

ghost use Rattle.std.specs.Prelude.{◌≡◌, true, false, length};
ghost use Rattle.iofd_words.specs.Files.{is_device};
ghost use Rattle.iofd_words.specs.Pages.{crosses};
ghost use Rattle.iofd_words.specs.Turns.{turns_of};
ghost use Rattle.iofd_words.specs.View.{view};
ghost use Rattle.iofd_words.specs.Walk.{translation};
ghost use Rattle.iommufd_core.specs.History.{world};
ghost use Rattle.guarded_core.specs.Caches.{ReadUnder, Serves, TranslatedUnder, WriteUnder, found, frame_found};
ghost use Rattle.port_cache.specs.Cached.{with_right};

use crate::kept_core::KeptCore;
use iofd_words::{
    AccessKind, Act, Answer, Burst, DeviceNo, Event, FrameNo, Iova, Query, Translation,
};
use port_cache::{Found, PortCache, with_right};
use std::alloc::{AllocError, Allocator};

/// A device's read of so many bytes, by what its port keeps.
#[derive(Copy)]
pub struct PortRead<'a, A: Allocator + Copy> {
    pub cache: &'a PortCache<A>,
    pub device: DeviceNo,
    pub iova: Iova,
    pub len: u8,
}

/// What a device's page at an address is translated to, with a right, by what its port keeps.
#[derive(Copy)]
pub struct PortWalk<'a, A: Allocator + Copy> {
    pub cache: &'a PortCache<A>,
    pub device: DeviceNo,
    pub iova: Iova,
    pub kind: AccessKind,
}

// Written out, as what derives it copies field by field, which takes twenty times as long to prove.
impl<'a, A: Allocator + Copy> Clone for PortRead<'a, A> {
    fn clone(&self) -> Result<PortRead<'a, A>, AllocError> {
        Ok(*self)
    }
}

impl<'a, A: Allocator + Copy> Clone for PortWalk<'a, A> {
    fn clone(&self) -> Result<PortWalk<'a, A>, AllocError> {
        Ok(*self)
    }
}

// The frame of a translation.
fn frame_of(translation: Option<Translation>) -> Option<FrameNo>
    ensures { result ≡ frame_found translation }
{
    Some(translation?.frame)
}

impl<A: Allocator + Copy> KeptCore<A> {
    // How many turns the device has had.
    fn turns(&self, device: DeviceNo) -> u64
        requires { is_device self.now.core.history.settings device ≡ true }
        ensures { result ≡ turns_of device self.now.core.history.records }
    {
        let core = self.core();
        match core.look(&Query::Turns(device)) {
            Answer::Count(turns) => turns,
            _ => unreachable!(),
        }
    }

    // What a walk finds for the device at the address.
    fn walk(&self, device: DeviceNo, iova: Iova) -> Option<Translation>
        requires { is_device self.now.core.history.settings device ≡ true }
        ensures { result ≡ translation (view (world self.now.core.history)) device iova.0 }
    {
        let core = self.core();
        match core.look(&Query::WalkFor { device, iova }) {
            Answer::Walk(translation) => translation,
            _ => unreachable!(),
        }
    }

    // What a walk finds, with the right.
    fn walk_with(&self, device: DeviceNo, iova: Iova, kind: AccessKind) -> Option<Translation>
        requires { is_device self.now.core.history.settings device ≡ true }
        ensures { result ≡ with_right kind (translation (view (world self.now.core.history)) device iova.0) }
    {
        with_right(self.walk(device, iova)?, kind)
    }

    // What the device's access at the address finds: what is kept, if it serves, or else what a walk finds.
    fn find(&self, cache: &PortCache<A>, device: DeviceNo, iova: Iova, kind: AccessKind) -> Found
        requires { is_device self.now.core.history.settings device ≡ true }
        ensures turns { result.turns ≡ turns_of device self.now.core.history.records }
        ensures found { result.translation ≡ found self.now.core.history.settings self.now.core.history.records device
            cache.now.turns cache.now.pages.entries iova.0 kind }
    {
        let turns = self.turns(device);
        let translation = match cache.kept(turns, iova, kind) {
            Some(translation) => Some(translation),
            None => self.walk_with(device, iova, kind),
        };
        Found { turns, translation }
    }

    /// What the page at the address is translated to for the device, with the right.
    pub fn translate(&self, walk: PortWalk<'_, A>) -> Found
        requires known { is_device self.now.core.history.settings walk.device ≡ true }
        requires serves { Serves self.now.core.history walk.device walk.cache.now.turns walk.cache.now.pages.entries }
        ensures { TranslatedUnder self.now.core.history walk.entry.device walk.entry.cache.now.turns
            walk.entry.cache.now.pages.entries walk.entry.iova walk.entry.kind result }
    {
        let PortWalk {
            cache,
            device,
            iova,
            kind,
        } = walk;
        let _core = self.core();
        self.find(cache, device, iova, kind)
    }

    /// What the device reads, and what it found.
    pub fn read(&self, read: PortRead<'_, A>) -> (Found, Answer)
        requires known { is_device self.now.core.history.settings read.device ≡ true }
        requires serves { Serves self.now.core.history read.device read.cache.now.turns read.cache.now.pages.entries }
        requires inside { crosses read.iova.0 read.len ≡ false }
        ensures { ReadUnder self.now.core.history read.entry.device read.entry.cache.now.turns
            read.entry.cache.now.pages.entries read.entry.iova read.entry.len result.0 result.1 }
    {
        let PortRead {
            cache,
            device,
            iova,
            len,
        } = read;
        let core = self.core();
        let found = self.find(cache, device, iova, AccessKind::Read);
        let query = match found.translation {
            Some(translation) => Query::CachedRead {
                device,
                iova,
                len,
                frame: translation.frame,
            },
            None => Query::DeviceRead { device, iova, len },
        };
        (found, core.look(&query))
    }

    /// The act by which the device writes these bytes, and what it found.
    pub fn write(
        &self,
        cache: &PortCache<A>,
        device: DeviceNo,
        iova: Iova,
        bytes: Burst,
    ) -> (Found, Act<A>)
        requires known { is_device self.now.core.history.settings device ≡ true }
        requires serves { Serves self.now.core.history device cache.now.turns cache.now.pages.entries }
        requires inside { crosses iova.0 (length bytes) ≡ false }
        ensures { WriteUnder self.now.core.history device cache.now.turns cache.now.pages.entries iova bytes result.0
            result.1 }
    {
        let _core = self.core();
        let found = self.find(cache, device, iova, AccessKind::Write);
        let event = Event::DeviceWrite(device, iova, bytes);
        let via = frame_of(found.translation);
        (found, Act { event, via })
    }
}
