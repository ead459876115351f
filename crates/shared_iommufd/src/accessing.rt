//! A device's accesses, by what its port keeps, each under a guard of its own.

ghost use Rattle.std.specs.Prelude.{◌≡◌, true, false, length};
ghost use Rattle.iofd_words.specs.Files.{is_device};
ghost use Rattle.iofd_words.specs.Pages.{crosses};
ghost use Rattle.shared_iommufd.specs.PortReads.{TellsRead};
ghost use Rattle.shared_iommufd.specs.PortTranslations.{TellsTranslation};
ghost use Rattle.shared_iommufd.specs.PortWrites.{TellsWrite};

use crate::server::{Pass, Server};
use guarded_core::{KeptCore, PortRead, PortWalk, TryError, try_commit_later, try_show_later};
use iofd_words::{AccessKind, Answer, Burst, DeviceNo, Iova, NoMemory};
use iommufd_core::Stamp;
use lane_lock::NotNow;
use port_cache::{Found, PortCache};
use std::alloc::Allocator;

impl<A: Allocator + Copy> Server<A> {
    ghost use Rattle.std.specs.Prelude.{IfErr, IfOk};
    ghost use Rattle.lane_lock.specs.Outcomes.{HadLane, MetNone, OnlySees, RefusesRead};
    ghost use Rattle.lane_lock.specs.Passes.{SamePass, lane_of, lanes_of, view_of};
    ghost use Rattle.guarded_core.specs.Caches.{MayKeep};
    ghost use Rattle.guarded_core.specs.Entries.{told};
    ghost use Rattle.guarded_core.specs.Guarded.{RefusesCommit};
    ghost use Rattle.shared_iommufd.specs.Ports.{stands_so};
    ghost use Rattle.shared_iommufd.specs.Servers.{IsPassOf, settings_of};

    // Reads for a device by what a cache keeps, without waiting.
    pub(crate) fn try_read_by(
        &self,
        pass: &mut Pass<A>,
        cache: &PortCache<A>,
        device: DeviceNo,
        iova: Iova,
        len: u8,
    ) -> Result<(Found, Answer), NotNow>
        requires owned { IsPassOf self.now pass.old }
        requires known { is_device (settings_of self.now) device ≡ true }
        requires kept { MayKeep told device (view_of pass.old).seen cache.now.turns cache.now.pages.entries }
        requires inside { crosses iova.0 len ≡ false }
        ensures same_pass { SamePass pass.old pass.new }
        ensures owned { IsPassOf self.now pass.new }
        ensures sees { OnlySees (view_of pass.old) (view_of pass.new) }
        ensures tells { IfOk result (λ r. TellsRead (settings_of self.now) device iova.0 len (stands_so pass.old cache.now)
            r.0 r.1 pass.new) }
        ensures met { IfOk result (λ _. MetNone (view_of pass.old) (view_of pass.new)) }
        ensures had { IfOk result (λ _. HadLane (view_of pass.old) (view_of pass.new)) }
        ensures refused { IfErr result (RefusesRead (view_of pass.old) (view_of pass.new) (lane_of pass.old)) }
    {
        let read = PortRead {
            cache,
            device,
            iova,
            len,
        };
        try_show_later(&self.lock, pass, read, KeptCore::read)
    }

    // Finds what a device's page is translated to by what a cache keeps, without waiting.
    pub(crate) fn try_translate_by(
        &self,
        pass: &mut Pass<A>,
        cache: &PortCache<A>,
        device: DeviceNo,
        iova: Iova,
        kind: AccessKind,
    ) -> Result<Found, NotNow>
        requires owned { IsPassOf self.now pass.old }
        requires known { is_device (settings_of self.now) device ≡ true }
        requires kept { MayKeep told device (view_of pass.old).seen cache.now.turns cache.now.pages.entries }
        ensures same_pass { SamePass pass.old pass.new }
        ensures owned { IsPassOf self.now pass.new }
        ensures sees { OnlySees (view_of pass.old) (view_of pass.new) }
        ensures tells { IfOk result (λ found. TellsTranslation (settings_of self.now) device iova.0 kind
            (stands_so pass.old cache.now) found pass.new) }
        ensures met { IfOk result (λ _. MetNone (view_of pass.old) (view_of pass.new)) }
        ensures had { IfOk result (λ _. HadLane (view_of pass.old) (view_of pass.new)) }
        ensures refused { IfErr result (RefusesRead (view_of pass.old) (view_of pass.new) (lane_of pass.old)) }
    {
        let walk = PortWalk {
            cache,
            device,
            iova,
            kind,
        };
        try_show_later(&self.lock, pass, walk, KeptCore::translate)
    }

    // Writes for a device by what a cache keeps, without waiting.
    pub(crate) fn try_write_by(
        &self,
        pass: &mut Pass<A>,
        cache: &PortCache<A>,
        device: DeviceNo,
        iova: Iova,
        bytes: Burst,
    ) -> Result<(Found, Stamp), TryError<NoMemory>>
        requires owned { IsPassOf self.now pass.old }
        requires known { is_device (settings_of self.now) device ≡ true }
        requires kept { MayKeep told device (view_of pass.old).seen cache.now.turns cache.now.pages.entries }
        requires inside { crosses iova.0 (length bytes) ≡ false }
        ensures same_pass { SamePass pass.old pass.new }
        ensures owned { IsPassOf self.now pass.new }
        ensures tells { IfOk result (λ r. TellsWrite (settings_of self.now) device iova.0 bytes
            (stands_so pass.old cache.now) r.0 r.1 pass.new) }
        ensures met { IfOk result (λ _. MetNone (view_of pass.old) (view_of pass.new)) }
        ensures refused { IfErr result (RefusesCommit (lanes_of self.now.lock) (view_of pass.old) (view_of pass.new)) }
    {
        try_commit_later(
            &self.lock,
            pass,
            &|kept: &KeptCore<A>| { kept.write(cache, device, iova, bytes) },
        )
    }
}
