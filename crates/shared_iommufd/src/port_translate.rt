//! What a device's pages are translated to, by its port: for whoever accesses their frames by itself.

use crate::port::Port;
use crate::server::Server;
use iofd_words::{AccessKind, Iova, Translation};
use lane_lock::NotNow;
use std::alloc::Allocator;
use std::sync::Wait;
use std::thread;

impl<A: Allocator + Copy> Port<A> {
    ghost use Rattle.std.specs.Prelude.{◌≡◌, None};
    ghost use Rattle.lane_lock.specs.Outcomes.{OnlySees};
    ghost use Rattle.lane_lock.specs.Passes.{view_of};
    ghost use Rattle.shared_iommufd.specs.Ports.{IsPortOf, SamePort, most_of, standing_of};
    ghost use Rattle.shared_iommufd.specs.PortTranslations.{IsTranslatedSo, Translates};
    ghost use Rattle.shared_iommufd.specs.Servers.{settings_of};

    /// What the page at the address is translated to for the device, where it has the right; as of all records that the
    /// port's pass has then seen, once its lane can be had. It makes no record, and never wants for memory.
    ///
    /// A page that the port keeps with the right is told as it is kept, though its area may be leaving; of any other
    /// the server asks the page table, and the port keeps what it finds. None where that has no such page either.
    ///
    /// What is told is good until the device's next turn, whatever others make (`laws::interleavings` of
    /// `iommufd_core`): an access to the frame with that right is one that the policy allows the device. So it is to be
    /// given up before this port is flushed, attached or detached.
    pub fn translate<R: Wait>(
        &mut self,
        rt: &R,
        server: &Server<A>,
        iova: Iova,
        kind: AccessKind,
    ) -> Option<Translation>
        requires { IsPortOf server.now self.old }
        ensures same_port { SamePort self.old self.new }
        ensures owned { IsPortOf server.now self.new }
        ensures sees { OnlySees (view_of self.old.pass) (view_of self.new.pass) }
        ensures translated { IsTranslatedSo (settings_of server.now) self.old.device (most_of self.old) iova.0 kind
            (standing_of self.old) result (standing_of self.new) }
        ensures last { self.new.last ≡ None }
    {
        self.last = None;
        for _ in rt.forever() {
            match self.translate_now(server, iova, kind) {
                Ok(translation) => return translation,
                Err(_) => thread::yield_now(),
            }
        }
        unreachable!()
    }

    /// The same without waiting. NotNow where the lane of the pass is held or empty: then it has shown nothing.
    pub fn try_translate(
        &mut self,
        server: &Server<A>,
        iova: Iova,
        kind: AccessKind,
    ) -> Result<Option<Translation>, NotNow>
        requires { IsPortOf server.now self.old }
        ensures same_port { SamePort self.old self.new }
        ensures owned { IsPortOf server.now self.new }
        ensures sees { OnlySees (view_of self.old.pass) (view_of self.new.pass) }
        ensures translated { Translates (settings_of server.now) self.old.device (most_of self.old) iova.0 kind
            (standing_of self.old) result (standing_of self.new) }
        ensures last { self.new.last ≡ None }
    {
        self.last = None;
        self.translate_now(server, iova, kind)
    }

    // Asks for a page under a guard, and keeps what that found.
    fn translate_now(
        &mut self,
        server: &Server<A>,
        iova: Iova,
        kind: AccessKind,
    ) -> Result<Option<Translation>, NotNow>
        requires { IsPortOf server.now self.old }
        ensures same_port { SamePort self.old self.new }
        ensures owned { IsPortOf server.now self.new }
        ensures sees { OnlySees (view_of self.old.pass) (view_of self.new.pass) }
        ensures translated { Translates (settings_of server.now) self.old.device (most_of self.old) iova.0 kind
            (standing_of self.old) result (standing_of self.new) }
        ensures last { self.new.last ≡ self.old.last }
    {
        match server.try_translate_by(&mut self.pass, &self.cache, self.device, iova, kind) {
            Ok(found) => {
                self.cache.keep(iova, &found);
                Ok(found.translation)
            }
            Err(refused) => Err(refused),
        }
    }
}
