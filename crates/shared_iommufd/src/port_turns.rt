//! A device's turns by its port: it is flushed, attached or detached, each time by one record. Before each the port
//! forgets all pages.

ghost use Rattle.std.specs.Prelude.{◌≡◌};
ghost use Rattle.shared_iommufd.specs.Made.{place_of};

use crate::port::Port;
use crate::server::Server;
use guarded_core::TryError;
use iofd_words::{Act, Event, NoMemory, ObjId};
use iommufd_core::Stamp;
use std::alloc::Allocator;
use std::sync::Wait;

// The place of the record that a call made, if it made one.
fn place_of<E>(made: &Result<Stamp, E>) -> Option<u64>
    ensures { result ≡ place_of made.now }
{
    match made {
        Ok(stamp) => Some(stamp.at),
        Err(_) => None,
    }
}

impl<A: Allocator + Copy> Port<A> {
    ghost use Rattle.std.specs.Prelude.{IfErr, IfOk, OnErr};
    ghost use Rattle.lane_lock.specs.Outcomes.{HadAll, HadNoLane, MetNone, OnlySees};
    ghost use Rattle.lane_lock.specs.Passes.{lanes_of, view_of};
    ghost use Rattle.guarded_core.specs.Guarded.{RefusesCommit};
    ghost use Rattle.shared_iommufd.specs.Made.{Makes, act_of};
    ghost use Rattle.shared_iommufd.specs.Ports.{IsPortOf, KeepsNothing, SamePort};
    ghost use Rattle.shared_iommufd.specs.Servers.{settings_of};

    /// The device has forgotten what it had cached: what an UNMAP waits for on its account is done. One record is made,
    /// once all lanes can be had, and the stamp has its place and its reply; as by `Server::call`. NoMemory makes none.
    ///
    /// Refused: Id (11, ENOENT), where the device isn't bound.
    pub fn flush<R: Wait>(&mut self, rt: &R, server: &Server<A>) -> Result<Stamp, NoMemory>
        requires { IsPortOf server.now self.old }
        ensures same_port { SamePort self.old self.new }
        ensures owned { IsPortOf server.now self.new }
        ensures made { IfOk result (λ stamp. Makes (settings_of server.now) self.old.pass
            (act_of (Event.Flush self.old.device)) stamp self.new.pass) }
        ensures none { OnErr result (OnlySees (view_of self.old.pass) (view_of self.new.pass)) }
        ensures had { HadNoLane (view_of self.old.pass) (view_of self.new.pass) }
        ensures empty { KeepsNothing self.new }
        ensures last { self.new.last ≡ place_of result }
    {
        let event = Event::Flush(self.device);
        self.make(rt, server, event)
    }

    /// The same without waiting. NotNow where a lane is held, or a share of the core is still held elsewhere: then no
    /// record is made.
    pub fn try_flush(&mut self, server: &Server<A>) -> Result<Stamp, TryError<NoMemory>>
        requires { IsPortOf server.now self.old }
        ensures same_port { SamePort self.old self.new }
        ensures owned { IsPortOf server.now self.new }
        ensures made { IfOk result (λ stamp. Makes (settings_of server.now) self.old.pass
            (act_of (Event.Flush self.old.device)) stamp self.new.pass) }
        ensures met { IfOk result (λ _. MetNone (view_of self.old.pass) (view_of self.new.pass)) }
        ensures had { IfOk result (λ _. HadAll (view_of self.old.pass) (view_of self.new.pass)) }
        ensures refused { IfErr result (RefusesCommit (lanes_of server.now.lock) (view_of self.old.pass)
            (view_of self.new.pass)) }
        ensures empty { KeepsNothing self.new }
        ensures last { self.new.last ≡ place_of result }
    {
        let event = Event::Flush(self.device);
        self.try_make(server, event)
    }

    /// Attaches the device to the address space or the hardware page table of this id, in the file that it is bound
    /// to. One record is made, once all lanes can be had; the reply is the id of the page table used. NoMemory makes
    /// none.
    ///
    /// Refused as an attachment is: Id (11), Bound (13), Width (14), Pending (29), Narrow (15), Full (23), Absent (8),
    /// Account (7), Frames (6).
    pub fn attach<R: Wait>(
        &mut self,
        rt: &R,
        server: &Server<A>,
        pt_id: ObjId,
    ) -> Result<Stamp, NoMemory>
        requires { IsPortOf server.now self.old }
        ensures same_port { SamePort self.old self.new }
        ensures owned { IsPortOf server.now self.new }
        ensures made { IfOk result (λ stamp. Makes (settings_of server.now) self.old.pass
            (act_of (Event.Attach self.old.device pt_id)) stamp self.new.pass) }
        ensures none { OnErr result (OnlySees (view_of self.old.pass) (view_of self.new.pass)) }
        ensures had { HadNoLane (view_of self.old.pass) (view_of self.new.pass) }
        ensures empty { KeepsNothing self.new }
        ensures last { self.new.last ≡ place_of result }
    {
        let event = Event::Attach(self.device, pt_id);
        self.make(rt, server, event)
    }

    /// The same without waiting. NotNow makes no record.
    pub fn try_attach(
        &mut self,
        server: &Server<A>,
        pt_id: ObjId,
    ) -> Result<Stamp, TryError<NoMemory>>
        requires { IsPortOf server.now self.old }
        ensures same_port { SamePort self.old self.new }
        ensures owned { IsPortOf server.now self.new }
        ensures made { IfOk result (λ stamp. Makes (settings_of server.now) self.old.pass
            (act_of (Event.Attach self.old.device pt_id)) stamp self.new.pass) }
        ensures met { IfOk result (λ _. MetNone (view_of self.old.pass) (view_of self.new.pass)) }
        ensures had { IfOk result (λ _. HadAll (view_of self.old.pass) (view_of self.new.pass)) }
        ensures refused { IfErr result (RefusesCommit (lanes_of server.now.lock) (view_of self.old.pass)
            (view_of self.new.pass)) }
        ensures empty { KeepsNothing self.new }
        ensures last { self.new.last ≡ place_of result }
    {
        let event = Event::Attach(self.device, pt_id);
        self.try_make(server, event)
    }

    /// Ends the device's attachment. One record is made, once all lanes can be had. NoMemory makes none.
    ///
    /// Refused: Id (11, ENOENT), where the device isn't bound; Unattached (28, ENOENT).
    pub fn detach<R: Wait>(&mut self, rt: &R, server: &Server<A>) -> Result<Stamp, NoMemory>
        requires { IsPortOf server.now self.old }
        ensures same_port { SamePort self.old self.new }
        ensures owned { IsPortOf server.now self.new }
        ensures made { IfOk result (λ stamp. Makes (settings_of server.now) self.old.pass
            (act_of (Event.Detach self.old.device)) stamp self.new.pass) }
        ensures none { OnErr result (OnlySees (view_of self.old.pass) (view_of self.new.pass)) }
        ensures had { HadNoLane (view_of self.old.pass) (view_of self.new.pass) }
        ensures empty { KeepsNothing self.new }
        ensures last { self.new.last ≡ place_of result }
    {
        let event = Event::Detach(self.device);
        self.make(rt, server, event)
    }

    /// The same without waiting. NotNow makes no record.
    pub fn try_detach(&mut self, server: &Server<A>) -> Result<Stamp, TryError<NoMemory>>
        requires { IsPortOf server.now self.old }
        ensures same_port { SamePort self.old self.new }
        ensures owned { IsPortOf server.now self.new }
        ensures made { IfOk result (λ stamp. Makes (settings_of server.now) self.old.pass
            (act_of (Event.Detach self.old.device)) stamp self.new.pass) }
        ensures met { IfOk result (λ _. MetNone (view_of self.old.pass) (view_of self.new.pass)) }
        ensures had { IfOk result (λ _. HadAll (view_of self.old.pass) (view_of self.new.pass)) }
        ensures refused { IfErr result (RefusesCommit (lanes_of server.now.lock) (view_of self.old.pass)
            (view_of self.new.pass)) }
        ensures empty { KeepsNothing self.new }
        ensures last { self.new.last ≡ place_of result }
    {
        let event = Event::Detach(self.device);
        self.try_make(server, event)
    }

    // Makes the record of an event of the device, once all lanes can be had.
    fn make<R: Wait>(
        &mut self,
        rt: &R,
        server: &Server<A>,
        event: Event<A>,
    ) -> Result<Stamp, NoMemory>
        requires { IsPortOf server.now self.old }
        ensures same_port { SamePort self.old self.new }
        ensures owned { IsPortOf server.now self.new }
        ensures made { IfOk result (λ stamp. Makes (settings_of server.now) self.old.pass (act_of event) stamp
            self.new.pass) }
        ensures none { OnErr result (OnlySees (view_of self.old.pass) (view_of self.new.pass)) }
        ensures had { HadNoLane (view_of self.old.pass) (view_of self.new.pass) }
        ensures empty { KeepsNothing self.new }
        ensures last { self.new.last ≡ place_of result }
    {
        self.cache.clear();
        let act = Act { event, via: None };
        let made = server.make(rt, &mut self.pass, &act);
        self.last = place_of(&made);
        made
    }

    // The same without waiting.
    fn try_make(&mut self, server: &Server<A>, event: Event<A>) -> Result<Stamp, TryError<NoMemory>>
        requires { IsPortOf server.now self.old }
        ensures same_port { SamePort self.old self.new }
        ensures owned { IsPortOf server.now self.new }
        ensures made { IfOk result (λ stamp. Makes (settings_of server.now) self.old.pass (act_of event) stamp
            self.new.pass) }
        ensures met { IfOk result (λ _. MetNone (view_of self.old.pass) (view_of self.new.pass)) }
        ensures had { IfOk result (λ _. HadAll (view_of self.old.pass) (view_of self.new.pass)) }
        ensures refused { IfErr result (RefusesCommit (lanes_of server.now.lock) (view_of self.old.pass)
            (view_of self.new.pass)) }
        ensures empty { KeepsNothing self.new }
        ensures last { self.new.last ≡ place_of result }
    {
        self.cache.clear();
        let act = Act { event, via: None };
        let made = server.try_make(&mut self.pass, &act);
        self.last = place_of(&made);
        made
    }
}
