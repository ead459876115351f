//! Calls that change something: each makes one record.

use crate::server::{Pass, Server};
use guarded_core::{TryError, commit, try_commit};
use iofd_words::{Act, NoMemory};
use iommufd_core::Stamp;
use lane_lock::CommitError;
use std::alloc::Allocator;
use std::sync::Wait;

impl<A: Allocator + Copy> Server<A> {
    ghost use Rattle.std.specs.Prelude.{◌≡◌, false, IfErr, IfOk, OnErr, None};
    ghost use Rattle.lane_lock.specs.Outcomes.{HadAll, HadNoLane, MetNone, OnlySees};
    ghost use Rattle.lane_lock.specs.Passes.{SamePass, lanes_of, view_of};
    ghost use Rattle.lane_lock.specs.Views.{IsBlank};
    ghost use Rattle.guarded_core.specs.Guarded.{RefusesCommit};
    ghost use Rattle.shared_iommufd.specs.Made.{Makes};
    ghost use Rattle.guarded_core.specs.OfPort.{event_of_port};
    ghost use Rattle.shared_iommufd.specs.Servers.{IsPassOf, settings_of};

    // Makes the record of an event, once all lanes can be had; that of a port too.
    pub(crate) fn make<R: Wait>(
        &self,
        rt: &R,
        pass: &mut Pass<A>,
        act: &Act<A>,
    ) -> Result<Stamp, NoMemory>
        requires owned { IsPassOf self.now pass.old }
        requires via { act.now.via ≡ None }
        ensures same_pass { SamePass pass.old pass.new }
        ensures owned { IsPassOf self.now pass.new }
        ensures made { IfOk result (λ stamp. Makes (settings_of self.now) pass.old act.now stamp pass.new) }
        ensures none { OnErr result (OnlySees (view_of pass.old) (view_of pass.new)) }
        ensures home { IsBlank (view_of pass.new) }
        ensures had { HadNoLane (view_of pass.old) (view_of pass.new) }
    {
        for _ in rt.forever() {
            match commit(rt, &self.lock, pass, act) {
                Ok(stamp) => return Ok(stamp),
                Err(CommitError::Memory(error)) => return Err(error),
                // A share of the core was still held elsewhere.
                Err(CommitError::Shared) => {}
            }
        }
        unreachable!()
    }

    // The same without waiting.
    pub(crate) fn try_make(
        &self,
        pass: &mut Pass<A>,
        act: &Act<A>,
    ) -> Result<Stamp, TryError<NoMemory>>
        requires owned { IsPassOf self.now pass.old }
        requires via { act.now.via ≡ None }
        ensures same_pass { SamePass pass.old pass.new }
        ensures owned { IsPassOf self.now pass.new }
        ensures made { IfOk result (λ stamp. Makes (settings_of self.now) pass.old act.now stamp pass.new) }
        ensures met { IfOk result (λ _. MetNone (view_of pass.old) (view_of pass.new)) }
        ensures had { IfOk result (λ _. HadAll (view_of pass.old) (view_of pass.new)) }
        ensures refused { IfErr result (RefusesCommit (lanes_of self.now.lock) (view_of pass.old) (view_of pass.new)) }
    {
        try_commit(&self.lock, pass, act)
    }

    /// Applies an event once all lanes can be had: exactly one record is made, of this event and with the number of
    /// this pass, behind all that the pass has then seen, and the stamp has its place among the records and its reply.
    /// NoMemory makes none. The pass holds no lane then.
    ///
    /// An event that only a port makes isn't allowed (`is_event_of_port`), nor a cached frame.
    pub fn call<R: Wait>(&self, rt: &R, pass: &mut Pass<A>, act: &Act<A>) -> Result<Stamp, NoMemory>
        requires owned { IsPassOf self.now pass.old }
        requires via { act.now.via ≡ None }
        requires event { event_of_port act.now.event ≡ false }
        ensures same_pass { SamePass pass.old pass.new }
        ensures owned { IsPassOf self.now pass.new }
        ensures made { IfOk result (λ stamp. Makes (settings_of self.now) pass.old act.now stamp pass.new) }
        ensures none { OnErr result (OnlySees (view_of pass.old) (view_of pass.new)) }
        ensures home { IsBlank (view_of pass.new) }
        ensures had { HadNoLane (view_of pass.old) (view_of pass.new) }
    {
        self.make(rt, pass, act)
    }

    /// The same without waiting. NotNow where a lane is held, or a share of the core is still held elsewhere: then no
    /// record is made.
    pub fn try_call(&self, pass: &mut Pass<A>, act: &Act<A>) -> Result<Stamp, TryError<NoMemory>>
        requires owned { IsPassOf self.now pass.old }
        requires via { act.now.via ≡ None }
        requires event { event_of_port act.now.event ≡ false }
        ensures same_pass { SamePass pass.old pass.new }
        ensures owned { IsPassOf self.now pass.new }
        ensures made { IfOk result (λ stamp. Makes (settings_of self.now) pass.old act.now stamp pass.new) }
        ensures met { IfOk result (λ _. MetNone (view_of pass.old) (view_of pass.new)) }
        ensures had { IfOk result (λ _. HadAll (view_of pass.old) (view_of pass.new)) }
        ensures refused { IfErr result (RefusesCommit (lanes_of self.now.lock) (view_of pass.old) (view_of pass.new)) }
    {
        self.try_make(pass, act)
    }
}
