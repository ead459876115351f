//! Questions, which make no record.

use crate::server::{Pass, Server};
use guarded_core::{KeptCore, show, try_show};
use iofd_words::{Answer, Query};
use lane_lock::NotNow;
use std::alloc::Allocator;
use std::sync::Wait;

impl<A: Allocator + Copy> Server<A> {
    ghost use Rattle.std.specs.Prelude.{◌≡◌, false, IfErr, IfOk};
    ghost use Rattle.lane_lock.specs.Outcomes.{HadLane, MetNone, OnlySees, RefusesRead};
    ghost use Rattle.lane_lock.specs.Passes.{SamePass, lane_of, view_of};
    ghost use Rattle.guarded_core.specs.OfPort.{query_of_port};
    ghost use Rattle.shared_iommufd.specs.Seen.{IsAnswered};
    ghost use Rattle.shared_iommufd.specs.Servers.{IsPassOf, settings_of};

    /// The answer to a question, as of all records that the pass has then seen; once its lane can be had. It makes no
    /// record, and takes no memory. A question that only a port asks isn't allowed (`is_query_of_port`).
    pub fn look<R: Wait>(&self, rt: &R, pass: &mut Pass<A>, query: &Query) -> Answer
        requires owned { IsPassOf self.now pass.old }
        requires query { query_of_port query.now ≡ false }
        ensures same_pass { SamePass pass.old pass.new }
        ensures owned { IsPassOf self.now pass.new }
        ensures sees { OnlySees (view_of pass.old) (view_of pass.new) }
        ensures answer { IsAnswered (settings_of self.now) pass.new query.now result }
        ensures had { HadLane (view_of pass.old) (view_of pass.new) }
    {
        show(rt, &self.lock, pass, query, KeptCore::look)
    }

    /// The same without waiting. NotNow where the lane of the pass is held or empty: then the pass has seen what it had
    /// seen.
    pub fn try_look(&self, pass: &mut Pass<A>, query: &Query) -> Result<Answer, NotNow>
        requires owned { IsPassOf self.now pass.old }
        requires query { query_of_port query.now ≡ false }
        ensures same_pass { SamePass pass.old pass.new }
        ensures owned { IsPassOf self.now pass.new }
        ensures sees { OnlySees (view_of pass.old) (view_of pass.new) }
        ensures answer { IfOk result (IsAnswered (settings_of self.now) pass.new query.now) }
        ensures met { IfOk result (λ _. MetNone (view_of pass.old) (view_of pass.new)) }
        ensures had { IfOk result (λ _. HadLane (view_of pass.old) (view_of pass.new)) }
        ensures refused { IfErr result (RefusesRead (view_of pass.old) (view_of pass.new) (lane_of pass.old)) }
    {
        try_show(&self.lock, pass, query, KeptCore::look)
    }
}
