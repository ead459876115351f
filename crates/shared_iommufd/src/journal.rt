//! The question for the journal, whose answer takes memory.

use crate::server::{Pass, Server};
use guarded_core::{KeptCore, TryError, show, try_show};
use journal_audit_writing::JournalError;
use std::alloc::Allocator;
use std::sync::Wait;

impl<A: Allocator + Copy> Server<A> {
    ghost use Rattle.lane_lock.specs.Outcomes.{HadLane, OnlySees};
    ghost use Rattle.lane_lock.specs.Passes.{SamePass, view_of};
    ghost use Rattle.shared_iommufd.specs.Seen.{IsJournalOf, IsTriedJournalOf};
    ghost use Rattle.shared_iommufd.specs.Servers.{IsPassOf, settings_of};

    /// The journal, of version 2, of what the server was opened with and of all records that the pass has then seen,
    /// and no others, as bytes (docs/JOURNAL.md); once its lane can be had. It makes no record. While it is written no
    /// other call can change anything.
    ///
    /// The error is the index of the first record that has no spelling, or that memory of the core's allocator was
    /// refused.
    pub fn journal<R: Wait>(&self, rt: &R, pass: &mut Pass<A>) -> Result<Vec<u8, A>, JournalError>
        requires { IsPassOf self.now pass.old }
        ensures same_pass { SamePass pass.old pass.new }
        ensures owned { IsPassOf self.now pass.new }
        ensures sees { OnlySees (view_of pass.old) (view_of pass.new) }
        ensures journal { IsJournalOf (settings_of self.now) pass.new result }
        ensures had { HadLane (view_of pass.old) (view_of pass.new) }
    {
        show(rt, &self.lock, pass, self.alloc, KeptCore::journal)
    }

    /// The same without waiting. NotNow where the lane of the pass is held or empty.
    pub fn try_journal(&self, pass: &mut Pass<A>) -> Result<Vec<u8, A>, TryError<JournalError>>
        requires { IsPassOf self.now pass.old }
        ensures same_pass { SamePass pass.old pass.new }
        ensures owned { IsPassOf self.now pass.new }
        ensures sees { OnlySees (view_of pass.old) (view_of pass.new) }
        ensures journal { IsTriedJournalOf (settings_of self.now) pass.old pass.new result }
    {
        match try_show(&self.lock, pass, self.alloc, KeptCore::journal) {
            Ok(Ok(bytes)) => Ok(bytes),
            Ok(Err(failed)) => Err(TryError::Call(failed)),
            Err(refused) => Err(TryError::NotNow(refused)),
        }
    }
}
