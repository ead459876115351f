//! The question for an access object's notices, whose answer takes memory.

use crate::server::{Pass, Server};
use guarded_core::{KeptCore, ObjectOf, TryError, show, try_show};
use iofd_words::{CallError, FileNo, ObjId, Span};
use std::alloc::Allocator;
use std::sync::Wait;

impl<A: Allocator + Copy> Server<A> {
    ghost use Rattle.lane_lock.specs.Outcomes.{HadLane, OnlySees};
    ghost use Rattle.lane_lock.specs.Passes.{SamePass, view_of};
    ghost use Rattle.shared_iommufd.specs.Seen.{AreNotices, AreTriedNotices};
    ghost use Rattle.shared_iommufd.specs.Servers.{IsPassOf, settings_of};

    /// The notices of the file's access object of this id, by which its driver is asked to let go: the spans of the
    /// leaving areas in which it holds a pin, by rising start; as of all records that the pass has then seen, once its
    /// lane can be had. It makes no record.
    ///
    /// Refused: Id (11, ENOENT), where the file isn't open or the id is no access object of it. It takes memory only
    /// for the answer, of the core's allocator, so want of it comes only where there are notices.
    pub fn notices<R: Wait>(
        &self,
        rt: &R,
        pass: &mut Pass<A>,
        file: FileNo,
        access: ObjId,
    ) -> Result<Vec<Span, A>, CallError>
        requires { IsPassOf self.now pass.old }
        ensures same_pass { SamePass pass.old pass.new }
        ensures owned { IsPassOf self.now pass.new }
        ensures sees { OnlySees (view_of pass.old) (view_of pass.new) }
        ensures notices { AreNotices (settings_of self.now) pass.new file access result }
        ensures had { HadLane (view_of pass.old) (view_of pass.new) }
    {
        let access = ObjectOf { file, id: access };
        show(rt, &self.lock, pass, access, KeptCore::notices)
    }

    /// The same without waiting. NotNow where the lane of the pass is held or empty.
    pub fn try_notices(
        &self,
        pass: &mut Pass<A>,
        file: FileNo,
        access: ObjId,
    ) -> Result<Vec<Span, A>, TryError<CallError>>
        requires { IsPassOf self.now pass.old }
        ensures same_pass { SamePass pass.old pass.new }
        ensures owned { IsPassOf self.now pass.new }
        ensures sees { OnlySees (view_of pass.old) (view_of pass.new) }
        ensures notices { AreTriedNotices (settings_of self.now) pass.old pass.new file access result }
    {
        let access = ObjectOf { file, id: access };
        match try_show(&self.lock, pass, access, KeptCore::notices) {
            Ok(Ok(notices)) => Ok(notices),
            Ok(Err(failed)) => Err(TryError::Call(failed)),
            Err(refused) => Err(TryError::NotNow(refused)),
        }
    }
}
