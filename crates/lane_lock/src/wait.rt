//! Reading and writing once the lanes can be had.

ghost use Rattle.std.specs.Prelude.{◌≡◌};
ghost use Rattle.lane_lock.specs.Outcomes.{HadAll, HadLane, OnlySees};
ghost use Rattle.lane_lock.specs.Passes.{Owns, SamePass, IsReading, IsWriting, view_of};

use crate::kept::Kept;
use crate::lock::LaneLock;
use crate::pass::Pass;
use crate::read_guard::ReadGuard;
use crate::write_guard::WriteGuard;
use std::sync::Wait;
use std::thread;

impl<K: Kept> LaneLock<K> {
    /// Takes the lane of the pass to read. It tries again while the lane is held, or empty, and has a share once.
    pub fn read<'a, R: Wait>(&'a self, rt: &R, pass: &'a mut Pass<K>) -> ReadGuard<'a, K>
        requires { Owns self.now pass.old }
        ensures same_reference { result.pass.ghost_name ≡ pass.entry.ghost_name }
        ensures lock { result.lock.now ≡ self.now }
        ensures same_pass { SamePass pass.old result.pass.now }
        ensures reading { IsReading result.pass.now }
        ensures sees { OnlySees (view_of pass.old) (view_of result.pass.now) }
        ensures had { HadLane (view_of pass.old) (view_of result.pass.now) }
    {
        for _ in rt.forever() {
            if self.start_read(pass).is_ok() {
                return ReadGuard { lock: self, pass };
            }
            thread::yield_now();
        }
        unreachable!()
    }

    /// Takes all lanes to write. It tries again while one of them is held, and puts those that it took back
    /// meanwhile. It takes the last of them once.
    pub fn write<'a, R: Wait>(&'a self, rt: &R, pass: &'a mut Pass<K>) -> WriteGuard<'a, K>
        requires { Owns self.now pass.old }
        ensures same_reference { result.pass.ghost_name ≡ pass.entry.ghost_name }
        ensures lock { result.lock.now ≡ self.now }
        ensures same_pass { SamePass pass.old result.pass.now }
        ensures writing { IsWriting self.now result.pass.now }
        ensures sees { OnlySees (view_of pass.old) (view_of result.pass.now) }
        ensures had { HadAll (view_of pass.old) (view_of result.pass.now) }
    {
        for _ in rt.forever() {
            if self.start_write(pass).is_ok() {
                return WriteGuard { lock: self, pass };
            }
            thread::yield_now();
        }
        unreachable!()
    }
}
