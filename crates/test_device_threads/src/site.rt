//! What is asked of a server with devices at work. Tests are written over this trait, so that they know neither which
//! server it is nor whose ports and passes are its: what is proved of them is short then.

ghost use Rattle.std.specs.Prelude.{◌≡◌, ◌<◌, ◌^◌, false, length};
ghost use Rattle.std.specs.Thread.{IsSync};
ghost use Rattle.guarded_core.specs.OfPort.{event_of_port};

use crate::gate::Meeting;
use device_threads::{Job, JobResult};
use iofd_words::{Config, Event};
use shared_iommufd::Core;
use std::alloc::Global;
use std::sync::Wait;
use std::thread::Threads;

/// A server with devices, of which the last one is never given jobs. It is ended, and never let go.
pub trait Site {
    /// A server that has made no record, each of whose devices waits for jobs.
    fn opened(alloc: Global, config: &Config) -> Option<Self>;

    /// Makes the record of an event, by a pass that is no device's. Whether it isn't refused.
    fn makes<R: Wait>(&mut self, rt: &R, event: Event) -> bool
        requires { event_of_port event ≡ false };

    /// Gives the jobs of the next run to the device that came back last; before the first run to the first that has
    /// none yet.
    fn equip(&mut self, jobs: Vec<Job>)
        requires { length jobs.items < 2 ^ 32 };

    /// Has the devices do their jobs, all at once, while another thread maps and unmaps page 2 in turn, so many times,
    /// and flushes the last device each time. All but that one have to have jobs. Where there is no memory for it none
    /// comes back, and each keeps its jobs.
    fn run<Q: Threads + Wait + Sync>(
        self,
        rt: &Q,
        alloc: Global,
        gate: &Meeting,
        rounds: u32,
    ) -> Self
        requires { IsSync Q.row };

    /// The results of the device that came back last.
    fn results(&self) -> Option<&[JobResult]>;

    /// Ends the server, and gives its core back, and the results of its devices, of which the last stand first.
    fn ended(self, alloc: Global) -> Option<(Core, Vec<Vec<JobResult>>)>;
}
