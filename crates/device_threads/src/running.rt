//! Workers at work, each in a thread of its own.

ghost use Rattle.std.specs.Prelude.{◌≡◌, IfErr, IfOk};
ghost use Rattle.device_threads.specs.Workers.{AllBack, AllCanRun, HasRun, HaveRun, IsReady};

use crate::beside::{Work, work_beside};
use crate::gate::Gate;
use crate::job::JobResult;
use crate::memory::rooms_for;
use crate::worker::{Finished, NotStarted, Worker};
use crate::working::work;
use shared_iommufd::Server;
use std::alloc::Global;
use std::sync::Wait;
use std::thread::Threads;

// Has a worker do its jobs.
#[derive(Drop)]
struct AtWork<'a, R, G> {
    rt: &'a R,
    server: &'a Server,
    gate: &'a G,
}

impl<'a, R: Wait, G: Gate> Work<Worker, Vec<JobResult>, Finished> for AtWork<'a, R, G> {
    ghost may = { λ it worker room. IsReady it.server.now worker room };

    ghost makes = { λ it worker room finished. HasRun it.server.now worker finished };

    fn make(&self, worker: Worker, room: Vec<JobResult>) -> Finished {
        work(self.rt, self.server, self.gate, worker, room)
    }
}

/// Has each worker do its jobs, one after another, in a thread of its own; a worker for which no thread can be started
/// does them in this one, once the others have been started. It returns when all have ended, and hands the ports back,
/// in the order of the workers, each with one result for each of its jobs. The gate is told of each job before and
/// after it.
///
/// Each worker's port has to be of this server; it may have fewer than 2^32 jobs.
///
/// The memory of all results is taken first. NotStarted is want of it: no worker was started, and all come back as they
/// were.
pub fn run<R: Threads + Wait + Sync, G: Gate + Sync>(
    rt: &R,
    alloc: Global,
    server: &Server,
    gate: &G,
    workers: Vec<Worker>,
) -> Result<Vec<Finished>, NotStarted>
    requires { AllCanRun server.now workers.items }
    ensures run { IfOk result (λ finished. HaveRun server.now workers.items finished.items) }
    ensures back { IfOk result (λ finished. AllBack server.now finished.items) }
    ensures refused { IfErr result (λ back. back.workers ≡ workers) }
{
    match rooms_for(alloc, &workers) {
        Ok((rooms, finished)) => {
            let at_work = AtWork { rt, server, gate };
            Ok(work_beside(rt, &at_work, workers, rooms, finished))
        }
        Err(_) => Err(NotStarted { workers }),
    }
}
