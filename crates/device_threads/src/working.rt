//! All jobs of one worker.

ghost use Rattle.device_threads.specs.Workers.{HasRun, IsReady};

use crate::gate::Gate;
use crate::job::JobResult;
use crate::port_job::do_job;
use crate::worker::{Finished, Worker};
use shared_iommufd::Server;
use std::alloc::Allocator;
use std::sync::Wait;

// Does the worker's jobs, one after another. There is room for their results.
pub(crate) fn work<R: Wait, G: Gate, A: Allocator + Copy>(
    rt: &R,
    server: &Server<A>,
    gate: &G,
    worker: Worker<A>,
    mut results: Vec<JobResult>,
) -> Finished<A>
    requires { IsReady server.now worker results }
    ensures { HasRun server.now worker result }
{
    let Worker { mut port, jobs } = worker;
    let mut left = jobs.into_iter();
    let mut number = 0;
    while let Some(job) = left.next() {
        number += 1;
        let result = do_job(rt, server, gate, &mut port, number, job);
        results.push_reserved(result);
    }
    Finished { port, results }
}
