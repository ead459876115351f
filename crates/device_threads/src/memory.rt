//! The memory of all results, which is taken before any worker is started.

ghost use Rattle.std.specs.Prelude.{◌≡◌, ◌≤◌, [], IfOk, length, vec_capacity};
ghost use Rattle.device_threads.specs.Pairs.{Pairwise};
ghost use Rattle.device_threads.specs.Workers.{HasRoom};

use crate::job::JobResult;
use crate::worker::{Finished, Worker};
use iofd_words::NoMemory;
use std::alloc::Global;

// Room for the results of all jobs of each worker, and for what each hands back.
pub(crate) fn rooms_for(
    alloc: Global,
    workers: &[Worker],
) -> Result<(Vec<Vec<JobResult>>, Vec<Finished>), NoMemory>
    ensures rooms { IfOk result (λ r. Pairwise HasRoom workers.now r.0.items) }
    ensures empty { IfOk result (λ r. r.1.items ≡ []) }
    ensures enough { IfOk result (λ r. length workers.now ≤ vec_capacity r.1) }
{
    let finished = Vec::with_capacity(alloc, workers.len())?;
    let mut rooms = Vec::with_capacity(alloc, workers.len())?;
    let mut left = workers;
    while let Some((worker, others)) = left.split_first() {
        let room = room_for(alloc, worker)?;
        rooms.push_reserved(room);
        left = others;
    }
    Ok((rooms, finished))
}

// Room for the results of the worker's jobs.
fn room_for(alloc: Global, worker: &Worker) -> Result<Vec<JobResult>, NoMemory>
    ensures { IfOk result (HasRoom worker.now) }
{
    let room = Vec::with_capacity(alloc, worker.jobs.len())?;
    Ok(room)
}
