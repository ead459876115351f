//! Workers, and what they hand back.

use crate::job::{Job, JobResult};
use guarded_core::KeptCore;
use lane_lock::Kept;
use shared_iommufd::Port;
use std::alloc::{Allocator, Global};

/// A device's port, and the jobs that the device is to do by it, in this order.
#[derive(Drop)]
pub struct Worker<A: Allocator + Copy = Global>
where
    KeptCore<A>: Kept,
{
    pub port: Port<A>,
    pub jobs: Vec<Job>,
}

/// A worker's port once all its jobs are done, and their results, in the order of the jobs.
#[derive(Drop)]
pub struct Finished<A: Allocator + Copy = Global>
where
    KeptCore<A>: Kept,
{
    pub port: Port<A>,
    pub results: Vec<JobResult>,
}

/// There was no memory for the results. No worker was started; these are all of them, as they came.
#[derive(Drop)]
pub struct NotStarted<A: Allocator + Copy = Global>
where
    KeptCore<A>: Kept,
{
    pub workers: Vec<Worker<A>>,
}
