//! Devices at work, each in a thread of its own: a worker does its device's jobs by its port, one after another, and
//! hands the port back with one result for each job.
#![tactic(auto)]

mod beside;
mod gate;
mod job;
mod memory;
mod port_job;
mod running;
mod worker;
mod working;

pub use gate::Gate;
pub use job::{Job, JobResult, Outcome};
pub use running::run;
pub use worker::{Finished, NotStarted, Worker};
