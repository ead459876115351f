//! What hears of each job.

use iofd_words::DeviceNo;

/// Is told of each job, in the thread that does it. It may hold a job up, and no contract speaks of it.
pub trait Gate {
    /// The device's job of this number, counted from 1, is about to begin.
    fn enter(&self, device: DeviceNo, job: u32);

    /// It has ended.
    fn leave(&self, device: DeviceNo, job: u32);
}
