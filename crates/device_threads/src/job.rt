//! What a device is to do, and what comes of it.

use iofd_words::{DeviceNo, Iova, NoMemory, ObjId, Reply};
use shared_iommufd::PortError;

/// A job of a device, which it does by its port.
#[derive(Drop)]
pub enum Job {
    /// Reads as many bytes as the buffer has, from the address on.
    Read { iova: Iova, buffer: Vec<u8> },
    /// Writes these bytes, from the address on.
    Write { iova: Iova, bytes: Vec<u8> },
    /// Has forgotten what it had cached.
    Flush,
    /// Is attached to the address space or the hardware page table of this id.
    Attach(ObjId),
    /// Is attached to nothing any more.
    Detach,
}

/// What comes of a job.
#[derive(Drop)]
pub enum Outcome {
    /// Of a read: its buffer, with what was read, and whether all was, or how far it came and why no further.
    Read {
        buffer: Vec<u8>,
        ended: Result<(), PortError>,
    },
    /// Of a write: whether all was written, or how far it came and why no further.
    Write(Result<(), PortError>),
    /// Of a flush, an attachment or a detachment: the reply to its record. NoMemory where it made none.
    Turn(Result<Reply, NoMemory>),
}

/// The result of a job.
#[derive(Drop)]
pub struct JobResult {
    pub device: DeviceNo,
    /// The job's number. Each worker's are counted from 1.
    pub job: u32,
    /// The place, among the server's records, of the last one that the job made. None where it made none.
    pub at: Option<u64>,
    pub outcome: Outcome,
}
