//! Why a call of a shared server fails.

use crate::server::{Pass, Server};
use guarded_core::KeptCore;
use iofd_words::{Fault, NoMemory, Refusal};
use lane_lock::{Kept, NotNow};
use std::alloc::{Allocator, Global};
use std::sync::Arc;

/// Why a server can't be opened so.
#[derive(Clone, Copy, PartialEq, Eq, Debug)]
pub enum ConfigError {
    /// There are 1 to 64 lanes.
    Lanes,
    /// A cache has 1 to 4096 pages.
    Cache,
    /// There was no memory for the server.
    Memory,
}

/// Why a piece of a port's read or write didn't pass.
#[derive(Clone, Copy, PartialEq, Eq, Debug)]
pub enum PortCause {
    /// It was refused: the device isn't bound, or the address is one of its interrupt range.
    Refused(Refusal),
    /// It was denied.
    Fault(Fault),
    /// There was no memory for the record of a write. A read wants none.
    Memory(NoMemory),
}

/// How far a port's read or write came, and why no further.
#[derive(Clone, Copy, PartialEq, Eq, Debug)]
pub struct PortError<C = PortCause> {
    /// How many bytes passed before.
    pub done: usize,
    /// Why the next piece didn't pass.
    pub cause: C,
}

/// Why a server didn't give its core back.
#[derive(Drop)]
pub enum CloseError<A: Allocator + Copy = Global>
where
    KeptCore<A>: Kept,
{
    /// A pass is missing. Server and passes come back.
    NotAll {
        server: Server<A>,
        passes: Vec<Pass<A>>,
    },
    /// A share of the core is still held elsewhere. The server has ended; this is another share.
    Shared(Arc<KeptCore<A>, Global>),
}
