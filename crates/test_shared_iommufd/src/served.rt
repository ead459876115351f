//! What is asked of a server by calls that wait: by a pass, and by a device's port. Tests are written over these
//! traits, so that they know neither which server it is nor whose passes are its: what is proved of them is short then.

ghost use Rattle.std.specs.Prelude.{◌≡◌, false};
ghost use Rattle.std.specs.Thread.{IsSync};
ghost use Rattle.guarded_core.specs.OfPort.{event_of_port, query_of_port};

use crate::work::Task;
use iofd_words::{
    AccessKind, Answer, CallError, Event, FileNo, Iova, NoMemory, ObjId, Query, Span, Translation,
};
use shared_iommufd::{Core, IoctlAnswer, JournalError, PortError, Stamp};
use std::sync::{RwLock, Wait};
use std::thread::Threads;

/// What a pass asks for.
pub trait Caller {
    /// Makes the record of an event.
    fn call(&mut self, event: Event) -> Result<Stamp, NoMemory>
        requires { event_of_port event ≡ false };

    /// Asks a question.
    fn look(&mut self, query: &Query) -> Answer
        requires { query_of_port query.now ≡ false };

    /// Makes a call of ioctl.
    fn ioctl(&mut self, file: FileNo, number: u32, bytes: &[u8]) -> Result<IoctlAnswer, NoMemory>;

    /// Asks for an access object's notices.
    fn notices(&mut self, file: FileNo, access: ObjId) -> Result<Vec<Span>, CallError>;

    /// Asks for the journal.
    fn journal(&mut self) -> Result<Vec<u8>, JournalError>;

    /// How many records the pass has seen.
    fn seen(&self) -> u64;
}

/// A device's turn.
#[derive(Clone, Copy)]
pub enum Turn {
    Attach(ObjId),
    Detach,
    Flush,
}

/// What a device does by its port.
pub trait Device {
    /// Makes the record of a turn.
    fn turn(&mut self, turn: Turn) -> Result<Stamp, NoMemory>;

    /// Reads as many bytes as the buffer has.
    fn read(&mut self, iova: Iova, buffer: &mut [u8]) -> Result<(), PortError>;

    /// Writes these bytes.
    fn write(&mut self, iova: Iova, bytes: &[u8]) -> Result<(), PortError>;

    /// Asks what a page is translated to.
    fn translate(&mut self, iova: Iova, kind: AccessKind) -> Option<Translation>;

    /// The place of the last record that the latest of these calls made.
    fn last(&self) -> Option<u64>;

    /// The same with the port closed and opened again.
    fn reopened(self) -> Self;
}

/// What is done with a whole server.
pub trait Whole {
    /// Ends the server, and gives its core back.
    fn ended(self) -> Option<Core>;

    /// Makes so many operations by each of so many threads, each a thread of its own, if one can be made: at the core
    /// under std's lock, where there is one, and else at the server. Tells how many have passed.
    fn crowd<Q: Threads + Wait + Sync>(
        &mut self,
        rt: &Q,
        plain: Option<&RwLock<Core>>,
        threads: u8,
        task: &Task,
        count: u32,
    ) -> u64
        requires { IsSync Q.row };
}

/// Whether the server ends with so many records.
pub fn ends<W: Whole>(server: W, count: Option<u64>) -> bool {
    match server.ended() {
        Some(core) => count == Some(core.records().len() as u64),
        None => false,
    }
}
