//! The calls of callers: those of their server that don't wait, by their pass.

ghost use Rattle.std.specs.Prelude.{◌≡◌, false};
ghost use Rattle.guarded_core.specs.OfPort.{event_of_port, query_of_port};
ghost use Rattle.iommufd_c.specs.Calls.{CallsBy, LooksBy, ServesBy, TellsJournalBy, TellsNoticesBy};

use super::asked::OfCaller;
use iofd_words::{Act, Answer, CallError, Event, FileNo, NoMemory, ObjId, Query, Span};
use shared_iommufd::{IoctlAnswer, JournalError, NotNow, Pass, Server, Stamp, TryError};

/// Applies an event, as `Server::try_call` does. One that only a port makes isn't allowed.
#[derive(Drop)]
pub(crate) struct Call {
    pub(crate) event: Event,
}

impl OfCaller for Call {
    type Told = Result<Stamp, TryError<NoMemory>>;

    ghost may = { λ it. event_of_port it.event ≡ false };

    ghost does = { λ it. CallsBy it.event };

    fn ask(self, server: &Server, pass: &mut Pass) -> Self::Told {
        let act = Act {
            event: self.event,
            via: None,
        };
        server.try_call(pass, &act)
    }
}

/// Answers a question, as `Server::try_look` does. One that only a port asks isn't allowed.
#[derive(Drop)]
pub(crate) struct Look<'a> {
    pub(crate) query: &'a Query,
}

impl<'a> OfCaller for Look<'a> {
    type Told = Result<Answer, NotNow>;

    ghost may = { λ it. query_of_port it.query.now ≡ false };

    ghost does = { λ it. LooksBy it.query.now };

    fn ask(self, server: &Server, pass: &mut Pass) -> Self::Told {
        server.try_look(pass, self.query)
    }
}

/// Tells the notices of an access object, as `Server::try_notices` does.
#[derive(Drop)]
pub(crate) struct Notices {
    pub(crate) file: FileNo,
    pub(crate) access: ObjId,
}

impl OfCaller for Notices {
    type Told = Result<Vec<Span>, TryError<CallError>>;

    ghost may = { λ it. Unit {0} };

    ghost does = { λ it. TellsNoticesBy it.file it.access };

    fn ask(self, server: &Server, pass: &mut Pass) -> Self::Told {
        server.try_notices(pass, self.file, self.access)
    }
}

/// Tells the journal, as `Server::try_journal` does.
#[derive(Drop)]
pub(crate) struct Journal;

impl OfCaller for Journal {
    type Told = Result<Vec<u8>, TryError<JournalError>>;

    ghost may = { λ it. Unit {0} };

    ghost does = { λ it. TellsJournalBy };

    fn ask(self, server: &Server, pass: &mut Pass) -> Self::Told {
        server.try_journal(pass)
    }
}

/// Carries out a call of ioctl, as `Server::try_ioctl` does.
#[derive(Drop)]
pub(crate) struct Ioctl<'a> {
    pub(crate) file: FileNo,
    pub(crate) number: u32,
    pub(crate) bytes: &'a [u8],
}

impl<'a> OfCaller for Ioctl<'a> {
    type Told = Result<IoctlAnswer, TryError<NoMemory>>;

    ghost may = { λ it. Unit {0} };

    ghost does = { λ it. ServesBy it.file it.number it.bytes.now };

    fn ask(self, server: &Server, pass: &mut Pass) -> Self::Told {
        server.try_ioctl(pass, self.file, self.number, self.bytes)
    }
}
