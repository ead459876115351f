//! The calls of devices' ports that don't wait.

ghost use Rattle.std.specs.Prelude.{◌≡◌};
ghost use Rattle.iommufd_c.specs.Calls.{ReadsBytesBy, TakesTurnBy, TranslatesPageBy, WritesBytesBy};

use super::asked::OfDevice;
use super::device::Access;
use super::turn::Turn;
use iofd_words::{AccessKind, Iova, NoMemory, Translation};
use shared_iommufd::{NotNow, Port, Server, Stamp, TryError};

/// Makes the record of a turn, as `Port::try_flush`, `try_attach` and `try_detach` do. Before, the port forgets all
/// pages.
#[derive(Drop)]
pub(crate) struct TakeTurn {
    pub(crate) turn: Turn,
}

impl OfDevice for TakeTurn {
    type Told = Result<Stamp, TryError<NoMemory>>;

    ghost does = { λ it old new. TakesTurnBy it.turn };

    fn ask(self, server: &Server, port: &mut Port, _buffer: &mut [u8]) -> Self::Told {
        match self.turn {
            Turn::Flush => port.try_flush(server),
            Turn::Attach(pt_id) => port.try_attach(server, pt_id),
            Turn::Detach => port.try_detach(server),
        }
    }
}

/// Reads bytes of the device's memory into the buffer, as `Port::try_read` does.
#[derive(Drop)]
pub(crate) struct Read {
    pub(crate) iova: Iova,
}

impl OfDevice for Read {
    type Told = Access;

    ghost does = { λ it old new. ReadsBytesBy it.iova.0 old new };

    fn ask(self, server: &Server, port: &mut Port, buffer: &mut [u8]) -> Self::Told {
        let ended = port.try_read(server, self.iova, buffer);
        Access { ended, last: None }
    }
}

/// Writes bytes into the device's memory, as `Port::try_write` does.
#[derive(Drop)]
pub(crate) struct Write<'a> {
    pub(crate) iova: Iova,
    pub(crate) bytes: &'a [u8],
}

impl<'a> OfDevice for Write<'a> {
    type Told = Access;

    ghost does = { λ it old new. WritesBytesBy it.iova.0 it.bytes.now };

    fn ask(self, server: &Server, port: &mut Port, _buffer: &mut [u8]) -> Self::Told {
        let ended = port.try_write(server, self.iova, self.bytes);
        let last = port.last();
        Access { ended, last }
    }
}

/// Tells what a page is translated to for the device, as `Port::try_translate` does.
#[derive(Drop)]
pub(crate) struct Translate {
    pub(crate) iova: Iova,
    pub(crate) kind: AccessKind,
}

impl OfDevice for Translate {
    type Told = Result<Option<Translation>, NotNow>;

    ghost does = { λ it old new. TranslatesPageBy it.iova.0 it.kind };

    fn ask(self, server: &Server, port: &mut Port, _buffer: &mut [u8]) -> Self::Told {
        port.try_translate(server, self.iova, self.kind)
    }
}
