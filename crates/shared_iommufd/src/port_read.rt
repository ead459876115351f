//! A device's reads by its port.

ghost use Rattle.std.specs.Prelude.{◌≡◌, IfErr, OnErr, OnOk, length};
ghost use Rattle.shared_iommufd.specs.PortReads.{IsDenial, IsReadAnswer};

use crate::error::{PortCause, PortError};
use crate::pieces::piece_len;
use crate::port::Port;
use crate::server::Server;
use guarded_core::TryError;
use iofd_words::{Answer, Iova};
use lane_lock::NotNow;
use std::alloc::Allocator;
use std::sync::Wait;
use std::thread;

// Puts the bytes that were read into a piece of as many, or says why there are none.
fn put(piece: &mut [u8], answer: &Answer) -> Result<(), PortCause>
    requires { IsReadAnswer (length piece.old) answer.now }
    ensures read { OnOk result (answer.now ≡ Answer.Read piece.new) }
    ensures denied { IfErr result (IsDenial answer.now) }
    ensures kept { OnErr result (piece.new ≡ piece.old) }
{
    match answer {
        Answer::Read(bytes) => {
            piece.copy_from_slice(bytes.as_slice());
            Ok(())
        }
        Answer::Fault(fault) => Err(PortCause::Fault(*fault)),
        Answer::Refused(refusal) => Err(PortCause::Refused(*refusal)),
        Answer::Count(_) | Answer::Attached(_) | Answer::Walk(_) | Answer::Dirty(_) => {
            unreachable!()
        }
    }
}

impl<A: Allocator + Copy> Port<A> {
    ghost use Rattle.std.specs.Prelude.{◌+◌, ◌<◌, ◌≤◌, ◌^◌, false, IfOk};
    ghost use Rattle.iofd_words.specs.Pages.{crosses};
    ghost use Rattle.lane_lock.specs.Outcomes.{MetNone, OnlySees};
    ghost use Rattle.lane_lock.specs.Passes.{view_of};
    ghost use Rattle.shared_iommufd.specs.Met.{MetAsTold};
    ghost use Rattle.shared_iommufd.specs.Ports.{IsPortOf, SamePort, most_of, standing_of};
    ghost use Rattle.shared_iommufd.specs.PortReads.{DeniesRead, IsReadSo, Reads, ReadsOn, as_tried};
    ghost use Rattle.shared_iommufd.specs.Servers.{settings_of};

    /// Reads bytes of the device's memory, from the address on, as many as the buffer has. They are read in pieces, cut
    /// at pages and at 64 bytes, each as of all records that the port's pass has then seen, once its lane can be had.
    /// It makes no record, and for an empty buffer takes no lane.
    ///
    /// A page that the port keeps, with the right to read, is read at the frame that it keeps, though its area may be
    /// leaving; of any other the server asks the page table, and the port keeps what it finds. Where there is no memory
    /// for that, the page is read all the same.
    ///
    /// The error is how many bytes were read before the first piece that wasn't, and why: it was refused, as Id (11,
    /// ENOENT) where the device isn't bound and InterruptRange (27, EINVAL), or denied; never want of memory. The rest
    /// of the buffer stays as it was.
    pub fn read<R: Wait>(
        &mut self,
        rt: &R,
        server: &Server<A>,
        iova: Iova,
        buffer: &mut [u8],
    ) -> Result<(), PortError>
        requires { IsPortOf server.now self.old }
        ensures same_port { SamePort self.old self.new }
        ensures owned { IsPortOf server.now self.new }
        ensures sees { OnlySees (view_of self.old.pass) (view_of self.new.pass) }
        ensures reads { Reads (settings_of server.now) self.old.device (most_of self.old) iova.0 buffer.old
            (standing_of self.old) (as_tried result) (standing_of self.new) buffer.new }
        ensures last { self.new.last ≡ None }
        ensures idle { length buffer.old ≡ 0 → standing_of self.new ≡ standing_of self.old }
    {
        self.last = None;
        let mut done = 0;
        for _ in rt.forever() {
            match self.read_on(server, iova, buffer, done) {
                Ok(()) => return Ok(()),
                Err(error) => match error.cause {
                    TryError::Call(cause) => {
                        return Err(PortError {
                            done: error.done,
                            cause,
                        });
                    }
                    TryError::NotNow(_) => done = error.done,
                },
            }
            thread::yield_now();
        }
        unreachable!()
    }

    /// The same without waiting. NotNow where the lane of the pass is held or empty: then the next piece has shown
    /// nothing.
    pub fn try_read(
        &mut self,
        server: &Server<A>,
        iova: Iova,
        buffer: &mut [u8],
    ) -> Result<(), PortError<TryError<PortCause>>>
        requires { IsPortOf server.now self.old }
        ensures same_port { SamePort self.old self.new }
        ensures owned { IsPortOf server.now self.new }
        ensures sees { OnlySees (view_of self.old.pass) (view_of self.new.pass) }
        ensures met { IfOk result (λ _. MetNone (view_of self.old.pass) (view_of self.new.pass)) }
        ensures told { IfErr result (λ e. MetAsTold (view_of self.old.pass) (view_of self.new.pass) e.cause) }
        ensures reads { Reads (settings_of server.now) self.old.device (most_of self.old) iova.0 buffer.old
            (standing_of self.old) result (standing_of self.new) buffer.new }
        ensures last { self.new.last ≡ None }
        ensures idle { length buffer.old ≡ 0 → standing_of self.new ≡ standing_of self.old }
    {
        self.last = None;
        self.read_on(server, iova, buffer, 0)
    }

    // Goes on with a read of which so many bytes have been read.
    fn read_on(
        &mut self,
        server: &Server<A>,
        iova: Iova,
        buffer: &mut [u8],
        mut done: usize,
    ) -> Result<(), PortError<TryError<PortCause>>>
        requires owned { IsPortOf server.now self.old }
        requires within { done ≤ length buffer.old }
        requires fits { iova.0 + done < 2 ^ 64 }
        ensures same_port { SamePort self.old self.new }
        ensures owned { IsPortOf server.now self.new }
        ensures sees { OnlySees (view_of self.old.pass) (view_of self.new.pass) }
        ensures met { IfOk result (λ _. MetNone (view_of self.old.pass) (view_of self.new.pass)) }
        ensures told { IfErr result (λ e. MetAsTold (view_of self.old.pass) (view_of self.new.pass) e.cause) }
        ensures reads { ReadsOn (settings_of server.now) self.old.device (most_of self.old) iova.0
            (standing_of self.old) done buffer.old result (standing_of self.new) buffer.new }
        ensures last { self.new.last ≡ self.old.last }
        ensures idle { done ≡ length buffer.old → standing_of self.new ≡ standing_of self.old }
        ensures within { IfErr result (λ e. e.done < length buffer.old) }
        ensures fits { IfErr result (λ e. iova.0 + e.done < 2 ^ 64) }
    {
        while done < buffer.len() {
            let address = iova.0 + done as u64;
            let len = piece_len(address, buffer.len() - done);
            if let Err(cause) = self.read_piece(server, address, &mut buffer[done..done + len]) {
                return Err(PortError { done, cause });
            }
            done += len;
        }
        Ok(())
    }

    // Reads one piece, or says why it isn't read.
    fn read_piece(
        &mut self,
        server: &Server<A>,
        address: u64,
        piece: &mut [u8],
    ) -> Result<(), TryError<PortCause>>
        requires owned { IsPortOf server.now self.old }
        requires few { length piece.old ≤ 64 }
        requires inside { crosses address (length piece.old) ≡ false }
        ensures same_port { SamePort self.old self.new }
        ensures owned { IsPortOf server.now self.new }
        ensures sees { OnlySees (view_of self.old.pass) (view_of self.new.pass) }
        ensures met { IfOk result (λ _. MetNone (view_of self.old.pass) (view_of self.new.pass)) }
        ensures told { IfErr result (MetAsTold (view_of self.old.pass) (view_of self.new.pass)) }
        ensures read { IfOk result (λ _. IsReadSo (settings_of server.now) self.old.device (most_of self.old) address
            (length piece.old) (standing_of self.old) (Answer.Read piece.new) (standing_of self.new)) }
        ensures low { IfOk result (λ _. address < 2 ^ 57) }
        ensures denied { IfErr result (λ cause. DeniesRead (settings_of server.now) self.old.device (most_of self.old)
            address (length piece.old) (standing_of self.old) cause (standing_of self.new)) }
        ensures kept { OnErr result (piece.new ≡ piece.old) }
        ensures last { self.new.last ≡ self.old.last }
    {
        match self.ask(server, Iova(address), piece.len() as u8) {
            Ok(answer) => match put(piece, &answer) {
                Ok(()) => Ok(()),
                Err(cause) => Err(TryError::Call(cause)),
            },
            Err(refused) => Err(TryError::NotNow(refused)),
        }
    }

    // Asks for so many bytes in one page under a guard, and keeps what that found.
    fn ask(&mut self, server: &Server<A>, iova: Iova, len: u8) -> Result<Answer, NotNow>
        requires owned { IsPortOf server.now self.old }
        requires inside { crosses iova.0 len ≡ false }
        ensures same_port { SamePort self.old self.new }
        ensures owned { IsPortOf server.now self.new }
        ensures sees { OnlySees (view_of self.old.pass) (view_of self.new.pass) }
        ensures met { IfOk result (λ _. MetNone (view_of self.old.pass) (view_of self.new.pass)) }
        ensures told { IfErr result (λ refused. MetAsTold {C = PortCause} (view_of self.old.pass) (view_of self.new.pass)
            (TryError.NotNow refused)) }
        ensures answered { IfOk result (λ told. IsReadSo (settings_of server.now) self.old.device (most_of self.old)
            iova.0 len (standing_of self.old) told (standing_of self.new)) }
        ensures refused { IfErr result (λ refused. DeniesRead (settings_of server.now) self.old.device
            (most_of self.old) iova.0 len (standing_of self.old) (TryError.NotNow refused) (standing_of self.new)) }
        ensures last { self.new.last ≡ self.old.last }
    {
        match server.try_read_by(&mut self.pass, &self.cache, self.device, iova, len) {
            Ok((found, answer)) => {
                self.cache.keep(iova, &found);
                Ok(answer)
            }
            Err(refused) => Err(refused),
        }
    }
}
