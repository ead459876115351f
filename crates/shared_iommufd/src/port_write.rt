//! A device's writes by its port.

use crate::error::{PortCause, PortError};
use crate::pieces::piece_len;
use crate::port::Port;
use crate::server::Server;
use guarded_core::TryError;
use iofd_words::{Burst, Iova, NoMemory, Reply};
use iommufd_core::Stamp;
use std::alloc::Allocator;
use std::sync::Wait;
use std::thread;

impl<A: Allocator + Copy> Port<A> {
    ghost use Rattle.std.specs.Prelude.{◌≡◌, ◌+◌, ◌<◌, ◌≤◌, ◌^◌, false, IfErr, IfOk, OnErr, Some, length};
    ghost use Rattle.iofd_words.specs.Pages.{crosses};
    ghost use Rattle.iofd_words.specs.declared.numbers.FrameNo.{FrameNo};
    ghost use Rattle.lane_lock.specs.Outcomes.{MetNone};
    ghost use Rattle.lane_lock.specs.Passes.{lanes_of, view_of};
    ghost use Rattle.guarded_core.specs.Guarded.{RefusesCommit};
    ghost use Rattle.shared_iommufd.specs.Met.{MetAsTold};
    ghost use Rattle.shared_iommufd.specs.Ports.{IsPortOf, KeepsSame, SamePort, most_of, standing_of};
    ghost use Rattle.shared_iommufd.specs.PortReads.{as_tried};
    ghost use Rattle.shared_iommufd.specs.PortWrites.{DeniesWrite, IsWrittenSo, Writes, WritesOn};
    ghost use Rattle.shared_iommufd.specs.Servers.{settings_of};

    /// Writes these bytes into the device's memory, from the address on. They are written in pieces, cut at pages and
    /// at 64 bytes, each by one record, once all lanes can be had; the first that doesn't pass is the last. Without
    /// bytes it makes no record and takes no lane.
    ///
    /// A page that the port keeps, with the right to write, is written at the frame that it keeps, though its area may
    /// be leaving; of any other the server asks the page table, and the port keeps what it finds, if it has memory for
    /// that.
    ///
    /// The error is how many bytes were written before the first piece that wasn't, and why: it was refused, as Id (11,
    /// ENOENT) where the device isn't bound and InterruptRange (27, EINVAL), or denied, which its record says; or
    /// memory was wanting for its record, and it made none.
    pub fn write<R: Wait>(
        &mut self,
        rt: &R,
        server: &Server<A>,
        iova: Iova,
        bytes: &[u8],
    ) -> Result<(), PortError>
        requires { IsPortOf server.now self.old }
        ensures same_port { SamePort self.old self.new }
        ensures owned { IsPortOf server.now self.new }
        ensures writes { Writes (settings_of server.now) (lanes_of server.now.lock) self.old.device (most_of self.old)
            iova.0 bytes.now (standing_of self.old) (as_tried result) (standing_of self.new) self.new.last }
        ensures idle { length bytes.now ≡ 0 → standing_of self.new ≡ standing_of self.old }
    {
        self.last = None;
        let mut done = 0;
        for _ in rt.forever() {
            match self.write_on(server, iova, bytes, done) {
                Ok(()) => return Ok(()),
                Err(error) => match error.cause {
                    TryError::Call(cause) => {
                        return Err(PortError {
                            done: error.done,
                            cause,
                        });
                    }
                    TryError::NotNow(_) => done = error.done,
                },
            }
            thread::yield_now();
        }
        unreachable!()
    }

    /// The same without waiting. NotNow where a lane is held, or a share of the core is still held elsewhere: then the
    /// next piece has made no record.
    pub fn try_write(
        &mut self,
        server: &Server<A>,
        iova: Iova,
        bytes: &[u8],
    ) -> Result<(), PortError<TryError<PortCause>>>
        requires { IsPortOf server.now self.old }
        ensures same_port { SamePort self.old self.new }
        ensures owned { IsPortOf server.now self.new }
        ensures met { IfOk result (λ _. MetNone (view_of self.old.pass) (view_of self.new.pass)) }
        ensures told { IfErr result (λ e. MetAsTold (view_of self.old.pass) (view_of self.new.pass) e.cause) }
        ensures writes { Writes (settings_of server.now) (lanes_of server.now.lock) self.old.device (most_of self.old)
            iova.0 bytes.now (standing_of self.old) result (standing_of self.new) self.new.last }
        ensures idle { length bytes.now ≡ 0 → standing_of self.new ≡ standing_of self.old }
    {
        self.last = None;
        self.write_on(server, iova, bytes, 0)
    }

    // Goes on with a write of which so many bytes have been written.
    fn write_on(
        &mut self,
        server: &Server<A>,
        iova: Iova,
        bytes: &[u8],
        mut done: usize,
    ) -> Result<(), PortError<TryError<PortCause>>>
        requires owned { IsPortOf server.now self.old }
        requires within { done ≤ length bytes.now }
        requires fits { iova.0 + done < 2 ^ 64 }
        ensures same_port { SamePort self.old self.new }
        ensures owned { IsPortOf server.now self.new }
        ensures met { IfOk result (λ _. MetNone (view_of self.old.pass) (view_of self.new.pass)) }
        ensures told { IfErr result (λ e. MetAsTold (view_of self.old.pass) (view_of self.new.pass) e.cause) }
        ensures writes { WritesOn (settings_of server.now) (lanes_of server.now.lock) self.old.device
            (most_of self.old) iova.0 bytes.now (standing_of self.old) done self.old.last result
            (standing_of self.new) self.new.last }
        ensures idle { done ≡ length bytes.now → standing_of self.new ≡ standing_of self.old }
        ensures within { IfErr result (λ e. e.done < length bytes.now) }
        ensures fits { IfErr result (λ e. iova.0 + e.done < 2 ^ 64) }
    {
        while done < bytes.len() {
            let address = iova.0 + done as u64;
            let len = piece_len(address, bytes.len() - done);
            if let Err(cause) = self.write_piece(server, address, &bytes[done..done + len]) {
                return Err(PortError { done, cause });
            }
            done += len;
        }
        Ok(())
    }

    // Writes one piece, of 1 to 64 bytes, by one record, or says why it isn't written.
    fn write_piece(
        &mut self,
        server: &Server<A>,
        address: u64,
        bytes: &[u8],
    ) -> Result<(), TryError<PortCause>>
        requires owned { IsPortOf server.now self.old }
        requires some { 0 < length bytes.now }
        requires few { length bytes.now ≤ 64 }
        requires inside { crosses address (length bytes.now) ≡ false }
        ensures same_port { SamePort self.old self.new }
        ensures owned { IsPortOf server.now self.new }
        ensures met { IfOk result (λ _. MetNone (view_of self.old.pass) (view_of self.new.pass)) }
        ensures told { IfErr result (MetAsTold (view_of self.old.pass) (view_of self.new.pass)) }
        ensures written { IfOk result (λ _. (frame : FrameNo) × IsWrittenSo (settings_of server.now) self.old.device
            (most_of self.old) address bytes.now (standing_of self.old) (Reply.Passed frame) self.new.last
            (standing_of self.new)) }
        ensures low { IfOk result (λ _. address < 2 ^ 57) }
        ensures denied { IfErr result (λ cause. DeniesWrite (settings_of server.now) (lanes_of server.now.lock)
            self.old.device (most_of self.old) address bytes.now (standing_of self.old) self.old.last cause
            (standing_of self.new) self.new.last) }
    {
        let Some(burst) = Burst::new(bytes) else {
            unreachable!()
        };
        match self.make_write(server, Iova(address), burst) {
            Ok(stamp) => {
                self.last = Some(stamp.at);
                match stamp.reply {
                    Reply::Passed(_) => Ok(()),
                    Reply::Fault(fault) => Err(TryError::Call(PortCause::Fault(fault))),
                    Reply::Refused(refusal) => Err(TryError::Call(PortCause::Refused(refusal))),
                    _ => unreachable!(),
                }
            }
            Err(TryError::Call(error)) => Err(TryError::Call(PortCause::Memory(error))),
            Err(TryError::NotNow(refused)) => Err(TryError::NotNow(refused)),
        }
    }

    // Makes the record of a write in one page under a guard, and keeps what that found.
    fn make_write(
        &mut self,
        server: &Server<A>,
        iova: Iova,
        bytes: Burst,
    ) -> Result<Stamp, TryError<NoMemory>>
        requires owned { IsPortOf server.now self.old }
        requires inside { crosses iova.0 (length bytes) ≡ false }
        ensures same_port { SamePort self.old self.new }
        ensures owned { IsPortOf server.now self.new }
        ensures met { IfOk result (λ _. MetNone (view_of self.old.pass) (view_of self.new.pass)) }
        ensures told { IfErr result (MetAsTold (view_of self.old.pass) (view_of self.new.pass)) }
        ensures written { IfOk result (λ stamp. IsWrittenSo (settings_of server.now) self.old.device (most_of self.old)
            iova.0 bytes (standing_of self.old) stamp.reply (Some stamp.at) (standing_of self.new)) }
        ensures refused { IfErr result (RefusesCommit (lanes_of server.now.lock) (view_of self.old.pass)
            (view_of self.new.pass)) }
        ensures kept { OnErr result (KeepsSame (standing_of self.old) (standing_of self.new)) }
        ensures last { self.new.last ≡ self.old.last }
    {
        match server.try_write_by(&mut self.pass, &self.cache, self.device, iova, bytes) {
            Ok((found, stamp)) => {
                self.cache.keep(iova, &found);
                Ok(stamp)
            }
            Err(error) => Err(error),
        }
    }
}
