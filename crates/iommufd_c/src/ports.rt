//! Accesses and turns of a device, by its port's handle.

ghost use Rattle.std.specs.Prelude.{◌≡◌};
ghost use Rattle.iommufd_c.specs.declared.handle.turn.Turn.TheVariants as turns;
ghost use Rattle.iommufd_c.specs.Exports.{IsRead, IsTranslated, IsTurned, IsWritten, kind_of};

use crate::handle::{Handle, Read, TakeTurn, Translate, Turn, Write};
use crate::outcome::{Outcome, access_outcome, call_outcome};
use crate::status::{access_status, call_status, translate_status};
use crate::translated::{TranslationRow, put_translation};
use iofd_words::{AccessKind, Iova, ObjId};
use std::alloc::Global;

// Takes a device's turn by its port's handle.
fn take_turn(alloc: Global, handle: &mut Handle, turn: Turn, out: &mut Outcome) -> i32
    ensures { IsTurned turn handle.old.client result out.new handle.new.client }
{
    let told = handle.of_device(alloc, TakeTurn { turn }, &mut []);
    *out = call_outcome(&told);
    call_status(&told)
}

/// The device has forgotten what it had cached.
#[unsafe(no_mangle)]
pub extern "C" fn defnulk_raw_port_flush(
    alloc: Global,
    handle: &mut Handle,
    out: &mut Outcome,
) -> i32
    ensures { IsTurned turns.Flush handle.old.client result out.new handle.new.client }
{
    take_turn(alloc, handle, Turn::Flush, out)
}

/// Attaches the device to the address space or the hardware page table of this id. The value is the id of the page
/// table used.
#[unsafe(no_mangle)]
pub extern "C" fn defnulk_raw_port_attach(
    alloc: Global,
    handle: &mut Handle,
    pt_id: u32,
    out: &mut Outcome,
) -> i32
    ensures { IsTurned (turns.Attach (record { 0 = pt_id })) handle.old.client result out.new handle.new.client }
{
    take_turn(alloc, handle, Turn::Attach(ObjId(pt_id)), out)
}

/// Ends the device's attachment.
#[unsafe(no_mangle)]
pub extern "C" fn defnulk_raw_port_detach(
    alloc: Global,
    handle: &mut Handle,
    out: &mut Outcome,
) -> i32
    ensures { IsTurned turns.Detach handle.old.client result out.new handle.new.client }
{
    take_turn(alloc, handle, Turn::Detach, out)
}

/// Reads bytes of the device's memory, as many as the buffer has. The value is how many were read before the first
/// piece that wasn't.
#[unsafe(no_mangle)]
pub extern "C" fn defnulk_raw_port_read(
    alloc: Global,
    handle: &mut Handle,
    iova: u64,
    buffer: &mut [u8],
    out: &mut Outcome,
) -> i32
    ensures { IsRead iova handle.old.client result buffer.old buffer.new out.new handle.new.client }
{
    let access = handle.of_device(alloc, Read { iova: Iova(iova) }, buffer);
    *out = access_outcome(buffer.len(), &access);
    access_status(&access)
}

/// Writes these bytes into the device's memory. The value is how many were written before the first piece that wasn't.
#[unsafe(no_mangle)]
pub extern "C" fn defnulk_raw_port_write(
    alloc: Global,
    handle: &mut Handle,
    iova: u64,
    bytes: &[u8],
    out: &mut Outcome,
) -> i32
    ensures { IsWritten iova bytes.now handle.old.client result out.new handle.new.client }
{
    let call = Write {
        iova: Iova(iova),
        bytes,
    };
    let access = handle.of_device(alloc, call, &mut []);
    *out = access_outcome(bytes.len(), &access);
    access_status(&access)
}

// The right that is asked for.
fn kind_of(write: u8) -> AccessKind
    ensures { result ≡ kind_of write }
{
    if write == 0 {
        AccessKind::Read
    } else {
        AccessKind::Write
    }
}

/// Tells what the page at the address is translated to for the device, where it has the right to read, or to write
/// where `write` isn't 0. EFAULT where it is translated to nothing with that right. With each error the translation
/// stays as it was.
///
/// It is good until the port is next flushed, attached or detached.
#[unsafe(no_mangle)]
pub extern "C" fn defnulk_raw_port_translate(
    alloc: Global,
    handle: &mut Handle,
    iova: u64,
    write: u8,
    translation: &mut TranslationRow,
) -> i32
    ensures { IsTranslated iova (kind_of write) handle.old.client result translation.old translation.new
        handle.new.client }
{
    let call = Translate {
        iova: Iova(iova),
        kind: kind_of(write),
    };
    let told = handle.of_device(alloc, call, &mut []);
    put_translation(translation, &told);
    translate_status(&told)
}
