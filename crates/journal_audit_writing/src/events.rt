//! Events and replies, appended to bytes.

ghost use Rattle.std.specs.Prelude.{◌≡◌, ◌^◌, ◌<◌, true, OnOk, length};
ghost use Rattle.iofd_words.specs.declared.reply.Reply.TheVariants as answer;
ghost use Rattle.journal_audit_bytes.specs.Format as format;
ghost use Rattle.journal_audit_bytes.specs.Format.{ListFits, list_spelled};
ghost use Rattle.journal_audit_bytes.specs.Reading.{of_frames, pairs, singles};
ghost use Rattle.journal_audit_writing.specs.Texts.{HasWords, ListOfFits, NumbersFit, dirty_fields, event_numbers};
ghost use Rattle.journal_audit_writing.specs.Texts.{event_text, is_kept_event, list_text, numbers_text, pin_fields};
ghost use Rattle.journal_audit_writing.specs.Texts.{reply_numbers};
ghost use Rattle.journal_audit_writing.specs.Writing.{Appends};

use crate::number::{Number, Spell, spell_all, spell_counted};
use iofd_words::{
    Burst, DirtyRequest, Event, FileNo, FrameNo, IovaRange, NoMemory, ObjId, PinRequest, Reply,
};
use std::alloc::Allocator;

// The numbers of an AccessPin or an AccessUnpin.
fn spell_pin<A: Allocator>(
    out: &mut Vec<u8, A>,
    tag: u8,
    file: FileNo,
    id: ObjId,
    pin: PinRequest,
) -> Result<(), NoMemory>
    ensures bytes { Appends result out.old.items out.new.items (numbers_text (pin_fields tag file.0 id.0 pin)) }
    ensures fits { OnOk result (NumbersFit (pin_fields tag file.0 id.0 pin)) }
{
    let (file, id, write) = (file.0, id.0, u8::from(pin.write));
    let (iova, length) = (pin.iova.0, pin.length);
    let numbers = [
        Number::U8(tag),
        Number::U16(file),
        Number::U32(id),
        Number::U64(iova),
        Number::U64(length),
        Number::U8(write),
    ];
    spell_all(out, &numbers)
}

// The tag and the numbers of a DirtyClear.
fn spell_clear<A: Allocator>(
    out: &mut Vec<u8, A>,
    file: FileNo,
    request: DirtyRequest,
) -> Result<(), NoMemory>
    ensures bytes { Appends result out.old.items out.new.items (numbers_text (dirty_fields file.0 request)) }
    ensures fits { OnOk result (NumbersFit (dirty_fields file.0 request)) }
{
    let (file, hwpt) = (file.0, request.hwpt.0);
    let (iova, length) = (request.iova.0, request.length);
    let numbers = [
        Number::U8(0xf1),
        Number::U16(file),
        Number::U32(hwpt),
        Number::U64(iova),
        Number::U64(length),
    ];
    spell_all(out, &numbers)
}

// The tag of an event, and its numbers.
fn spell_numbers<A: Allocator, B: Allocator>(
    out: &mut Vec<u8, A>,
    event: &Event<B>,
) -> Result<(), NoMemory>
    ensures bytes { Appends result out.old.items out.new.items (numbers_text (event_numbers event.now)) }
    ensures fits { OnOk result (NumbersFit (event_numbers event.now)) }
{
    use Number::{U8, U16, U32, U64};
    match event {
        Event::Close(file) => spell_all(out, &[U8(0x01), U16(file.0)]),
        Event::UserMap(user, va) => spell_all(out, &[U8(0x02), U16(user.0), U64(*va)]),
        Event::UserUnmap(user, va) => spell_all(out, &[U8(0x03), U16(user.0), U64(*va)]),
        Event::UserWrite(user, va, _) => spell_all(out, &[U8(0x04), U16(user.0), U64(*va)]),
        Event::Bind(file, device) => spell_all(out, &[U8(0x05), U16(file.0), U16(device.0)]),
        Event::Unbind(file, id) => spell_all(out, &[U8(0x06), U16(file.0), U32(id.0)]),
        Event::Attach(device, pt_id) => spell_all(out, &[U8(0x07), U16(device.0), U32(pt_id.0)]),
        Event::Detach(device) => spell_all(out, &[U8(0x08), U16(device.0)]),
        Event::Flush(device) => spell_all(out, &[U8(0x09), U16(device.0)]),
        Event::DeviceWrite(device, iova, _) => {
            spell_all(out, &[U8(0x0a), U16(device.0), U64(iova.0)])
        }
        Event::AccessCreate(file) => spell_all(out, &[U8(0x0b), U16(file.0)]),
        Event::AccessAttach(file, id, ioas) => {
            spell_all(out, &[U8(0x0c), U16(file.0), U32(id.0), U32(ioas.0)])
        }
        Event::AccessDetach(file, id) => spell_all(out, &[U8(0x0d), U16(file.0), U32(id.0)]),
        Event::AccessPin(file, id, request) => spell_pin(out, 0x0e, *file, *id, *request),
        Event::AccessUnpin(file, id, request) => spell_pin(out, 0x0f, *file, *id, *request),
        Event::AccessWrite(file, id, iova, _) => {
            spell_all(out, &[U8(0x10), U16(file.0), U32(id.0), U64(iova.0)])
        }
        Event::Destroy(file, id) => spell_all(out, &[U8(0x80), U16(file.0), U32(id.0)]),
        Event::IoasAlloc(file) => spell_all(out, &[U8(0x81), U16(file.0)]),
        Event::AllowIovas(file, ioas, _) => spell_all(out, &[U8(0x82), U16(file.0), U32(ioas.0)]),
        Event::Copy(file, copy) => {
            let front = [
                U8(0x83),
                U16(file.0),
                U32(copy.flags.0),
                U32(copy.dst_ioas.0),
                U32(copy.src_ioas.0),
                U64(copy.length),
                U64(copy.dst_iova.0),
                U64(copy.src_iova.0),
            ];
            spell_all(out, &front)
        }
        Event::Map(file, map) => {
            let front = [
                U8(0x85),
                U16(file.0),
                U32(map.flags.0),
                U32(map.ioas.0),
                U64(map.user_va),
                U64(map.length),
                U64(map.iova.0),
            ];
            spell_all(out, &front)
        }
        Event::Unmap(file, unmap) => {
            let front = [
                U8(0x86),
                U16(file.0),
                U32(unmap.ioas.0),
                U64(unmap.iova.0),
                U64(unmap.length),
            ];
            spell_all(out, &front)
        }
        Event::HwptAlloc(file, request) => spell_all(
            out,
            &[
                U8(0x89),
                U16(file.0),
                U32(request.device.0),
                U32(request.ioas.0),
            ],
        ),
        Event::DirtyEnable(file, hwpt, on) => {
            spell_all(
                out,
                &[U8(0xf0), U16(file.0), U32(hwpt.0), U8(u8::from(*on))],
            )
        }
        Event::DirtyClear(file, request) => spell_clear(out, *file, *request),
    }
}

// The bytes of an access behind their number.
fn spell_burst<A: Allocator>(out: &mut Vec<u8, A>, burst: &Burst) -> Result<(), NoMemory>
    ensures bytes { Appends result out.old.items out.new.items (list_spelled format.burst (singles burst.now)) }
    ensures fits { OnOk result (ListFits format.burst (singles burst.now)) }
{
    let bytes = burst.as_slice();
    Number::U8(bytes.len() as u8).spell(out)?;
    spell_all(out, bytes)
}

// Ranges behind their number.
fn spell_ranges<A: Allocator>(out: &mut Vec<u8, A>, ranges: &[IovaRange]) -> Result<(), NoMemory>
    requires { length ranges.now < 2 ^ 32 }
    ensures bytes { Appends result out.old.items out.new.items (list_spelled format.entries (pairs ranges.now)) }
    ensures fits { OnOk result (ListFits format.entries (pairs ranges.now)) }
{
    Number::U32(ranges.len() as u32).spell(out)?;
    spell_all(out, ranges)
}

/// Appends table frames behind their number.
pub fn spell_frames<A: Allocator>(out: &mut Vec<u8, A>, frames: &[FrameNo]) -> Result<(), NoMemory>
    requires { length frames.now < 2 ^ 16 }
    ensures bytes { Appends result out.old.items out.new.items (list_spelled format.frames (of_frames frames.now)) }
    ensures fits { OnOk result (ListFits format.frames (of_frames frames.now)) }
{
    spell_counted(out, frames)
}

// The list of an event, if it has one.
fn spell_list<A: Allocator, B: Allocator>(
    out: &mut Vec<u8, A>,
    event: &Event<B>,
) -> Result<(), NoMemory>
    requires { is_kept_event event.now ≡ true }
    ensures bytes { Appends result out.old.items out.new.items (list_text event.now) }
    ensures fits { OnOk result (ListOfFits event.now) }
{
    match event {
        Event::UserWrite(_, _, burst) => spell_burst(out, burst),
        Event::DeviceWrite(_, _, burst) => spell_burst(out, burst),
        Event::AccessWrite(_, _, _, burst) => spell_burst(out, burst),
        Event::AllowIovas(_, _, ranges) => spell_ranges(out, ranges.as_slice()),
        _ => Ok(()),
    }
}

/// Appends an event: its tag, its numbers, and the list behind them.
pub fn spell_event<A: Allocator, B: Allocator>(
    out: &mut Vec<u8, A>,
    event: &Event<B>,
) -> Result<(), NoMemory>
    requires { is_kept_event event.now ≡ true }
    ensures bytes { Appends result out.old.items out.new.items (event_text event.now) }
    ensures numbers_fit { OnOk result (NumbersFit (event_numbers event.now)) }
    ensures list_fits { OnOk result (ListOfFits event.now) }
{
    spell_numbers(out, event)?;
    spell_list(out, event)
}

// The tag and the words of a report.
fn spell_words<A: Allocator>(out: &mut Vec<u8, A>, words: &[u64; 4]) -> Result<(), NoMemory>
    ensures bytes { Appends result out.old.items out.new.items (numbers_text (reply_numbers (answer.Dirty words.now))) }
    ensures fits { OnOk result (NumbersFit (reply_numbers (answer.Dirty words.now))) }
    ensures four { length words.now ≡ 4 }
{
    let [first, second, third, fourth] = *words;
    let numbers = [
        Number::U8(0x09),
        Number::U64(first),
        Number::U64(second),
        Number::U64(third),
        Number::U64(fourth),
    ];
    spell_all(out, &numbers)
}

/// Appends what a record tells of a reply.
pub fn spell_reply<A: Allocator>(out: &mut Vec<u8, A>, reply: &Reply) -> Result<(), NoMemory>
    ensures bytes { Appends result out.old.items out.new.items (numbers_text (reply_numbers reply.now)) }
    ensures fits { OnOk result (NumbersFit (reply_numbers reply.now)) }
    ensures words { OnOk result (HasWords reply.now) }
{
    use Number::{U8, U32, U64};
    match reply {
        Reply::Done => spell_all(out, &[U8(0x00)]),
        Reply::Id(id) => spell_all(out, &[U8(0x01), U32(id.0)]),
        Reply::Iova(iova) => spell_all(out, &[U8(0x02), U64(iova.0)]),
        Reply::Bytes(count) => spell_all(out, &[U8(0x03), U64(*count)]),
        Reply::Pending(errno) => spell_all(out, &[U8(0x04), U8(errno.number())]),
        Reply::Frame(frame) => spell_all(out, &[U8(0x05), U32(frame.0)]),
        Reply::Passed(frame) => spell_all(out, &[U8(0x06), U32(frame.0)]),
        Reply::Fault(fault) => spell_all(out, &[U8(0x07), U8(fault.reason.number())]),
        Reply::Refused(refusal) => spell_all(out, &[U8(0x08), U8(refusal.number())]),
        Reply::Dirty(words) => spell_words(out, words),
    }
}
