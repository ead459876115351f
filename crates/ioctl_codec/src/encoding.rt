//! From commands, and replies to them, to bytes.

ghost use Rattle.std.specs.Prelude.{◌≡◌, ◌^◌, ◌<◌, ◌≤◌, ◌++◌, length, take, drop, None, IsTrue};
ghost use Rattle.std.specs.Prelude.{IfOk, OnOk, OnErr};
ghost use Rattle.iofd_words.specs.Rights.{is_fixed};
ghost use Rattle.ioctl_codec.specs.Entries.{AreAddresses, entries_bytes};
ghost use Rattle.ioctl_codec.specs.Layout.{AreOfWidth, filled, structure_bytes};
ghost use Rattle.ioctl_codec.specs.Structures.{copy_values, entries_of, ioas_copy, ioas_map, is_spellable, map_values};
ghost use Rattle.ioctl_codec.specs.Structures.{dirty_enable, dirty_report, enable_values, flag_value, report_values};
ghost use Rattle.ioctl_codec.specs.Structures.{structure_of, values_of};
ghost use Rattle.ioctl_codec.specs.Spelling.{answer_of, canonical, ranges_written_back, told_words, word_count};
ghost use Rattle.ioctl_codec.specs.Spelling.{written_back, Spells};

use crate::command::{Command, RangesRequest, kept_iova};
use crate::entries::{put_ranges, put_spans};
use crate::fields::{put_structure, put_words};
use crate::structure::{
    DESTROY_ROW, DIRTY_ENABLE_ROW, DIRTY_FLAG, DIRTY_REPORT_ROW, HWPT_ALLOC_ROW, IOAS_ALLOC_ROW,
    IOAS_ALLOW_IOVAS_ROW, IOAS_COPY_ROW, IOAS_IOVA_RANGES_ROW, IOAS_MAP_ROW, IOAS_UNMAP_ROW,
};
use iofd_words::{CopyRequest, DirtyRequest, MapRequest, NoMemory, ObjId, Reply, Span};
use std::alloc::Allocator;

// What `out_iova_alignment` says: addresses are mapped by whole pages.
const IOVA_ALIGNMENT: u64 = 4096;

// What a good reply puts into the answer's field, if the structure has one; no other reply is written back.
fn answer_of<A: Allocator>(command: &Command<A>, reply: &Reply) -> Option<Option<u64>>
    ensures { result ≡ answer_of command.now reply.now }
{
    match (command, *reply) {
        (Command::Destroy(_), Reply::Done) => Some(None),
        (Command::IoasAlloc, Reply::Id(id)) => Some(Some(u64::from(id.0))),
        (Command::IoasAllowIovas(_, _), Reply::Done) if command.is_spellable() => Some(None),
        (Command::IoasCopy(_), Reply::Iova(iova)) => Some(Some(iova.0)),
        (Command::IoasMap(_), Reply::Iova(iova)) => Some(Some(iova.0)),
        (Command::IoasUnmap(_), Reply::Bytes(count)) => Some(Some(count)),
        (Command::HwptAlloc(_), Reply::Id(id)) => Some(Some(u64::from(id.0))),
        (Command::DirtyEnable(_, _), Reply::Done) => Some(None),
        (Command::DirtyReport(_, _), Reply::Dirty(_)) => Some(None),
        _ => None,
    }
}

// Of the words of a report those that have a page of a span of this length in them: 64 pages stand in each.
fn words_for(span_length: u64, words: &[u64; 4]) -> &[u64]
    ensures words { result.now ≡ take (word_count span_length) words.now }
    ensures few { length result.now ≤ 4 }
{
    let count = (span_length / 4096 + 63) / 64;
    &words[..count.min(4) as usize]
}

// The words that are written back: those of a report.
fn told_words<'a, A: Allocator>(command: &Command<A>, reply: &'a Reply) -> &'a [u64]
    ensures words { result.now ≡ told_words command.now reply.now }
    ensures few { length result.now ≤ 4 }
{
    match (command, reply) {
        (Command::DirtyReport(request, _), Reply::Dirty(words)) => words_for(request.length, words),
        _ => &[],
    }
}

// Writes a COPY with this answer, if there is one, to the front, and else its one spelling.
fn put_copy(out: &mut [u8; 64], copy: CopyRequest, answer: Option<u64>) -> usize
    ensures count { result ≡ 40 }
    ensures bytes { out.new
        ≡ structure_bytes (ioas_copy (is_fixed copy.flags)) (copy_values copy) answer ++ drop result out.old }
    ensures fits { let fields = (ioas_copy (is_fixed copy.flags)).fields in
        AreOfWidth fields (filled fields (copy_values copy) None) }
{
    let numbers = [
        u64::from(copy.flags.0),
        u64::from(copy.dst_ioas.0),
        u64::from(copy.src_ioas.0),
        copy.length,
        answer.unwrap_or(kept_iova(copy.flags, copy.dst_iova).0),
        copy.src_iova.0,
    ];
    put_structure(out, IOAS_COPY_ROW, &numbers)
}

// The same of a MAP.
fn put_map(out: &mut [u8; 64], map: MapRequest, answer: Option<u64>) -> usize
    ensures count { result ≡ 40 }
    ensures bytes { out.new
        ≡ structure_bytes (ioas_map (is_fixed map.flags)) (map_values map) answer ++ drop result out.old }
    ensures fits { let fields = (ioas_map (is_fixed map.flags)).fields in
        AreOfWidth fields (filled fields (map_values map) None) }
{
    let numbers = [
        u64::from(map.flags.0),
        u64::from(map.ioas.0),
        0,
        map.user_va,
        map.length,
        answer.unwrap_or(kept_iova(map.flags, map.iova).0),
    ];
    put_structure(out, IOAS_MAP_ROW, &numbers)
}

// The flags of a DIRTY_ENABLE or a DIRTY_REPORT.
fn flags_of(is_set: bool) -> u32
    ensures value { result ≡ flag_value is_set }
    ensures fits { flag_value is_set < 2 ^ 32 }
{
    if is_set { DIRTY_FLAG } else { 0 }
}

// Writes a DIRTY_ENABLE, which no answer changes, to the front.
#[tactic(auto, unfolding(crate::specs::Layout::structure_bytes))]
fn put_dirty_enable(out: &mut [u8; 64], hwpt: ObjId, on: bool) -> usize
    ensures count { result ≡ 16 }
    ensures bytes { out.new ≡ structure_bytes dirty_enable (enable_values hwpt on) None ++ drop result out.old }
    ensures fits { let fields = dirty_enable.fields in
        AreOfWidth fields (filled fields (enable_values hwpt on) None) }
{
    let numbers = [u64::from(hwpt.0), u64::from(flags_of(on)), 0];
    put_structure(out, DIRTY_ENABLE_ROW, &numbers)
}

// The same of a DIRTY_REPORT, without words.
#[tactic(auto, unfolding(crate::specs::Layout::structure_bytes))]
fn put_dirty_report(out: &mut [u8; 64], request: DirtyRequest, clears: bool) -> usize
    ensures count { result ≡ 32 }
    ensures bytes { out.new ≡ structure_bytes dirty_report (report_values request clears) None ++ drop result out.old }
    ensures fits { let fields = dirty_report.fields in
        AreOfWidth fields (filled fields (report_values request clears) None) }
{
    let numbers = [
        u64::from(request.hwpt.0),
        u64::from(flags_of(clears)),
        0,
        request.iova.0,
        request.length,
    ];
    put_structure(out, DIRTY_REPORT_ROW, &numbers)
}

// Writes the structure of the command, with this answer in its field if there is one, to the front, and answers its
// length. The rest stays.
#[tactic(auto, unfolding(crate::specs::Layout::structure_bytes))]
fn put_command<A: Allocator>(out: &mut [u8; 64], command: &Command<A>, answer: Option<u64>) -> usize
    ensures count { result ≡ length (structure_bytes (structure_of command.now) (values_of command.now) answer) }
    ensures most { result ≤ 40 }
    ensures bytes { out.new
        ≡ structure_bytes (structure_of command.now) (values_of command.now) answer ++ drop result out.old }
    ensures fits { IsTrue (is_spellable command.now) → let fields = (structure_of command.now).fields in
        AreOfWidth fields (filled fields (values_of command.now) None) }
{
    let output = answer.unwrap_or(0);
    match command {
        Command::Destroy(id) => {
            let id = u64::from(id.0);
            put_structure(out, DESTROY_ROW, &[id])
        }
        Command::IoasAlloc => put_structure(out, IOAS_ALLOC_ROW, &[0, output]),
        Command::IoasAllowIovas(ioas, ranges) => {
            let (ioas, count) = (u64::from(ioas.0), ranges.as_slice().len() as u64);
            put_structure(out, IOAS_ALLOW_IOVAS_ROW, &[ioas, count, 0, 0])
        }
        Command::IoasCopy(copy) => put_copy(out, *copy, answer),
        Command::IoasIovaRanges(request) => {
            let (ioas, places) = (u64::from(request.ioas.0), u64::from(request.places));
            put_structure(out, IOAS_IOVA_RANGES_ROW, &[ioas, places, 0, 0, output])
        }
        Command::IoasMap(map) => put_map(out, *map, answer),
        Command::IoasUnmap(unmap) => {
            let (ioas, iova) = (u64::from(unmap.ioas.0), unmap.iova.0);
            let length = answer.unwrap_or(unmap.length);
            put_structure(out, IOAS_UNMAP_ROW, &[ioas, iova, length])
        }
        Command::HwptAlloc(request) => {
            let (device, ioas) = (u64::from(request.device.0), u64::from(request.ioas.0));
            put_structure(out, HWPT_ALLOC_ROW, &[0, device, ioas, output, 0])
        }
        Command::DirtyEnable(hwpt, on) => put_dirty_enable(out, *hwpt, *on),
        Command::DirtyReport(request, clears) => put_dirty_report(out, *request, *clears),
    }
}

// Appends the entries of the command, if it has any.
fn put_entries<A: Allocator, B: Allocator>(
    out: &mut Vec<u8, A>,
    command: &Command<B>,
) -> Result<(), NoMemory>
    ensures bytes { OnOk result (out.new.items ≡ out.old.items ++ entries_bytes (entries_of command.now)) }
    ensures fits { OnOk result (AreAddresses (entries_of command.now)) }
{
    match command {
        Command::IoasAllowIovas(_, ranges) => put_ranges(out, ranges.as_slice()),
        _ => Ok(()),
    }
}

fn owned<A: Allocator>(alloc: A, bytes: &[u8]) -> Result<Vec<u8, A>, NoMemory>
    ensures { IfOk result (λ owned. owned.items ≡ bytes.now) }
{
    Vec::from_slice(alloc, bytes).map_err(|_| NoMemory)
}

/// The one canonical spelling of a command, in memory of this allocator: the structure of its own
/// length, with zeros in the fields that are ignored (uapi header `iommufd.h`), and behind it the entries of an
/// IOAS_ALLOW_IOVAS. `decode` with the command's number gives the command back. The error comes only where the memory
/// was refused.
pub fn encode<A: Allocator, B: Allocator>(
    alloc: A,
    command: &Command<B>,
) -> Result<Vec<u8, A>, NoMemory>
    // Some bytes decode to the command: `Command::is_spellable`.
    requires { IsTrue (is_spellable command.now) }
    ensures canonical { IfOk result (λ spelling. spelling.items ≡ canonical command.now) }
    // Decoding what was written gives the command back.
    ensures round_trip { IfOk result (λ spelling.
        Spells (structure_of command.now).number spelling.items command.now) }
{
    let mut buffer = [0; 64];
    let count = put_command(&mut buffer, command, None);
    let mut spelling = owned(alloc, &buffer[..count])?;
    put_entries(&mut spelling, command)?;
    Ok(spelling)
}

/// What is written back for an IOAS_IOVA_RANGES of an address space whose ranges these are, in memory of this
/// allocator: the structure of its own length, with the number of ranges in `num_iovas` and 4096 in
/// `out_iova_alignment`, and behind it the first ranges, as many as the request has places for. It's the same whether
/// all have a place or the call is refused because they don't. The error comes only where the memory was refused.
#[tactic(auto, unfolding(crate::specs::Layout::structure_bytes))]
pub fn encode_ranges<A: Allocator>(
    alloc: A,
    request: RangesRequest,
    ranges: &[Span],
) -> Result<Vec<u8, A>, NoMemory>
    requires { length ranges.now < 2 ^ 32 }
    ensures { IfOk result (λ bytes. bytes.items ≡ ranges_written_back request ranges.now) }
{
    let num_iovas = ranges.len() as u32;
    let mut buffer = [0; 64];
    let numbers = [
        u64::from(request.ioas.0),
        u64::from(num_iovas),
        0,
        0,
        IOVA_ALIGNMENT,
    ];
    let count = put_structure(&mut buffer, IOAS_IOVA_RANGES_ROW, &numbers);
    let mut bytes = owned(alloc, &buffer[..count])?;
    let written = num_iovas.min(request.places);
    put_spans(&mut bytes, &ranges[..written as usize])?;
    Ok(bytes)
}

/// What is written back for this reply, in memory of this allocator: the bytes that
/// `encode_reply_to` writes. The error comes only where the memory was refused.
pub fn encode_reply<A: Allocator, B: Allocator>(
    alloc: A,
    command: &Command<B>,
    reply: &Reply,
) -> Result<Vec<u8, A>, NoMemory>
    ensures bytes { IfOk result (λ bytes. bytes.items ≡ written_back command.now reply.now) }
    // Where nothing is written back no memory is asked for.
    ensures memory { OnErr result (0 < length (written_back command.now reply.now)) }
{
    let mut buffer = [0; 64];
    let count = encode_reply_to(command, reply, &mut buffer);
    if count == 0 {
        return Ok(Vec::new(alloc));
    }
    owned(alloc, &buffer[..count])
}

/// Writes what is written back for this reply to the front of the buffer, and answers how many bytes
/// that is, at most 64. The rest of the buffer stays. It takes no memory.
///
/// For a good reply it's the command's structure with the answer in its field: the new id of an
/// IOAS_ALLOC in `out_ioas_id`, that of a HWPT_ALLOC in `out_hwpt_id`, the address of a MAP in `iova` and that of a
/// COPY in `dst_iova`, the bytes that an UNMAP took away in `length`. Its size is the structure's own length, whatever
/// size came in. The entries of an IOAS_ALLOW_IOVAS aren't written back. For any other reply, refused and pending ones
/// among them, nothing is written; nor is it for an IOAS_IOVA_RANGES, for which `encode_ranges` does, nor for an
/// IOAS_ALLOW_IOVAS with 2^32 ranges or more.
///
/// Behind the structure of a DIRTY_REPORT come the first words, one for each 64 pages of its length, and one for those
/// that are left. The words of a report that doesn't clear, which is a question, are passed as a reply too.
#[tactic(auto, unfolding(crate::specs::Layout::structure_bytes))]
pub fn encode_reply_to<A: Allocator>(
    command: &Command<A>,
    reply: &Reply,
    buffer: &mut [u8; 64],
) -> usize
    ensures count { result ≡ length (written_back command.now reply.now) }
    ensures at_most { result ≤ 64 }
    ensures bytes { buffer.new ≡ written_back command.now reply.now ++ drop result buffer.old }
{
    let Some(answer) = answer_of(command, reply) else {
        return 0;
    };
    let place = put_command(buffer, command, answer);
    put_words(buffer, place, told_words(command, reply))
}
