//! From bytes to commands.
#![tactic(auto, unfolding(crate::specs::Refusals::read_numbers))]

ghost use Rattle.std.specs.Prelude.{◌≡◌, ◌≢◌, ◌*◌, ◌<◌, ◌≤◌, [], ◌∷◌, false};
ghost use Rattle.std.specs.Prelude.{length, IfOk, IsTrue};
ghost use Rattle.iofd_words.specs.Rights.{is_fixed};
ghost use Rattle.ioctl_codec.specs.Entries.{entries_at};
ghost use Rattle.ioctl_codec.specs.Layout.{are_allowed, carried, length_of};
ghost use Rattle.ioctl_codec.specs.Structures.{copy_values, ioas_allow_iovas, ioas_copy, ioas_map, map_values};
ghost use Rattle.ioctl_codec.specs.Structures.{dirty_enable, dirty_report, entries_of, flag_value, structure_of};
ghost use Rattle.ioctl_codec.specs.Structures.{values_of};
ghost use Rattle.ioctl_codec.specs.Spelling.{Spells};
ghost use Rattle.ioctl_codec.specs.Refusals.{refusal_of, refusal, cause_of, refused_of, read_numbers, read_values};
ghost use Rattle.ioctl_codec.specs.Refusals.{read_count, after_size, OnMemory, Gives, SpellsEntries};
ghost use Rattle.ioctl_codec.specs.Table.{has_count, placed, structure_in};
ghost use Rattle.ioctl_codec.specs.declared.command.Command.{Command};

use crate::checks::{check_fields, split_structure};
use crate::command::{Command, DecodeError, RangesRequest, kept_iova};
use crate::entries::read_entries;
use crate::fields::read_fields;
use crate::number::low;
use crate::structure::{
    DESTROY, DESTROY_ROW, DIRTY_ENABLE, DIRTY_ENABLE_ROW, DIRTY_FLAG, DIRTY_REPORT,
    DIRTY_REPORT_ROW, HWPT_ALLOC, HWPT_ALLOC_ROW, IOAS_ALLOC, IOAS_ALLOC_ROW, IOAS_ALLOW_IOVAS,
    IOAS_ALLOW_IOVAS_ROW, IOAS_COPY, IOAS_COPY_ROW, IOAS_IOVA_RANGES, IOAS_IOVA_RANGES_ROW,
    IOAS_MAP, IOAS_MAP_ROW, IOAS_UNMAP, IOAS_UNMAP_ROW, Structure,
};
use iofd_words::{
    Cause, CopyRequest, DirtyRequest, HwptRequest, Iova, MapFlags, MapRequest, NoMemory, ObjId,
    RangeList, Refusal, UnmapRequest,
};
use std::alloc::Allocator;

// The numbers in a structure behind which no entries follow, unless something refuses the bytes.
#[inline(always)]
fn numbers_of(structure: Structure, bytes: &[u8]) -> Result<[u64; 8], Refusal>
    requires known { structure.length ≡ length_of (structure_in structure) }
    requires few { length structure.fields.now ≤ 8 }
    requires uncounted { has_count (structure_in structure).fields ≡ false }
    ensures refused { cause_of result ≡ refusal_of (structure_in structure) bytes.now }
    ensures numbers { IfOk result (λ numbers. let s = structure_in structure in
        placed 0 s.fields numbers ≡ read_numbers s bytes.now) }
    ensures allowed { IfOk result (λ numbers. let fields = (structure_in structure).fields in
        IsTrue (are_allowed fields (placed 0 fields numbers))) }
{
    let (fields, after) = split_structure(bytes, structure.length)?;
    let (numbers, allowed) = read_fields(structure.fields, fields);
    check_fields(allowed, 0, after)?;
    Ok(numbers)
}

// The request of a COPY with these numbers in its fields. A dst_iova that its flags don't fix is ignored.
fn copy_of(numbers: &[u64; 8]) -> CopyRequest
    ensures { let fields = (ioas_copy (is_fixed result.flags)).fields in
        copy_values result ≡ carried fields (placed 0 fields numbers.now) }
{
    let flags = MapFlags(low(numbers[0]));
    CopyRequest {
        flags,
        dst_ioas: ObjId(low(numbers[1])),
        src_ioas: ObjId(low(numbers[2])),
        length: numbers[3],
        dst_iova: kept_iova(flags, Iova(numbers[4])),
        src_iova: Iova(numbers[5]),
    }
}

// The request of a MAP with these numbers in its fields. An address that its flags don't fix is ignored.
fn map_of(numbers: &[u64; 8]) -> MapRequest
    ensures { let fields = (ioas_map (is_fixed result.flags)).fields in
        map_values result ≡ carried fields (placed 0 fields numbers.now) }
{
    let flags = MapFlags(low(numbers[0]));
    MapRequest {
        flags,
        ioas: ObjId(low(numbers[1])),
        user_va: numbers[3],
        length: numbers[4],
        iova: kept_iova(flags, Iova(numbers[5])),
    }
}

// Whether the flag is set, where the flags are that one or none.
fn is_set(flags: u32) -> bool
    requires { flags ≤ 1 }
    ensures { flag_value result ≡ flags }
{
    flags == DIRTY_FLAG
}

// DIRTY_ENABLE.
fn dirty_enable_of<A: Allocator>(bytes: &[u8]) -> Result<Command<A>, Refusal>
    ensures refused { cause_of result ≡ refusal_of dirty_enable bytes.now }
    ensures structure { IfOk result (λ c. structure_of c ≡ dirty_enable) }
    ensures values { IfOk result (λ c. values_of c ≡ read_values dirty_enable bytes.now) }
    ensures entries { IfOk result (λ c. entries_of c ≡ []) }
{
    let numbers = numbers_of(DIRTY_ENABLE_ROW, bytes)?;
    let (hwpt, flags) = (ObjId(low(numbers[0])), low(numbers[1]));
    Ok(Command::DirtyEnable(hwpt, is_set(flags)))
}

// DIRTY_REPORT.
fn dirty_report_of<A: Allocator>(bytes: &[u8]) -> Result<Command<A>, Refusal>
    ensures refused { cause_of result ≡ refusal_of dirty_report bytes.now }
    ensures structure { IfOk result (λ c. structure_of c ≡ dirty_report) }
    ensures values { IfOk result (λ c. values_of c ≡ read_values dirty_report bytes.now) }
    ensures entries { IfOk result (λ c. entries_of c ≡ []) }
{
    let numbers = numbers_of(DIRTY_REPORT_ROW, bytes)?;
    let (hwpt, flags) = (ObjId(low(numbers[0])), low(numbers[1]));
    let (iova, length) = (Iova(numbers[3]), numbers[4]);
    let request = DirtyRequest { hwpt, iova, length };
    Ok(Command::DirtyReport(request, is_set(flags)))
}

// Reading by the command's number, where no entries follow the structure.
fn read_without_entries<A: Allocator>(nr: u32, bytes: &[u8]) -> Result<Command<A>, Refusal>
    requires { nr ≢ 0x3b82 }
    ensures refused { cause_of result ≡ refusal nr bytes.now }
    ensures number { IfOk result (λ c. (structure_of c).number ≡ nr) }
    ensures values { IfOk result (λ c. values_of c ≡ read_values (structure_of c) bytes.now) }
    ensures entries { IfOk result (λ c. entries_of c ≡ []) }
{
    match nr {
        DESTROY => {
            let numbers = numbers_of(DESTROY_ROW, bytes)?;
            Ok(Command::Destroy(ObjId(low(numbers[0]))))
        }
        IOAS_ALLOC => {
            numbers_of(IOAS_ALLOC_ROW, bytes)?;
            Ok(Command::IoasAlloc)
        }
        IOAS_COPY => Ok(Command::IoasCopy(copy_of(&numbers_of(IOAS_COPY_ROW, bytes)?))),
        IOAS_IOVA_RANGES => {
            let numbers = numbers_of(IOAS_IOVA_RANGES_ROW, bytes)?;
            let (ioas, places) = (ObjId(low(numbers[0])), low(numbers[1]));
            Ok(Command::IoasIovaRanges(RangesRequest { ioas, places }))
        }
        IOAS_MAP => Ok(Command::IoasMap(map_of(&numbers_of(IOAS_MAP_ROW, bytes)?))),
        IOAS_UNMAP => {
            let numbers = numbers_of(IOAS_UNMAP_ROW, bytes)?;
            let (ioas, iova, length) = (ObjId(low(numbers[0])), Iova(numbers[1]), numbers[2]);
            Ok(Command::IoasUnmap(UnmapRequest { ioas, iova, length }))
        }
        HWPT_ALLOC => {
            let numbers = numbers_of(HWPT_ALLOC_ROW, bytes)?;
            let (device, ioas) = (ObjId(low(numbers[1])), ObjId(low(numbers[2])));
            Ok(Command::HwptAlloc(HwptRequest { device, ioas }))
        }
        DIRTY_ENABLE => dirty_enable_of(bytes),
        DIRTY_REPORT => dirty_report_of(bytes),
        _ => Err(Refusal {
            cause: Cause::Number,
        }),
    }
}

// The address space of an IOAS_ALLOW_IOVAS, the number of its entries, and the bytes of these.
fn ioas_allow_iovas_at(bytes: &[u8]) -> Result<(ObjId, u32, &[u8]), Refusal>
    ensures refused { cause_of result ≡ refusal_of ioas_allow_iovas bytes.now }
    ensures values { IfOk result (λ found. read_values ioas_allow_iovas bytes.now ≡ found.0.0 ∷ found.1 ∷ []) }
    ensures after { IfOk result (λ found. found.2.now ≡ after_size bytes.now) }
    ensures whole { IfOk result (λ found. length found.2.now ≡ 16 * found.1) }
{
    let (fields, after) = split_structure(bytes, IOAS_ALLOW_IOVAS_ROW.length)?;
    let (numbers, allowed) = read_fields(IOAS_ALLOW_IOVAS_ROW.fields, fields);
    let (ioas, num_iovas) = (ObjId(low(numbers[0])), low(numbers[1]));
    check_fields(allowed, num_iovas, after)?;
    Ok((ioas, num_iovas, after))
}

// IOAS_ALLOW_IOVAS with its entries. Memory is taken for these once nothing refuses the bytes.
fn ioas_allow_iovas_of<A: Allocator>(alloc: A, bytes: &[u8]) -> Result<Command<A>, DecodeError>
    ensures refused { refused_of result ≡ refusal_of ioas_allow_iovas bytes.now }
    ensures structure { IfOk result (λ c. structure_of c ≡ ioas_allow_iovas) }
    ensures values { IfOk result (λ c. values_of c ≡ read_values ioas_allow_iovas bytes.now) }
    ensures entries { IfOk result (λ c. entries_of c
        ≡ entries_at (read_count ioas_allow_iovas bytes.now) (after_size bytes.now)) }
    ensures memory { OnMemory result (0 < read_count ioas_allow_iovas bytes.now) }
{
    match ioas_allow_iovas_at(bytes) {
        Err(refusal) => Err(DecodeError::Refused(refusal)),
        Ok((ioas, count, entries)) => match read_entries(alloc, count, entries) {
            Err(NoMemory) => Err(DecodeError::Memory(NoMemory)),
            Ok(ranges) => Ok(Command::IoasAllowIovas(ioas, RangeList::new(ranges))),
        },
    }
}

// Reading by the command's number.
fn read<A: Allocator>(alloc: A, nr: u32, bytes: &[u8]) -> Result<Command<A>, DecodeError>
    ensures refused { refused_of result ≡ refusal nr bytes.now }
    ensures number { IfOk result (λ c. (structure_of c).number ≡ nr) }
    ensures values { IfOk result (λ c. values_of c ≡ read_values (structure_of c) bytes.now) }
    ensures entries { IfOk result (λ c. entries_of c ≡ entries_at (length (entries_of c)) (after_size bytes.now)) }
    ensures memory { OnMemory result ((nr ≡ 0x3b82) × (0 < read_count ioas_allow_iovas bytes.now)) }
{
    if nr == IOAS_ALLOW_IOVAS {
        return ioas_allow_iovas_of(alloc, bytes);
    }
    match read_without_entries(nr, bytes) {
        Err(refusal) => Err(DecodeError::Refused(refusal)),
        Ok(command) => Ok(command),
    }
}

/// The command that a call with this number (0x3B80 and on, or 0x3BF0 and on) and these bytes is. It takes memory of
/// this allocator for the entries of an IOAS_ALLOW_IOVAS, if there are any, and else none. Where the bytes spell no
/// served command, the error is the first of these refusals that applies: the number isn't served (Number); fewer
/// than 4 bytes, or a size below the structure's own length (Short); a size above 4096 (Tail); fewer bytes than the
/// size (Short); a byte past the known structure, up to the size, that isn't 0 (Tail); an unknown flag, or a reserved
/// field that isn't 0 (Unsupported); other bytes after the size than 16 for each entry that an IOAS_ALLOW_IOVAS
/// counts, or any for another command (Array). Only where no refusal applies, the error may be that memory was
/// refused. The address at which a MAP or a COPY without FIXED_IOVA maps is ignored, and the command has 0 for it.
pub fn decode<A: Allocator>(alloc: A, nr: u32, bytes: &[u8]) -> Result<Command<A>, DecodeError>
    // What is answered is spelled so.
    ensures found { IfOk result (λ c. Spells nr bytes.now c) }
    // What is spelled so is answered, unless it has entries and memory was refused.
    ensures only { (c : Command A) → Spells nr bytes.now c → Gives result c }
    // Which refusal it is: the first in the order that applies.
    ensures exact { refused_of result ≡ refusal nr bytes.now }
    // Where memory was refused, the bytes are a command that has entries.
    ensures memory { OnMemory result ((c : Command A) × SpellsEntries nr bytes.now c) }
{
    read(alloc, nr, bytes)
}
