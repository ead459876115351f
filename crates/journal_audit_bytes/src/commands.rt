//! The fields of each command behind its file, read from the front of bytes, with the bytes after them.
#![tactic(auto, unfolding(crate::specs::Format::is_kept, crate::specs::Reading::fields_behind, crate::specs::Reading::row_behind))]

ghost use Rattle.std.specs.Prelude.{◌≡◌, ◌==◌, ◌&&◌, ◌||◌, nat_lt, option_map};
ghost use Rattle.iofd_words.specs.Rights.{has_flag};
ghost use Rattle.journal_audit_bytes.specs.Format.{dirty_event_rows, event_rows};
ghost use Rattle.journal_audit_bytes.specs.Reading.{Gives, IsWithRanges, OnMemory, fields_behind, fields_of_tag};
ghost use Rattle.journal_audit_bytes.specs.Reading.{tagged_event};

use crate::lists::entries_at;
use crate::numbers::{u8_at, u16_at, u32_at, u64_at};
use crate::spelled::ReadError;
use iofd_words::{
    CopyRequest, DirtyRequest, Event, FileNo, HwptRequest, Iova, MapFlags, MapRequest, ObjId,
    UnmapRequest,
};
use std::alloc::Allocator;

pub fn destroy_at<A: Allocator>(file: FileNo, bytes: &[u8]) -> Option<(Event<A>, &[u8])>
    ensures { fields_behind event_rows 0x80 file.0 bytes.now ≡ option_map (λ x. (tagged_event x.0, x.1.now)) result }
{
    let (id, rest) = u32_at(bytes)?;
    Some((Event::Destroy(file, ObjId(id)), rest))
}

pub fn unmap_at<A: Allocator>(file: FileNo, bytes: &[u8]) -> Option<(Event<A>, &[u8])>
    ensures { fields_behind event_rows 0x86 file.0 bytes.now ≡ option_map (λ x. (tagged_event x.0, x.1.now)) result }
{
    let (ioas, rest) = u32_at(bytes)?;
    let (iova, rest) = u64_at(rest)?;
    let (length, rest) = u64_at(rest)?;
    let (ioas, iova) = (ObjId(ioas), Iova(iova));
    let request = UnmapRequest { ioas, iova, length };
    Some((Event::Unmap(file, request), rest))
}

pub fn hwpt_alloc_at<A: Allocator>(file: FileNo, bytes: &[u8]) -> Option<(Event<A>, &[u8])>
    ensures { fields_behind event_rows 0x89 file.0 bytes.now ≡ option_map (λ x. (tagged_event x.0, x.1.now)) result }
{
    let (device, rest) = u32_at(bytes)?;
    let (ioas, rest) = u32_at(rest)?;
    let (device, ioas) = (ObjId(device), ObjId(ioas));
    Some((Event::HwptAlloc(file, HwptRequest { device, ioas }), rest))
}

// Ranges alone take memory: it is read from its file on.
#[tactic(auto, unfolding(crate::specs::Reading::fields_of_tag, crate::specs::Reading::fields_of_row))]
pub fn allow_iovas_at<A: Allocator>(alloc: A, bytes: &[u8]) -> Result<(Event<A>, &[u8]), ReadError>
    ensures read { Gives (λ x. (tagged_event x.0, x.1.now)) result (fields_of_tag event_rows 0x82 bytes.now) }
    ensures memory { OnMemory result (IsWithRanges event_rows (fields_of_tag event_rows 0x82 bytes.now)) }
{
    let Some((file, rest)) = u16_at(bytes) else {
        return Err(ReadError::Torn);
    };
    let Some((ioas, rest)) = u32_at(rest) else {
        return Err(ReadError::Torn);
    };
    let (ranges, rest) = entries_at(alloc, rest)?;
    Ok((Event::AllowIovas(FileNo(file), ObjId(ioas), ranges), rest))
}

/// Whether a MAP or a COPY with these flags and this address has a spelling: it has no unknown flag, and no address
/// that its flags don't fix but 0.
pub fn is_kept(flags: u32, iova: u64) -> bool
    ensures { result ≡ (nat_lt flags 8 && (has_flag flags 1 || iova == 0)) }
{
    flags < 8 && (MapFlags(flags).is_fixed() || iova == 0)
}

pub fn map_at<A: Allocator>(file: FileNo, bytes: &[u8]) -> Option<(Event<A>, &[u8])>
    ensures { fields_behind event_rows 0x85 file.0 bytes.now ≡ option_map (λ x. (tagged_event x.0, x.1.now)) result }
{
    let (flags, rest) = u32_at(bytes)?;
    let (ioas, rest) = u32_at(rest)?;
    let (user_va, rest) = u64_at(rest)?;
    let (length, rest) = u64_at(rest)?;
    let (iova, rest) = u64_at(rest)?;
    if !is_kept(flags, iova) {
        return None;
    }
    let request = MapRequest {
        flags: MapFlags(flags),
        ioas: ObjId(ioas),
        user_va,
        length,
        iova: Iova(iova),
    };
    Some((Event::Map(file, request), rest))
}

pub fn copy_at<A: Allocator>(file: FileNo, bytes: &[u8]) -> Option<(Event<A>, &[u8])>
    ensures { fields_behind event_rows 0x83 file.0 bytes.now ≡ option_map (λ x. (tagged_event x.0, x.1.now)) result }
{
    let (flags, rest) = u32_at(bytes)?;
    let (dst_ioas, rest) = u32_at(rest)?;
    let (src_ioas, rest) = u32_at(rest)?;
    let (length, rest) = u64_at(rest)?;
    let (dst_iova, rest) = u64_at(rest)?;
    let (src_iova, rest) = u64_at(rest)?;
    if !is_kept(flags, dst_iova) {
        return None;
    }
    let request = CopyRequest {
        flags: MapFlags(flags),
        dst_ioas: ObjId(dst_ioas),
        src_ioas: ObjId(src_ioas),
        length,
        dst_iova: Iova(dst_iova),
        src_iova: Iova(src_iova),
    };
    Some((Event::Copy(file, request), rest))
}

// ---- of version 2 alone

pub fn dirty_enable_at<A: Allocator>(file: FileNo, bytes: &[u8]) -> Option<(Event<A>, &[u8])>
    ensures { fields_behind dirty_event_rows 0xf0 file.0 bytes.now
        ≡ option_map (λ x. (tagged_event x.0, x.1.now)) result }
{
    let (hwpt, rest) = u32_at(bytes)?;
    let (on, rest) = u8_at(rest)?;
    if on > 1 {
        return None;
    }
    let on = on == 1;
    Some((Event::DirtyEnable(file, ObjId(hwpt), on), rest))
}

pub fn dirty_clear_at<A: Allocator>(file: FileNo, bytes: &[u8]) -> Option<(Event<A>, &[u8])>
    ensures { fields_behind dirty_event_rows 0xf1 file.0 bytes.now
        ≡ option_map (λ x. (tagged_event x.0, x.1.now)) result }
{
    let (hwpt, rest) = u32_at(bytes)?;
    let (iova, rest) = u64_at(rest)?;
    let (length, rest) = u64_at(rest)?;
    let (hwpt, iova) = (ObjId(hwpt), Iova(iova));
    let request = DirtyRequest { hwpt, iova, length };
    Some((Event::DirtyClear(file, request), rest))
}
