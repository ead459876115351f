//! Lists behind their number.

ghost use Rattle.std.specs.Prelude.{◌≡◌, ◌*◌, ◌<◌, ◌≤◌, ◌∷◌, [], length, option_map};
ghost use Rattle.std.specs.Int.{w32, w64};
ghost use Rattle.journal_audit_bytes.specs.Format.{burst, entries, frames};
ghost use Rattle.journal_audit_bytes.specs.Reading.{Gives, HasElements, OnMemory, elements_at, fields_at};
ghost use Rattle.journal_audit_bytes.specs.Reading.{list_at, of_frames, pairs, singles};

use crate::numbers::{u8_at, u16_at, u32_at, u64_at};
use crate::spelled::ReadError;
use iofd_words::{Burst, FrameList, FrameNo, IovaRange, RangeList};
use std::alloc::Allocator;

// A frame's number.
fn frame_at(bytes: &[u8]) -> Option<(FrameNo, &[u8])>
    ensures { fields_at (w32 ∷ []) bytes.now ≡ option_map (λ x. (x.0.0 ∷ [], x.1.now)) result }
{
    let (frame, rest) = u32_at(bytes)?;
    Some((FrameNo(frame), rest))
}

// So many frames. Of none, and where the bytes are too few for them, it takes no memory.
fn frames_from<A: Allocator>(
    alloc: A,
    count: usize,
    bytes: &[u8],
) -> Result<(Vec<FrameNo, A>, &[u8]), ReadError>
    ensures read { Gives (λ x. (of_frames x.0.items, x.1.now)) result (elements_at count (w32 ∷ []) bytes.now) }
    ensures memory { OnMemory result ((0 < count) × (4 * count ≤ length bytes.now)) }
{
    if bytes.len() / 4 < count {
        return Err(ReadError::Torn);
    }
    let mut frames = Vec::with_capacity(alloc, count)?;
    let mut rest = bytes;
    for _ in 0..count {
        let Some((frame, after)) = frame_at(rest) else {
            return Err(ReadError::Torn);
        };
        frames.push(frame)?;
        rest = after;
    }
    Ok((frames, rest))
}

// Frames behind their number. Where no such list stands there, or an empty one, it takes no memory.
#[tactic(auto, unfolding(crate::specs::Reading::list_at))]
pub fn frames_at<A: Allocator>(alloc: A, bytes: &[u8]) -> Result<(FrameList<A>, &[u8]), ReadError>
    ensures read { Gives (λ x. (of_frames x.0, x.1.now)) result (list_at frames bytes.now) }
    ensures memory { OnMemory result (HasElements (list_at frames bytes.now)) }
{
    let Some((count, rest)) = u16_at(bytes) else {
        return Err(ReadError::Torn);
    };
    let (frames, rest) = frames_from(alloc, usize::from(count), rest)?;
    Ok((FrameList::new(frames), rest))
}

// The start and the last address of a range.
fn entry_at(bytes: &[u8]) -> Option<(u64, u64, &[u8])>
    ensures { fields_at (w64 ∷ w64 ∷ []) bytes.now ≡ option_map (λ x. (x.0 ∷ x.1 ∷ [], x.2.now)) result }
{
    let (start, rest) = u64_at(bytes)?;
    let (last, rest) = u64_at(rest)?;
    Some((start, last, rest))
}

// So many ranges. Of none, and where the bytes are too few for them, it takes no memory.
fn entries_from<A: Allocator>(
    alloc: A,
    count: usize,
    bytes: &[u8],
) -> Result<(Vec<IovaRange, A>, &[u8]), ReadError>
    ensures read { Gives (λ x. (pairs x.0.items, x.1.now)) result (elements_at count (w64 ∷ w64 ∷ []) bytes.now) }
    ensures memory { OnMemory result ((0 < count) × (16 * count ≤ length bytes.now)) }
{
    if bytes.len() / 16 < count {
        return Err(ReadError::Torn);
    }
    let mut ranges = Vec::with_capacity(alloc, count)?;
    let mut rest = bytes;
    for _ in 0..count {
        let Some((start, last, after)) = entry_at(rest) else {
            return Err(ReadError::Torn);
        };
        ranges.push(IovaRange { start, last })?;
        rest = after;
    }
    Ok((ranges, rest))
}

// Ranges of addresses behind their number. Where no such list stands there, or an empty one, it takes no memory.
#[tactic(auto, unfolding(crate::specs::Reading::list_at))]
pub fn entries_at<A: Allocator>(alloc: A, bytes: &[u8]) -> Result<(RangeList<A>, &[u8]), ReadError>
    ensures read { Gives (λ x. (pairs x.0, x.1.now)) result (list_at entries bytes.now) }
    ensures memory { OnMemory result (HasElements (list_at entries bytes.now)) }
{
    let Some((count, rest)) = u32_at(bytes) else {
        return Err(ReadError::Torn);
    };
    let (ranges, rest) = entries_from(alloc, count as usize, rest)?;
    Ok((RangeList::new(ranges), rest))
}

// The bytes of an access behind their number, 1 to 64.
pub fn burst_at(bytes: &[u8]) -> Option<(Burst, &[u8])>
    ensures { list_at burst bytes.now ≡ option_map (λ x. (singles x.0, x.1.now)) result }
{
    let (count, rest) = u8_at(bytes)?;
    let count = usize::from(count);
    if count > rest.len() {
        return None;
    }
    let (front, rest) = rest.split_at(count);
    let burst = Burst::new(front)?;
    Some((burst, rest))
}
