//! From bytes to a record.

ghost use Rattle.std.specs.Prelude.{◌≡◌, ◌≢◌, ◌++◌, List, ℕ, Some, IfOk, option_map};
ghost use Rattle.journal_audit_bytes.specs.Format.{BeginWithList, Raw, Spells, dirty_event_rows, dirty_reply_rows};
ghost use Rattle.journal_audit_bytes.specs.Format.{event_rows, events_of, frames, replies_of, reply_rows};
ghost use Rattle.journal_audit_bytes.specs.Reading.{Gives, IsWithRanges, OnMemory, fields_behind, fields_of_tag};
ghost use Rattle.journal_audit_bytes.specs.Reading.{of_frames, raw_of, record_at, tagged_at, tagged_event};
ghost use Rattle.journal_audit_bytes.specs.Reading.{tagged_reply};

use crate::commands::{
    allow_iovas_at, copy_at, destroy_at, dirty_clear_at, dirty_enable_at, hwpt_alloc_at, map_at,
    unmap_at,
};
use crate::lists::frames_at;
use crate::numbers::{u8_at, u16_at, u32_at, u64_at};
use crate::spelled::{ReadError, SpelledRecord, SpelledReply};
use crate::steps::{
    access_attach_at, access_detach_at, access_pin_at, access_unpin_at, access_write_at, attach_at,
    bind_at, device_write_at, unbind_at, user_map_at, user_unmap_at, user_write_at,
};
use crate::version::Version;
use iofd_words::{DeviceNo, Event, FileNo, PassNo, UserNo};
use std::alloc::Allocator;

// The event of a tag that either version has, other than that with ranges, by the fields behind the first.
#[tactic(auto, unfolding(crate::specs::Reading::fields_behind, crate::specs::Reading::row_behind))]
fn plain_event_behind<A: Allocator>(tag: u8, first: u16, bytes: &[u8]) -> Option<(Event<A>, &[u8])>
    requires { tag ≢ 0x82 }
    ensures { fields_behind event_rows tag first bytes.now ≡ option_map (λ x. (tagged_event x.0, x.1.now)) result }
{
    let (file, user, device) = (FileNo(first), UserNo(first), DeviceNo(first));
    match tag {
        0x01 => Some((Event::Close(file), bytes)),
        0x02 => user_map_at(user, bytes),
        0x03 => user_unmap_at(user, bytes),
        0x04 => user_write_at(user, bytes),
        0x05 => bind_at(file, bytes),
        0x06 => unbind_at(file, bytes),
        0x07 => attach_at(device, bytes),
        0x08 => Some((Event::Detach(device), bytes)),
        0x09 => Some((Event::Flush(device), bytes)),
        0x0a => device_write_at(device, bytes),
        0x0b => Some((Event::AccessCreate(file), bytes)),
        0x0c => access_attach_at(file, bytes),
        0x0d => access_detach_at(file, bytes),
        0x0e => access_pin_at(file, bytes),
        0x0f => access_unpin_at(file, bytes),
        0x10 => access_write_at(file, bytes),
        0x80 => destroy_at(file, bytes),
        0x81 => Some((Event::IoasAlloc(file), bytes)),
        0x83 => copy_at(file, bytes),
        0x85 => map_at(file, bytes),
        0x86 => unmap_at(file, bytes),
        0x89 => hwpt_alloc_at(file, bytes),
        _ => None,
    }
}

// The event of a tag that version 2 alone has.
#[tactic(auto, unfolding(crate::specs::Reading::fields_behind))]
fn dirty_event_behind<A: Allocator>(tag: u8, first: u16, bytes: &[u8]) -> Option<(Event<A>, &[u8])>
    ensures { fields_behind dirty_event_rows tag first bytes.now
        ≡ option_map (λ x. (tagged_event x.0, x.1.now)) result }
{
    match tag {
        0xf0 => dirty_enable_at(FileNo(first), bytes),
        0xf1 => dirty_clear_at(FileNo(first), bytes),
        _ => None,
    }
}

// The event of a tag of the version, other than that with ranges, by the fields behind the first.
fn event_behind<A: Allocator>(
    version: Version,
    tag: u8,
    first: u16,
    bytes: &[u8],
) -> Option<(Event<A>, &[u8])>
    requires { tag ≢ 0x82 }
    ensures { fields_behind (events_of version) tag first bytes.now
        ≡ option_map (λ x. (tagged_event x.0, x.1.now)) result }
{
    match version {
        Version::One => plain_event_behind(tag, first, bytes),
        Version::Two => {
            if tag >= 0xf0 {
                return dirty_event_behind(tag, first, bytes);
            }
            plain_event_behind(tag, first, bytes)
        }
    }
}

// The event of a tag of the version, other than that with ranges. Each has a file, a user or a device first.
fn plain_event_of<A: Allocator>(
    version: Version,
    tag: u8,
    bytes: &[u8],
) -> Option<(Event<A>, &[u8])>
    requires { tag ≢ 0x82 }
    ensures { fields_of_tag (events_of version) tag bytes.now
        ≡ option_map (λ x. (tagged_event x.0, x.1.now)) result }
{
    let (first, rest) = u16_at(bytes)?;
    event_behind(version, tag, first, rest)
}

// The event of a tag of the version. Ranges alone take memory.
fn event_of<A: Allocator>(
    alloc: A,
    version: Version,
    tag: u8,
    bytes: &[u8],
) -> Result<(Event<A>, &[u8]), ReadError>
    ensures read { Gives (λ x. (tagged_event x.0, x.1.now)) result
        (fields_of_tag (events_of version) tag bytes.now) }
    ensures memory { OnMemory result
        (IsWithRanges (events_of version) (fields_of_tag (events_of version) tag bytes.now)) }
{
    if tag == 0x82 {
        return allow_iovas_at(alloc, bytes);
    }
    plain_event_of(version, tag, bytes).ok_or(ReadError::Torn)
}

#[tactic(auto, unfolding(crate::specs::Reading::tagged_at))]
fn event_at<A: Allocator>(
    alloc: A,
    version: Version,
    bytes: &[u8],
) -> Result<(Event<A>, &[u8]), ReadError>
    ensures read { Gives (λ x. (tagged_event x.0, x.1.now)) result (tagged_at (events_of version) bytes.now) }
    ensures memory { OnMemory result (IsWithRanges (events_of version) (tagged_at (events_of version) bytes.now)) }
{
    let Some((tag, rest)) = u8_at(bytes) else {
        return Err(ReadError::Torn);
    };
    event_of(alloc, version, tag, rest)
}

// The reply of a tag that either version has, by the fields at the front.
#[tactic(auto, unfolding(crate::specs::Reading::fields_of_tag, crate::specs::Reading::fields_of_row))]
fn reply_of_tag(tag: u8, bytes: &[u8]) -> Option<(SpelledReply, &[u8])>
    ensures { fields_of_tag reply_rows tag bytes.now ≡ option_map (λ x. (tagged_reply x.0, x.1.now)) result }
{
    match tag {
        0x00 => Some((SpelledReply::Done, bytes)),
        0x01 => {
            let (id, rest) = u32_at(bytes)?;
            Some((SpelledReply::Id(id), rest))
        }
        0x02 => {
            let (iova, rest) = u64_at(bytes)?;
            Some((SpelledReply::Iova(iova), rest))
        }
        0x03 => {
            let (count, rest) = u64_at(bytes)?;
            Some((SpelledReply::Bytes(count), rest))
        }
        0x04 => {
            let (errno, rest) = u8_at(bytes)?;
            Some((SpelledReply::Pending(errno), rest))
        }
        0x05 => {
            let (frame, rest) = u32_at(bytes)?;
            Some((SpelledReply::Frame(frame), rest))
        }
        0x06 => {
            let (frame, rest) = u32_at(bytes)?;
            Some((SpelledReply::Passed(frame), rest))
        }
        0x07 => {
            let (reason, rest) = u8_at(bytes)?;
            Some((SpelledReply::Fault(reason), rest))
        }
        0x08 => {
            let (number, rest) = u8_at(bytes)?;
            Some((SpelledReply::Refused(number), rest))
        }
        _ => None,
    }
}

// The reply of a tag that version 2 alone has: the words by which it is told which pages were written.
#[tactic(auto, unfolding(crate::specs::Reading::fields_of_tag, crate::specs::Reading::fields_of_row))]
fn dirty_reply_of_tag(tag: u8, bytes: &[u8]) -> Option<(SpelledReply, &[u8])>
    ensures { fields_of_tag dirty_reply_rows tag bytes.now ≡ option_map (λ x. (tagged_reply x.0, x.1.now)) result }
{
    match tag {
        0x09 => {
            let (first, rest) = u64_at(bytes)?;
            let (second, rest) = u64_at(rest)?;
            let (third, rest) = u64_at(rest)?;
            let (fourth, rest) = u64_at(rest)?;
            Some((SpelledReply::Dirty([first, second, third, fourth]), rest))
        }
        _ => None,
    }
}

// The reply of a tag of the version.
fn reply_of(version: Version, tag: u8, bytes: &[u8]) -> Option<(SpelledReply, &[u8])>
    ensures { fields_of_tag (replies_of version) tag bytes.now
        ≡ option_map (λ x. (tagged_reply x.0, x.1.now)) result }
{
    match version {
        Version::One => reply_of_tag(tag, bytes),
        Version::Two => {
            if tag >= 0x09 {
                return dirty_reply_of_tag(tag, bytes);
            }
            reply_of_tag(tag, bytes)
        }
    }
}

#[tactic(auto, unfolding(crate::specs::Reading::tagged_at))]
fn reply_at(version: Version, bytes: &[u8]) -> Option<(SpelledReply, &[u8])>
    ensures { tagged_at (replies_of version) bytes.now ≡ option_map (λ x. (tagged_reply x.0, x.1.now)) result }
{
    let (tag, rest) = u8_at(bytes)?;
    reply_of(version, tag, rest)
}

#[tactic(auto, unfolding(crate::specs::Reading::record_at))]
fn record_at<A: Allocator + Copy>(
    alloc: A,
    version: Version,
    passes: u16,
    bytes: &[u8],
) -> Result<(SpelledRecord<A>, &[u8]), ReadError>
    ensures read { Gives (λ x. (raw_of x.0, x.1.now)) result (record_at version passes bytes.now) }
    ensures memory { OnMemory result (BeginWithList version passes bytes.now) }
{
    let Some((pass, rest)) = u16_at(bytes) else {
        return Err(ReadError::Torn);
    };
    if pass >= passes {
        return Err(ReadError::Torn);
    }
    let (event, rest) = event_at(alloc, version, rest)?;
    let Some((reply, rest)) = reply_at(version, rest) else {
        return Err(ReadError::Torn);
    };
    let (taken, rest) = frames_at(alloc, rest)?;
    let (given, rest) = frames_at(alloc, rest)?;
    let pass = PassNo(pass);
    let record = SpelledRecord {
        pass,
        event,
        reply,
        taken,
        given,
    };
    Ok((record, rest))
}

/// The record at the front of these bytes of a journal of this version, and the bytes after it, where there are so many
/// passes. The error is Torn where the bytes begin with no record: they end within it, the version has no such tag, its
/// pass isn't below the passes, an access has no byte or more than 64, what a pin is for or whether pages are tracked
/// is neither 0 nor 1, flags have an unknown bit, or an address that they don't fix isn't 0. It is Memory where the
/// memory for a list of the record was refused; an empty list takes none, nor does one for which the bytes are too few.
/// So it is Memory only where the bytes begin with a pass and a whole event, and that has ranges, or behind it stand a
/// reply and frames that were taken or given back.
pub fn read_record<A: Allocator + Copy>(
    alloc: A,
    version: Version,
    passes: u16,
    bytes: &[u8],
) -> Result<(SpelledRecord<A>, &[u8]), ReadError>
    // What is read is spelled so.
    ensures found { IfOk result
        (λ x. (text : List ℕ) × Spells version passes (raw_of x.0) text × (bytes.now ≡ text ++ x.1.now)) }
    // What is spelled so is read, unless memory was refused: the bytes are torn only where they begin with no record.
    ensures only { (r : Raw) (text rest : List ℕ) → Spells version passes r text → bytes.now ≡ text ++ rest →
        Gives {Y = Raw × List ℕ} (λ x. (raw_of x.0, x.1.now)) result (Some (r, rest)) }
    // Memory is told only where a list that is whole and not empty stands: the event's, or one of frames.
    ensures memory { OnMemory result (BeginWithList version passes bytes.now) }
    // A record has one spelling.
    ensures one { (r : Raw) (a b : List ℕ) → Spells version passes r a → Spells version passes r b → a ≡ b }
{
    record_at(alloc, version, passes, bytes)
}
