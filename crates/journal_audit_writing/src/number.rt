//! Numbers and lists of them, appended to bytes.

ghost use Rattle.std.specs.Prelude.{◌≡◌, ◌^◌, ◌<◌, OnOk, length};
ghost use Rattle.std.specs.List.{AllByRecursion};
ghost use Rattle.journal_audit_bytes.specs.Head.{CountedFit, LimitFits, SpanFits, UserFits, all_spelled, counted};
ghost use Rattle.journal_audit_bytes.specs.Head.{limit_spelled, span_spelled, user_spelled};
ghost use Rattle.journal_audit_writing.specs.Texts.{ByteFits, FrameFits, NumberFits, RangeFits, byte_text, frame_text};
ghost use Rattle.journal_audit_writing.specs.Texts.{number_text, range_text};
ghost use Rattle.journal_audit_writing.specs.Writing.{Appends};

use iofd_words::{FrameNo, IovaRange, NoMemory, Span, UserNo};
use std::alloc::Allocator;

/// What can be appended to the bytes of a journal.
pub trait Spell {
    ghost use Rattle.std.specs.Prelude.{List, ℕ};
    ghost use Rattle.journal_audit_writing.specs.Writing.{Appends};

    /// Its bytes.
    ghost text: { Self → List ℕ };

    /// Its numbers fit their widths.
    ghost fits: { Self → Type 0 };

    /// Appends its bytes. Where memory is refused, what was there stays at the front.
    fn spell<A: Allocator>(&self, out: &mut Vec<u8, A>) -> Result<(), NoMemory>
        ensures bytes { Appends result out.old.items out.new.items (text self.now) }
        ensures fits { fits self.now };
}

/// A number with its width in a journal. All are little-endian.
#[derive(Clone, Copy)]
pub enum Number {
    U8(u8),
    U16(u16),
    U32(u32),
    U64(u64),
}

/// Appends these bytes.
pub fn put<A: Allocator>(out: &mut Vec<u8, A>, bytes: &[u8]) -> Result<(), NoMemory>
    ensures { Appends result out.old.items out.new.items bytes.now }
{
    out.extend_from_slice(bytes)?;
    Ok(())
}

impl Spell for Number {
    ghost text = { number_text };

    ghost fits = { NumberFits };

    fn spell<A: Allocator>(&self, out: &mut Vec<u8, A>) -> Result<(), NoMemory> {
        match *self {
            Number::U8(n) => put(out, &n.to_le_bytes()),
            Number::U16(n) => put(out, &n.to_le_bytes()),
            Number::U32(n) => put(out, &n.to_le_bytes()),
            Number::U64(n) => put(out, &n.to_le_bytes()),
        }
    }
}

// A byte of an access.
impl Spell for u8 {
    ghost text = { byte_text };

    ghost fits = { ByteFits };

    fn spell<A: Allocator>(&self, out: &mut Vec<u8, A>) -> Result<(), NoMemory> {
        let byte = *self;
        put(out, &byte.to_le_bytes())
    }
}

// The limit of a user's pinned pages.
impl Spell for u64 {
    ghost text = { limit_spelled };

    ghost fits = { LimitFits };

    fn spell<A: Allocator>(&self, out: &mut Vec<u8, A>) -> Result<(), NoMemory> {
        let limit = *self;
        put(out, &limit.to_le_bytes())
    }
}

// The user of a file.
impl Spell for UserNo {
    ghost text = { user_spelled };

    ghost fits = { UserFits };

    fn spell<A: Allocator>(&self, out: &mut Vec<u8, A>) -> Result<(), NoMemory> {
        let user = self.0;
        put(out, &user.to_le_bytes())
    }
}

// A table frame that was taken or given back.
impl Spell for FrameNo {
    ghost text = { frame_text };

    ghost fits = { FrameFits };

    fn spell<A: Allocator>(&self, out: &mut Vec<u8, A>) -> Result<(), NoMemory> {
        let frame = self.0;
        put(out, &frame.to_le_bytes())
    }
}

// A range of addresses that an ALLOW_IOVAS names.
impl Spell for IovaRange {
    ghost text = { range_text };

    ghost fits = { RangeFits };

    fn spell<A: Allocator>(&self, out: &mut Vec<u8, A>) -> Result<(), NoMemory> {
        let (start, last) = (self.start, self.last);
        put(out, &start.to_le_bytes())?;
        put(out, &last.to_le_bytes())
    }
}

// A reserved span of a device.
impl Spell for Span {
    ghost text = { span_spelled };

    ghost fits = { λ span. SpanFits span };

    fn spell<A: Allocator>(&self, out: &mut Vec<u8, A>) -> Result<(), NoMemory> {
        let (first, last) = (self.first(), self.last());
        put(out, &first.to_le_bytes())?;
        put(out, &last.to_le_bytes())
    }
}

/// Appends the bytes of each, one behind the other.
pub fn spell_all<T: Spell, A: Allocator>(out: &mut Vec<u8, A>, items: &[T]) -> Result<(), NoMemory>
    ensures bytes { Appends result out.old.items out.new.items (all_spelled T.text items.now) }
    ensures fits { OnOk result (AllByRecursion T.fits items.now) }
{
    for item in items {
        item.spell(out)?;
    }
    Ok(())
}

/// Appends a list behind its number.
pub fn spell_counted<T: Spell, A: Allocator>(
    out: &mut Vec<u8, A>,
    items: &[T],
) -> Result<(), NoMemory>
    requires { length items.now < 2 ^ 16 }
    ensures bytes { Appends result out.old.items out.new.items (counted T.text items.now) }
    ensures fits { OnOk result (CountedFit T.fits items.now) }
{
    Number::U16(items.len() as u16).spell(out)?;
    spell_all(out, items)
}
