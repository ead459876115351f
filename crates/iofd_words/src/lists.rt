//! Lists that contracts see as lists.

ghost use Rattle.std.specs.Prelude.{◌≡◌, ◌<◌, IfOk, OnErr, length};

use crate::numbers::FrameNo;
use crate::refusal::NoMemory;
use crate::span::Span;
use std::alloc::{Allocator, Global};
use std::marker::Model;

/// Frames, in the order in which they were taken or given back.
pub struct FrameList<A: Allocator = Global> {
    frames: Vec<FrameNo, A>,
}

// Written out, so that it is proved here alone and not in each crate that drops one.
impl<A: Allocator> Drop for FrameList<A> {
    fn drop(self) {
        let FrameList { frames: _ } = self;
    }
}

impl<A: Allocator> Model for FrameList<A> {
    ghost use Rattle.std.specs.Prelude.{List};
    ghost use Rattle.iofd_words.specs.declared.numbers.FrameNo.{FrameNo};

    ghost Value = { List FrameNo };

    ghost view = { λ list. list.frames.items };
}

impl<A: Allocator> FrameList<A> {
    /// The list of these frames. It takes no memory.
    pub fn new(frames: Vec<FrameNo, A>) -> FrameList<A>
        ensures { result ≡ frames.items }
    {
        FrameList { frames }
    }

    /// The frames, in order.
    pub fn as_slice(&self) -> &[FrameNo]
        ensures { result.now ≡ self.now }
    {
        self.frames.as_slice()
    }

    /// The frames as they were handed in. It takes no memory.
    pub fn into_vec(self) -> Vec<FrameNo, A>
        ensures { result.items ≡ self }
    {
        let FrameList { frames } = self;
        frames
    }
}

/// Spans of addresses, in the order given.
pub struct SpanList<A: Allocator = Global> {
    spans: Vec<Span, A>,
}

// Written out, so that it is proved here alone and not in each crate that drops one.
impl<A: Allocator> Drop for SpanList<A> {
    fn drop(self) {
        let SpanList { spans: _ } = self;
    }
}

impl<A: Allocator> Model for SpanList<A> {
    ghost use Rattle.std.specs.Prelude.{List};
    ghost use Rattle.iofd_words.specs.Bounds.{Bounds};

    ghost Value = { List Bounds };

    ghost view = { λ list. list.spans.items };
}

impl<A: Allocator> SpanList<A> {
    /// The list of these spans. It takes no memory.
    pub fn new(spans: Vec<Span, A>) -> SpanList<A>
        ensures { result ≡ spans.items }
    {
        SpanList { spans }
    }

    /// The spans, in order.
    pub fn as_slice(&self) -> &[Span]
        ensures { result.now ≡ self.now }
    {
        self.spans.as_slice()
    }

    /// The same spans in new memory. It fails only where memory does; no spans need none.
    pub fn copied<B: Allocator>(&self, alloc: B) -> Result<SpanList<B>, NoMemory>
        ensures ok { IfOk result (λ spans. spans ≡ self.now) }
        ensures memory { OnErr result (0 < length self.now) }
    {
        Ok(SpanList {
            spans: copied(alloc, &self.spans)?,
        })
    }

    /// The spans as they were handed in. It takes no memory.
    pub fn into_vec(self) -> Vec<Span, A>
        ensures { result.items ≡ self }
    {
        let SpanList { spans } = self;
        spans
    }
}

// The same values in new memory. It fails only where memory does; no values need none. Each list is copied by it, so
// that what an early end lets go is proved once.
pub(crate) fn copied<T: Copy, B: Allocator>(alloc: B, values: &[T]) -> Result<Vec<T, B>, NoMemory>
    ensures ok { IfOk result (λ copies. copies.items ≡ values.now) }
    ensures memory { OnErr result (0 < length values.now) }
{
    let mut copies = Vec::with_capacity(alloc, values.len())?;
    copies.extend_from_slice(values)?;
    Ok(copies)
}
