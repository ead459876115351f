//! The spans that devices keep for themselves.

ghost use Rattle.std.specs.Prelude.{◌≡◌, ℕ, ◌+◌, ◌<◌, ◌≤◌, ◌&&◌, ◌++◌, [], not, length};
ghost use Rattle.std.specs.Prelude.{IfOk, OnOk, OnErr, vec_len};
ghost use Rattle.std.specs.Prelude.{vec_capacity};
ghost use Rattle.iofd_words.specs.Ranges.{AreMerged, in_spans};
ghost use Rattle.iova_ranges.specs.Reserved.{rows_of, without_owner, is_reserved, meets_reserved};

use crate::RangeSet;
use iofd_words::{DeviceNo, NoMemory, Span};
use std::alloc::{Allocator, Global};
use std::marker::Model;

/// A span of addresses that a device keeps for itself.
#[derive(Clone, Copy, PartialEq, Eq)]
pub struct ReservedSpan {
    /// The device.
    pub owner: DeviceNo,
    /// Its addresses.
    pub span: Span,
}

/// The reserved spans of the devices that are attached to an address space. They may overlap. A contract sees them in
/// the order in which they came, and for how many more there is memory.
#[derive(Drop)]
pub struct Reserved<A: Allocator = Global> {
    rows: Vec<ReservedSpan, A>,
}

impl<A: Allocator> Model for Reserved<A> {
    ghost use Rattle.std.specs.Prelude.{◌-◌};
    ghost use Rattle.std.specs.Vec.{vec_len, vec_capacity};
    ghost use Rattle.iova_ranges.specs.Reserved.{ReservedTable};

    ghost Value = { ReservedTable };

    ghost view = { λ all. record { rows = all.rows.items; room = vec_capacity all.rows - vec_len all.rows } };
}

impl<A: Allocator> Reserved<A> {
    /// No reserved spans. It takes no memory.
    pub fn new(alloc: A) -> Reserved<A>
        ensures { result.rows ≡ [] }
    {
        Reserved {
            rows: Vec::new(alloc),
        }
    }

    /// The reserved spans with their devices, in the order in which they came.
    pub fn rows(&self) -> &[ReservedSpan]
        ensures { result.now ≡ self.now.rows }
    {
        self.rows.as_slice()
    }

    /// Adds the device's spans, behind the others. Want of memory comes only where there was no room for all, and
    /// leaves the rows as they were.
    pub fn add(&mut self, owner: DeviceNo, spans: &[Span]) -> Result<(), NoMemory>
        ensures ok { OnOk result (self.new.rows ≡ self.old.rows ++ rows_of owner spans.now) }
        ensures err { OnErr result (self.new.rows ≡ self.old.rows) }
        ensures full { OnErr result (self.old.room < length spans.now) }
        ensures room { self.old.room ≤ self.new.room + length spans.now }
    {
        self.rows.reserve(spans.len())?;
        append(&mut self.rows, owner, spans);
        Ok(())
    }

    /// Takes all spans of the device away. The others stay. It takes no memory.
    pub fn remove(&mut self, owner: DeviceNo)
        ensures rows { self.new.rows ≡ without_owner owner self.old.rows }
        ensures room { self.old.room ≤ self.new.room }
    {
        self.rows.retain(|row| row.owner != owner);
    }

    /// Whether the number is reserved. It takes no memory.
    pub fn holds(&self, number: u64) -> bool
        ensures { result ≡ is_reserved self.now.rows number }
    {
        self.rows.iter().any(|row| row.span.holds(number))
    }

    /// Whether some number of the span is reserved. It takes no memory.
    pub fn meets(&self, span: Span) -> bool
        ensures { result ≡ meets_reserved self.now.rows span }
    {
        self.rows.iter().any(|row| row.span.meets(span))
    }

    /// The numbers of the set that aren't reserved. It fails only where memory does, and then the set is gone.
    pub fn outside<B: Allocator>(&self, set: RangeSet<B>) -> Result<RangeSet<B>, NoMemory>
        ensures set { IfOk result
            (λ rest. (n : ℕ) →
            in_spans rest.spans n ≡ (in_spans set.spans n && not (is_reserved self.now.rows n))) }
        ensures merged { IfOk result (λ rest. AreMerged rest.spans) }
        ensures memory { OnErr result (0 < length self.now.rows) }
    {
        let mut rest = set;
        for row in &self.rows {
            rest.remove(row.span)?;
        }
        Ok(rest)
    }
}

// Appends the device's spans, for which there is room.
fn append<A: Allocator>(rows: &mut Vec<ReservedSpan, A>, owner: DeviceNo, spans: &[Span])
    requires { vec_len rows.old + length spans.now ≤ vec_capacity rows.old }
    ensures items { rows.new.items ≡ rows.old.items ++ rows_of owner spans.now }
    ensures capacity { vec_capacity rows.new ≡ vec_capacity rows.old }
{
    for span in spans {
        rows.push_reserved(ReservedSpan { owner, span: *span });
    }
}
