//! The spans that a script reserves for a device.

ghost use Rattle.std.specs.Prelude.{◌≡◌, ◌&&◌, [], ◌∷◌, ◌<◌, MatchOption, IfOk, OnErr, Some};
ghost use Rattle.std.specs.Prelude.{None, true, length};
ghost use Rattle.std.specs.Prelude.{nat_le, if◌then◌else◌};
ghost use Rattle.std.specs.List.{list_all};
ghost use Rattle.iofd_words.specs.Settings.{is_reserved_span};
ghost use Rattle.iommufd_script.specs.Fields.{are_spans, fields_left, span_of, spans_in};

use crate::digits::hexadecimal_u64;
use crate::fields::Fields;
use crate::split::split_at_byte;
use iofd_words::{NoMemory, Span, SpanList};
use std::alloc::Allocator;
use std::marker::Model;

// The most spans that a device may reserve.
const MOST_SPANS: usize = 16;

/// Spans, as the fields that the script has for them. They take no memory.
#[derive(Drop)]
pub struct SpanTexts<'a> {
    // The fields, each of which is a span.
    rest: Option<&'a [u8]>,
}

impl<'a> Model for SpanTexts<'a> {
    ghost use Rattle.std.specs.Prelude.{List, ◌≡◌, true};
    ghost use Rattle.iofd_words.specs.Bounds.{Bounds};
    ghost use Rattle.iommufd_script.specs.Fields.{are_spans, fields_left, spans_in};

    ghost Value = { List Bounds };

    ghost view = { λ spans. spans_in (fields_left spans.rest) };

    ghost invariant = { λ spans. are_spans (fields_left spans.rest) ≡ true };
}

// The span that a field is: its first and its last number in hexadecimal.
#[tactic(auto, unfolding(crate::specs::Fields::span_of))]
fn span_of(field: &[u8]) -> Option<Span>
    ensures { result ≡ span_of field.now }
{
    let (first, last) = split_at_byte(field, b'-')?;
    if split_at_byte(last, b'-').is_some() {
        return None;
    }
    Span::new(hexadecimal_u64(first)?, hexadecimal_u64(last)?)
}

// Whether it's a span that a device may reserve.
fn is_reserved_span(span: Span) -> bool
    ensures { result ≡ is_reserved_span span }
{
    span.first() < span.last() && span.is_whole_pages()
}

// Whether each of the fields is a span.
fn are_spans(rest: Option<&[u8]>) -> bool
    ensures { result ≡ are_spans (fields_left rest.entry) }
{
    let mut fields = Fields::left(rest);
    while let Some((field, others)) = fields.split() {
        if span_of(field).is_none() {
            return false;
        }
        fields = others;
    }
    true
}

impl<'a> SpanTexts<'a> {
    // The spans of these fields; None where one of them isn't a span.
    pub fn of(fields: Fields<'a>) -> Option<SpanTexts<'a>>
        ensures { result ≡ (if are_spans fields.entry then Some (spans_in fields.entry) else None) }
    {
        let rest = fields.text();
        if are_spans(rest) {
            Some(SpanTexts { rest })
        } else {
            None
        }
    }

    // The same spans.
    fn same(&self) -> SpanTexts<'a>
        ensures { result ≡ self.now }
    {
        SpanTexts { rest: self.rest }
    }

    // Takes the first one; None where no span is left.
    fn next_span(&mut self) -> Option<Span>
        ensures { MatchOption result ((self.old ≡ []) × (self.new ≡ [])) (λ span.
            self.old ≡ span ∷ self.new) }
    {
        let (field, others) = Fields::left(self.rest).split()?;
        self.rest = others.text();
        span_of(field)
    }

    // Whether a device may reserve them: they are at most 16, each of whole pages and its first number below
    // its last.
    pub fn are_in_limits(&self) -> bool
        ensures { result ≡ (nat_le (length self.now) 16 && list_all is_reserved_span self.now) }
    {
        let mut spans = self.same();
        let mut count: usize = 0;
        while let Some(span) = spans.next_span() {
            if count == MOST_SPANS || !is_reserved_span(span) {
                return false;
            }
            count += 1;
        }
        true
    }

    /// They, in memory of this allocator. It fails only where memory does; no spans need none.
    pub fn to_list<A: Allocator>(&self, alloc: A) -> Result<SpanList<A>, NoMemory>
        ensures ok { IfOk result (λ list. list ≡ self.now) }
        ensures memory { OnErr result (0 < length self.now) }
    {
        let mut list = Vec::new(alloc);
        let mut spans = self.same();
        while let Some(span) = spans.next_span() {
            list.push(span)?;
        }
        Ok(SpanList::new(list))
    }
}
