//! Addresses as a request names them.

ghost use Rattle.std.specs.Prelude.{◌≡◌, ◌&&◌, not};
ghost use Rattle.iofd_words.specs.Areas.{areas_meet, areas_of, is_cut, is_of};
ghost use Rattle.iofd_words.specs.Span.{lies_in, meets, span_from};

use iofd_words::{Area, FileNo, ObjId, Span};
use journal_audit_world::areas::is_of;
use std::marker::Model;

/// The addresses from the first on up to the last, which may lie above 2^64 or below the first.
#[derive(Clone, Copy)]
pub struct Asked {
    pub first: u64,
    pub last: u128,
}

impl Model for Asked {
    ghost use Rattle.iofd_words.specs.Bounds.{Bounds};

    ghost Value = { Bounds };

    ghost view = { λ asked. record { first = asked.first; last = asked.last } };

    ghost inverse = { λ bounds. record { first = bounds.first; last = bounds.last } };
}

impl Asked {
    /// So many addresses from this one on.
    pub fn from(first: u64, length: u64) -> Asked
        ensures { result ≡ span_from first length }
    {
        let end = u128::from(first) + u128::from(length);
        Asked {
            first,
            last: end.saturating_sub(1),
        }
    }

    /// Whether the span has an address in common with it.
    pub fn meets(self, span: Span) -> bool
        ensures { result ≡ meets span self }
    {
        u128::from(span.first()) <= self.last && self.first <= span.last()
    }

    /// Whether each address of the span is one of them.
    pub fn has_all(self, span: Span) -> bool
        ensures { result ≡ lies_in span self }
    {
        self.first <= span.first() && u128::from(span.last()) <= self.last
    }
}

// Whether it is an area of the address space that has an address in common with it.
fn is_met(area: &Area, file: FileNo, ioas: ObjId, asked: Asked) -> bool
    ensures { result ≡ (is_of file ioas area.now && meets area.now.span asked) }
{
    is_of(file, ioas, area) && asked.meets(area.span)
}

/// Whether some area of the address space has an address in common with it.
pub fn areas_meet(areas: &[Area], file: FileNo, ioas: ObjId, asked: Asked) -> bool
    ensures { result ≡ areas_meet asked (areas_of areas.now file ioas) }
{
    for area in areas {
        if is_met(area, file, ioas, asked) {
            return true;
        }
    }
    false
}

// Whether it is one that isn't wholly in it.
fn is_parted(area: &Area, file: FileNo, ioas: ObjId, asked: Asked) -> bool
    ensures { result
        ≡ (is_of file ioas area.now && (meets area.now.span asked && not (lies_in area.now.span asked))) }
{
    is_met(area, file, ioas, asked) && !asked.has_all(area.span)
}

/// Whether one has, and isn't wholly in it.
pub fn is_cut(areas: &[Area], file: FileNo, ioas: ObjId, asked: Asked) -> bool
    ensures { result ≡ is_cut asked (areas_of areas.now file ioas) }
{
    for area in areas {
        if is_parted(area, file, ioas, asked) {
            return true;
        }
    }
    false
}
