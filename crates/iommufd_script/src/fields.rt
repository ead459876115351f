//! The fields of a line, taken from its front.

ghost use Rattle.std.specs.Prelude.{◌≡◌, ◌==◌, [], ◌∷◌, MatchOption, if◌then◌else◌};
ghost use Rattle.std.specs.Prelude.{Some, None, length, take};
ghost use Rattle.iommufd_script.specs.Fields.{field_end, fields, fields_left, purpose_of, width_of, next};
ghost use Rattle.iommufd_script.specs.Fields.{Decimal, Hex, Length};
ghost use Rattle.iommufd_script.specs.Fields.{Source, AddressWidth, Bytes, Access, Purpose, Mark, Spans};

use crate::access_bytes::AccessBytes;
use crate::digits;
use crate::hex_bytes::HexBytes;
use crate::span_texts::SpanTexts;
use crate::split::split_at_byte;
use iofd_words::Width;
use std::marker::Model;

// The fields that are left of a line. There may be none, and a field may be empty.
#[derive(Drop)]
pub struct Fields<'a> {
    rest: Option<&'a [u8]>,
}

impl<'a> Model for Fields<'a> {
    ghost use Rattle.std.specs.Prelude.{List, ℕ};
    ghost use Rattle.iommufd_script.specs.Fields.{fields_left};

    ghost Value = { List (List ℕ) };

    ghost view = { λ f. fields_left f.rest };
}

impl<'a> Fields<'a> {
    // The fields of a line, at least one.
    pub fn of(line: &'a [u8]) -> Fields<'a>
        ensures { result ≡ fields line.now }
    {
        Fields { rest: Some(line) }
    }

    // What is left of a line, which may be nothing.
    pub fn left(rest: Option<&'a [u8]>) -> Fields<'a>
        ensures { result ≡ fields_left rest.entry }
    {
        Fields { rest }
    }

    // The text that they stand in, as it was given to `left`.
    pub fn text(self) -> Option<&'a [u8]>
        ensures { fields_left result ≡ self.entry }
    {
        self.rest
    }

    // The first field and those behind it.
    pub fn split(self) -> Option<(&'a [u8], Fields<'a>)>
        ensures { MatchOption result (self.entry ≡ []) (λ parts. self.entry ≡ parts.0.now ∷ parts.1) }
    {
        let line = self.rest?;
        match split_at_byte(line, b' ') {
            None => Some((line, Fields { rest: None })),
            Some((field, others)) => Some((field, Fields { rest: Some(others) })),
        }
    }

    // What was made of a line's fields, if none is left.
    pub fn end<T: Drop>(self, made: T) -> Option<T>
        ensures { result ≡ (if length self.entry == 0 then Some made else None) }
    {
        match self.rest {
            None => Some(made),
            Some(_) => None,
        }
    }

    // The fields behind the first one of a line, which ends here.
    fn behind(line: &'a [u8], end: usize) -> Fields<'a>
        requires { end ≡ field_end line.now }
        ensures { fields line.now ≡ take end line.now ∷ result }
    {
        if end == line.len() {
            return Fields { rest: None };
        }
        Fields {
            rest: Some(&line[end + 1..]),
        }
    }

    // A decimal number below 2^64.
    #[tactic(auto, unfolding(crate::specs::Fields::next))]
    pub fn decimal_u64(self) -> Option<(u64, Fields<'a>)>
        ensures { result ≡ next (Decimal 64) self.entry }
    {
        let line = self.rest?;
        let (number, end) = digits::decimal_field(line)?;
        Some((number, Fields::behind(line, end)))
    }

    // A decimal number below 2^32.
    #[tactic(auto, unfolding(crate::specs::Fields::next, crate::specs::Digits::number_of))]
    pub fn decimal_u32(self) -> Option<(u32, Fields<'a>)>
        ensures { result ≡ next (Decimal 32) self.entry }
    {
        let (number, others) = self.decimal_u64()?;
        Some((u32::try_from(number).ok()?, others))
    }

    // A decimal number below 2^16.
    #[tactic(auto, unfolding(crate::specs::Fields::next, crate::specs::Digits::number_of))]
    pub fn decimal_u16(self) -> Option<(u16, Fields<'a>)>
        ensures { result ≡ next (Decimal 16) self.entry }
    {
        let (number, others) = self.decimal_u64()?;
        Some((u16::try_from(number).ok()?, others))
    }

    // A hexadecimal number below 2^64.
    #[tactic(auto, unfolding(crate::specs::Fields::next))]
    pub fn hexadecimal_u64(self) -> Option<(u64, Fields<'a>)>
        ensures { result ≡ next (Hex 64) self.entry }
    {
        let line = self.rest?;
        let (number, end) = digits::hexadecimal_field(line)?;
        Some((number, Fields::behind(line, end)))
    }

    // A hexadecimal number below 2^32.
    #[tactic(auto, unfolding(crate::specs::Fields::next, crate::specs::Digits::number_of))]
    pub fn hexadecimal_u32(self) -> Option<(u32, Fields<'a>)>
        ensures { result ≡ next (Hex 32) self.entry }
    {
        let (number, others) = self.hexadecimal_u64()?;
        Some((u32::try_from(number).ok()?, others))
    }

    // How many bytes an access has, 1 to 64.
    #[tactic(auto, unfolding(crate::specs::Fields::next))]
    pub fn length(self) -> Option<(u8, Fields<'a>)>
        ensures { result ≡ next Length self.entry }
    {
        let (length, others) = self.decimal_u64()?;
        if length == 0 || length > 64 {
            return None;
        }
        Some((length as u8, others))
    }

    // A device's source id.
    #[tactic(auto, unfolding(crate::specs::Fields::next))]
    pub fn source(self) -> Option<(u16, Fields<'a>)>
        ensures { result ≡ next Source self.entry }
    {
        let (field, others) = self.split()?;
        if field.len() != 4 {
            return None;
        }
        Some((digits::hexadecimal_u16(field)?, others))
    }

    // The width of a device's addresses.
    #[tactic(auto, unfolding(crate::specs::Fields::next))]
    pub fn width(self) -> Option<(Width, Fields<'a>)>
        ensures { result ≡ next AddressWidth self.entry }
    {
        let (field, others) = self.split()?;
        Some((width_of(field)?, others))
    }

    // Bytes, or `-` for none. They mostly end their line, and no digit is a space; so all that is left is tried first.
    #[tactic(auto, using(crate::proofs::Whole::whole_field), unfolding(crate::specs::Fields::next))]
    pub fn bytes(self) -> Option<(HexBytes<'a>, Fields<'a>)>
        ensures { result ≡ next Bytes self.entry }
    {
        if let Some(bytes) = HexBytes::of(self.rest?) {
            return Some((bytes, Fields { rest: None }));
        }
        let (field, others) = self.split()?;
        Some((HexBytes::of(field)?, others))
    }

    // The bytes of one access, 1 to 64.
    #[tactic(auto, unfolding(crate::specs::Fields::next))]
    pub fn access(self) -> Option<(AccessBytes<'a>, Fields<'a>)>
        ensures { result ≡ next Access self.entry }
    {
        let (bytes, others) = self.bytes()?;
        Some((AccessBytes::of(bytes)?, others))
    }

    // Whether a pin is for writes too.
    #[tactic(auto, unfolding(crate::specs::Fields::next))]
    pub fn purpose(self) -> Option<(bool, Fields<'a>)>
        ensures { result ≡ next Purpose self.entry }
    {
        let (field, others) = self.split()?;
        Some((purpose_of(field)?, others))
    }

    // Whether the mark `x86` is the first field, which is taken then.
    #[tactic(auto, unfolding(crate::specs::Fields::next))]
    pub fn mark(self) -> (bool, Fields<'a>)
        ensures { Some result ≡ next Mark self.entry }
    {
        let rest = self.rest;
        match self.split() {
            Some((field, others)) if field == b"x86".as_slice() => (true, others),
            _ => (false, Fields { rest }),
        }
    }

    // All that are left, each a span.
    #[tactic(auto, unfolding(crate::specs::Fields::next))]
    pub fn spans(self) -> Option<(SpanTexts<'a>, Fields<'a>)>
        ensures { result ≡ next Spans self.entry }
    {
        Some((SpanTexts::of(self)?, Fields { rest: None }))
    }
}

// Whether a field says that a pin is for writes too.
fn purpose_of(field: &[u8]) -> Option<bool>
    ensures { result ≡ purpose_of field.now }
{
    if field == b"r".as_slice() {
        Some(false)
    } else if field == b"w".as_slice() {
        Some(true)
    } else {
        None
    }
}

// The width that a field names.
fn width_of(field: &[u8]) -> Option<Width>
    ensures { result ≡ width_of field.now }
{
    if field == b"39".as_slice() {
        Some(Width::Bits39)
    } else if field == b"48".as_slice() {
        Some(Width::Bits48)
    } else if field == b"57".as_slice() {
        Some(Width::Bits57)
    } else {
        None
    }
}
