//! Pinned pages of memory objects.

ghost use Rattle.std.specs.Prelude.{◌≡◌, ◌==◌, ◌&&◌};
ghost use Rattle.std.specs.List.{list_any};
ghost use Rattle.iofd_words.specs.Pins.{covers_page, is_accessed, pinned_frame, span_of_page};
ghost use Rattle.iofd_words.specs.Span.{lies_in};

use crate::objects::access_ioas_of;
use iofd_words::{AccessPin, Area, FrameNo, Object, Pin};

// Whether it is the pin of this page.
fn is_pin_of(memory: u64, index: u64, pin: Pin) -> bool
    ensures { result ≡ (pin.memory == memory && pin.index == index) }
{
    pin.memory == memory && pin.index == index
}

/// The frame that a page of a memory object was pinned at.
pub fn pinned_frame(pins: &[Pin], memory: u64, index: u64) -> Option<FrameNo>
    ensures { result ≡ pinned_frame pins.now (record { memory = memory; index = index }) }
{
    for pin in pins {
        if is_pin_of(memory, index, *pin) {
            return Some(pin.frame);
        }
    }
    None
}

// Whether the access object of the pin is attached to the area's address space, and the page of the area lies in the
// pin's span. Objects are gone through only where it does.
fn covers_page(objects: &[Object], index: u64, pin: &AccessPin, area: &Area) -> bool
    ensures { result ≡ covers_page objects.now index pin.now area.now }
{
    if area.file.0 != pin.file.0 || !has_page(pin, area, index) {
        return false;
    }
    match access_ioas_of(objects, pin.file, pin.access) {
        Some(attached) => attached.0 == area.ioas.0,
        None => false,
    }
}

// Whether the page of the area lies in the pin's span.
fn has_page(pin: &AccessPin, area: &Area, index: u64) -> bool
    ensures { result ≡ lies_in (span_of_page area.now index) pin.now.span }
{
    let first = u128::from(area.span.first()) + 4096 * u128::from(index);
    u128::from(pin.span.first()) <= first && first + 4095 <= u128::from(pin.span.last())
}

// Whether the area is over the memory object, and the access pin covers the page in it.
fn covers_in(objects: &[Object], pin: &AccessPin, memory: u64, index: u64, area: &Area) -> bool
    ensures { result ≡ (area.now.memory == memory && covers_page objects.now index pin.now area.now) }
{
    area.memory == memory && covers_page(objects, index, pin, area)
}

// Whether the access pin covers the page in some area.
fn is_accessed_by(
    objects: &[Object],
    areas: &[Area],
    pin: &AccessPin,
    memory: u64,
    index: u64,
) -> bool
    ensures { result
        ≡ list_any (λ area. area.memory == memory && covers_page objects.now index pin.now area) areas.now }
{
    for area in areas {
        if covers_in(objects, pin, memory, index, area) {
            return true;
        }
    }
    false
}

/// Whether some access pin covers the page, in some area over its memory object.
pub fn is_accessed(
    objects: &[Object],
    areas: &[Area],
    access_pins: &[AccessPin],
    memory: u64,
    index: u64,
) -> bool
    ensures { result ≡ is_accessed objects.now areas.now access_pins.now (record { memory = memory; index = index }) }
{
    for pin in access_pins {
        if is_accessed_by(objects, areas, pin, memory, index) {
            return true;
        }
    }
    false
}
