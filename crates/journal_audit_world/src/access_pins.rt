//! The pins that access objects hold.

ghost use Rattle.std.specs.Prelude.{◌≡◌, ◌==◌, ◌&&◌, ◌<◌, length, remove, MatchOption};
ghost use Rattle.iofd_words.specs.Pins.{allows, has_most_pins, holds_pin, is_covered, is_equal, is_held, is_of_access};
ghost use Rattle.iofd_words.specs.Accesses.{pin_of, pinned_span};
ghost use Rattle.iofd_words.specs.Pins.{without_pin};
ghost use Rattle.iofd_words.specs.Span.{holds};

use iofd_words::{AccessKind, AccessPin, FileNo, ObjId, PinRequest};
use std::alloc::Allocator;

/// Whether it is a pin of this access object.
pub fn is_of_access(file: FileNo, access: ObjId, pin: &AccessPin) -> bool
    ensures { result ≡ is_of_access file access pin.now }
{
    pin.file.0 == file.0 && pin.access.0 == access.0
}

/// Whether the access object holds a pin.
pub fn holds_pin(pins: &[AccessPin], file: FileNo, access: ObjId) -> bool
    ensures { result ≡ holds_pin pins.now file access }
{
    for pin in pins {
        if is_of_access(file, access, pin) {
            return true;
        }
    }
    false
}

/// Whether it holds as many as it may.
pub fn has_most_pins(pins: &[AccessPin], file: FileNo, access: ObjId) -> bool
    ensures { result ≡ has_most_pins pins.now file access }
{
    let mut count: usize = 0;
    for pin in pins {
        if is_of_access(file, access, pin) {
            count += 1;
        }
    }
    count >= 65535
}

// Whether the pin is the one that is asked for.
fn is_asked(file: FileNo, access: ObjId, request: PinRequest, pin: &AccessPin) -> bool
    ensures { result ≡ is_equal (pin_of file access request) pin.now }
{
    is_of_access(file, access, pin)
        && request.iova.0 == pin.span.first()
        && last_of(request) == u128::from(pin.span.last())
        && request.write == pin.write
}

/// The last address that is asked for.
pub fn last_of(request: PinRequest) -> u128
    ensures { result ≡ (pinned_span request).last }
{
    (u128::from(request.iova.0) + u128::from(request.length)).saturating_sub(1)
}

/// Whether a pin that equals the one that is asked for is held.
pub fn is_held(pins: &[AccessPin], file: FileNo, access: ObjId, request: PinRequest) -> bool
    ensures { result ≡ is_held pins.now (pin_of file access request) }
{
    for pin in pins {
        if is_asked(file, access, request, pin) {
            return true;
        }
    }
    false
}

// What a pin is for: each for reads, and some for writes too.
fn allows(write: bool, kind: AccessKind) -> bool
    ensures { result ≡ allows write kind }
{
    match kind {
        AccessKind::Read => true,
        AccessKind::Write => write,
    }
}

// Whether the pin is of the access object, covers the page at the address, and is for such an access.
fn covers(pin: &AccessPin, file: FileNo, access: ObjId, address: u64, kind: AccessKind) -> bool
    ensures { result
        ≡ (is_of_access file access pin.now && (holds pin.now.span address && allows pin.now.write kind)) }
{
    is_of_access(file, access, pin) && (pin.span.holds(address) && allows(pin.write, kind))
}

/// Whether a pin of the access object covers the page at the address, and is for such an access.
pub fn is_covered(
    pins: &[AccessPin],
    file: FileNo,
    access: ObjId,
    address: u64,
    kind: AccessKind,
) -> bool
    ensures { result ≡ is_covered pins.now file access address kind }
{
    for pin in pins {
        if covers(pin, file, access, address, kind) {
            return true;
        }
    }
    false
}

/// One pin that equals the one that is asked for goes, if one is held.
pub fn remove<A: Allocator>(
    pins: &mut Vec<AccessPin, A>,
    file: FileNo,
    access: ObjId,
    request: PinRequest,
)
    ensures { pins.new.items ≡ without_pin (pin_of file access request) pins.old.items }
{
    let Some(place) = place_of(pins, file, access, request) else {
        return;
    };
    pins.remove(place);
}

// Where the first of them stands.
fn place_of(pins: &[AccessPin], file: FileNo, access: ObjId, request: PinRequest) -> Option<usize>
    ensures { let pin = pin_of file access request in MatchOption result (without_pin pin pins.now ≡ pins.now)
        (λ place. (place < length pins.now) × (remove pins.now place ≡ without_pin pin pins.now)) }
{
    for (index, pin) in pins.iter().enumerate() {
        if is_asked(file, access, request, pin) {
            return Some(index);
        }
    }
    None
}
