//! Where an access object is attached, and the pin that it is asked to take or to let go.

ghost use Rattle.std.specs.Prelude.{◌≡◌, ◌<◌, false, IfSome, IsSome};
ghost use Rattle.iofd_words.specs.Accesses.{pin_of};
ghost use Rattle.iofd_words.specs.Objects as objects;
ghost use Rattle.iofd_words.specs.Pages.{is_above_sum};
ghost use Rattle.server_state.specs.AccessPins.{row_of};
ghost use Rattle.server_state.specs.Held.{objects_in};

use held_pins::HeldPin;
use iofd_words::{FileNo, ObjId, ObjectKind, PinRequest, Span};
use object_table::ObjectTable;
use server_state::{Held, lookups};
use std::alloc::Allocator;

/// The address space to which the file's access object of this id is attached.
pub(crate) fn attached_to<A: Allocator>(
    table: &ObjectTable<Held<A>, A>,
    file: FileNo,
    id: ObjId,
) -> Option<ObjId>
    ensures { result ≡ objects.access_ioas_of (objects_in table.now) file id }
{
    match lookups::kind_of(table, file, id) {
        Some(ObjectKind::Access { ioas }) => ioas,
        _ => None,
    }
}

/// The pin that is asked for, in this address space; None where it has no pages, or some at no address.
pub(crate) fn asked_pin(
    file: FileNo,
    id: ObjId,
    ioas: ObjId,
    request: PinRequest,
) -> Option<HeldPin>
    ensures row { IfSome result (λ pin. row_of pin ≡ pin_of file id request) }
    ensures space { IfSome result (λ pin. pin.ioas ≡ ioas) }
    ensures some { 0 < request.length → is_above_sum request.iova.0 request.length ≡ false → IsSome result }
{
    let span = Span::of_length(request.iova.0, request.length)?;
    Some(HeldPin {
        file,
        access: id,
        ioas,
        span,
        write: request.write,
    })
}
