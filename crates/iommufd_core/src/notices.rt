//! The question for an access object's notices, refused or answered.

ghost use Rattle.std.specs.Prelude.{◌≡◌, ◌<◌, IfOk, length};
ghost use Rattle.iofd_words.specs.Accesses.{notices};
ghost use Rattle.iofd_words.specs.FirstTrue.{first_true};
ghost use Rattle.iofd_steps.specs.Look.{notices_checks};
ghost use Rattle.server_state.specs.Seen.{seen};
ghost use Rattle.iommufd_core.specs.Refused.{refused_cause};

use access_pins::notices;
use iofd_words::{CallError, FileNo, ObjId, Refusal, Span};
use server_state::State;
use std::alloc::Allocator;

/// The notices, unless the question is refused, or memory is wanting, which it is only where there are some.
pub(crate) fn notices<A: Allocator + Copy>(
    state: &State<A>,
    file: FileNo,
    access: ObjId,
) -> Result<Vec<Span, A>, CallError>
    ensures refused { refused_cause result ≡ first_true (notices_checks (seen state.now) file access) }
    ensures spans { IfOk result (λ spans. spans.items ≡ notices (seen state.now) file access) }
    ensures memory { result ≡ Err (CallError.Memory (record {}))
        → 0 < length (notices (seen state.now) file access) }
{
    if let Some(cause) = notices::refusal(state, file, access) {
        return Err(CallError::Refused(Refusal { cause }));
    }
    Ok(notices::notices(state.alloc, state, file, access)?)
}
