//! The question for the usable ranges of an address space, refused or answered.

ghost use Rattle.std.specs.Prelude.{◌≡◌, IfOk};
ghost use Rattle.iofd_words.specs.FirstTrue.{first_true};
ghost use Rattle.iofd_steps.specs.Look.{AreUsableRanges, ranges_checks};
ghost use Rattle.server_state.specs.Seen.{seen};
ghost use Rattle.iommufd_core.specs.Refused.{refused_cause};

use event_ioas::usable_ranges;
use iofd_words::{CallError, FileNo, ObjId, Refusal};
use iova_ranges::RangeSet;
use server_state::State;
use std::alloc::Allocator;

/// The usable ranges, unless the question is refused or memory is wanting.
pub(crate) fn usable_ranges<A: Allocator + Copy>(
    state: &State<A>,
    file: FileNo,
    ioas: ObjId,
) -> Result<RangeSet<A>, CallError>
    ensures refused { refused_cause result ≡ first_true (ranges_checks (seen state.now) file ioas) }
    ensures ranges { IfOk result (λ set. AreUsableRanges (seen state.now) file ioas set.spans) }
{
    if let Some(cause) = usable_ranges::refusal(state, file, ioas) {
        return Err(CallError::Refused(Refusal { cause }));
    }
    Ok(usable_ranges::usable_ranges(state, file, ioas)?)
}
