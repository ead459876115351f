//! The usable ranges of an address space: what IOMMU_IOAS_IOVA_RANGES tells (uapi header, `linux/iommufd.h`).

ghost use Rattle.std.specs.Prelude.{ℕ, ◌≡◌, ◌==◌, ◌||◌, ◌^◌, not, nat_lt, false, IfOk};
ghost use Rattle.std.specs.Prelude.{OnOk, MatchOption};
ghost use Rattle.std.specs.List.{list_any};
ghost use Rattle.iofd_rows.specs.Reached as reached;
ghost use Rattle.iofd_words.specs.Files.{device_of};
ghost use Rattle.iofd_words.specs.FirstTrue.{first_true};
ghost use Rattle.iofd_steps.specs.Look.{AreUsableRanges, ranges_checks};
ghost use Rattle.iofd_words.specs.Ranges.{AreMerged, in_spans};
ghost use Rattle.iofd_words.specs.Span.{holds};
ghost use Rattle.iofd_words.specs.Usable.{reserved_of};
ghost use Rattle.event_ioas.specs.LeftOut.{LeavesOut, only};
ghost use Rattle.server_state.specs.Held.{kind_in, objects_in};
ghost use Rattle.server_state.specs.Seen.{seen};

use iofd_words::{Attachment, Cause, Config, FileNo, INTERRUPT_RANGE, NoMemory, ObjId, Span};
use iova_ranges::RangeSet;
use object_table::ObjectTable;
use server_state::{Held, State, lookups};
use std::alloc::Allocator;

/// Why the question is refused: Id (2, ENOENT), where the file isn't open or the id is no address space of it. It takes
/// no memory.
pub fn refusal<A: Allocator>(state: &State<A>, file: FileNo, ioas: ObjId) -> Option<Cause>
    ensures { result ≡ first_true (ranges_checks (seen state.now) file ioas) }
{
    if !state.objects.is_open(file) {
        return Some(Cause::Id);
    }
    match lookups::areas_of(&state.objects, file, ioas) {
        Some(_) => None,
        None => Some(Cause::Id),
    }
}

/// The usable addresses of the file's address space of this id, the allowed ones or not: those that each of its page
/// tables translates and no device attached to it keeps for itself. One pass over the file's objects and the
/// attachments. It fails only where memory does.
pub fn usable_ranges<A: Allocator + Copy>(
    state: &State<A>,
    file: FileNo,
    ioas: ObjId,
) -> Result<RangeSet<A>, NoMemory>
    ensures { IfOk result (λ set. AreUsableRanges (seen state.now) file ioas set.spans) }
{
    let mut set = everything(state.alloc)?;
    leave_out_beyond(&mut set, &state.objects, file, ioas)?;
    leave_out_kept(&mut set, state, file, ioas)?;
    Ok(set)
}

/// All addresses.
fn everything<A: Allocator>(alloc: A) -> Result<RangeSet<A>, NoMemory>
    ensures set { IfOk result (λ set. (n : ℕ) → in_spans set.spans n ≡ nat_lt n (2 ^ 64)) }
    ensures merged { IfOk result (λ set. AreMerged set.spans) }
{
    let mut set = RangeSet::new(alloc);
    let Some(all) = Span::new(0, u64::MAX) else {
        // Never: 0 isn't above the last address.
        return Ok(set);
    };
    set.add(all)?;
    Ok(set)
}

/// Leaves out what a page table over the address space doesn't translate.
fn leave_out_beyond<A: Allocator>(
    set: &mut RangeSet<A>,
    table: &ObjectTable<Held<A>, A>,
    file: FileNo,
    ioas: ObjId,
) -> Result<(), NoMemory>
    ensures { OnOk result (LeavesOut (λ n. list_any (reached.ends_in file ioas (only n)) (objects_in table.now))
        set.old.spans set.new.spans) }
{
    for object in table.iter(file) {
        leave_out_one(set, object.value, ioas)?;
    }
    Ok(())
}

fn leave_out_one<A: Allocator>(
    set: &mut RangeSet<A>,
    held: &Held<A>,
    ioas: ObjId,
) -> Result<(), NoMemory>
    ensures { OnOk result (LeavesOut (λ n. reached.ends_in_kind ioas (only n) (kind_in held.now))
        set.old.spans set.new.spans) }
{
    match beyond(held, ioas) {
        Some(span) => set.remove(span),
        None => Ok(()),
    }
}

/// The addresses that the object doesn't translate, if it is a page table over the address space.
fn beyond<A: Allocator>(held: &Held<A>, ioas: ObjId) -> Option<Span>
    ensures { MatchOption result
        ((n : ℕ) → reached.ends_in_kind ioas (only n) (kind_in held.now) ≡ false)
        (λ span. (n : ℕ) → reached.ends_in_kind ioas (only n) (kind_in held.now) ≡ holds span n) }
{
    match held {
        Held::Hwpt {
            ioas: over,
            width,
            ..
        } if *over == ioas => Span::new(width.end(), u64::MAX),
        _ => None,
    }
}

/// Leaves out what devices attached to the address space keep for themselves. It's taken by rising start, so that each
/// span is cut out of the last range and none behind it moves.
fn leave_out_kept<A: Allocator + Copy>(
    set: &mut RangeSet<A>,
    state: &State<A>,
    file: FileNo,
    ioas: ObjId,
) -> Result<(), NoMemory>
    ensures { OnOk result (
        LeavesOut (λ n. list_any (reached.keeps_of state.now.config (objects_in state.now.objects) file ioas (only n))
        state.now.attachments.items) set.old.spans set.new.spans) }
{
    let mut spans = kept_spans(state, file, ioas)?;
    spans.sort_unstable_by_key(|span| span.first());
    leave_out_spans(set, &spans)
}

/// What devices attached to the address space keep for themselves.
fn kept_spans<A: Allocator + Copy>(
    state: &State<A>,
    file: FileNo,
    ioas: ObjId,
) -> Result<Vec<Span, A>, NoMemory>
    ensures { IfOk result (λ spans. (n : ℕ) → in_spans spans.items n
        ≡ list_any (reached.keeps_of state.now.config (objects_in state.now.objects) file ioas (only n))
        state.now.attachments.items) }
{
    let mut spans = Vec::new(state.alloc);
    for attachment in &state.attachments {
        if lookups::is_attached_to(&state.objects, file, ioas, attachment) {
            add_kept(&mut spans, &state.config, attachment)?;
        }
    }
    Ok(spans)
}

/// Adds what the attached device keeps for itself.
fn add_kept<A: Allocator>(
    spans: &mut Vec<Span, A>,
    config: &Config<A>,
    attachment: &Attachment,
) -> Result<(), NoMemory>
    ensures { OnOk result ((n : ℕ) → in_spans spans.new.items n
        ≡ (in_spans spans.old.items n || in_spans (reserved_of (device_of config.now attachment.now.device)) n)) }
{
    let Some(device) = config.device(attachment.device) else {
        return Ok(());
    };
    if device.is_x86() {
        spans.push(INTERRUPT_RANGE)?;
    }
    spans.extend_from_slice(device.reserved())?;
    Ok(())
}

fn leave_out_spans<A: Allocator>(set: &mut RangeSet<A>, spans: &[Span]) -> Result<(), NoMemory>
    ensures { OnOk result (LeavesOut (in_spans spans.now) set.old.spans set.new.spans) }
{
    for span in spans {
        set.remove(*span)?;
    }
    Ok(())
}
