//! Detach: a device translates no more.

ghost use Rattle.std.specs.Prelude.{◌≡◌, ◌-◌, ℕ, ◌&&◌, true, Option, None, [], IfOk, IsTrue, OnErr, OnOk};
ghost use Rattle.std.specs.Prelude.{vec_capacity, vec_len};
ghost use Rattle.iofd_words.specs.declared.numbers.FrameNo.{FrameNo};
ghost use Rattle.iofd_refusals.specs.Checks.{detach_checks};
ghost use Rattle.iofd_words.specs.FirstTrue.{first_true};
ghost use Rattle.iofd_words.specs.declared.event.Event.TheVariants as event;
ghost use Rattle.server_state.specs.Held.{objects_in};
ghost use Rattle.hwpt_device.specs.Attaching.{has_one_user, is_automatic_at, takes_its_table};
ghost use Rattle.page_table_set.specs.Removed.{CanRemove};
ghost use Rattle.server_state.specs.Seen.{seen};
ghost use Rattle.server_state.specs.Step.{IsGranted, IsKnown, MovingSteps, ShowsSame};

use crate::attachments;
use iofd_words::{
    Attachment, Cause, DeviceNo, FileNo, FrameNo, NoMemory, ObjId, ObjectKind, Reply,
};
use object_table::{Kind, ObjectTable};
use server_state::{Held, State, area_changes, counts, lookups, release};
use std::alloc::Allocator;

/// Why it is refused, by the first row of the definitions that holds. None where nothing refuses it.
#[tactic(auto, unfolding(iofd_refusals::specs::Checks::detach_checks))]
pub fn refusal<A: Allocator>(state: &State<A>, device: DeviceNo) -> Option<Cause>
    requires { IsKnown state.now }
    ensures { result ≡ first_true (detach_checks (seen state.now) device) }
{
    if state.binding_of(device).is_none() {
        return Some(Cause::Id);
    }
    if state.attachment_of(device).is_none() {
        return Some(Cause::Unattached);
    }
    None
}

/// What it does where nothing refuses it: the device owes no area a flush any more, and an automatic page table goes
/// with its last device, and isn't tracked any more. The frames of its tables are given back, and are listed by rising
/// number.
///
/// The only error is want of memory for that list, where a page table goes. It leaves the world as it was.
pub fn commit<A: Allocator>(
    state: &mut State<A>,
    device: DeviceNo,
    given: &mut Vec<FrameNo, A>,
) -> Result<Reply, NoMemory>
    requires granted { IsGranted (event.Detach device) state.old }
    requires none { given.old.items ≡ [] }
    ensures ok { IfOk result (λ reply. (at : ℕ) (via : Option FrameNo) →
        MovingSteps at (event.Detach device) via state.old reply [] given.new.items state.new) }
    ensures err { OnErr result (ShowsSame state.old state.new) }
    ensures none_err { OnErr result (given.new.items ≡ []) }
    ensures memory { OnErr result (IsTrue
        (takes_its_table (objects_in state.old.objects) state.old.attachments.items device)) }
{
    let Some(attachment) = state.attachment_of(device) else {
        // It was refused.
        unreachable!()
    };
    let Attachment { file, hwpt, .. } = *attachment;
    let Some((_, ioas)) = state.space_of(device) else {
        // Each attached device's page table is over an address space.
        unreachable!()
    };
    let goes = is_last(&state.objects, file, hwpt);
    reserve_where(state, goes, file, hwpt, given)?;
    area_changes::pay(&mut state.objects, file, ioas, device);
    attachments::remove(&mut state.attachments, device);
    counts::remove_user(&mut state.objects, file, Kind::Hwpt, hwpt);
    if goes {
        state.dirty.stop(file, hwpt);
        release::remove_page_table(state, file, hwpt, ioas, given);
    }
    Ok(Reply::Done)
}

/// Takes memory for the numbers of the page table's frames, if it goes.
fn reserve_where<A: Allocator>(
    state: &State<A>,
    goes: bool,
    file: FileNo,
    hwpt: ObjId,
    given: &mut Vec<FrameNo, A>,
) -> Result<(), NoMemory>
    requires { IsKnown state.now }
    ensures same { given.new.items ≡ given.old.items }
    ensures room { goes ≡ true → OnOk result (CanRemove state.now.pool state.now.page_tables.tables file hwpt
        (vec_capacity given.new - vec_len given.new)) }
    ensures memory { OnErr result (goes ≡ true) }
{
    if !goes {
        return Ok(());
    }
    state.reserve_given(file, hwpt, given)
}

/// Whether the page table is an automatic one with which one user is counted.
fn is_last<A: Allocator>(table: &ObjectTable<Held<A>, A>, file: FileNo, hwpt: ObjId) -> bool
    ensures { result ≡ is_automatic_at (objects_in table.now) file hwpt && has_one_user table.now file hwpt }
{
    is_automatic(table, file, hwpt) && has_one_user(table, file, hwpt)
}

/// Whether one user is counted with the page table.
fn has_one_user<A: Allocator>(table: &ObjectTable<Held<A>, A>, file: FileNo, hwpt: ObjId) -> bool
    ensures { result ≡ has_one_user table.now file hwpt }
{
    match table.users(file, Kind::Hwpt, hwpt) {
        Ok(users) => users == 1,
        Err(_) => false,
    }
}

/// Whether the object is an automatic page table.
fn is_automatic<A: Allocator>(table: &ObjectTable<Held<A>, A>, file: FileNo, id: ObjId) -> bool
    ensures { result ≡ is_automatic_at (objects_in table.now) file id }
{
    match lookups::kind_of(table, file, id) {
        Some(ObjectKind::Hwpt { automatic, .. }) => automatic,
        _ => false,
    }
}
