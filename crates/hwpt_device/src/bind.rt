//! Bind: a device is bound to a file.

ghost use Rattle.std.specs.Prelude.{◌≡◌, ℕ, IfOk, OnErr};
ghost use Rattle.iofd_refusals.specs.Checks.{bind_checks};
ghost use Rattle.iofd_words.specs.FirstTrue.{first_true};
ghost use Rattle.iofd_words.specs.declared.event.Event.TheVariants as event;
ghost use Rattle.server_state.specs.Seen.{seen};
ghost use Rattle.server_state.specs.Step.{IsGranted, IsKnown, ShowsSame, Steps};

use iofd_words::{CallError, Cause, DeviceNo, FileNo, NoMemory, Object, ObjectKind, Reply};
use server_state::{Held, State, devices};
use std::alloc::Allocator;

/// Why it is refused, by the first row of the definitions that holds. None where nothing refuses it.
#[tactic(auto, using(server_state::proofs::Objects::fullness), unfolding(iofd_refusals::specs::Checks::bind_checks))]
pub fn refusal<A: Allocator>(state: &State<A>, file: FileNo, device: DeviceNo) -> Option<Cause>
    requires { IsKnown state.now }
    ensures { result ≡ first_true (bind_checks (seen state.now) file device) }
{
    if !state.objects.is_open(file) {
        return Some(Cause::Id);
    }
    if !state.config.has_device(device) {
        return Some(Cause::Id);
    }
    if state.binding_of(device).is_some() {
        return Some(Cause::Bound);
    }
    if state.objects.is_full(file) {
        return Some(Cause::Full);
    }
    None
}

/// What it does where nothing refuses it: the file has one more object, by which the device is bound, under an unused
/// id.
///
/// The only error is want of memory. It leaves the world as it was.
pub fn commit<A: Allocator>(
    state: &mut State<A>,
    file: FileNo,
    device: DeviceNo,
) -> Result<Reply, NoMemory>
    requires { IsGranted (event.Bind file device) state.old }
    ensures ok { IfOk result (λ reply. (at : ℕ) → Steps at (event.Bind file device) state.old reply state.new) }
    ensures err { OnErr result (ShowsSame state.old state.new) }
{
    match state.objects.reserve(file) {
        Ok(_) => (),
        // The file is open and not full.
        Err(CallError::Refused(_)) => unreachable!(),
        Err(CallError::Memory(no_memory)) => return Err(no_memory),
    }
    state.bindings.reserve(1)?;
    let id = state.objects.insert_reserved(file, Held::Device(device));
    let object = Object {
        file,
        id,
        kind: ObjectKind::Device(device),
    };
    devices::insert_binding(&mut state.bindings, object);
    Ok(Reply::Id(id))
}
