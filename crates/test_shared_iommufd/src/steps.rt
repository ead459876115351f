//! One step of a script, carried out by a caller.

ghost use Rattle.std.specs.Prelude.{◌≡◌, false, IfSome};
ghost use Rattle.guarded_core.specs.OfPort.{event_of_port, query_of_port};

use crate::lines::{tells_answer, tells_ioctl, tells_notices, tells_stamp};
use crate::rows::count_records;
use crate::served::Caller;
use iofd_words::{Event, FileNo, NoMemory, Query};
use iommufd_script::{HexBytes, Step};
use shared_iommufd::IoctlAnswer;
use std::alloc::Global;

// While a block of so many bytes is held, `tests/growth` may refuse a growth.
const WATCHED: usize = 54321;

// The event of a step, if it is one of those in the scripts.
fn event_of(step: &Step<'_>) -> Option<Event>
    ensures { IfSome result (λ event. event_of_port event ≡ false) }
{
    match step {
        Step::UserMap(user, va) => Some(Event::UserMap(*user, *va)),
        Step::UserUnmap(user, va) => Some(Event::UserUnmap(*user, *va)),
        Step::UserWrite(user, va, bytes) => Some(Event::UserWrite(*user, *va, bytes.burst())),
        Step::Bind(file, device) => Some(Event::Bind(*file, *device)),
        Step::AccessCreate(file) => Some(Event::AccessCreate(*file)),
        Step::AccessAttach(file, id, ioas) => Some(Event::AccessAttach(*file, *id, *ioas)),
        Step::AccessPin(file, id, pin) => Some(Event::AccessPin(*file, *id, *pin)),
        Step::AccessUnpin(file, id, pin) => Some(Event::AccessUnpin(*file, *id, *pin)),
        Step::AccessWrite(file, id, iova, bytes) => {
            Some(Event::AccessWrite(*file, *id, *iova, bytes.burst()))
        }
        _ => None,
    }
}

// The question of a step, if it is one of those in the scripts.
fn query_of(step: &Step<'_>) -> Option<Query>
    ensures { IfSome result (λ query. query_of_port query ≡ false) }
{
    match step {
        Step::UserRead(user, va, len) => Some(Query::UserRead {
            user: *user,
            va: *va,
            len: *len,
        }),
        Step::AccessRead(file, access, iova, len) => Some(Query::AccessRead {
            file: *file,
            access: *access,
            iova: *iova,
            len: *len,
        }),
        Step::FreeFrames => Some(Query::FreeFrames),
        Step::Held(user) => Some(Query::Held(*user)),
        _ => None,
    }
}

// An ioctl, to which a growth may be refused.
fn watched<C: Caller>(
    global: Global,
    caller: &mut C,
    file: FileNo,
    number: u32,
    bytes: &[u8],
) -> Option<Result<IoctlAnswer, NoMemory>> {
    match Vec::<u8>::with_capacity(global, WATCHED) {
        Ok(_block) => Some(caller.ioctl(file, number, bytes)),
        Err(_) => None,
    }
}

// Whether the ioctl that these digits spell has this line, where so many records were made before. One that was refused
// a growth makes no record, and has it when it is made again at once.
fn is_ioctl<C: Caller>(
    global: Global,
    caller: &mut C,
    file: FileNo,
    number: u32,
    spelt: &HexBytes<'_>,
    line: &[u8],
    before: u64,
) -> bool {
    let Ok(bytes) = spelt.to_vec(global) else {
        return false;
    };
    let mut told = watched(global, caller, file, number, &bytes);
    if let Some(Err(NoMemory)) = told {
        if count_records(caller) != before {
            return false;
        }
        told = Some(caller.ioctl(file, number, &bytes));
    }
    match told {
        Some(Ok(answer)) => tells_ioctl(global, line, &answer),
        _ => false,
    }
}

// Whether a step that is an event or a question has this line, where so many records were made before.
fn is_told<C: Caller>(caller: &mut C, step: &Step<'_>, line: &[u8], before: u64) -> bool {
    match query_of(step) {
        Some(query) => tells_answer(line, &caller.look(&query)),
        None => match event_of(step) {
            Some(event) => tells_stamp(line, &caller.call(event), before),
            None => false,
        },
    }
}

/// Whether the step has this line, where so many records were made before.
pub fn is_answered<C: Caller>(
    global: Global,
    caller: &mut C,
    step: &Step<'_>,
    line: &[u8],
    before: u64,
) -> bool {
    match step {
        Step::Ioctl(file, number, bytes) => {
            is_ioctl(global, caller, *file, *number, bytes, line, before)
        }
        Step::Notices(file, access) => {
            tells_notices(global, line, &caller.notices(*file, *access))
        }
        _ => is_told(caller, step, line, before),
    }
}
