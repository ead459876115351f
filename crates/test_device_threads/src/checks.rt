//! Whether the results of a device's jobs are those that the journal explains.

use crate::tasks::{Task, are_all, byte_of, own, task_at};
use device_threads::{JobResult, Outcome};
use iofd_words::{Cause, DeviceNo, Event, Record, Refusal, Reply};

// What is known of a device between two jobs.
#[derive(Clone, Copy)]
struct State {
    attached: bool,
    // Each of its own bytes.
    byte: u8,
}

// The record at the place of the result.
fn record_of<'a>(records: &'a [Record], came: &JobResult) -> Option<&'a Record> {
    records.get(usize::try_from(came.at?).ok()?)
}

// Whether the record is of the task of the device.
fn is_of(record: &Record, device: DeviceNo, task: Task) -> bool {
    match (record.event(), task) {
        (Event::Attach(of, _), Task::Attach) => *of == device,
        (Event::Detach(of), Task::Detach) => *of == device,
        (Event::Flush(of), Task::Flush) => *of == device,
        (Event::DeviceWrite(of, iova, bytes), Task::Write) => {
            *of == device && *iova == own(device) && bytes.as_slice().len() == 8
        }
        _ => false,
    }
}

// Whether the reply to the record is what the outcome tells.
fn tells(outcome: &Outcome, reply: Reply) -> bool {
    match outcome {
        Outcome::Turn(Ok(told)) => *told == reply,
        Outcome::Write(Ok(())) => matches!(reply, Reply::Passed(_)),
        Outcome::Write(Err(error)) => error.done == 0 && matches!(reply, Reply::Fault(_)),
        _ => false,
    }
}

// Whether the journal has the record of the result where it says, and else it is a read's.
fn is_recorded(records: &[Record], device: DeviceNo, task: Task, came: &JobResult) -> bool {
    match record_of(records, came) {
        Some(record) => is_of(record, device, task) && tells(&came.outcome, record.reply()),
        None => came.at == None && matches!(task, Task::Read | Task::Probe),
    }
}

// Whether a turn is answered so, as the device is attached or not.
fn is_answered(task: Task, attached: bool, reply: Reply) -> bool {
    let refused = match reply {
        Reply::Refused(Refusal { cause }) => Some(cause),
        _ => None,
    };
    match (task, attached) {
        (Task::Flush, _) | (Task::Detach, true) => reply == Reply::Done,
        (Task::Detach, false) => refused == Some(Cause::Unattached),
        (Task::Attach, true) => refused == Some(Cause::Bound),
        (Task::Attach, false) => {
            matches!(reply, Reply::Id(_)) || refused == Some(Cause::Pending)
        }
        _ => false,
    }
}

// Whether the outcome is lawful for the task as the device stands.
fn is_lawful(state: State, task: Task, outcome: &Outcome) -> bool {
    match (task, outcome) {
        (_, Outcome::Turn(Ok(reply))) => is_answered(task, state.attached, *reply),
        (Task::Write, Outcome::Write(ended)) => ended.is_ok() == state.attached,
        (Task::Read, Outcome::Read { buffer, ended }) => {
            ended.is_ok() == state.attached && (!state.attached || are_all(buffer, state.byte))
        }
        (Task::Probe, Outcome::Read { .. }) => true,
        _ => false,
    }
}

// How the device stands after the job.
fn after(state: State, task: Task, number: u32, outcome: &Outcome) -> State {
    match (task, outcome) {
        (Task::Attach, Outcome::Turn(Ok(Reply::Id(_)))) => State {
            attached: true,
            byte: state.byte,
        },
        (Task::Detach, Outcome::Turn(Ok(Reply::Done))) => State {
            attached: false,
            byte: state.byte,
        },
        (_, Outcome::Write(Ok(()))) => State {
            attached: state.attached,
            byte: byte_of(number),
        },
        _ => state,
    }
}

// Whether these are the results of so many jobs of the device, in their order, and the journal explains each.
pub(crate) fn are_explained(
    records: &[Record],
    seed: u32,
    device: DeviceNo,
    count: usize,
    results: &[JobResult],
) -> bool {
    let mut state = State {
        attached: false,
        byte: 0,
    };
    let mut number = 0u32;
    for came in results {
        number = number.saturating_add(1);
        let task = task_at(seed, device, number);
        if came.device != device
            || came.job != number
            || !is_recorded(records, device, task, came)
            || !is_lawful(state, task, &came.outcome)
        {
            return false;
        }
        state = after(state, task, number, &came.outcome);
    }
    results.len() == count
}
