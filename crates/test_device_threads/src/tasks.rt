//! The jobs of the tests, and what is done meanwhile.

ghost use Rattle.std.specs.Prelude.{◌≡◌, ◌≤◌, false, length, None};
ghost use Rattle.guarded_core.specs.OfPort.{event_of_port};

use device_threads::Job;
use iofd_words::{Act, DeviceNo, Event, FileNo, Iova, MapFlags, MapRequest, ObjId, UnmapRequest};
use std::alloc::Global;

// The address space whose page 1 is always mapped, and page 2 at times.
pub(crate) const SPACE: ObjId = ObjId(1);

const SOMETIMES: Iova = Iova(0x2000);

// What a device does.
#[derive(Clone, Copy)]
pub(crate) enum Task {
    Attach,
    Detach,
    Flush,
    /// Reads the device's own bytes of page 1.
    Read,
    /// Writes them.
    Write,
    /// Reads page 2.
    Probe,
}

// What the device does at its job of this number. At first it is attached.
pub(crate) fn task_at(seed: u32, device: DeviceNo, number: u32) -> Task {
    if number == 1 {
        return Task::Attach;
    }
    let mixed = seed.wrapping_mul(0x9e37_79b1)
        ^ u32::from(device.0).wrapping_mul(0x85eb_ca77)
        ^ number.wrapping_mul(0xc2b2_ae3d);
    let mixed = (mixed ^ (mixed >> 15)).wrapping_mul(0x2c1b_3c6d);
    match (mixed >> 12) % 16 {
        0 => Task::Flush,
        1 => Task::Detach,
        2 | 3 => Task::Attach,
        4..=8 => Task::Write,
        9..=13 => Task::Read,
        _ => Task::Probe,
    }
}

// The byte that the device's job of this number writes, eight times.
pub(crate) fn byte_of(number: u32) -> u8 {
    (number & 0xff) as u8
}

// Whether each of the bytes is this one.
pub(crate) fn are_all(bytes: &[u8], byte: u8) -> bool {
    bytes.iter().all(|other| *other == byte)
}

// Where the device's own bytes of page 1 begin.
pub(crate) fn own(device: DeviceNo) -> Iova {
    Iova(0x1000 + 64 * u64::from(device.0 & 0x3f))
}

// The device's job of this number, which does the task, if there is memory.
pub(crate) fn job(alloc: Global, device: DeviceNo, task: Task, number: u32) -> Option<Job> {
    match task {
        Task::Attach => Some(Job::Attach(SPACE)),
        Task::Detach => Some(Job::Detach),
        Task::Flush => Some(Job::Flush),
        Task::Read => reading(alloc, own(device)),
        Task::Probe => reading(alloc, SOMETIMES),
        Task::Write => match [byte_of(number); 8].to_vec(alloc) {
            Ok(bytes) => Some(Job::Write {
                iova: own(device),
                bytes,
            }),
            Err(_) => None,
        },
    }
}

fn reading(alloc: Global, iova: Iova) -> Option<Job> {
    match [0; 8].to_vec(alloc) {
        Ok(buffer) => Some(Job::Read { iova, buffer }),
        Err(_) => None,
    }
}

// So many jobs of the device; fewer where memory is wanting.
pub(crate) fn jobs(alloc: Global, seed: u32, device: DeviceNo, count: u32) -> Vec<Job>
    ensures { length result.items ≤ count }
{
    let mut jobs = Vec::new(alloc);
    for done in 0..count {
        let number = done + 1;
        match job(alloc, device, task_at(seed, device, number), number) {
            Some(job) => {
                if jobs.push(job).is_err() {
                    return jobs;
                }
            }
            None => return jobs,
        }
    }
    jobs
}

/// The user's page, mapped there for reads and writes.
pub fn mapping(iova: Iova) -> MapRequest {
    MapRequest {
        flags: MapFlags(7),
        ioas: SPACE,
        user_va: 0x10000,
        length: 0x1000,
        iova,
    }
}

/// What is done meanwhile in this round: page 2 comes or goes.
pub fn change(round: u32) -> Act
    ensures event { event_of_port result.event ≡ false }
    ensures via { result.via ≡ None }
{
    let event = if round % 2 == 0 {
        Event::Map(FileNo(1), mapping(SOMETIMES))
    } else {
        let request = UnmapRequest {
            ioas: SPACE,
            iova: SOMETIMES,
            length: 0x1000,
        };
        Event::Unmap(FileNo(1), request)
    };
    Act { event, via: None }
}
