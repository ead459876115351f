//! One job, by a port.

ghost use Rattle.std.specs.Prelude.{◌≡◌};
ghost use Rattle.lane_lock.specs.Passes.{lanes_of};
ghost use Rattle.shared_iommufd.specs.Ports.{IsPortOf, SamePort};
ghost use Rattle.shared_iommufd.specs.Servers.{settings_of};
ghost use Rattle.device_threads.specs.Jobs.{ComesOf, IsDone, told_of};

use crate::gate::Gate;
use crate::job::{Job, JobResult, Outcome};
use iofd_words::{Iova, NoMemory};
use shared_iommufd::{Port, Server, Stamp};
use std::alloc::Allocator;
use std::sync::Wait;

// Does the job of this number, between two words to the gate.
pub(crate) fn do_job<R: Wait, G: Gate, A: Allocator + Copy>(
    rt: &R,
    server: &Server<A>,
    gate: &G,
    port: &mut Port<A>,
    number: u32,
    job: Job,
) -> JobResult
    requires { IsPortOf server.now port.old }
    ensures owned { IsPortOf server.now port.new }
    ensures done { IsDone (settings_of server.now) (lanes_of server.now.lock) number port.old job result port.new }
{
    let device = port.device();
    gate.enter(device, number);
    let outcome = perform(rt, server, port, job);
    gate.leave(device, number);
    JobResult {
        device,
        job: number,
        at: port.last(),
        outcome,
    }
}

// Does a job by the port's call of that name.
fn perform<R: Wait, A: Allocator + Copy>(
    rt: &R,
    server: &Server<A>,
    port: &mut Port<A>,
    job: Job,
) -> Outcome
    requires { IsPortOf server.now port.old }
    ensures same { SamePort port.old port.new }
    ensures owned { IsPortOf server.now port.new }
    ensures comes { ComesOf (settings_of server.now) (lanes_of server.now.lock) port.old job result port.new }
{
    match job {
        Job::Read { iova, buffer } => read(rt, server, port, iova, buffer),
        Job::Write { iova, bytes } => Outcome::Write(port.write(rt, server, iova, &bytes)),
        Job::Flush => turned(port.flush(rt, server)),
        Job::Attach(pt_id) => turned(port.attach(rt, server, pt_id)),
        Job::Detach => turned(port.detach(rt, server)),
    }
}

// Reads into the buffer, which comes back.
fn read<R: Wait, A: Allocator + Copy>(
    rt: &R,
    server: &Server<A>,
    port: &mut Port<A>,
    iova: Iova,
    mut buffer: Vec<u8>,
) -> Outcome
    requires { IsPortOf server.now port.old }
    ensures same { SamePort port.old port.new }
    ensures owned { IsPortOf server.now port.new }
    ensures comes { ComesOf (settings_of server.now) (lanes_of server.now.lock) port.old (Job.Read iova buffer) result
        port.new }
{
    let ended = port.read(rt, server, iova, &mut buffer);
    Outcome::Read { buffer, ended }
}

// What came of a turn of the device.
fn turned(made: Result<Stamp, NoMemory>) -> Outcome
    ensures { result ≡ Outcome.Turn (told_of made) }
{
    match made {
        Ok(stamp) => Outcome::Turn(Ok(stamp.reply)),
        Err(error) => Outcome::Turn(Err(error)),
    }
}
