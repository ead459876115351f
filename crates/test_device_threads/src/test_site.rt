//! A server of the tests, with all that is called by it.

ghost use Rattle.std.specs.Prelude.{IfErr, IfOk};
ghost use Rattle.shared_iommufd.specs.Ports.{IsPortOf};
ghost use Rattle.shared_iommufd.specs.Servers.{ArePassesOf, IsPassOf};
ghost use Rattle.device_threads.specs.Workers.{AllBack, AllCanRun};
ghost use Rattle.test_device_threads.specs.Keys.{AreKeys};

use crate::gate::Meeting;
use crate::site::Site;
use crate::tasks::{SPACE, change};
use device_threads::{Finished, Job, JobResult, NotStarted, Worker, run};
use iofd_words::{Act, Config, Event, Reply};
use shared_iommufd::{Core, Pass, Port, PortKey, Server};
use std::alloc::Global;
use std::sync::Wait;
use std::thread::{Threads, join};

// Growths are watched while a block of so many bytes is held (tests/growth has the allocator).
const WATCHED: usize = 54321;

/// A server, a pass beside its devices, the port of the last device, the devices that have jobs, and those that have
/// none, with the results that they came back with.
pub struct TestSite {
    server: Server,
    pass: Pass,
    port: Port,
    workers: Vec<Worker>,
    idle: Vec<Finished>,
    ghost of_pass: { IsPassOf server pass },
    ghost of_port: { IsPortOf server port },
    ghost can: { AllCanRun server workers.items },
    ghost back: { AllBack server idle.items },
}

impl Site for TestSite {
    fn opened(alloc: Global, config: &Config) -> Option<Self> {
        match Server::new(alloc, alloc, config, 4, 2) {
            Ok((server, passes, keys)) => with_ports(alloc, server, passes, keys),
            Err(_) => None,
        }
    }

    fn makes<R: Wait>(&mut self, rt: &R, event: Event) -> bool {
        let act = Act { event, via: None };
        match self.server.call(rt, &mut self.pass, &act) {
            Ok(stamp) => !matches!(stamp.reply, Reply::Refused(_)),
            Err(_) => false,
        }
    }

    fn equip(&mut self, jobs: Vec<Job>) {
        if let Some(one) = self.idle.pop() {
            let Finished { port, results: _ } = one;
            let _put = self.workers.push(Worker { port, jobs }).ok();
        }
    }

    fn run<Q: Threads + Wait + Sync>(
        self,
        rt: &Q,
        alloc: Global,
        gate: &Meeting,
        rounds: u32,
    ) -> Self {
        let TestSite {
            server,
            pass,
            port,
            workers,
            idle,
        } = self;
        let (came, (pass, port)) = at_once(rt, alloc, &server, gate, workers, pass, port, rounds);
        let (workers, idle) = match came {
            Ok(finished) => (Vec::new(alloc), finished),
            Err(NotStarted { workers }) => (workers, idle),
        };
        TestSite {
            server,
            pass,
            port,
            workers,
            idle,
        }
    }

    fn results(&self) -> Option<&[JobResult]> {
        match self.idle.last() {
            Some(one) => Some(one.results.as_slice()),
            None => None,
        }
    }

    fn ended(self, alloc: Global) -> Option<(Core, Vec<Vec<JobResult>>)> {
        let TestSite {
            server,
            pass,
            port,
            workers: _,
            mut idle,
        } = self;
        let mut passes = Vec::new(alloc);
        put_last(&server, &mut passes, pass);
        put_own(&server, &mut passes, port);
        let mut all = Vec::new(alloc);
        while let Some(one) = idle.pop() {
            let Finished { port, results } = one;
            put_own(&server, &mut passes, port);
            put_results(&mut all, results);
        }
        match closed(server, passes) {
            Some(core) => Some((core, all)),
            None => None,
        }
    }
}

// What these make, if the server has a device and two passes.
fn with_ports(
    alloc: Global,
    server: Server,
    mut passes: Vec<Pass>,
    mut keys: Vec<PortKey>,
) -> Option<TestSite>
    requires passes { ArePassesOf server passes.items }
    requires keys { AreKeys server keys.items }
{
    match (keys.pop(), passes.pop(), passes.pop()) {
        (Some(key), Some(own), Some(pass)) => {
            let port = server.port(key, own);
            let idle = idle_devices(alloc, &server, passes, keys);
            Some(TestSite {
                server,
                pass,
                port,
                workers: Vec::new(alloc),
                idle,
            })
        }
        _ => None,
    }
}

// The devices of the keys, the last one first.
fn idle_devices(
    alloc: Global,
    server: &Server,
    mut passes: Vec<Pass>,
    mut keys: Vec<PortKey>,
) -> Vec<Finished>
    requires passes { ArePassesOf server.now passes.items }
    requires keys { AreKeys server.now keys.items }
    ensures { AllBack server.now result.items }
{
    let mut idle = Vec::new(alloc);
    while let (Some(key), Some(pass)) = (keys.pop(), passes.pop()) {
        let port = server.port(key, pass);
        let results = Vec::new(alloc);
        let _put = idle.push(Finished { port, results }).ok();
    }
    idle
}

// Puts the pass behind the others, if there is memory.
fn put_last(server: &Server, passes: &mut Vec<Pass>, pass: Pass)
    requires { ArePassesOf server.now passes.old.items × IsPassOf server.now pass }
    ensures { ArePassesOf server.now passes.new.items }
{
    let _ = server;
    let _put = passes.push(pass).ok();
}

// Puts the port's own pass behind the others, if there is memory.
fn put_own(server: &Server, passes: &mut Vec<Pass>, port: Port)
    requires { ArePassesOf server.now passes.old.items × IsPortOf server.now port }
    ensures { ArePassesOf server.now passes.new.items }
{
    let (_key, own) = port.close();
    put_last(server, passes, own);
}

// Puts the results behind the others, if there is memory.
fn put_results(all: &mut Vec<Vec<JobResult>>, results: Vec<JobResult>) {
    let _put = all.push(results).ok();
}

// The core of a server that ends.
fn closed(server: Server, passes: Vec<Pass>) -> Option<Core>
    requires { ArePassesOf server passes.items }
{
    server.close(passes).ok()
}

// Changes the map so many times, and flushes the port's device each time.
fn disturb<R: Wait>(rt: &R, server: &Server, pass: &mut Pass, port: &mut Port, rounds: u32)
    requires { IsPassOf server.now pass.old × IsPortOf server.now port.old }
    ensures { IsPassOf server.now pass.new × IsPortOf server.now port.new }
{
    for round in 0..rounds {
        if round == 0 {
            let _attached = port.attach(rt, server, SPACE);
        }
        let _changed = server.call(rt, pass, &change(round));
        let _flushed = port.flush(rt, server);
    }
}

// A block of so many bytes that growths are watched.
fn watched(alloc: Global) -> Vec<u8> {
    match Vec::with_capacity(alloc, WATCHED) {
        Ok(block) => block,
        Err(_) => Vec::new(alloc),
    }
}

// The workers are at work, while growths are watched, and another thread changes the map meanwhile.
fn at_once<R: Threads + Wait + Sync>(
    rt: &R,
    alloc: Global,
    server: &Server,
    gate: &Meeting,
    workers: Vec<Worker>,
    mut pass: Pass,
    mut port: Port,
    rounds: u32,
) -> (Result<Vec<Finished>, NotStarted>, (Pass, Port))
    requires workers { AllCanRun server.now workers.items }
    requires owned { IsPassOf server.now pass × IsPortOf server.now port }
    ensures back { IfOk result.0 (λ finished. AllBack server.now finished.items) }
    ensures kept { IfErr result.0 (λ back. AllCanRun server.now back.workers.items) }
    ensures owned { IsPassOf server.now result.1.0 × IsPortOf server.now result.1.1 }
{
    join(
        rt,
        move || -> Result<Vec<Finished>, NotStarted>
            requires { AllCanRun server.now workers.items }
            ensures { IfOk result (λ finished. AllBack server.entry.now finished.items)
                × IfErr result (λ back. AllCanRun server.entry.now back.workers.items) }
        {
            let _block = watched(alloc);
            run(rt, alloc, server, gate, workers)
        },
        move || -> (Pass, Port)
            requires { IsPassOf server.now pass × IsPortOf server.now port }
            ensures { IsPassOf server.entry.now result.0 × IsPortOf server.entry.now result.1 }
        {
            disturb(rt, server, &mut pass, &mut port, rounds);
            (pass, port)
        },
    )
}
