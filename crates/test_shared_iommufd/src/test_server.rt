//! A server of the tests, with all that is called by it.

ghost use Rattle.shared_iommufd.specs.Ports.{IsPortOf};
ghost use Rattle.shared_iommufd.specs.Servers.{ArePassesOf, IsPassOf};

use crate::opened::{closed, put_last};
use crate::served::{Caller, Device, Turn, Whole};
use crate::work::{Task, crowd};
use iofd_words::{
    AccessKind, Act, Answer, CallError, Event, FileNo, Iova, NoMemory, ObjId, Query, Span,
    Translation,
};
use shared_iommufd::{Core, IoctlAnswer, JournalError, Pass, Port, PortError, Server, Stamp};
use std::sync::{RwLock, Wait};
use std::thread::Threads;

/// A server, the port of its device, a pass beside it, and passes for threads. It is ended, and never let go: to let go
/// of so much would have to be proved.
pub struct TestServer<'a, R: Wait> {
    pub rt: &'a R,
    pub server: Server,
    pub port: Port,
    pub pass: Pass,
    pub others: Vec<Pass>,
    ghost of_port: { IsPortOf server port },
    ghost of_pass: { IsPassOf server pass },
    ghost of_others: { ArePassesOf server others.items },
}

impl<'a, R: Wait> Caller for TestServer<'a, R> {
    fn call(&mut self, event: Event) -> Result<Stamp, NoMemory> {
        let act = Act { event, via: None };
        self.server.call(self.rt, &mut self.pass, &act)
    }

    fn look(&mut self, query: &Query) -> Answer {
        self.server.look(self.rt, &mut self.pass, query)
    }

    fn ioctl(&mut self, file: FileNo, number: u32, bytes: &[u8]) -> Result<IoctlAnswer, NoMemory> {
        self.server
            .ioctl(self.rt, &mut self.pass, file, number, bytes)
    }

    fn notices(&mut self, file: FileNo, access: ObjId) -> Result<Vec<Span>, CallError> {
        self.server.notices(self.rt, &mut self.pass, file, access)
    }

    fn journal(&mut self) -> Result<Vec<u8>, JournalError> {
        self.server.journal(self.rt, &mut self.pass)
    }

    fn seen(&self) -> u64 {
        self.pass.seen()
    }
}

impl<'a, R: Wait> Device for TestServer<'a, R> {
    fn turn(&mut self, turn: Turn) -> Result<Stamp, NoMemory> {
        match turn {
            Turn::Attach(id) => self.port.attach(self.rt, &self.server, id),
            Turn::Detach => self.port.detach(self.rt, &self.server),
            Turn::Flush => self.port.flush(self.rt, &self.server),
        }
    }

    fn read(&mut self, iova: Iova, buffer: &mut [u8]) -> Result<(), PortError> {
        self.port.read(self.rt, &self.server, iova, buffer)
    }

    fn write(&mut self, iova: Iova, bytes: &[u8]) -> Result<(), PortError> {
        self.port.write(self.rt, &self.server, iova, bytes)
    }

    fn translate(&mut self, iova: Iova, kind: AccessKind) -> Option<Translation> {
        self.port.translate(self.rt, &self.server, iova, kind)
    }

    fn last(&self) -> Option<u64> {
        self.port.last()
    }

    fn reopened(self) -> Self {
        let TestServer {
            rt,
            server,
            port,
            pass,
            others,
        } = self;
        let (key, own) = port.close();
        let port = server.port(key, own);
        TestServer {
            rt,
            server,
            port,
            pass,
            others,
        }
    }
}

impl<'a, R: Wait> Whole for TestServer<'a, R> {
    fn ended(self) -> Option<Core> {
        let TestServer {
            rt: _,
            server,
            port,
            pass,
            mut others,
        } = self;
        let (_key, own) = port.close();
        put_last(&server, &mut others, own);
        put_last(&server, &mut others, pass);
        closed(server, others)
    }

    fn crowd<Q: Threads + Wait + Sync>(
        &mut self,
        rt: &Q,
        plain: Option<&RwLock<Core>>,
        threads: u8,
        task: &Task,
        count: u32,
    ) -> u64 {
        crowd(
            rt,
            &self.server,
            plain,
            &mut self.others,
            threads,
            task,
            count,
        )
    }
}
