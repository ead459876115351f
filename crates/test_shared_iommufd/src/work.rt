//! Threads that look and call at once.

ghost use Rattle.shared_iommufd.specs.Servers.{ArePassesOf, IsPassOf};

use crate::ports::is_answered;
use iofd_words::{Act, Answer, Burst, Event, PassNo, Query, Reply, UserNo};
use shared_iommufd::{Core, Pass, Server};
use std::sync::atomic::{AtomicU64, Ordering};
use std::sync::{RwLock, Wait};
use std::thread::{Threads, for_each_mut};

/// How many pages the user has. All are mapped for the device.
pub const PAGES: u32 = 64;

/// How far the passes of two threads are apart: 8, so that they share no line of cache, as a look writes its pass, and
/// one more, so that each has another lane.
pub const APART: u16 = 9;

pub const USER: UserNo = UserNo(1);

/// Where the user has this page.
pub fn va_of(page: u32) -> u64 {
    0x10000 + u64::from(page) * 0x1000
}

/// What a thread does with 64 bytes at a time: reads or looks read them, and calls write them.
pub enum Task {
    /// Reads or looks, of all pages in turn.
    InTurn,
    /// Looks, at the thread's own page.
    Looks,
    /// 19 looks to a call, there.
    Both,
    /// A look to a call, there.
    Halves,
    /// Calls, there.
    Calls,
}

impl Task {
    // Whether the operation of this number is a call.
    fn is_call(&self, number: u32) -> bool {
        match self {
            Task::InTurn | Task::Looks => false,
            Task::Both => number % 20 == 19,
            Task::Halves => number % 2 == 1,
            Task::Calls => true,
        }
    }

    // The address that it is for, in a thread with this page of its own.
    fn address(&self, own: u32, number: u32) -> u64 {
        match self {
            Task::InTurn => va_of(number % PAGES),
            _ => va_of(own),
        }
    }
}

/// The page of a thread whose passes begin so.
pub fn page_of(pass: PassNo) -> u32 {
    u32::from(pass.0 / APART)
}

/// What a call of this number writes.
pub fn byte_of(number: u32) -> u8 {
    (number % 256) as u8
}

// Whether the operation of this number passes, as a call.
fn is_made<R: Wait>(
    rt: &R,
    server: &Server,
    plain: Option<&RwLock<Core>>,
    pass: &mut Pass,
    va: u64,
    number: u32,
) -> bool
    requires { IsPassOf server.now pass.old }
    ensures { IsPassOf server.now pass.new }
{
    let Some(bytes) = Burst::new(&[byte_of(number); 64]) else {
        return false;
    };
    let act = Act {
        event: Event::UserWrite(USER, va, bytes),
        via: None,
    };
    let made = match plain {
        Some(lock) => lock.write(rt).apply(PassNo(0), &act),
        None => server.call(rt, pass, &act),
    };
    is_answered(made, Reply::Done)
}

// Whether it passes, as a look.
fn is_told<R: Wait>(
    rt: &R,
    server: &Server,
    plain: Option<&RwLock<Core>>,
    pass: &mut Pass,
    va: u64,
) -> bool
    requires { IsPassOf server.now pass.old }
    ensures { IsPassOf server.now pass.new }
{
    let query = Query::UserRead {
        user: USER,
        va,
        len: 64,
    };
    let answer = match plain {
        Some(lock) => lock.read(rt).look(&query),
        None => server.look(rt, pass, &query),
    };
    matches!(answer, Answer::Read(_))
}

// How many operations of one thread pass: at the core under std's lock, where there is one, and else at the server.
fn one<R: Wait>(
    rt: &R,
    server: &Server,
    plain: Option<&RwLock<Core>>,
    pass: &mut Pass,
    task: &Task,
    count: u32,
) -> u64
    requires { IsPassOf server.now pass.old }
    ensures { IsPassOf server.now pass.new }
{
    let mut passed = 0u64;
    let own = page_of(pass.number());
    for number in 0..count {
        let va = task.address(own, number);
        let is_passed = if task.is_call(number) {
            is_made(rt, server, plain, pass, va, number)
        } else {
            is_told(rt, server, plain, pass, va)
        };
        passed = passed.wrapping_add(u64::from(is_passed));
    }
    passed
}

/// How many operations pass. The passes are cut into stretches, and the one in the middle of each makes so many. Where
/// there are as many threads as stretches, all do so at once, each in a thread of its own, if one can be made.
pub fn crowd<R: Threads + Wait + Sync>(
    rt: &R,
    server: &Server,
    plain: Option<&RwLock<Core>>,
    passes: &mut [Pass],
    threads: u8,
    task: &Task,
    count: u32,
) -> u64
    requires { ArePassesOf server.now passes.old }
    ensures { ArePassesOf server.now passes.new }
{
    let passed = AtomicU64::new(0);
    for_each_mut(
        rt,
        passes,
        usize::from(threads).max(1),
        &|_, pass: &mut Pass|
            requires { IsPassOf server.now pass.now }
            ensures { IsPassOf server.entry.now pass.exit.now }
        {
            if pass.number().0 % APART == APART / 2 {
                passed.fetch_add(one(rt, server, plain, pass, task, count), Ordering::SeqCst);
            }
        },
    );
    passed.load(Ordering::SeqCst)
}
