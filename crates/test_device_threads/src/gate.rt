//! A gate at which devices wait for one another.

use device_threads::Gate;
use iofd_words::DeviceNo;
use std::sync::atomic::{AtomicU64, Ordering};
use std::thread;

// A turn is one look at the gate and then a yield.
const TURNS: u32 = 10_000;

/// Holds each device's first job until so many have begun, or so many turns have passed. Where one is enough it holds
/// none.
#[derive(Drop)]
pub struct Meeting {
    size: u64,
    begun: AtomicU64,
    alone: AtomicU64,
}

impl Meeting {
    pub fn of(size: u64) -> Meeting {
        Meeting {
            size,
            begun: AtomicU64::new(0),
            alone: AtomicU64::new(0),
        }
    }

    /// Whether no job was held for all its turns.
    pub fn is_met(&self) -> bool {
        self.alone.load(Ordering::SeqCst) == 0
    }
}

impl Gate for Meeting {
    fn enter(&self, _device: DeviceNo, job: u32) {
        if job != 1 {
            return;
        }
        self.begun.fetch_add(1, Ordering::SeqCst);
        for _ in 0..TURNS {
            if self.begun.load(Ordering::SeqCst) >= self.size {
                return;
            }
            thread::yield_now();
        }
        self.alone.fetch_add(1, Ordering::SeqCst);
    }

    fn leave(&self, _device: DeviceNo, _job: u32) {}
}
