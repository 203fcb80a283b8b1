//! Gates that count who comes, and that hold a worker until another one has come.

use std::sync::atomic::{AtomicU64, Ordering};
use std::thread;
use steal_pool::{Gate, Moment};

/// How many turns, with a yield each, a worker is held at most.
const TURNS: u64 = 100_000_000;

/// A moment, and the code of the path with which a worker comes to it.
pub(crate) type Place = (Moment, u32);

/// A gate that holds whoever comes to one place until somebody has come to another.
#[derive(Drop)]
pub(crate) struct Holding {
    held: Place,
    awaited: Place,
    /// How many came to the gate.
    calls: AtomicU64,
    /// How many came to the awaited place.
    came: AtomicU64,
    /// How many were held until somebody came there.
    met: AtomicU64,
}

impl Holding {
    pub(crate) fn new(held: Place, awaited: Place) -> Self {
        Holding {
            held,
            awaited,
            calls: AtomicU64::new(0),
            came: AtomicU64::new(0),
            met: AtomicU64::new(0),
        }
    }

    pub(crate) fn calls(&self) -> u64 {
        self.calls.load(Ordering::SeqCst)
    }

    pub(crate) fn met(&self) -> u64 {
        self.met.load(Ordering::SeqCst)
    }

    /// Waits until somebody has come to the awaited place, and tells whether one has.
    fn wait(&self) -> bool {
        for _ in 0..TURNS {
            if self.came.load(Ordering::SeqCst) > 0 {
                return true;
            }
            thread::yield_now();
        }
        false
    }
}

impl Gate for Holding {
    fn at(&self, _worker: u32, moment: Moment, code: u32) {
        self.calls.fetch_add(1, Ordering::SeqCst);
        if (moment, code) == self.awaited {
            self.came.fetch_add(1, Ordering::SeqCst);
        }
        if (moment, code) == self.held && self.wait() {
            self.met.fetch_add(1, Ordering::SeqCst);
        }
    }
}
