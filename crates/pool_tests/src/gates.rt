//! Gates that note what the workers tell them.

use std::sync::atomic::{AtomicU64, Ordering};
use std::thread;
use steal_pool::{Gate, Moment};

/// A set of numbers below 64, in which any thread may change one.
#[derive(Drop)]
pub(crate) struct Bits {
    bits: AtomicU64,
}

impl Bits {
    pub(crate) fn new() -> Self {
        Bits {
            bits: AtomicU64::new(0),
        }
    }

    pub(crate) fn all(&self) -> u64 {
        self.bits.load(Ordering::SeqCst)
    }

    /// Whether the number is in the set.
    pub(crate) fn has(&self, n: u32) -> bool {
        self.all() & bit(n) != 0
    }

    /// Puts the number into the set. Answers whether it was not there.
    fn put(&self, n: u32) -> bool {
        self.bits.fetch_or(bit(n), Ordering::SeqCst) & bit(n) == 0
    }

    /// Takes the number out. Answers whether it was there.
    fn take(&self, n: u32) -> bool {
        self.bits.fetch_and(!bit(n), Ordering::SeqCst) & bit(n) != 0
    }
}

fn bit(n: u32) -> u64 {
    1u64.wrapping_shl(n)
}

/// Notes the codes of each moment, and whether a worker came to a moment out of order: each code comes
/// once to each moment, and a worker is at one portion at a time, and gives away only in it.
#[derive(Drop)]
pub(crate) struct Log {
    pub(crate) begun: Bits,
    pub(crate) given: Bits,
    pub(crate) done: Bits,
    at_work: Bits,
    wrong: AtomicU64,
}

impl Log {
    pub(crate) fn new() -> Self {
        Log {
            begun: Bits::new(),
            given: Bits::new(),
            done: Bits::new(),
            at_work: Bits::new(),
            wrong: AtomicU64::new(0),
        }
    }

    /// How many moments were out of order.
    pub(crate) fn wrong(&self) -> u64 {
        self.wrong.load(Ordering::SeqCst)
    }

    fn is_in_order(&self, worker: u32, moment: Moment, code: u32) -> bool {
        match moment {
            Moment::Begin => self.begun.put(code) && self.at_work.put(worker),
            Moment::Given => self.given.put(code) && self.at_work.has(worker),
            Moment::Done => {
                self.begun.has(code) && self.done.put(code) && self.at_work.take(worker)
            }
        }
    }
}

impl Gate for Log {
    fn at(&self, worker: u32, moment: Moment, code: u32) {
        if worker > 63 || code > 63 || !self.is_in_order(worker, moment, code) {
            self.wrong.fetch_add(1, Ordering::SeqCst);
        }
    }
}

/// Holds who gave code 3 away until another worker has begun with it, for at most so many turns.
#[derive(Drop)]
pub(crate) struct UntilStolen {
    pub(crate) stolen: Bits,
    giver: Bits,
}

impl UntilStolen {
    pub(crate) fn new() -> Self {
        UntilStolen {
            stolen: Bits::new(),
            giver: Bits::new(),
        }
    }

    fn wait(&self) {
        for _ in 0..10_000_000u64 {
            if self.stolen.has(3) {
                return;
            }
            thread::yield_now();
        }
    }
}

impl Gate for UntilStolen {
    fn at(&self, worker: u32, moment: Moment, code: u32) {
        if code != 3 || worker > 63 {
            return;
        }
        match moment {
            Moment::Begin => {
                if !self.giver.has(worker) {
                    self.stolen.put(code);
                }
            }
            Moment::Given => {
                self.giver.put(worker);
                self.wait();
            }
            Moment::Done => {}
        }
    }
}
