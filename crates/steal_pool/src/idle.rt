//! How a worker waits where no work is to be had.
//!
//! It yields some rounds, then sleeps for a time that doubles up to a limit, as in exponential backoff. No
//! wake-up can be lost, since none is awaited.
use std::sync::Wait;
use std::thread;
use std::thread::Parker;
use std::time::Duration;

/// How many rounds yield before the first sleep.
const YIELDS: u32 = 16;

/// The first sleep, in microseconds.
const SHORTEST: u64 = 32;

/// How often the time of a sleep doubles.
const DOUBLINGS: u32 = 7;

/// How long a worker has waited in vain.
#[derive(Drop)]
pub(crate) struct Idle {
    rounds: u32,
    parker: Parker,
}

impl Idle {
    pub(crate) fn new() -> Self {
        Idle {
            rounds: 0,
            parker: Parker::new(),
        }
    }

    /// A work was found: the next wait is a short one again.
    pub(crate) fn reset(&mut self) {
        self.rounds = 0;
    }

    /// Waits, the longer the more often no work was found.
    pub(crate) fn wait<R: Wait>(&mut self, rt: &R) {
        if self.rounds < YIELDS {
            thread::yield_now();
        } else {
            let doublings = (self.rounds - YIELDS).min(DOUBLINGS);
            let time = Duration::from_micros(SHORTEST << doublings);
            self.parker.park_timeout(rt, time);
        }
        self.rounds = self.rounds.saturating_add(1);
    }
}
