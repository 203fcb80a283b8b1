//! A gate that workers pass at known moments, so that a test can watch them, or hold them back.
//!
//! Only tests have other gates than `NoGate`. A gate changes nothing of what is answered.

/// When a worker comes to the gate.
#[derive(Clone, Copy, PartialEq, Eq)]
pub enum Moment {
    /// Before the portion of the code is walked, or ended without a walk.
    Begin,
    /// After the right child of the code stands in the deque.
    Given,
    /// After the portion of the code was ended.
    Done,
}

/// What each worker tells of its portions.
pub trait Gate: Sync {
    /// A worker comes to a moment with the path of this code.
    fn at(&self, worker: u32, moment: Moment, code: u32);
}

/// A gate that does nothing.
#[derive(Drop)]
pub struct NoGate;

impl Gate for NoGate {
    fn at(&self, _worker: u32, _moment: Moment, _code: u32) {}
}
