//! The options of a call, the ranges of their values, and the values that they have where none is given.

use me_terms::{Bounds, Text};

/// The bound of depth where none is given.
pub const DEFAULT_DEPTH: u32 = 6;

/// The bound of weight where none is given.
pub const DEFAULT_WEIGHT: u64 = 1000;

/// The number of entries of a context where none is given.
pub const DEFAULT_ENTRIES: u32 = 2000;

/// The bound of a list's weight where none is given.
pub const DEFAULT_LIST: u64 = 10_000_000;

/// The greatest number of workers.
pub const MAX_WORKERS: u32 = 64;

/// The number of workers where none is given.
pub const DEFAULT_WORKERS: u32 = 1;

/// The greatest number of turns below which right children are given away.
pub const MAX_SHARE: u32 = 16;

/// The number of turns below which right children are given away, where none is given.
pub const DEFAULT_SHARE: u32 = 6;

/// The greatest seed of a made problem.
pub const MAX_SEED: u64 = 1_000_000_000;

/// The greatest number of digits with which a number is written.
pub const MAX_DIGITS: usize = 18;

/// What the words of a call ask for.
#[derive(Drop)]
pub struct Options {
    /// The problem's name in what is written: 1 to `MAX_NAME_BYTES` bytes from 33 to 126.
    pub name: Text,
    pub bounds: Bounds,
    /// The bound of depth that is tried first, from 1 to that of `bounds`.
    pub from: u32,
    /// The number of workers, from 1 to `MAX_WORKERS`.
    pub workers: u32,
    /// Nodes with fewer turns than this give their right children away, at most `MAX_SHARE`.
    pub share: u32,
    /// The seed of a made problem, at most `MAX_SEED`, in place of a file.
    pub make: Option<u64>,
}
