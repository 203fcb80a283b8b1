//! Sources and sinks of bytes: reading a source to its end and writing a whole text to a sink.
//! Each answer other than `Ok` has its cause. A fault comes only where the source or the sink
//! counted one, and it is known which bytes were read or written before it.
#![tactic(auto)]

mod memory;
mod never;
mod schedule;
mod sink;
mod source;
mod standard;
mod supply;

pub use memory::{MemSink, MemSource};
pub use never::{NeverSink, NeverSource};
pub use sink::{Sink, WriteError, write_all};
pub use source::{MAX_BYTES, ReadError, Source, read_all};
pub use standard::{StdSink, StdSource};

/// A call of a source or a sink failed, and gave or took nothing.
#[derive(Clone, Copy, Debug, PartialEq, Eq)]
pub struct Failed;
