//! Sinks of bytes. `write_all` appends a whole text, or stops at a fault that the sink counted and
//! says how many bytes it had appended before. It takes no memory.
ghost use Rattle.std.specs.Prelude.{◌<◌, ◌≤◌, ℕ, List, Option, length, IfOk, IfErr, OnOk, OnErr};
ghost use Rattle.std.specs.Io.{WritesAtMost};
ghost use Rattle.std.specs.Io.KnownBytes.{WriteAppends, Appends};
ghost use Rattle.me_io.specs.Source.{Rose};
ghost use Rattle.me_io.specs.Sink.{AppendedFront, written_before};

use crate::Failed;
use thiserror::Error;

/// Where bytes go.
pub trait Sink {
    /// The bytes written so far, where the sink tells them.
    ghost written: { Self → Option (List ℕ) };

    /// How many calls failed so far. It never falls, and may stop at the last number of a u64.
    ghost faults: { Self → ℕ };

    /// Appends a front of `bytes`, and answers how many: at least one, where there is one.
    /// `Failed` appends nothing.
    fn write(&mut self, bytes: &[u8]) -> Result<usize, Failed>
        ensures bound { WritesAtMost result bytes.now }
        ensures some { IfOk result (λ n. 0 < length bytes.now → 0 < n) }
        ensures bytes { WriteAppends (written self.old) (written self.new) result bytes.now }
        ensures later { faults self.old ≤ faults self.new }
        ensures fault { OnErr result (Rose (faults self.old) (faults self.new)) };
}

/// Why not all of a text was written.
#[derive(Debug, Drop, Error)]
pub enum WriteError {
    /// The sink counted a fault in this call, after it had taken the first `written` bytes.
    #[error("the sink failed after {written} bytes")]
    Fault { written: u64 },
}

/// Appends all the bytes to the sink. It returns, since each turn writes at least one byte.
pub fn write_all<K: Sink>(sink: &mut K, bytes: &[u8]) -> Result<(), WriteError>
    ensures all { OnOk result (Appends (K.written sink.old) (K.written sink.new) bytes.now) }
    ensures front { IfErr result (λ e.
        AppendedFront (K.written sink.old) (K.written sink.new) (written_before e) bytes.now) }
    ensures later { K.faults sink.old ≤ K.faults sink.new }
    ensures fault { OnErr result (Rose (K.faults sink.old) (K.faults sink.new)) }
{
    let mut written = 0;
    while written < bytes.len() {
        match sink.write(&bytes[written..]) {
            Ok(n) => written += n,
            Err(Failed) => {
                return Err(WriteError::Fault {
                    written: written as u64,
                });
            }
        }
    }
    Ok(())
}
