//! Sources of bytes. `read_all` gives every byte up to the end of input, in order, or says why
//! there is no such answer: a fault that the source counted, more bytes than `MAX_BYTES`, or want
//! of memory.
ghost use Rattle.std.specs.Prelude.{◌≡◌, ◌+◌, ◌<◌, ◌≤◌, ◌↔◌, ℕ, List, Option, length, IfOk, IfSome, OnOk, OnErr, IsErrOf, MatchResult};
ghost use Rattle.std.specs.Io.{ReadsAtMost};
ghost use Rattle.std.specs.Io.KnownBytes.{ReadConsumes, IsAtEnd};
ghost use Rattle.me_io.specs.Source.{Rose, GaveFront};

use crate::Failed;
use std::alloc::Global;
use thiserror::Error;

/// The most bytes that are read.
pub const MAX_BYTES: usize = 67_108_864;

/// The bytes that are asked for in one call.
const BUFFER_BYTES: usize = 65_536;

/// Where bytes come from.
pub trait Source {
    /// The bytes still to come, where the source tells them.
    ghost left: { Self → Option (List ℕ) };

    /// How many bytes were given so far.
    ghost given: { Self → ℕ };

    /// That the end of input was reached.
    ghost ended: { Self → Type 0 };

    /// How many calls failed so far. It never falls, and may stop at the last number of a u64.
    ghost faults: { Self → ℕ };

    /// Puts the next bytes at the front of `buf`, and answers how many. 0 for a buffer with room is
    /// the end of input. `Failed` gives up no byte.
    fn read(&mut self, buf: &mut [u8]) -> Result<usize, Failed>
        ensures bound { ReadsAtMost result buf.new }
        ensures bytes { ReadConsumes (left self.old) (left self.new) result buf.new }
        ensures count { MatchResult result (λ n. given self.new ≡ given self.old + n)
            (λ _. given self.new ≡ given self.old) }
        ensures end { IfOk result (λ n. n ≡ 0 → 0 < length buf.new → ended self.new) }
        ensures later { faults self.old ≤ faults self.new }
        ensures fault { OnErr result (Rose (faults self.old) (faults self.new)) };
}

/// Why a source couldn't be read to its end.
#[derive(Debug, Drop, Error)]
pub enum ReadError {
    /// The source counted a fault in this call.
    #[error("the source failed")]
    Fault,
    /// A byte past the first `MAX_BYTES` was read.
    #[error("more than {MAX_BYTES} bytes")]
    TooLong,
    /// There was no memory for the bytes.
    #[error("out of memory")]
    Memory,
}

/// All the bytes of the source, up to the end of input. It returns, since each turn but the last
/// takes at least one byte.
pub fn read_all<S: Source>(alloc: Global, source: &mut S) -> Result<Vec<u8>, ReadError>
    ensures whole { IfOk result (λ v. IfSome (S.left source.old) (λ bytes. v.items ≡ bytes)) }
    ensures end { OnOk result (IsAtEnd (S.left source.new)) }
    ensures ended { OnOk result (S.ended source.new) }
    ensures count { IfOk result (λ v. S.given source.new ≡ S.given source.old + length v.items) }
    ensures size { IfOk result (λ v. length v.items ≤ MAX_BYTES) }

    ensures later { S.faults source.old ≤ S.faults source.new }
    ensures fault { IsErrOf result ReadError.Fault →
        Rose (S.faults source.old) (S.faults source.new) }

    // Exactly where the byte after the first MAX_BYTES was read.
    ensures too_long { IsErrOf result ReadError.TooLong ↔
        (S.given source.old + MAX_BYTES < S.given source.new) }
    ensures told_too_long { IsErrOf result ReadError.TooLong →
        IfSome (S.left source.old) (λ bytes. MAX_BYTES < length bytes) }

    // Whatever the answer, no byte was given up out of order.
    ensures front { GaveFront (S.left source.old) (S.left source.new)
        (S.given source.old) (S.given source.new) }
{
    let mut bytes = Vec::new(alloc);
    let mut buffer = [0u8; BUFFER_BYTES];
    loop {
        let Ok(n) = source.read(&mut buffer) else {
            return Err(ReadError::Fault);
        };
        if n == 0 {
            return Ok(bytes);
        }
        if n > MAX_BYTES - bytes.len() {
            return Err(ReadError::TooLong);
        }
        let Ok(()) = bytes.extend_from_slice(&buffer[..n]) else {
            return Err(ReadError::Memory);
        };
    }
}
