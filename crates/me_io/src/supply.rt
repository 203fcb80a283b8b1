//! Bytes in memory that are handed out in order, in pieces. What was handed out and what is left
//! are together always the bytes that it was made with.
ghost use Rattle.std.specs.Prelude.{◌≡◌, ◌+◌, ◌++◌, ◌<◌, ◌≤◌, length, take, min, []};

use std::marker::Model;

/// Bytes, how many of them were handed out, and how many one call hands out at most.
#[derive(Drop)]
pub(crate) struct Supply {
    bytes: Vec<u8>,
    position: usize,
    piece: usize,
}

impl Model for Supply {
    ghost use Rattle.std.specs.Prelude.{◌<◌, ◌≤◌, length, drop};
    ghost use Rattle.me_io.specs.Memory.{Stock};

    ghost Value = { Stock };

    ghost view = { λ s. record {
      left = drop s.position s.bytes.items;
      given = s.position;
      piece = s.piece;
    } };

    ghost invariant = { λ s. (s.position ≤ length s.bytes.items) × (0 < s.piece) };
}

/// Puts `bytes` at the front of the buffer.
fn copy_to_front(buffer: &mut [u8], bytes: &[u8])
    requires { length bytes.now ≤ length buffer.old }
    ensures { take (length bytes.now) buffer.new ≡ bytes.now }
{
    buffer[..bytes.len()].copy_from_slice(bytes);
}

impl Supply {
    /// All of `bytes` are left, and one call hands out at most `piece` of them.
    pub(crate) fn new(bytes: Vec<u8>, piece: u64) -> Self
        requires { 0 < piece }
        ensures left { result.left ≡ bytes.items }
        ensures given { result.given ≡ 0 }
        ensures piece { result.piece ≡ piece }
    {
        Supply {
            bytes,
            position: 0,
            piece: piece as usize,
        }
    }

    /// Puts the next bytes at the front of the buffer, as many as are left, fit and may be handed
    /// out in one call, and answers how many.
    pub(crate) fn hand_out(&mut self, buffer: &mut [u8]) -> usize
        ensures count { result ≡ min (min (length buffer.old) self.old.piece) (length self.old.left) }
        ensures bytes { self.old.left ≡ take result buffer.new ++ self.new.left }
        ensures given { self.new.given ≡ self.old.given + result }
        ensures piece { self.new.piece ≡ self.old.piece }
        ensures end { result ≡ 0 → 0 < length buffer.new → self.new.left ≡ [] }
    {
        let left = &self.bytes[self.position..];
        let n = buffer.len().min(self.piece).min(left.len());
        copy_to_front(buffer, &left[..n]);
        self.position += n;
        n
    }
}
