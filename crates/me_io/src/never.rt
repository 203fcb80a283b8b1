//! A source and a sink that never fail. The source tells its bytes; the sink drops what it is given
//! and tells none.
ghost use Rattle.std.specs.Prelude.{◌≡◌, ◌+◌, ◌<◌, [], length, min, IfOk, IsOk, None, Some};
ghost use Rattle.std.specs.Io.{ReadsAtMost};
ghost use Rattle.std.specs.Io.KnownBytes.{ReadConsumes};

use crate::supply::Supply;
use crate::{Failed, Sink, Source};
use std::marker::Model;

/// A source of known bytes that never fails.
#[derive(Drop)]
pub struct NeverSource {
    supply: Supply,
}

impl Model for NeverSource {
    ghost use Rattle.me_io.specs.Memory.{Stock};

    ghost Value = { Stock };

    ghost view = { λ s. s.supply };
}

impl NeverSource {
    /// A source that gives `bytes`, at most `piece` of them in one call.
    pub fn new(bytes: Vec<u8>, piece: u64) -> Self
        requires { 0 < piece }
        ensures { result ≡ record { left = bytes.items; given = 0; piece = piece } }
    {
        NeverSource {
            supply: Supply::new(bytes, piece),
        }
    }
}

impl Source for NeverSource {
    ghost left = { λ s. Some s.left };

    ghost given = { λ s. s.given };

    ghost ended = { λ s. s.left ≡ [] };

    ghost faults = { λ _. 0 };

    fn read(&mut self, buf: &mut [u8]) -> Result<usize, Failed>
        ensures bound { ReadsAtMost result buf.new }
        ensures bytes { ReadConsumes (Some self.old.left) (Some self.new.left) result buf.new }
        ensures count { IfOk result (λ n. self.new.given ≡ self.old.given + n) }
        ensures end { IfOk result (λ n. n ≡ 0 → 0 < length buf.new → self.new.left ≡ []) }
        ensures never_fails { IsOk result }
        ensures most { IfOk result (λ n.
            n ≡ min (min (length buf.old) self.old.piece) (length self.old.left)) }
        ensures same_piece { self.new.piece ≡ self.old.piece }
    {
        Ok(self.supply.hand_out(buf))
    }
}

/// A sink that never fails and drops what it is given.
#[derive(Drop)]
pub struct NeverSink {
    piece: usize,
}

impl Model for NeverSink {
    ghost use Rattle.std.specs.Prelude.{◌<◌, ℕ};

    ghost Value = { ℕ };

    ghost view = { λ s. s.piece };

    ghost invariant = { λ s. 0 < s.piece };
}

impl NeverSink {
    /// A sink that takes at most `piece` bytes in one call.
    pub fn new(piece: u64) -> Self
        requires { 0 < piece }
        ensures { result ≡ piece }
    {
        NeverSink {
            piece: piece as usize,
        }
    }
}

impl Sink for NeverSink {
    ghost written = { λ _. None };

    ghost faults = { λ _. 0 };

    fn write(&mut self, bytes: &[u8]) -> Result<usize, Failed>
        ensures taken { result ≡ Ok (min (length bytes.now) self.old) }
        ensures some { IfOk result (λ n. 0 < length bytes.now → 0 < n) }
        ensures same_piece { self.new ≡ self.old }
    {
        Ok(bytes.len().min(self.piece))
    }
}
