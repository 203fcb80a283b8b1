//! A source and a sink in memory that work in pieces and fail at chosen calls. Both tell their
//! bytes, so tests can say what a caller does at each fault.
ghost use Rattle.std.specs.Prelude.{◌≡◌, ◌+◌, ◌<◌, ◌≤◌, ◌↔◌, [], length, min, IfOk, OnErr, IsErr, MatchResult, Contains, Some};
ghost use Rattle.std.specs.Io.{ReadsAtMost, WritesAtMost};
ghost use Rattle.std.specs.Io.KnownBytes.{ReadConsumes, WriteAppends};
ghost use Rattle.me_io.specs.Memory.{one_more};
ghost use Rattle.me_io.specs.Source.{Rose};

use crate::schedule::Schedule;
use crate::supply::Supply;
use crate::{Failed, Sink, Source};
use std::alloc::Global;
use std::marker::Model;

/// A source of known bytes.
#[derive(Drop)]
pub struct MemSource {
    supply: Supply,
    schedule: Schedule,
}

impl Model for MemSource {
    ghost use Rattle.me_io.specs.Memory.{Feed};

    ghost Value = { Feed };

    ghost view = { λ s. record { stock = s.supply; plan = s.schedule } };
}

impl MemSource {
    /// A source that gives `bytes`, at most `piece` of them in one call. The calls with the numbers
    /// `fails` fail, counted from 1.
    pub fn new(bytes: Vec<u8>, piece: u64, fails: Vec<u64>) -> Self
        requires { 0 < piece }
        ensures stock { result.stock ≡ record { left = bytes.items; given = 0; piece = piece } }
        ensures plan { result.plan ≡ record { fails = fails.items; calls = 0; faults = 0 } }
    {
        MemSource {
            supply: Supply::new(bytes, piece),
            schedule: Schedule::new(fails),
        }
    }
}

impl Source for MemSource {
    ghost left = { λ s. Some s.stock.left };

    ghost given = { λ s. s.stock.given };

    ghost ended = { λ s. s.stock.left ≡ [] };

    ghost faults = { λ s. s.plan.faults };

    fn read(&mut self, buf: &mut [u8]) -> Result<usize, Failed>
        ensures bound { ReadsAtMost result buf.new }
        ensures bytes { ReadConsumes (Some self.old.stock.left) (Some self.new.stock.left)
            result buf.new }
        ensures count { MatchResult result (λ n. self.new.stock.given ≡ self.old.stock.given + n)
            (λ _. self.new.stock.given ≡ self.old.stock.given) }
        ensures end { IfOk result (λ n. n ≡ 0 → 0 < length buf.new → self.new.stock.left ≡ []) }
        ensures later { self.old.plan.faults ≤ self.new.plan.faults }
        ensures fault { OnErr result (Rose self.old.plan.faults self.new.plan.faults) }

        // Exactly the planned calls fail, and each other one gives as much as it can.
        ensures planned { IsErr result ↔ Contains self.old.plan.fails (one_more self.old.plan.calls) }
        ensures most { IfOk result (λ n.
            n ≡ min (min (length buf.old) self.old.stock.piece) (length self.old.stock.left)) }
        ensures calls { self.new.plan.calls ≡ one_more self.old.plan.calls }
        ensures same_plan { self.new.plan.fails ≡ self.old.plan.fails }
        ensures same_piece { self.new.stock.piece ≡ self.old.stock.piece }
    {
        self.schedule.call()?;
        Ok(self.supply.hand_out(buf))
    }
}

/// A sink that keeps what it is given.
#[derive(Drop)]
pub struct MemSink {
    bytes: Vec<u8>,
    piece: usize,
    schedule: Schedule,
}

impl Model for MemSink {
    ghost use Rattle.std.specs.Prelude.{◌<◌};
    ghost use Rattle.me_io.specs.Memory.{Store};

    ghost Value = { Store };

    ghost view = { λ s. record { bytes = s.bytes.items; piece = s.piece; plan = s.schedule } };

    ghost invariant = { λ s. 0 < s.piece };
}

impl MemSink {
    /// A sink that takes at most `piece` bytes in one call. The calls with the numbers `fails`
    /// fail, counted from 1, and so does a call that finds no memory for its bytes.
    pub fn new(alloc: Global, piece: u64, fails: Vec<u64>) -> Self
        requires { 0 < piece }
        ensures bytes { result.bytes ≡ [] }
        ensures piece { result.piece ≡ piece }
        ensures plan { result.plan ≡ record { fails = fails.items; calls = 0; faults = 0 } }
    {
        MemSink {
            bytes: Vec::new(alloc),
            piece: piece as usize,
            schedule: Schedule::new(fails),
        }
    }

    /// What was written so far.
    pub fn bytes(&self) -> &Vec<u8>
        ensures { result.now.items ≡ self.now.bytes }
    {
        &self.bytes
    }
}

impl Sink for MemSink {
    ghost written = { λ s. Some s.bytes };

    ghost faults = { λ s. s.plan.faults };

    fn write(&mut self, bytes: &[u8]) -> Result<usize, Failed>
        ensures bound { WritesAtMost result bytes.now }
        ensures some { IfOk result (λ n. 0 < length bytes.now → 0 < n) }
        ensures bytes { WriteAppends (Some self.old.bytes) (Some self.new.bytes) result bytes.now }
        ensures later { self.old.plan.faults ≤ self.new.plan.faults }
        ensures fault { OnErr result (Rose self.old.plan.faults self.new.plan.faults) }

        // The planned calls fail, others for want of memory alone, and each other one takes as much
        // as it can.
        ensures planned { Contains self.old.plan.fails (one_more self.old.plan.calls) → IsErr result }
        ensures most { IfOk result (λ n. n ≡ min (length bytes.now) self.old.piece) }
        ensures calls { self.new.plan.calls ≡ one_more self.old.plan.calls }
        ensures same_plan { self.new.plan.fails ≡ self.old.plan.fails }
        ensures same_piece { self.new.piece ≡ self.old.piece }
    {
        self.schedule.call()?;
        let n = bytes.len().min(self.piece);
        match self.bytes.extend_from_slice(&bytes[..n]) {
            Ok(()) => Ok(n),
            Err(_) => Err(self.schedule.fail()),
        }
    }
}
