//! Standard input and output. They tell no bytes, and count a fault at each error of the system, so
//! no clause says which bytes come or go.
ghost use Rattle.std.specs.Prelude.{◌≡◌, IsTrue, IsFalse, None};

use crate::{Failed, Sink, Source};
use std::io::{Read, Stdin, Stdout, Write};

/// Standard input. It fails once a call could take its count of bytes past the last number of a
/// u64.
#[derive(Drop)]
pub struct StdSource {
    stdin: Stdin,
    given: u64,
    ended: bool,
    faults: u64,
}

impl StdSource {
    /// No byte was read and no call failed yet.
    pub fn new(stdin: Stdin) -> Self
        ensures faults { ⟦<StdSource as Source>⟧.faults result ≡ 0 }
        ensures given { ⟦<StdSource as Source>⟧.given result ≡ 0 }
    {
        StdSource {
            stdin,
            given: 0,
            ended: false,
            faults: 0,
        }
    }
}

impl Source for StdSource {
    ghost left = { λ _. None };

    ghost given = { λ s. s.given };

    ghost ended = { λ s. IsTrue s.ended };

    ghost faults = { λ s. s.faults };

    fn read(&mut self, buf: &mut [u8]) -> Result<usize, Failed> {
        if self.given.checked_add(buf.len() as u64).is_some()
            && let Ok(n) = self.stdin.read(buf)
        {
            self.given += n as u64;
            self.ended = n == 0 && !buf.is_empty();
            return Ok(n);
        }
        self.faults = self.faults.saturating_add(1);
        Err(Failed)
    }
}

/// Standard output.
#[derive(Drop)]
pub struct StdSink {
    stdout: Stdout,
    faults: u64,
}

impl StdSink {
    /// No call failed yet.
    pub fn new(stdout: Stdout) -> Self
        ensures { ⟦<StdSink as Sink>⟧.faults result ≡ 0 }
    {
        StdSink { stdout, faults: 0 }
    }
}

impl Sink for StdSink {
    ghost written = { λ _. None };

    ghost faults = { λ s. s.faults };

    fn write(&mut self, bytes: &[u8]) -> Result<usize, Failed> {
        match self.stdout.write(bytes) {
            Ok(n) if n > 0 || bytes.is_empty() => Ok(n),
            _ => {
                self.faults = self.faults.saturating_add(1);
                Err(Failed)
            }
        }
    }
}
