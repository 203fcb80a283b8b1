//! A library that fails at chosen calls, for tests.
use crate::bundle::Bundle;
use crate::error::FindError;
use crate::library::Library;
use me_terms::Text;
use std::alloc::Global;

/// A bundle whose calls with some numbers fail.
#[derive(Drop)]
pub struct BrokenLibrary {
    files: Bundle,
    fails: Vec<u64>,
    calls: u64,
    faults: u64,
}

impl BrokenLibrary {
    /// A library of these files. The calls with the numbers `fails` fail, counted from 1.
    pub fn new(files: Bundle, fails: Vec<u64>) -> Self {
        BrokenLibrary {
            files,
            fails,
            calls: 0,
            faults: 0,
        }
    }
}

impl Library for BrokenLibrary {
    ghost use Rattle.std.specs.Prelude.{Some};

    ghost held = { λ b. Some b.files };

    ghost faults = { λ b. b.faults };

    fn find(&mut self, alloc: Global, name: &Text) -> Result<Option<Text>, FindError> {
        self.calls = self.calls.saturating_add(1);
        if self.fails.contains(&self.calls) {
            self.faults = self.faults.saturating_add(1);
            return Err(FindError::Failed);
        }
        self.files.find(alloc, name)
    }
}
