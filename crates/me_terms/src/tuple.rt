//! Tuples of positions in a context.
//!
//! A tuple has one position for each place of a clause that takes part. A contract sees it as a list of
//! numbers; most have at most four, and those take no memory.
ghost use Rattle.std.specs.Prelude.{◌≡◌, ◌==◌, ◌<◌, ◌≤◌, ◌+◌, [], ◌∷◌, ◌++◌, length, slice_get, ◌↔◌, IsSome, IsOk, OnOk, OnErr, IfOk, IfErr};
ghost use Rattle.std.specs.Option.{option_copied};

use smallvec::SmallVec;
use std::alloc::{AllocError, Global};
use std::marker::Model;

/// Positions of entries, by their places in the context.
#[derive(Drop)]
pub struct Tuple {
    places: SmallVec<u32, 4>,
}

impl Model for Tuple {
    ghost use Rattle.std.specs.Prelude.{ℕ};
    ghost use Rattle.std.specs.Coded.{coded_ℕ};
    ghost use Rattle.me_terms.specs.Sequences.{SequenceValue, sequence_code};

    ghost Value = { SequenceValue ℕ };

    ghost coded = { sequence_code coded_ℕ };

    ghost use Rattle.me_terms.specs.SequenceViews.{small_sequence_value};

    ghost view = { λ t. small_sequence_value t.places };
}

impl Tuple {
    /// An empty tuple, which takes no memory. Later calls that need some take it from `alloc`.
    pub fn new(alloc: Global) -> Self
        ensures { result.items ≡ [] }
    {
        Tuple {
            places: SmallVec::new(alloc),
        }
    }

    /// The number of positions.
    pub fn len(&self) -> u64
        ensures { result ≡ length self.now.items }
    {
        self.places.len() as u64
    }

    pub fn is_empty(&self) -> bool
        ensures { result ≡ (length self.now.items == 0) }
    {
        self.places.is_empty()
    }

    /// The positions in order.
    pub fn as_slice(&self) -> &[u32]
        ensures { result.now ≡ self.now.items }
    {
        self.places.as_slice()
    }

    /// The position for place `k`, from 0.
    pub fn get(&self, k: u64) -> Option<&u32>
        ensures item { option_copied result ≡ slice_get self.now.items k }
        ensures found { IsSome result ↔ (k < length self.now.items) }
    {
        self.as_slice().get(k as usize)
    }

    /// Makes room for `n` further positions, or changes nothing where memory is out.
    pub fn reserve(&mut self, n: u64) -> Result<(), AllocError>
        ensures items { self.new.items ≡ self.old.items }
        ensures ok { OnOk result (n ≤ self.new.spare) }
        ensures kept { self.old.spare ≤ self.new.spare }
        ensures succeeds { n ≤ self.old.spare → IsOk result }
        ensures err { OnErr result (self.new ≡ self.old) }
    {
        let room = self.places.capacity() - self.places.len();
        if (room as u64) < n {
            self.places.reserve(n as usize)?;
        }
        Ok(())
    }

    /// Puts a position at the end, or hands it back where memory is out.
    pub fn push(&mut self, position: u32) -> Result<(), u32>
        ensures ok { OnOk result (self.new.items ≡ self.old.items ++ position ∷ []) }
        ensures err { OnErr result (self.new ≡ self.old) }
        ensures back { IfErr result (λ back. back ≡ position) }
        ensures room { 0 < self.old.spare → IsOk result × (self.new.spare + 1 ≡ self.old.spare) }
    {
        match self.places.push(position) {
            Ok(()) => Ok(()),
            Err(failed) => Err(failed.value),
        }
    }

    /// An equal tuple.
    pub fn again(&self, alloc: Global) -> Result<Self, AllocError>
        ensures { IfOk result (λ copy. copy.items ≡ self.now.items) }
    {
        let mut copy = Tuple::new(alloc);
        for position in self.as_slice() {
            if copy.push(*position).is_err() {
                return Err(AllocError);
            }
        }
        Ok(copy)
    }
}
