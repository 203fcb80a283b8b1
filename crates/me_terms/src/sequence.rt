//! Lists that hand an item back where memory is out.
//!
//! A contract sees a list as its items in order, beside the number of further items that fit with no
//! allocation. Equality and hash go by the items alone.
ghost use Rattle.std.specs.Prelude.{◌≡◌, ◌==◌, ◌+◌, ◌<◌, ◌≤◌, [], ◌∷◌, ◌++◌, length, slice_get, ◌↔◌, IsSome, IsOk, OnOk, OnErr, IfOk, IfErr};
ghost use Rattle.std.specs.Option.{option_copied};
ghost use Rattle.std.specs.Cmp.{on_equiv, on_per};
ghost use Rattle.std.specs.Cmp.Lexicographic.{pointwise, lists_per, lists_equiv};
ghost use Rattle.std.specs.Hash as fed;
ghost use Rattle.std.specs.Hash.{on_Alike, items_Alike};

use std::alloc::{AllocError, Global};
use std::hash::{Hash, Hasher};
use std::marker::Model;

/// A list whose room grows as it is pushed to.
#[derive(Drop)]
pub struct Sequence<T> {
    items: Vec<T>,
}

/// Places in a clause, or positions in a context.
pub type Places = Sequence<u32>;

impl<T> Model for Sequence<T> {
    ghost use Rattle.me_terms.specs.Sequences.{SequenceValue, sequence_code};

    ghost Value = { SequenceValue T };

    ghost coded = { sequence_code T.code };

    ghost use Rattle.me_terms.specs.SequenceViews.{sequence_value};

    ghost view = { λ s. sequence_value s.items };
}

impl<T> Sequence<T> {
    /// An empty list, which takes no memory. Later calls that need some take it from `alloc`.
    pub fn new(alloc: Global) -> Self
        ensures { result.items ≡ [] }
    {
        Sequence {
            items: Vec::new(alloc),
        }
    }

    /// The number of items.
    pub fn len(&self) -> u64
        ensures { result ≡ length self.now.items }
    {
        self.items.len() as u64
    }

    pub fn is_empty(&self) -> bool
        ensures { result ≡ (length self.now.items == 0) }
    {
        self.items.is_empty()
    }

    /// The items in order.
    pub fn as_slice(&self) -> &[T]
        ensures { result.now ≡ self.now.items }
    {
        self.items.as_slice()
    }

    /// The item at place `k`, from 0.
    pub fn get(&self, k: u64) -> Option<&T>
        ensures item { option_copied result ≡ slice_get self.now.items k }
        ensures found { IsSome result ↔ (k < length self.now.items) }
    {
        self.items.get(k as usize)
    }

    /// The items, to be taken out one by one.
    pub fn into_vec(self) -> Vec<T>
        ensures { result.items ≡ self.items }
    {
        self.items
    }
}

impl<T: Drop> Sequence<T> {
    /// Makes room for `n` further items, or changes nothing where memory is out. An empty list gets room
    /// for no more than these.
    pub fn reserve(&mut self, n: u64) -> Result<(), AllocError>
        ensures items { self.new.items ≡ self.old.items }
        ensures ok { OnOk result (n ≤ self.new.spare) }
        ensures kept { self.old.spare ≤ self.new.spare }
        ensures succeeds { n ≤ self.old.spare → IsOk result }
        ensures err { OnErr result (self.new ≡ self.old) }
    {
        if self.items.is_empty() {
            self.items.reserve_exact(n as usize)
        } else {
            self.items.reserve(n as usize)
        }
    }

    /// Puts an item at the end, or hands it back where memory is out.
    pub fn push(&mut self, item: T) -> Result<(), T>
        ensures ok { OnOk result (self.new.items ≡ self.old.items ++ item ∷ []) }
        ensures err { OnErr result (self.new ≡ self.old) }
        ensures back { IfErr result (λ back. back ≡ item) }
        ensures room { 0 < self.old.spare → IsOk result × (self.new.spare + 1 ≡ self.old.spare) }
    {
        if self.items.len() == self.items.capacity() && self.items.reserve(1).is_err() {
            return Err(item);
        }
        self.items.push_reserved(item);
        Ok(())
    }
}

impl<T: Drop> Sequence<T> {
    /// Moves all items of the other list to the end of this one, or changes no item where memory is out.
    pub fn append(&mut self, other: &mut Self) -> Result<(), AllocError>
        ensures ok { OnOk result ((self.new.items ≡ self.old.items ++ other.old.items) × (other.new.items ≡ [])) }
        ensures err { OnErr result ((self.new.items ≡ self.old.items) × (other.new.items ≡ other.old.items)) }
    {
        self.reserve(other.len())?;
        self.items.append(&mut other.items)
    }
}

impl<T: Copy> Sequence<T> {
    /// A list of the same items.
    pub fn from_slice(items: &[T], alloc: Global) -> Result<Self, AllocError>
        ensures { IfOk result (λ list. list.items ≡ items.now) }
    {
        let mut list = Sequence::new(alloc);
        list.extend_from_slice(items)?;
        Ok(list)
    }

    /// Puts the items at the end, or changes no item where memory is out.
    pub fn extend_from_slice(&mut self, items: &[T]) -> Result<(), AllocError>
        ensures ok { OnOk result (self.new.items ≡ self.old.items ++ items.now) }
        ensures err { OnErr result (self.new.items ≡ self.old.items) }
    {
        self.reserve(items.len() as u64)?;
        self.items.extend_from_slice(items)
    }
}

impl<T: PartialEq> PartialEq for Sequence<T> {
    ghost eq = { λ a b. pointwise T.eq a.items b.items };

    ghost laws = { on_per (λ a. a.items) (lists_per T.laws) };

    fn eq(&self, other: &Self) -> bool {
        self.as_slice() == other.as_slice()
    }
}

impl<T: Eq> Eq for Sequence<T> {
    ghost laws = { on_equiv (λ a. a.items) (lists_equiv T.Eq.laws) };
}

impl<T: Hash> Hash for Sequence<T> {
    ghost hash_input = { λ a. fed.slice T.hash_input a.items };

    ghost respects_eq = { (on_Alike (λ a. a.items) (items_Alike (record { fed = T.respects_eq }))).fed };

    fn hash<H: Hasher>(&self, state: &mut H) {
        self.as_slice().hash(state);
    }
}
