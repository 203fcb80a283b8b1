//! Contexts as what a reader sees, and as what a search extends.
//!
//! A `View` is a context of at most `MAX_ENTRIES` entries, which can be read. A `Trunk` is one that also grows
//! and shrinks by an entry at its end. What is visible follows from the entries.
ghost use Rattle.std.specs.Prelude.{◌≡◌, ◌<◌, ◌≤◌, List, length, slice_get, not, ◌↔◌, IsSome, IsTrue, OnOk, OnErr, IfOk, IfErr};
ghost use Rattle.std.specs.Option.{option_copied};
ghost use Rattle.me_terms.specs.Context.{IsContext, IsLiteralEntry, IsVisible, add};
ghost use Rattle.me_terms.specs.Contradictory.{Contradicts};
ghost use Rattle.me_terms.specs.Values.{EntryValue};
ghost use Rattle.me_terms.specs.declared.bounds.TheConstants.{MAX_ENTRIES};

use crate::entry::Entry;
use std::alloc::{AllocError, Global};

/// A context that can be read.
pub trait View {
    /// The entries in order, hidden ones too.
    ghost context: { Self → List EntryValue };

    /// The number of entries, hidden ones and the pseudo-literal counted.
    fn len(&self) -> u32
        ensures number { result ≡ length (context self.now) }
        ensures few { length (context self.now) ≤ MAX_ENTRIES }
        ensures is_context { IsContext (context self.now) };

    /// The entry at position `k`, from 0.
    fn entry(&self, k: u32) -> Option<&Entry>
        ensures item { option_copied result ≡ slice_get (context self.now) k }
        ensures found { IsSome result ↔ (k < length (context self.now)) };

    /// Whether an entry stands at position `k` and no later one hides it.
    fn visible(&self, k: u32) -> bool
        ensures { IsTrue result ↔ ((e : EntryValue) × IsVisible (context self.now) k e) };
}

/// An entry for which there was no memory.
#[derive(Drop)]
pub struct Refused {
    /// The entry that was not added.
    pub entry: Entry,
}

/// A context that can grow, and shrink again. It keeps the allocator from which it grows.
pub trait Trunk: View + Drop {
    /// Puts an entry at the end, or hands it back where memory is out.
    ///
    /// The entry is a literal with a canonical atom, Universal where it is ground, and does not contradict
    /// the context, which has fewer than `MAX_ENTRIES` entries.
    fn extend(&mut self, e: Entry) -> Result<(), Refused>
        requires literal { IsLiteralEntry e }
        requires apart { ¬ Contradicts (Self.context self.old) e.positive e.kind e.atom }
        requires room { length (Self.context self.old) < MAX_ENTRIES }
        ensures ok { OnOk result (Self.context self.new ≡ add (Self.context self.old) e) }
        ensures err { OnErr result (self.new ≡ self.old) }
        ensures back { IfErr result (λ refused. refused.entry ≡ e) };

    /// Takes the last entry off, unless the pseudo-literal stands alone. What the entry hid is visible again.
    fn shrink(&mut self) -> bool
        ensures taken { IsTrue result → ((e : EntryValue) × (Self.context self.old ≡ add (Self.context self.new) e)) }
        ensures alone { IsTrue (not result) ↔ (length (Self.context self.old) ≡ 1) }
        ensures kept { IsTrue (not result) → self.new ≡ self.old };

    /// An equal copy.
    fn again(&self, alloc: Global) -> Result<Self, AllocError>
        ensures { IfOk result (λ copy. copy ≡ self.now) };
}
