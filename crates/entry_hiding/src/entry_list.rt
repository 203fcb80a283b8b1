//! Lists of entries, owned or lent.
//!
//! The bookkeeping of hiding reads the entries of either kind of list by their positions.
ghost use Rattle.std.specs.Prelude.{◌≡◌, List, map, slice_get};
ghost use Rattle.std.specs.Option.{option_copied};
ghost use Rattle.me_terms.specs.Values.{EntryValue};

use me_terms::Entry;

/// A list whose entries can be read.
pub trait EntryList {
    /// The entries in order.
    ghost entries: { Self → List EntryValue };

    /// The entry at position `k`, from 0.
    fn entry_at(&self, k: usize) -> Option<&Entry>
        ensures { option_copied result ≡ slice_get (entries self.now) k };
}

impl EntryList for Vec<Entry> {
    ghost entries = { λ l. l.items };

    fn entry_at(&self, k: usize) -> Option<&Entry> {
        self.get(k)
    }
}

impl<'n> EntryList for Vec<&'n Entry> {
    ghost entries = { λ l. map (λ r. r.now) l.items };

    fn entry_at(&self, k: usize) -> Option<&Entry> {
        self.get(k).copied()
    }
}
