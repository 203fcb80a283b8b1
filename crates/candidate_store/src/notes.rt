//! What is kept of the entries themselves, as they come and go.
ghost use Rattle.std.specs.Prelude.{◌≡◌, ◌<◌, Bool, [], ◌∷◌, length, IfOk, OnOk, OnErr};
ghost use Rattle.me_terms.specs.Values.{EntryValue};
ghost use Rattle.me_terms.specs.Context.{Context, add, pseudo};
ghost use Rattle.me_terms.specs.declared.bounds.TheConstants.{MAX_ENTRIES};
ghost use Rattle.candidate_store.specs.Notes.{AreNotes};

use entry_hiding::{EntryList, Hiding};
use literal_index::Index;
use me_terms::Entry;
use std::alloc::{AllocError, Global};
use std::marker::Model;

/// Which entries are hidden, and the index of all.
#[derive(Drop)]
pub(crate) struct Notes {
    hiding: Hiding,
    entries: Index,
}

impl Model for Notes {
    ghost use Rattle.std.specs.Coded.{codes};
    ghost use Rattle.candidate_store.specs.Notes.{NotesValue};

    ghost Value = { NotesValue };

    ghost coded = { Prim.hlevel (codes) };

    ghost view = { λ n. record { hiding = n.hiding; entries = n.entries } };
}

impl Notes {
    /// Those of the pseudo-literal alone.
    pub(crate) fn start(alloc: Global) -> Result<Self, AllocError>
        ensures { IfOk result (λ notes. (positive : Bool) → AreNotes (pseudo positive ∷ []) notes) }
    {
        let hiding = Hiding::start(alloc)?;
        let entries = Index::new(alloc)?;
        Ok(Notes { hiding, entries })
    }

    /// Notes that an entry comes behind these. Where memory is out, the notes are those of what stood there.
    pub(crate) fn add<L: EntryList>(&mut self, list: &L, e: &Entry) -> Result<(), AllocError>
        requires fits { AreNotes (L.entries list.now) self.old }
        requires room { length (L.entries list.now) < MAX_ENTRIES }
        ensures ok { OnOk result (AreNotes (add (L.entries list.now) e.now) self.new) }
        ensures err { OnErr result (AreNotes (L.entries list.now) self.new) }
    {
        self.entries.enter(e)?;
        match self.hiding.add(list, e) {
            Ok(()) => Ok(()),
            Err(AllocError) => {
                self.entries.leave();
                Err(AllocError)
            }
        }
    }

    /// Notes that the last entry is taken off.
    pub(crate) fn pop(&mut self)
        requires fits { (context : Context) × (e : EntryValue) × AreNotes (add context e) self.old }
        ensures { (context : Context) (e : EntryValue) → AreNotes (add context e) self.old → AreNotes context self.new }
    {
        self.entries.leave();
        self.hiding.pop();
    }

    /// Which entries are hidden.
    pub(crate) fn hiding(&self) -> &Hiding
        ensures { result.now ≡ self.now.hiding }
    {
        &self.hiding
    }

    /// The index of the entries.
    pub(crate) fn entries(&self) -> &Index
        ensures { result.now ≡ self.now.entries }
    {
        &self.entries
    }
}
