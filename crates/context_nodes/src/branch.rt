//! The branches of a search, as contexts over one table of entries.
//!
//! A contract sees a `Branch` as its list of entries. What of them is hidden is kept beside the references,
//! as a `Context` does. Only what puts entries into the table may wait for other threads.
ghost use Rattle.std.specs.Prelude.{◌≡◌, ◌<◌, ◌≤◌, Bool, [], ◌∷◌, ◌++◌, length, map, ◌+◌, ◌↔◌, not, slice_get, OnOk, OnErr, IfOk, IfErr, IsTrue};
ghost use Rattle.std.specs.Option.{option_copied};
ghost use Rattle.me_terms.specs.Values.{EntryValue};
ghost use Rattle.me_terms.specs.Context.{IsLiteralEntry, pseudo, add};
ghost use Rattle.me_terms.specs.Contradictory.{Contradicts};
ghost use Rattle.me_terms.specs.declared.bounds.TheConstants.{MAX_ENTRIES};

use crate::nodes::Nodes;
use entry_hiding::{EntryList, Hiding};
use me_terms::{Entry, Refused, Trunk, View};
use std::alloc::{AllocError, Global};
use std::marker::Model;
use std::sync::Wait;

/// A context whose entries stand in a table.
#[derive(Drop)]
pub struct Branch<'n, R> {
    rt: &'n R,
    nodes: &'n Nodes,
    lent: Vec<&'n Entry>,
    hiding: Hiding,
}

impl<'n, R> Model for Branch<'n, R> {
    ghost use Rattle.std.specs.Prelude.{List, ◌≤◌, length, map};
    ghost use Rattle.std.specs.Coded.{codes};
    ghost use Rattle.me_terms.specs.Terms.{arguments_code};
    ghost use Rattle.me_terms.specs.Values.{EntryValue};
    ghost use Rattle.me_terms.specs.Context.{IsContext};
    ghost use Rattle.me_terms.specs.declared.bounds.TheConstants.{MAX_ENTRIES};
    ghost use Rattle.entry_hiding.specs.Hiding.{IsHidingOf};

    ghost Value = { List EntryValue };

    ghost coded = { Prim.hlevel (codes, arguments_code) };

    ghost view = { λ b. map (λ r. r.now) b.lent.items };

    ghost invariant = { λ b. IsContext (map (λ r. r.now) b.lent.items) × (length b.lent.items ≤ MAX_ENTRIES) × IsHidingOf (map (λ r. r.now) b.lent.items) b.hiding };
}

// What it refers to is shared by threads, and it owns no more than a list of references and flags.
unsafe impl<R: Sync> Send for Branch<'_, R> {}

/// Takes the last item off.
fn take_last<T>(items: &mut Vec<T>) -> T
    requires { 0 < length items.old.items }
    ensures { items.old.items ≡ items.new.items ++ result ∷ [] }
{
    match items.pop() {
        Some(last) => last,
        None => unreachable!(),
    }
}

impl<'n, R> Branch<'n, R> {
    /// The branch of a pseudo-literal that stands in the table.
    pub(crate) fn new(
        alloc: Global,
        rt: &'n R,
        nodes: &'n Nodes,
        first: &'n Entry,
    ) -> Result<Self, AllocError>
        requires { (positive : Bool) × (first.now ≡ pseudo positive) }
        ensures { IfOk result (λ branch. branch ≡ first.now ∷ []) }
    {
        Ok(Branch {
            rt,
            nodes,
            lent: vec![in alloc; first]?,
            hiding: Hiding::start(alloc)?,
        })
    }

    /// Takes the last entry off, unless the pseudo-literal stands alone. What the entry hid is visible again.
    /// The table keeps the entry.
    pub fn pop(&mut self) -> bool
        ensures taken { IsTrue result → ((e : EntryValue) × (self.old ≡ add self.new e)) }
        ensures alone { IsTrue (not result) ↔ (length self.old ≡ 1) }
        ensures kept { IsTrue (not result) → self.new ≡ self.old }
    {
        if self.lent.len() <= 1 {
            return false;
        }
        let _last = take_last(&mut self.lent);
        self.hiding.pop();
        true
    }

    /// An equal branch, over the same entries of the table.
    pub fn again(&self, alloc: Global) -> Result<Self, AllocError>
        ensures { IfOk result (λ copy. copy ≡ self.now) }
    {
        Ok(Branch {
            rt: self.rt,
            nodes: self.nodes,
            lent: self.lent.as_slice().to_vec(alloc)?,
            hiding: self.hiding.again(alloc)?,
        })
    }

    /// The entry at position `k`, lent for as long as the table is.
    pub fn lent(&self, k: u32) -> Option<&'n Entry>
        ensures { option_copied result ≡ slice_get self.now k }
    {
        self.lent.get(k as usize).copied()
    }
}

impl<'n, R: Wait> Branch<'n, R> {
    /// Puts an entry at the end, or hands it back where memory is out.
    ///
    /// The entry is a literal with a canonical atom, Universal where it is ground, and does not contradict
    /// the context, which has fewer than `MAX_ENTRIES` entries.
    pub fn extend(&mut self, e: Entry) -> Result<(), Refused>
        requires literal { IsLiteralEntry e }
        requires apart { ¬ Contradicts self.old e.positive e.kind e.atom }
        requires room { length self.old < MAX_ENTRIES }
        ensures ok { OnOk result (self.new ≡ add self.old e) }
        ensures err { OnErr result (self.new ≡ self.old) }
        ensures back { IfErr result (λ refused. refused.entry ≡ e) }
    {
        if self.lent.reserve(1).is_err() {
            return Err(Refused { entry: e });
        }
        let Ok(()) = self.hiding.add(&self.lent, &e) else {
            return Err(Refused { entry: e });
        };
        match self.nodes.keep(self.rt, e) {
            Ok(kept) => {
                self.lent.push_reserved(kept);
                Ok(())
            }
            Err(entry) => {
                self.hiding.pop();
                Err(Refused { entry })
            }
        }
    }
}

impl<'n, R> View for Branch<'n, R> {
    ghost context = { λ b. b };

    fn len(&self) -> u32 {
        self.lent.len() as u32
    }

    fn entry(&self, k: u32) -> Option<&Entry> {
        self.lent.entry_at(k as usize)
    }

    fn visible(&self, k: u32) -> bool {
        self.hiding.shows(k)
    }
}

impl<'n, R: Wait> Trunk for Branch<'n, R> {
    fn extend(&mut self, e: Entry) -> Result<(), Refused> {
        Branch::extend(self, e)
    }

    fn shrink(&mut self) -> bool {
        self.pop()
    }

    fn again(&self, alloc: Global) -> Result<Self, AllocError> {
        Branch::again(self, alloc)
    }
}
