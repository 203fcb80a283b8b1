//! The context that one search extends and takes back.
//!
//! A contract sees a `Context` as its list of entries. What is hidden is kept beside them, so that what is
//! visible is told in constant time, and `add` and `pop` change it exactly where it changes.
ghost use Rattle.std.specs.Prelude.{◌≡◌, ◌<◌, ◌≤◌, [], ◌∷◌, ◌++◌, length, ◌+◌, ◌↔◌, IsNone, OnOk, OnErr, IfOk, IfErr, IfSome, IsTrue};
ghost use Rattle.me_terms.specs.Context.{IsLiteralEntry, add};
ghost use Rattle.me_terms.specs.Contradictory.{Contradicts};
ghost use Rattle.me_terms.specs.Grown as grown;
ghost use Rattle.me_terms.specs.declared.bounds.TheConstants.{MAX_ENTRIES};

use entry_hiding::Hiding;
use me_terms::{Again, Entry, Kind, Pattern, Reason, Refused, Start, Trunk, View};
use std::alloc::{AllocError, Global};
use std::marker::Model;

/// A context: the pseudo-literal, and the entries that were added to it.
#[derive(Drop)]
pub struct Context {
    entries: Vec<Entry>,
    hiding: Hiding,
}

impl Model for Context {
    ghost use Rattle.std.specs.Prelude.{List, ◌≤◌, length};
    ghost use Rattle.std.specs.Coded.{codes};
    ghost use Rattle.me_terms.specs.Terms.{arguments_code};
    ghost use Rattle.me_terms.specs.Values.{EntryValue};
    ghost use Rattle.me_terms.specs.Context.{IsContext};
    ghost use Rattle.me_terms.specs.declared.bounds.TheConstants.{MAX_ENTRIES};
    ghost use Rattle.entry_hiding.specs.Hiding.{IsHidingOf};

    ghost Value = { List EntryValue };

    ghost coded = { Prim.hlevel (codes, arguments_code) };

    ghost view = { λ c. c.entries.items };

    ghost invariant = { λ c. IsContext c.entries.items × (length c.entries.items ≤ MAX_ENTRIES) × IsHidingOf c.entries.items c.hiding };
}

/// Takes the last item off.
fn take_last<T>(items: &mut Vec<T>) -> T
    requires { 0 < length items.old.items }
    ensures { items.old.items ≡ items.new.items ++ result ∷ [] }
{
    match items.pop() {
        Some(last) => last,
        None => unreachable!(),
    }
}

impl Context {
    /// The context of a start, which is its pseudo-literal alone. Later calls that need memory take it from
    /// `alloc`.
    pub fn new(alloc: Global, start: Start) -> Result<Self, AllocError>
        ensures { IfOk result (λ context. context ≡ grown.start start) }
    {
        let entry = Entry {
            positive: start == Start::Positive,
            atom: Pattern::Any,
            kind: Kind::Parametric,
            reason: Reason::Pseudo,
        };
        Ok(Context {
            entries: vec![in alloc; entry]?,
            hiding: Hiding::start(alloc)?,
        })
    }

    /// Puts an entry at the end, or hands it back where memory is out.
    ///
    /// The entry is a literal with a canonical atom, Universal where it is ground, and does not contradict
    /// the context, which has fewer than `MAX_ENTRIES` entries.
    pub fn add(&mut self, e: Entry) -> Result<(), Refused>
        requires literal { IsLiteralEntry e }
        requires apart { ¬ Contradicts self.old e.positive e.kind e.atom }
        requires room { length self.old < MAX_ENTRIES }
        ensures ok { OnOk result (self.new ≡ add self.old e) }
        ensures err { OnErr result (self.new ≡ self.old) }
        ensures back { IfErr result (λ refused. refused.entry ≡ e) }
    {
        if self.entries.reserve(1).is_err() {
            return Err(Refused { entry: e });
        }
        let Ok(()) = self.hiding.add(&self.entries, &e) else {
            return Err(Refused { entry: e });
        };
        self.entries.push_reserved(e);
        Ok(())
    }

    /// Takes the last entry off, unless the pseudo-literal stands alone. What the entry hid is visible again.
    pub fn pop(&mut self) -> Option<Entry>
        ensures taken { IfSome result (λ e. self.old ≡ add self.new e) }
        ensures alone { IsNone result ↔ (length self.old ≡ 1) }
        ensures kept { IsNone result → self.new ≡ self.old }
    {
        if self.entries.len() <= 1 {
            return None;
        }
        let entry = take_last(&mut self.entries);
        self.hiding.pop();
        Some(entry)
    }
}

impl View for Context {
    ghost context = { λ c. c };

    fn len(&self) -> u32 {
        self.entries.len() as u32
    }

    fn entry(&self, k: u32) -> Option<&Entry> {
        self.entries.get(k as usize)
    }

    fn visible(&self, k: u32) -> bool {
        self.hiding.shows(k)
    }
}

/// Copies of the entries.
fn copy_entries(alloc: Global, entries: &[Entry]) -> Result<Vec<Entry>, AllocError>
    ensures { IfOk result (λ copy. copy.items ≡ entries.now) }
{
    let mut copy = Vec::new(alloc);
    for entry in entries {
        copy.push(entry.again(alloc)?)?;
    }
    Ok(copy)
}

impl Trunk for Context {
    fn extend(&mut self, e: Entry) -> Result<(), Refused> {
        self.add(e)
    }

    fn shrink(&mut self) -> bool {
        self.pop().is_some()
    }

    fn again(&self, alloc: Global) -> Result<Self, AllocError> {
        Ok(Context {
            entries: copy_entries(alloc, &self.entries)?,
            hiding: self.hiding.again(alloc)?,
        })
    }
}
