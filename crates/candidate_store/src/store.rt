//! The store: what a branch's context gives, kept as entries come and go.
ghost use Rattle.std.specs.Prelude.{◌≡◌, ◌<◌, ◌≤◌, ◌+◌, ◌∷◌, ◌++◌, [], length, take, true, false, IsTrue, ◌↔◌, not, IfOk, OnOk, OnErr};
ghost use Rattle.me_terms.specs.Values.{EntryValue, ProblemValue};
ghost use Rattle.me_terms.specs.Validity.{IsValid, IsLawful};
ghost use Rattle.me_terms.specs.Context.{Context as ContextOf, add};
ghost use Rattle.me_terms.specs.Grown as grown;
ghost use Rattle.me_terms.specs.Next.{IsNext};
ghost use Rattle.me_terms.specs.AnswerViews.{next_value};
ghost use Rattle.me_terms.specs.declared.bounds.Bounds.{Bounds as BoundsOf};
ghost use Rattle.me_terms.specs.declared.bounds.TheConstants.{MAX_ENTRIES};
ghost use Rattle.candidate_store.specs.Notes.{AreNotes};
ghost use Rattle.clause_pairs.specs.Pairs.{ArePairs};
ghost use Rattle.candidate_store.specs.Kept.{StandsFor, IsKept, IsNoted, IsBeside, IsFrame, AreAsserts};

use crate::frame::{Frame, is_closed, last_of, step_again};
use crate::notes::Notes;
use crate::search::Search;
use candidate_keys::Asserts;
use clause_pairs::Pairs;
use context_prefix::{Front, Prefix};
use me_context::Context;
use me_terms::{Bounds, Next, Problem, View};
use next_rule::next_step;
use std::alloc::{AllocError, Global};
use std::marker::Model;

/// What is kept of the first entries of a context. It has none of the entries themselves.
#[derive(Drop)]
pub struct Store {
    alloc: Global,
    bounds: Bounds,
    notes: Notes,
    pairs: Pairs,
    /// All Asserts are among these where they are fresh.
    asserts: Asserts,
    is_fresh: bool,
    frames: Vec<Frame>,
}

impl Model for Store {
    ghost use Rattle.std.specs.Coded.{codes};
    ghost use Rattle.me_terms.specs.Terms.{arguments_code};
    ghost use Rattle.candidate_store.specs.Kept.{StoreValue};

    ghost Value = { StoreValue };

    ghost coded = { Prim.hlevel (codes, arguments_code) };

    ghost view = { λ s. record { bounds = s.bounds; notes = s.notes; pairs = s.pairs; asserts = s.asserts; is_fresh = s.is_fresh; frames = s.frames.items } };
}

/// The step at the pseudo-literal alone, from scratch.
fn first_step(alloc: Global, problem: &Problem, bounds: &Bounds) -> Result<Next, AllocError>
    requires valid { IsValid problem.now }
    requires bounds { IsLawful bounds.now }
    ensures { IfOk result (λ next. IsNext problem.now bounds.now (grown.start bounds.now.start) (next_value next)) }
{
    let context = Context::new(alloc, bounds.start)?;
    next_step(alloc, problem, &context, bounds)
}

impl Store {
    /// The store of the pseudo-literal alone, with which a search of the problem begins.
    pub fn new(alloc: Global, problem: &Problem, bounds: &Bounds) -> Result<Self, AllocError>
        requires valid { IsValid problem.now }
        requires bounds { IsLawful bounds.now }
        ensures { IfOk result (λ s. StandsFor problem.now bounds.now (grown.start bounds.now.start) s) }
    {
        let step = first_step(alloc, problem, bounds)?;
        let notes = Notes::start(alloc)?;
        let pairs = Pairs::new(alloc, problem)?;
        let frame = Frame {
            step,
            unifiers: Vec::new(alloc),
            searched: 0,
        };
        let frames = vec![in alloc; frame]?;
        Ok(Store {
            alloc,
            bounds: *bounds,
            notes,
            pairs,
            asserts: Asserts::new(alloc),
            is_fresh: false,
            frames,
        })
    }

    /// The number of entries that the store stands for.
    pub fn len(&self) -> usize
        ensures { (problem : ProblemValue) (bounds : BoundsOf) (context : ContextOf) → StandsFor problem bounds context self.now → result ≡ length context }
    {
        self.frames.len()
    }

    /// The pairs of the problem's clauses with the entries.
    pub fn pairs(&self) -> &Pairs
        ensures { (problem : ProblemValue) (bounds : BoundsOf) (context : ContextOf) → StandsFor problem bounds context self.now → ArePairs problem context result.now }
    {
        &self.pairs
    }

    /// What is done next at the context that the store stands for.
    pub fn next(&self, alloc: Global) -> Result<Next, AllocError>
        requires { 0 < length self.now.frames }
        ensures { IfOk result (λ next. (problem : ProblemValue) (bounds : BoundsOf) (context : ContextOf) → StandsFor problem bounds context self.now → IsNext problem bounds context (next_value next)) }
    {
        step_again(alloc, last_of(&self.frames).next())
    }

    /// Takes in the view's entry behind those that the store stands for, and finds what is done next. Where
    /// memory is out, the store stands for what it stood for.
    pub fn enter<V: View>(&mut self, problem: &Problem, view: &V) -> Result<(), AllocError>
        requires valid { IsValid problem.now }
        requires stands { (bounds : BoundsOf) × IsLawful bounds × StandsFor problem.now bounds (take (length self.old.frames) (V.context view.now)) self.old }
        requires more { length self.old.frames < length (V.context view.now) }
        ensures ok { OnOk result ((bounds : BoundsOf) → StandsFor problem.now bounds (take (length self.old.frames) (V.context view.now)) self.old → StandsFor problem.now bounds (take (length self.old.frames + 1) (V.context view.now)) self.new) }
        ensures err { OnErr result ((bounds : BoundsOf) → StandsFor problem.now bounds (take (length self.old.frames) (V.context view.now)) self.old → StandsFor problem.now bounds (take (length self.old.frames) (V.context view.now)) self.new) }
    {
        let _entries = view.len();
        self.take_in(problem, view)?;
        match self.add_frame(problem, view) {
            Ok(()) => Ok(()),
            Err(AllocError) => {
                self.take_out();
                Err(AllocError)
            }
        }
    }

    /// Takes the last entry off. False exactly where the pseudo-literal stands alone.
    pub fn leave(&mut self) -> bool
        requires stands { (problem : ProblemValue) × (bounds : BoundsOf) × (context : ContextOf) × StandsFor problem bounds context self.old × (length context ≤ MAX_ENTRIES) }
        ensures left { (problem : ProblemValue) (bounds : BoundsOf) (context : ContextOf) (e : EntryValue) → StandsFor problem bounds (add context e) self.old → 0 < length context → StandsFor problem bounds context self.new × IsTrue result }
        ensures alone { (problem : ProblemValue) (bounds : BoundsOf) (e : EntryValue) → StandsFor problem bounds (e ∷ []) self.old → IsTrue (not result) }
        ensures kept { IsTrue (not result) → self.new ≡ self.old }
    {
        if self.frames.len() <= 1 {
            return false;
        }
        let Some(_frame) = self.frames.pop() else {
            unreachable!();
        };
        self.take_out();
        true
    }

    /// Notes the view's entry behind those that are kept, or changes nothing that matters where memory is out.
    fn take_in<V: View>(&mut self, problem: &Problem, view: &V) -> Result<(), AllocError>
        requires valid { IsValid problem.now }
        requires kept { IsKept problem.now (take (length self.old.frames) (V.context view.now)) self.old }
        requires more { length self.old.frames < length (V.context view.now) }
        ensures ok { OnOk result (IsNoted problem.now (take (length self.old.frames + 1) (V.context view.now)) self.old self.new) }
        ensures err { OnErr result (IsKept problem.now (take (length self.old.frames) (V.context view.now)) self.new × (self.new.bounds ≡ self.old.bounds)) }
    {
        let _entries = view.len();
        let len = self.frames.len() as u32;
        let Some(entry) = view.entry(len) else {
            unreachable!();
        };
        self.pairs.enter(self.alloc, problem, entry)?;
        match self.notes.add(&Front::new(view, len), entry) {
            Ok(()) => Ok(()),
            Err(AllocError) => {
                self.pairs.leave();
                Err(AllocError)
            }
        }
    }

    /// Forgets the last entry, and the Asserts, which may not be those of what is left.
    fn take_out(&mut self)
        requires fits { (problem : ProblemValue) × (context : ContextOf) × (e : EntryValue) × AreNotes (add context e) self.old.notes × ArePairs problem (add context e) self.old.pairs × (0 < length context) × (length context ≤ MAX_ENTRIES) }
        ensures notes { (context : ContextOf) (e : EntryValue) → AreNotes (add context e) self.old.notes → AreNotes context self.new.notes }
        ensures pairs { (problem : ProblemValue) (context : ContextOf) (e : EntryValue) → ArePairs problem (add context e) self.old.pairs → 0 < length context → ArePairs problem context self.new.pairs }
        ensures frames { self.new.frames ≡ self.old.frames }
        ensures bounds { self.new.bounds ≡ self.old.bounds }
        ensures stale { self.new.is_fresh ≡ false }
    {
        self.pairs.leave();
        self.notes.pop();
        self.asserts.clear();
        self.is_fresh = false;
    }

    /// Finds what is done next, once the last entry was noted.
    fn find<V: View>(&mut self, problem: &Problem, view: &V) -> Result<Frame, AllocError>
        requires valid { IsValid problem.now }
        requires bounds { IsLawful self.old.bounds }
        requires beside { IsBeside problem.now (take (length self.old.frames) (V.context view.now)) (take (length self.old.frames + 1) (V.context view.now)) self.old }
        requires more { length self.old.frames < length (V.context view.now) }
        ensures same { (self.new.notes ≡ self.old.notes) × (self.new.pairs ≡ self.old.pairs) × (self.new.frames ≡ self.old.frames) × (self.new.bounds ≡ self.old.bounds) }
        ensures frame { IfOk result (λ f. IsFrame problem.now self.old.bounds (take (length self.old.frames + 1) (V.context view.now)) (self.old.frames ++ f ∷ []) f) }
        ensures asserts { OnOk result (self.new.is_fresh ≡ true → AreAsserts problem.now (take (length self.old.frames + 1) (V.context view.now)) self.new) }
    {
        let _entries = view.len();
        let len = self.frames.len() as u32;
        let prefix = Prefix::new(view, len + 1, self.notes.hiding());
        let search = Search {
            alloc: self.alloc,
            problem,
            bounds: &self.bounds,
            pairs: &self.pairs,
            entries: self.notes.entries(),
            view: &prefix,
        };
        let frame = search.frame(&self.frames, self.is_fresh, &mut self.asserts)?;
        self.is_fresh = !is_closed(&frame.step);
        Ok(frame)
    }

    /// Finds what is done next, once the last entry was noted, and keeps it.
    fn add_frame<V: View>(&mut self, problem: &Problem, view: &V) -> Result<(), AllocError>
        requires valid { IsValid problem.now }
        requires bounds { IsLawful self.old.bounds }
        requires beside { IsBeside problem.now (take (length self.old.frames) (V.context view.now)) (take (length self.old.frames + 1) (V.context view.now)) self.old }
        requires more { length self.old.frames < length (V.context view.now) }
        ensures bounds { self.new.bounds ≡ self.old.bounds }
        ensures ok { OnOk result (IsKept problem.now (take (length self.old.frames + 1) (V.context view.now)) self.new) }
        ensures err { OnErr result ((self.new.notes ≡ self.old.notes) × (self.new.pairs ≡ self.old.pairs) × (self.new.frames ≡ self.old.frames)) }
    {
        let frame = self.find(problem, view)?;
        self.keep(frame)
    }

    /// Puts the frame to the others, or changes nothing where memory is out.
    fn keep(&mut self, frame: Frame) -> Result<(), AllocError>
        ensures ok { OnOk result (self.new ≡ record self.old { frames = self.old.frames ++ frame ∷ [] }) }
        ensures err { OnErr result (self.new ≡ self.old) }
        ensures bounds { self.new.bounds ≡ self.old.bounds }
    {
        self.frames.push(frame)?;
        Ok(())
    }
}
