//! A branch with the store of its first entries.
//!
//! So each next step is found from what is kept of the nodes above, and not from scratch. The store takes in
//! the entries that came when a step is asked for, and leaves those that went.
ghost use Rattle.std.specs.Prelude.{◌≡◌, ◌<◌, ◌≤◌, ◌++◌, true, false, length, IfOk, OnOk};
ghost use Rattle.me_terms.specs.Validity.{IsLawful, IsValid};
ghost use Rattle.me_terms.specs.Values.{EntryValue, ProblemValue};
ghost use Rattle.me_terms.specs.AnswerViews.{next_value};
ghost use Rattle.me_terms.specs.Context.{Context, IsLiteralEntry, add};
ghost use Rattle.me_terms.specs.Contradictory.{Contradicts};
ghost use Rattle.me_terms.specs.Grown.{IsGrown};
ghost use Rattle.me_terms.specs.Next.{IsNext};
ghost use Rattle.me_terms.specs.declared.bounds.Bounds.{Bounds as BoundsOf};
ghost use Rattle.me_terms.specs.declared.bounds.TheConstants.{MAX_ENTRIES};
ghost use Rattle.next_rule.specs.NextLaws.{IsAddedBy, MayBeAdded};
ghost use Rattle.candidate_store.specs.Kept.{StandsFor};
ghost use Rattle.branch_walk.specs.Turning.{EndsLeft, IsAllBack, IsBackAtLeft, beside};
ghost use Rattle.branch_walk.specs.Along.{IsAlong, HaveOneSearch};

use crate::turning::{Search, back, beside_last, extend, shrink_to};
use candidate_store::Store;
use me_terms::{Entry, Next, Problem, Trunk, View};
use std::alloc::{AllocError, Global};
use std::marker::Model;

/// A branch of a search, with what is kept of its first entries.
#[derive(Drop)]
pub(crate) struct KeptBranch<'a, T: Trunk> {
    search: Search<'a>,
    branch: T,
    store: Store,
}

impl<'a, T: Trunk> Model for KeptBranch<'a, T> {
    ghost use Rattle.std.specs.Coded.{codes};
    ghost use Rattle.me_terms.specs.Terms.{arguments_code};
    ghost use Rattle.me_terms.specs.Validity.{IsLawful, IsValid};
    ghost use Rattle.branch_walk.specs.Along.{BranchValue, IsAlong};

    ghost Value = { BranchValue };

    ghost coded = { Prim.hlevel (codes, arguments_code) };

    ghost view = { λ k. record { problem = k.search.problem.now; bounds = k.search.bounds.now; context = T.context k.branch } };

    ghost invariant = { λ k. IsValid k.search.problem.now × IsLawful k.search.bounds.now × IsAlong k.search.problem.now k.search.bounds.now (T.context k.branch) k.store };
}

/// Takes in the view's entries that the store does not have yet.
fn catch_up<V: View>(problem: &Problem, view: &V, store: &mut Store) -> Result<(), AllocError>
    requires valid { IsValid problem.now }
    requires along { (bounds : BoundsOf) × IsLawful bounds × IsAlong problem.now bounds (V.context view.now) store.old }
    ensures along { (bounds : BoundsOf) → IsAlong problem.now bounds (V.context view.now) store.old → IsAlong problem.now bounds (V.context view.now) store.new }
    ensures all { OnOk result ((bounds : BoundsOf) → IsAlong problem.now bounds (V.context view.now) store.old → StandsFor problem.now bounds (V.context view.now) store.new) }
{
    'up: while store.len() < view.len() as usize {
        store.enter(problem, view)?;
    }
    Ok(())
}

/// Leaves the entries from position `count` on.
fn keep_first(store: &mut Store, count: u32)
    requires some { 1 ≤ count }
    requires along { (problem : ProblemValue) × (bounds : BoundsOf) × (context : Context) × IsAlong problem bounds context store.old × (length context ≤ MAX_ENTRIES) }
    ensures along { (problem : ProblemValue) (bounds : BoundsOf) (context : Context) → IsAlong problem bounds context store.old → IsAlong problem bounds context store.new }
    ensures few { length store.new.frames ≤ count }
{
    'down: while store.len() > count as usize {
        store.leave();
    }
}

impl<'a, T: Trunk> KeptBranch<'a, T> {
    /// The branch, with the store of its pseudo-literal alone.
    pub(crate) fn new(search: &Search<'a>, branch: T) -> Result<Self, AllocError>
        requires valid { IsValid search.now.problem.now }
        requires bounds { IsLawful search.now.bounds.now }
        requires grown { IsGrown search.now.problem.now search.now.bounds.now (T.context branch) }
        ensures { IfOk result (λ kept. kept ≡ record { problem = search.now.problem.now; bounds = search.now.bounds.now; context = T.context branch }) }
    {
        let store = Store::new(search.alloc, search.problem, search.bounds)?;
        Ok(KeptBranch {
            search: *search,
            branch,
            store,
        })
    }

    /// The branch alone.
    pub(crate) fn trunk(&self) -> &T
        ensures { T.context result.now ≡ self.now.context }
    {
        &self.branch
    }

    /// What is done next at the branch's node.
    pub(crate) fn next(&mut self) -> Result<Next, AllocError>
        ensures same { self.new ≡ self.old }
        ensures next { IfOk result (λ next. IsNext self.old.problem self.old.bounds self.old.context (next_value next)) }
        ensures added { IfOk result (λ next. (e : EntryValue) → IsAddedBy (next_value next) e → MayBeAdded self.old.bounds self.old.context e) }
    {
        let _entries = self.branch.len();
        catch_up(self.search.problem, &self.branch, &mut self.store)?;
        self.store.next(self.search.alloc)
    }

    /// Puts an entry at the end.
    pub(crate) fn grow(&mut self, entry: Entry) -> Result<(), AllocError>
        requires literal { IsLiteralEntry entry }
        requires apart { ¬ Contradicts self.old.context entry.positive entry.kind entry.atom }
        requires room { length self.old.context < MAX_ENTRIES }
        ensures grown { OnOk result (self.new.context ≡ add self.old.context entry) }
        ensures same { HaveOneSearch self.old self.new }
    {
        extend(&mut self.branch, entry)
    }

    /// Takes the last entry off.
    fn shrink(&mut self)
        requires some { 1 < length self.old.context }
        ensures taken { (e : EntryValue) × (self.old.context ≡ add self.new.context e) }
        ensures same { HaveOneSearch self.old self.new }
    {
        let _entries = self.branch.len();
        self.branch.shrink();
        keep_first(&mut self.store, self.branch.len());
    }

    /// Goes back to the last left branch that begins at or behind position `base`, or tells that there is
    /// none and goes back to the base.
    pub(crate) fn back(&mut self, base: u32) -> bool
        requires base { (1 ≤ base) × (base ≤ length self.old.context) }
        ensures left { result ≡ true → IsBackAtLeft base self.old.context self.new.context }
        ensures none { result ≡ false → IsAllBack base self.old.context self.new.context }
        ensures same { HaveOneSearch self.old self.new }
    {
        let _entries = self.branch.len();
        let found = back(&mut self.branch, base);
        keep_first(&mut self.store, self.branch.len());
        found
    }

    /// Takes off the entries from position `base` on.
    pub(crate) fn shrink_to(&mut self, base: u32)
        requires base { (1 ≤ base) × (base ≤ length self.old.context) }
        ensures shrunk { (before later : Context) → self.old.context ≡ before ++ later → length before ≡ base → self.new.context ≡ before }
        ensures same { HaveOneSearch self.old self.new }
    {
        let _entries = self.branch.len();
        shrink_to(&mut self.branch, base);
        keep_first(&mut self.store, base);
    }

    /// Turns from the left branch that the last entry begins to the right one beside it.
    pub(crate) fn turn_right(&mut self) -> Result<(), AllocError>
        requires grown { IsGrown self.old.problem self.old.bounds self.old.context }
        requires left { EndsLeft self.old.context }
        ensures turned { OnOk result ((before : Context) (left : EntryValue) → self.old.context ≡ add before left → self.new.context ≡ add before (beside left)) }
        ensures same { HaveOneSearch self.old self.new }
    {
        let entry = beside_last(self.search.alloc, &self.branch)?;
        self.shrink();
        self.grow(entry)
    }
}

impl<'a, T: Trunk> View for KeptBranch<'a, T> {
    ghost context = { λ k. k.context };

    fn len(&self) -> u32 {
        self.branch.len()
    }

    fn entry(&self, k: u32) -> Option<&Entry> {
        self.branch.entry(k)
    }

    fn visible(&self, k: u32) -> bool {
        self.branch.visible(k)
    }
}
