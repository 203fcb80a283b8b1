//! The visit of a node: what is done next there.
ghost use Rattle.std.specs.Prelude.{◌≡◌, ◌<◌, ◌≤◌, [], ℕ, List, OnOk};
ghost use Rattle.me_terms.specs.AnswerViews.{next_value};
ghost use Rattle.me_terms.specs.Values.{EntryValue};
ghost use Rattle.me_terms.specs.Validity.{IsLawful, IsValid};
ghost use Rattle.me_terms.specs.Grown.{IsGrown};
ghost use Rattle.me_terms.specs.Next.{IsNext, Exhausted};
ghost use Rattle.next_rule.specs.NextLaws.{IsAddedBy, MayBeAdded};
ghost use Rattle.branch_core.specs.Hooks.{ExtendsBy, SameGifts};
ghost use Rattle.branch_core.specs.Pieces.{Piece};
ghost use Rattle.branch_walk.specs.Along.{IsOf};
ghost use Rattle.branch_walk.specs.Tallies.{IsTally, AddsAtMost, TakesOwnLeaf};
ghost use Rattle.branch_walk.specs.Walks.{IsVisited};

use crate::job::Job;
use crate::kept::KeptBranch;
use crate::keys::{node_key, told_cut};
use crate::state::Visit;
use crate::tally::Tally;
use crate::turning::{Search, left_entry};
use branch_core::Hook;
use me_terms::{Next, Trunk, View};
use std::alloc::AllocError;

impl<'a> Search<'a> {
    /// Does what is next at the branch's node, unless a smaller key than the node's was told.
    pub(crate) fn visit<T: Trunk, H: Hook<Job<T>>>(
        &self,
        branch: &mut KeptBranch<'a, T>,
        tally: &mut Tally,
        hook: &mut H,
    ) -> Visit
        requires valid { IsValid self.now.problem.now }
        requires bounds { IsLawful self.now.bounds.now }
        requires of { IsOf self.now.problem.now self.now.bounds.now branch.old }
        requires grown { IsGrown self.now.problem.now self.now.bounds.now branch.old.context }
        requires open { TakesOwnLeaf tally.old }
        requires kept { (before : List Piece) × IsTally self.now.bounds.now.list tally.old before }
        ensures of { IsOf self.now.problem.now self.now.bounds.now branch.new }
        ensures visited { (told sent : List ℕ) × ExtendsBy (H.history hook.old) (H.history hook.new) [] told sent × IsVisited self.now.problem.now self.now.bounds.now branch.old.context branch.new.context tally.old tally.new told sent result }
        ensures pushes { AddsAtMost 0 tally.old tally.new }
        ensures condition { SameGifts (H.may_give hook.old) (H.may_give hook.new) }
    {
        if let Some(key) = told_cut(branch, hook) {
            return Visit::Cut { key };
        }
        match branch.next() {
            Ok(next) => self.enter(next, branch, tally, hook),
            Err(AllocError) => Visit::Lost,
        }
    }

    /// Does the next step.
    fn enter<T: Trunk, H: Hook<Job<T>>>(
        &self,
        next: Next,
        branch: &mut KeptBranch<'a, T>,
        tally: &mut Tally,
        hook: &mut H,
    ) -> Visit
        requires valid { IsValid self.now.problem.now }
        requires bounds { IsLawful self.now.bounds.now }
        requires of { IsOf self.now.problem.now self.now.bounds.now branch.old }
        requires grown { IsGrown self.now.problem.now self.now.bounds.now branch.old.context }
        requires open { TakesOwnLeaf tally.old }
        requires kept { (before : List Piece) × IsTally self.now.bounds.now.list tally.old before }
        requires next { IsNext self.now.problem.now self.now.bounds.now branch.old.context (next_value next) }
        requires added { (e : EntryValue) → IsAddedBy (next_value next) e → MayBeAdded self.now.bounds.now branch.old.context e }
        ensures of { IsOf self.now.problem.now self.now.bounds.now branch.new }
        ensures visited { (sent : List ℕ) × ExtendsBy (H.history hook.old) (H.history hook.new) [] [] sent × ((told : List ℕ) → IsVisited self.now.problem.now self.now.bounds.now branch.old.context branch.new.context tally.old tally.new told sent result) }
        ensures pushes { AddsAtMost 0 tally.old tally.new }
        ensures condition { SameGifts (H.may_give hook.old) (H.may_give hook.new) }
    {
        match next {
            Next::Assert { entry } => match branch.grow(entry) {
                Ok(()) => Visit::Asserted,
                Err(AllocError) => Visit::Lost,
            },
            Next::Split { literal, kind } => match branch.grow(left_entry(literal, kind)) {
                Ok(()) => Visit::Left,
                Err(AllocError) => Visit::Lost,
            },
            Next::Close { clause, tuple } => {
                match tally.add_closed(
                    self.alloc,
                    self.problem,
                    self.bounds,
                    branch,
                    clause,
                    &tuple,
                ) {
                    Ok(()) => Visit::Leaf,
                    Err(AllocError) => Visit::Lost,
                }
            }
            Next::Bounded { bound } => {
                tally.add_bound(bound);
                Visit::Leaf
            }
            Next::Exhausted => self.exhausted(branch, tally, hook),
        }
    }

    /// Adds the branch's context, at which nothing is left to do, and posts its key.
    fn exhausted<V: View, J, H: Hook<J>>(
        &self,
        branch: &V,
        tally: &mut Tally,
        hook: &mut H,
    ) -> Visit
        requires open { TakesOwnLeaf tally.old }
        requires next { IsNext self.now.problem.now self.now.bounds.now (V.context branch.now) Exhausted }
        ensures visited { (sent : List ℕ) × ExtendsBy (H.history hook.old) (H.history hook.new) [] [] sent × ((told : List ℕ) → IsVisited self.now.problem.now self.now.bounds.now (V.context branch.now) (V.context branch.now) tally.old tally.new told sent result) }
        ensures pushes { AddsAtMost 0 tally.old tally.new }
        ensures condition { SameGifts (H.may_give hook.old) (H.may_give hook.new) }
    {
        match tally.add_sat(self.alloc, branch) {
            Ok(()) => {
                let key = node_key(branch);
                hook.post(key);
                Visit::Exhausted { key }
            }
            Err(AllocError) => Visit::Lost,
        }
    }
}
