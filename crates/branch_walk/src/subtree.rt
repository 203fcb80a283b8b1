//! The walk of a whole tree without gifts, leaf by leaf and without recursion.
//!
//! The entries of the branch tell what is left to do: beside each entry of a left branch stands a right
//! branch that was not gone yet.
ghost use Rattle.std.specs.Prelude.{◌≡◌, ◌≤◌, [], ℕ, List};
ghost use Rattle.me_terms.specs.Validity.{IsLawful, IsValid};
ghost use Rattle.me_terms.specs.Grown.{IsGrown};
ghost use Rattle.branch_core.specs.Hooks.{SameGifts};
ghost use Rattle.branch_core.specs.Pieces.{Piece};
ghost use Rattle.branch_walk.specs.Along.{IsOf};
ghost use Rattle.branch_walk.specs.Tallies.{IsTally, AddsAtMost, HasSpare, TakesOwnLeaf};
ghost use Rattle.branch_walk.specs.Walks.{IsReady, IsWalked};
ghost use Rattle.branch_walk.specs.declared.state.State.TheVariants.{Going};

use crate::job::Job;
use crate::kept::KeptBranch;
use crate::state::{State, Visit};
use crate::tally::Tally;
use crate::turning::Search;
use branch_core::Hook;
use me_terms::{Trunk, View};
use std::alloc::AllocError;

impl<'a> Search<'a> {
    /// Walks the tree of the branch's context. Where it was walked to the end, the branch is as before.
    pub(crate) fn subtree<T: Trunk, H: Hook<Job<T>>>(
        &self,
        branch: &mut KeptBranch<'a, T>,
        tally: &mut Tally,
        hook: &mut H,
    ) -> State
        requires valid { IsValid self.now.problem.now }
        requires bounds { IsLawful self.now.bounds.now }
        requires of { IsOf self.now.problem.now self.now.bounds.now branch.old }
        requires grown { IsGrown self.now.problem.now self.now.bounds.now branch.old.context }
        requires open { TakesOwnLeaf tally.old }
        requires kept { (before : List Piece) × IsTally self.now.bounds.now.list tally.old before }
        requires room { HasSpare 1 tally.old }
        ensures of { IsOf self.now.problem.now self.now.bounds.now branch.new }
        ensures walked { (share : ℕ) → IsWalked self.now.problem.now self.now.bounds.now share branch.old.context result (H.history hook.old) (H.history hook.new) tally.old tally.new }
        ensures ready { IsReady result tally.new }
        ensures stands { result ≡ Going → branch.new.context ≡ branch.old.context }
        ensures pushes { AddsAtMost 1 tally.old tally.new }
        ensures quiet { (H.history hook.new).told ≡ (H.history hook.old).told → AddsAtMost 0 tally.old tally.new }
        ensures condition { SameGifts (H.may_give hook.old) (H.may_give hook.new) }
    {
        let base = branch.len();
        'walk: loop {
            match self.visit(branch, tally, hook) {
                Visit::Asserted => {}
                Visit::Left => {}
                Visit::Leaf => {
                    if !branch.back(base) {
                        return State::Going;
                    }
                    match branch.turn_right() {
                        Ok(()) => {}
                        Err(AllocError) => {
                            tally.lose();
                            return State::Lost;
                        }
                    }
                }
                Visit::Exhausted { key } => return State::Cutting { key },
                Visit::Cut { key } => {
                    tally.cut(key);
                    return State::Cutting { key };
                }
                Visit::Lost => {
                    tally.lose();
                    return State::Lost;
                }
            }
        }
    }
}
