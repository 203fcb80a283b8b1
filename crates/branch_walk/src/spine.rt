//! The walk near the path of a job, which gives right children away.
ghost use Rattle.std.specs.Prelude.{◌≡◌, ◌<◌, ◌≤◌, ◌+◌, ◌-◌, ◌*◌, ◌++◌, ◌∷◌, [], ℕ, true, false, List, length, IfOk, MatchOption};
ghost use Rattle.me_terms.specs.Validity.{IsLawful, IsValid};
ghost use Rattle.me_terms.specs.Context.{Context};
ghost use Rattle.me_terms.specs.Grown.{IsGrown};
ghost use Rattle.branch_core.specs.Hooks.{ExtendsBy, History, SameGifts};
ghost use Rattle.branch_core.specs.Paths.{Turns};
ghost use Rattle.branch_core.specs.Pieces.{Piece};
ghost use Rattle.branch_walk.specs.Jobs.{IsJob, turns_taken};
ghost use Rattle.branch_core.specs.Portions.{TakesGifts};
ghost use Rattle.branch_walk.specs.Along.{IsOf};
ghost use Rattle.branch_walk.specs.Tallies.{IsTally, AddsAtMost, HasSpare, TakesOwnLeaf};
ghost use Rattle.branch_walk.specs.Walks.{gift_if, HasWalkedLeft, IsBeside, IsLeftOfSplit, IsReady, IsWalked, LeadsTo};
ghost use Rattle.branch_walk.specs.declared.job.Job.{Job as JobOf};
ghost use Rattle.branch_walk.specs.declared.state.State.TheVariants.{Going};
ghost use Rattle.branch_walk.specs.declared.tally.Tally.{Tally as TallyOf};

use crate::job::Job;
use crate::kept::KeptBranch;
use crate::state::{State, Visit};
use crate::tally::Tally;
use crate::turning::Search;
use branch_core::{Give, Hook, Path};
use me_terms::{Trunk, View};
use std::alloc::AllocError;

/// The number of turns.
fn turn_count(path: Path) -> u8
    ensures { result ≡ length path }
{
    path.len
}

/// The path of the left child.
fn left_path(path: Path) -> Path
    requires { length path < 16 }
    ensures { result ≡ path ++ false ∷ [] }
{
    match path.left() {
        Some(left) => left,
        None => unreachable!(),
    }
}

/// The path of the right child.
fn right_path(path: Path) -> Path
    requires { length path < 16 }
    ensures { result ≡ path ++ true ∷ [] }
{
    match path.right() {
        Some(right) => right,
        None => unreachable!(),
    }
}

impl<'a> Search<'a> {
    /// Walks the tree of the branch's context, whose path it is, along a store of its own.
    pub(crate) fn walk<T: Trunk, H: Hook<Job<T>>>(
        &self,
        share: u32,
        path: Path,
        branch: T,
        tally: &mut Tally,
        hook: &mut H,
    ) -> State
        requires valid { IsValid self.now.problem.now }
        requires bounds { IsLawful self.now.bounds.now }
        requires share { share ≤ 16 }
        requires job { IsJob self.now.problem.now self.now.bounds.now path (T.context branch) }
        requires open { TakesOwnLeaf tally.old }
        requires kept { (before : List Piece) × IsTally self.now.bounds.now.list tally.old before }
        requires room { HasSpare (2 * (share - length path) + 1) tally.old }
        requires hook { TakesGifts share path (λ (work : JobOf T). work.path) (λ (gift : Turns) (work : JobOf T). IsJob self.now.problem.now self.now.bounds.now gift (T.context work.branch)) (H.may_give hook.old) }
        ensures walked { IsWalked self.now.problem.now self.now.bounds.now share (T.context branch) result (H.history hook.old) (H.history hook.new) tally.old tally.new }
        ensures ready { IsReady result tally.new }
        ensures pushes { AddsAtMost (2 * (share - length path) + 1) tally.old tally.new }
        ensures quiet { share ≤ length path → (H.history hook.new).told ≡ (H.history hook.old).told → AddsAtMost 0 tally.old tally.new }
        ensures condition { SameGifts (H.may_give hook.old) (H.may_give hook.new) }
    {
        match KeptBranch::new(self, branch) {
            Ok(mut kept) => self.spine(share, path, &mut kept, tally, hook),
            Err(AllocError) => {
                tally.lose();
                State::Lost
            }
        }
    }

    /// Walks the tree of the branch's context, whose path it is. The right children of nodes of fewer than
    /// `share` turns along left turns are given away.
    pub(crate) fn spine<T: Trunk, H: Hook<Job<T>>>(
        &self,
        share: u32,
        path: Path,
        branch: &mut KeptBranch<'a, T>,
        tally: &mut Tally,
        hook: &mut H,
    ) -> State
        requires valid { IsValid self.now.problem.now }
        requires bounds { IsLawful self.now.bounds.now }
        requires share { share ≤ 16 }
        requires of { IsOf self.now.problem.now self.now.bounds.now branch.old }
        requires job { IsJob self.now.problem.now self.now.bounds.now path branch.old.context }
        requires open { TakesOwnLeaf tally.old }
        requires kept { (before : List Piece) × IsTally self.now.bounds.now.list tally.old before }
        requires room { HasSpare (2 * (share - length path) + 1) tally.old }
        requires hook { TakesGifts share path (λ (work : JobOf T). work.path) (λ (gift : Turns) (work : JobOf T). IsJob self.now.problem.now self.now.bounds.now gift (T.context work.branch)) (H.may_give hook.old) }
        ensures of { IsOf self.now.problem.now self.now.bounds.now branch.new }
        ensures walked { IsWalked self.now.problem.now self.now.bounds.now share branch.old.context result (H.history hook.old) (H.history hook.new) tally.old tally.new }
        ensures ready { IsReady result tally.new }
        ensures stands { result ≡ Going → (later : Context) × (branch.new.context ≡ branch.old.context ++ later) }
        ensures pushes { AddsAtMost (2 * (share - length path) + 1) tally.old tally.new }
        ensures quiet { share ≤ length path → (H.history hook.new).told ≡ (H.history hook.old).told → AddsAtMost 0 tally.old tally.new }
        ensures condition { SameGifts (H.may_give hook.old) (H.may_give hook.new) }
    {
        if u32::from(turn_count(path)) >= share {
            return self.subtree(branch, tally, hook);
        }
        if let Some(state) = self.to_split(branch, tally, hook) {
            return state;
        }
        let left = left_path(path);
        let right = right_path(path);
        let base = branch.len();
        let away = self.give_right(right, branch.trunk(), hook);
        let state = self.spine(share, left, branch, tally, hook);
        self.after_left(away, state, right, base, branch, tally, hook)
    }

    /// Goes down by Asserts to a Split and enters its left branch, or tells how the walk ended before.
    fn to_split<T: Trunk, H: Hook<Job<T>>>(
        &self,
        branch: &mut KeptBranch<'a, T>,
        tally: &mut Tally,
        hook: &mut H,
    ) -> Option<State>
        requires valid { IsValid self.now.problem.now }
        requires bounds { IsLawful self.now.bounds.now }
        requires of { IsOf self.now.problem.now self.now.bounds.now branch.old }
        requires grown { IsGrown self.now.problem.now self.now.bounds.now branch.old.context }
        requires open { TakesOwnLeaf tally.old }
        requires kept { (before : List Piece) × IsTally self.now.bounds.now.list tally.old before }
        requires room { HasSpare 1 tally.old }
        ensures of { IsOf self.now.problem.now self.now.bounds.now branch.new }
        ensures ended { MatchOption result ((told : List ℕ) × (node : Context) × ExtendsBy (H.history hook.old) (H.history hook.new) [] told [] × LeadsTo self.now.problem.now self.now.bounds.now branch.old.context node × IsLeftOfSplit self.now.problem.now self.now.bounds.now node branch.new.context × (tally.new ≡ tally.old) × ((later : Context) × (node ≡ branch.old.context ++ later))) (λ state. ((share : ℕ) → IsWalked self.now.problem.now self.now.bounds.now share branch.old.context state (H.history hook.old) (H.history hook.new) tally.old tally.new) × IsReady state tally.new × (state ≡ Going → (later : Context) × (branch.new.context ≡ branch.old.context ++ later))) }
        ensures pushes { AddsAtMost 1 tally.old tally.new }
        ensures condition { SameGifts (H.may_give hook.old) (H.may_give hook.new) }
    {
        'down: loop {
            match self.visit(branch, tally, hook) {
                Visit::Asserted => {}
                Visit::Left => return None,
                Visit::Leaf => return Some(State::Going),
                Visit::Exhausted { key } => return Some(State::Cutting { key }),
                Visit::Cut { key } => {
                    tally.cut(key);
                    return Some(State::Cutting { key });
                }
                Visit::Lost => {
                    tally.lose();
                    return Some(State::Lost);
                }
            }
        }
    }

    /// Gives away the right branch beside the left one that the last entry begins; tells whether it went.
    fn give_right<T: Trunk, H: Hook<Job<T>>>(&self, right: Path, branch: &T, hook: &mut H) -> bool
        requires bounds { IsLawful self.now.bounds.now }
        requires beside { IsBeside self.now.problem.now self.now.bounds.now right (T.context branch.now) }
        requires hook { (work : JobOf T) → IsJob self.now.problem.now self.now.bounds.now right (T.context work.branch) → work.path ≡ right → H.may_give hook.old right work }
        ensures went { ExtendsBy (H.history hook.old) (H.history hook.new) (gift_if result right) [] [] }
        ensures condition { SameGifts (H.may_give hook.old) (H.may_give hook.new) }
    {
        match self.right_job(right, branch) {
            Ok(job) => matches!(&hook.give(right, job), Give::Away),
            Err(AllocError) => false,
        }
    }

    /// The job of the right branch beside the left one that the last entry begins.
    fn right_job<T: Trunk>(&self, right: Path, branch: &T) -> Result<Job<T>, AllocError>
        requires bounds { IsLawful self.now.bounds.now }
        requires beside { IsBeside self.now.problem.now self.now.bounds.now right (T.context branch.now) }
        ensures { IfOk result (λ job. IsJob self.now.problem.now self.now.bounds.now right (T.context job.branch) × (job.path ≡ right)) }
    {
        let mut branch = branch.again(self.alloc)?;
        self.turn_right(&mut branch)?;
        Ok(Job {
            path: right,
            branch,
        })
    }

    /// After the walk of a left branch that ended in the state: notes the right child that was given away,
    /// or walks it, or leaves it out.
    fn after_left<T: Trunk, H: Hook<Job<T>>>(
        &self,
        away: bool,
        state: State,
        right: Path,
        base: u32,
        branch: &mut KeptBranch<'a, T>,
        tally: &mut Tally,
        hook: &mut H,
    ) -> State
        requires valid { IsValid self.now.problem.now }
        requires bounds { IsLawful self.now.bounds.now }
        requires of { IsOf self.now.problem.now self.now.bounds.now branch.old }
        requires ready { IsReady state tally.old }
        requires kept { (before : List Piece) × IsTally self.now.bounds.now.list tally.old before }
        requires room { HasSpare 2 tally.old }
        requires left { (share : ℕ) × (node : Context) × (start : History) × (first : TallyOf) × HasWalkedLeft self.now.problem.now self.now.bounds.now share away right base state branch.old.context node start (H.history hook.old) first tally.old }
        ensures of { IsOf self.now.problem.now self.now.bounds.now branch.new }
        ensures walked { (share : ℕ) (node : Context) (start : History) (first : TallyOf) → HasWalkedLeft self.now.problem.now self.now.bounds.now share away right base state branch.old.context node start (H.history hook.old) first tally.old → IsWalked self.now.problem.now self.now.bounds.now share node result start (H.history hook.new) first tally.new × (result ≡ Going → (later : Context) × (branch.new.context ≡ node ++ later)) }
        ensures ready { IsReady result tally.new }
        ensures pushes { AddsAtMost 2 tally.old tally.new }
        ensures condition { SameGifts (H.may_give hook.old) (H.may_give hook.new) }
    {
        if away {
            tally.give(right);
            return state;
        }
        match state {
            State::Going => {
                branch.shrink_to(base);
                match branch.turn_right() {
                    Ok(()) => self.subtree(branch, tally, hook),
                    Err(AllocError) => {
                        tally.lose();
                        State::Lost
                    }
                }
            }
            State::Cutting { key } => {
                tally.cut(key);
                State::Cutting { key }
            }
            State::Lost => {
                tally.lose();
                State::Lost
            }
        }
    }
}
