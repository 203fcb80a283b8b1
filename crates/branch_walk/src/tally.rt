//! What a walk has found so far, from left to right.
//!
//! What follows is joined to the last part where it may be, so a tally has few parts. A contract says to
//! which leaves and replaced subtrees the parts come.
ghost use Rattle.std.specs.Prelude.{◌≡◌, ◌+◌, ◌≤◌, ℕ, false, [], ◌∷◌, ◌++◌, List, map, length, None, OnOk, OnErr};
ghost use Rattle.me_terms.specs.Validity.{IsLawful, IsValid};
ghost use Rattle.me_terms.specs.Values.{InstanceValue};
ghost use Rattle.me_terms.specs.LeafList.{IsLeafList};
ghost use Rattle.me_terms.specs.Next.{Close, IsNext};
ghost use Rattle.branch_core.specs.Paths.{Turns};
ghost use Rattle.branch_core.specs.Pieces.{Piece};
ghost use Rattle.branch_core.specs.Pieces as piece;
ghost use Rattle.branch_core.specs.Joined.{Joined};
ghost use Rattle.branch_core.specs.Parts as value;
ghost use Rattle.branch_core.specs.PartViews.{part_value};
ghost use Rattle.branch_core.specs.StandsFor.{part_of};
ghost use Rattle.ground_refutation.specs.Queue.{IsGrownOver};
ghost use Rattle.branch_walk.specs.Tallies.{IsTally, HasSpare, AddsAtMost, TakesOwnLeaf, TakesCut, TakesLoss, IsSated, AllStandApart, EndsApart, AllowsCut, cuts, losses, is_bounded, is_sat, is_sat_or_cut};

use crate::entries::entries_of;
use crate::listing::{join_listed, leaf_listed};
use branch_core::{Listed, Part, Parts, Path};
use instance_lists::ListError;
use me_terms::{Bound, Bounds, Problem, Tuple, View};
use std::alloc::{AllocError, Global};

/// What was found so far.
#[derive(Drop)]
pub(crate) struct Tally {
    /// The parts before the last one, to which nothing is joined any more.
    pub(crate) parts: Parts,
    /// The last part. There is none at the start and behind a gift.
    pub(crate) last: Option<Part>,
}

impl Tally {
    /// Nothing is found yet.
    pub(crate) fn new(room: Parts) -> Self
        requires { room.items ≡ [] }
        ensures tally { (list_bound : ℕ) → IsTally list_bound result [] }
        ensures open { TakesOwnLeaf result }
        ensures parts { result.parts ≡ room }
    {
        Tally {
            parts: room,
            last: None,
        }
    }

    /// With a leaf more, at which a bound is met.
    pub(crate) fn add_bound(&mut self, bound: Bound)
        requires { TakesOwnLeaf self.old }
        ensures tally { (list_bound : ℕ) (leaves : List Piece) → IsTally list_bound self.old leaves → IsTally list_bound self.new (leaves ++ piece.Bounded bound ∷ []) }
        ensures open { TakesOwnLeaf self.new }
        ensures pushes { AddsAtMost 0 self.old self.new }
    {
        if self.is_met() {
            return;
        }
        self.last = Some(Part::Bounded { bound });
    }

    /// With a leaf more, which the clause closes with the tuple. Its list is made only where it counts.
    pub(crate) fn add_closed<V: View>(
        &mut self,
        alloc: Global,
        problem: &Problem,
        bounds: &Bounds,
        branch: &V,
        clause: u32,
        tuple: &Tuple,
    ) -> Result<(), AllocError>
        requires valid { IsValid problem.now }
        requires bounds { IsLawful bounds.now }
        requires grown { IsGrownOver problem.now (V.context branch.now) }
        requires closes { IsNext problem.now bounds.now (V.context branch.now) (Close clause tuple.now.items) }
        requires open { TakesOwnLeaf self.old }
        requires kept { (leaves : List Piece) × IsTally bounds.now.list self.old leaves }
        ensures tally { OnOk result ((leaves : List Piece) (list : List InstanceValue) → IsTally bounds.now.list self.old leaves → IsLeafList problem.now (V.context branch.now) clause tuple.now.items list → IsTally bounds.now.list self.new (leaves ++ piece.Closed list ∷ [])) }
        ensures open { TakesOwnLeaf self.new }
        ensures pushes { AddsAtMost 0 self.old self.new }
        ensures err { OnErr result (self.new ≡ self.old) }
    {
        match &mut self.last {
            None => {
                let listed = leaf_listed(alloc, problem, bounds, branch, clause, tuple)?;
                self.last = Some(Part::Closed { listed });
                Ok(())
            }
            Some(
                Part::Closed {
                    listed: Listed::Whole { list },
                },
            ) => {
                let more = leaf_listed(alloc, problem, bounds, branch, clause, tuple)?;
                match join_listed(alloc, list, more, bounds.list) {
                    Ok(()) => Ok(()),
                    Err(ListError::TooHeavy) => {
                        self.last = Some(Part::Closed {
                            listed: Listed::TooHeavy,
                        });
                        Ok(())
                    }
                    Err(ListError::Memory) => Err(AllocError),
                }
            }
            Some(
                Part::Closed {
                    listed: Listed::TooHeavy,
                },
            ) => Ok(()),
            Some(Part::Bounded { .. }) => Ok(()),
            Some(Part::Sat { .. } | Part::Gift { .. } | Part::Cut { .. } | Part::NoMemory) => {
                unreachable!()
            }
        }
    }

    /// With an exhausted leaf more.
    pub(crate) fn add_sat<V: View>(&mut self, alloc: Global, branch: &V) -> Result<(), AllocError>
        requires { TakesOwnLeaf self.old }
        ensures tally { OnOk result ((list_bound : ℕ) (leaves : List Piece) (turns : Turns) → IsTally list_bound self.old leaves → IsTally list_bound self.new (leaves ++ piece.Sat turns (V.context branch.now) ∷ [])) }
        ensures sated { OnOk result (IsSated self.new) }
        ensures pushes { AddsAtMost 0 self.old self.new }
        ensures err { OnErr result (self.new ≡ self.old) }
    {
        let context = entries_of(alloc, branch)?;
        self.last = Some(Part::Sat { context });
        Ok(())
    }

    /// With one or more neighbouring nodes that are cut.
    pub(crate) fn cut(&mut self, key: u16)
        requires takes { TakesCut key self.old }
        requires room { HasSpare 1 self.old }
        ensures tally { (list_bound : ℕ) (leaves : List Piece) (turns : Turns) (later : List Turns) → IsTally list_bound self.old leaves → IsTally list_bound self.new (leaves ++ cuts key (turns ∷ later)) }
        ensures takes { TakesCut key self.new }
        ensures pushes { AddsAtMost 1 self.old self.new }
    {
        if self.takes_in_cuts() {
            return;
        }
        self.settle();
        self.last = Some(Part::Cut { key });
    }

    /// With one or more neighbouring nodes that are lost for want of memory.
    pub(crate) fn lose(&mut self)
        requires { TakesLoss self.old }
        ensures tally { (list_bound : ℕ) (leaves : List Piece) (turns : Turns) (later : List Turns) → IsTally list_bound self.old leaves → IsTally list_bound self.new (leaves ++ losses (turns ∷ later)) }
        ensures takes { TakesLoss self.new }
        ensures pushes { AddsAtMost 0 self.old self.new }
    {
        if self.is_sated() {
            return;
        }
        self.last = Some(Part::NoMemory);
    }

    /// With a node that was given away.
    pub(crate) fn give(&mut self, path: Path)
        requires room { HasSpare 2 self.old }
        ensures tally { (list_bound : ℕ) (leaves : List Piece) → IsTally list_bound self.old leaves → IsTally list_bound self.new (leaves ++ piece.Gift path ∷ []) }
        ensures open { TakesOwnLeaf self.new }
        ensures pushes { AddsAtMost 2 self.old self.new }
    {
        self.settle();
        let _ = self.parts.push(Part::Gift { path });
    }

    /// All the parts.
    pub(crate) fn finish(mut self) -> Parts
        requires room { HasSpare 1 self }
        ensures pieces { (list_bound : ℕ) (leaves : List Piece) → IsTally list_bound self leaves → (pieces : List Piece) × Joined leaves pieces × (map part_value result.items ≡ map (part_of list_bound) pieces) × AllStandApart (map part_value result.items) }
        ensures few { length result.items ≤ length self.parts.items + 1 }
    {
        self.settle();
        self.parts
    }

    /// Whether the last part is a bound that was met.
    fn is_met(&self) -> bool
        ensures { result ≡ is_bounded self.now.last }
    {
        match &self.last {
            Some(Part::Bounded { .. }) => true,
            None
            | Some(
                Part::Closed { .. }
                | Part::Sat { .. }
                | Part::Gift { .. }
                | Part::Cut { .. }
                | Part::NoMemory,
            ) => false,
        }
    }

    /// Whether the last part is that of an exhausted leaf.
    fn is_sated(&self) -> bool
        ensures { result ≡ is_sat self.now.last }
    {
        match &self.last {
            Some(Part::Sat { .. }) => true,
            None
            | Some(
                Part::Closed { .. }
                | Part::Bounded { .. }
                | Part::Gift { .. }
                | Part::Cut { .. }
                | Part::NoMemory,
            ) => false,
        }
    }

    /// Whether Cuts can be joined to the last part.
    fn takes_in_cuts(&self) -> bool
        ensures { result ≡ is_sat_or_cut self.now.last }
    {
        match &self.last {
            Some(Part::Sat { .. } | Part::Cut { .. }) => true,
            None
            | Some(
                Part::Closed { .. } | Part::Bounded { .. } | Part::Gift { .. } | Part::NoMemory,
            ) => false,
        }
    }

    /// Puts the last part behind those to which nothing is joined any more.
    fn settle(&mut self)
        requires room { HasSpare 1 self.old }
        ensures pieces { (list_bound : ℕ) (leaves : List Piece) → IsTally list_bound self.old leaves → (pieces : List Piece) × Joined leaves pieces × (map part_value self.new.parts.items ≡ map (part_of list_bound) pieces) × AllStandApart (map part_value self.new.parts.items) }
        ensures cut { (key : ℕ) → EndsApart (map part_value self.old.parts.items) self.old.last → AllowsCut key self.old.last → is_sat_or_cut self.old.last ≡ false → AllStandApart (map part_value self.new.parts.items ++ value.Cut key ∷ []) }
        ensures none { self.new.last ≡ None }
        ensures pushes { AddsAtMost 1 self.old self.new }
    {
        if let Some(part) = self.last.take() {
            let _ = self.parts.push(part);
        }
    }
}
