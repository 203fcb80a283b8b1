//! What a pool searches, and what it keeps of what the workers found.
//!
//! A pool is generic in it: what goes to other threads is shown without knowing what a problem is.
ghost use Rattle.std.specs.Prelude.{◌≡◌};
ghost use Rattle.me_terms.specs.Values.{ProblemValue};
ghost use Rattle.me_terms.specs.Validity.{IsLawful, IsValid};
ghost use Rattle.me_terms.specs.declared.bounds.Bounds.{Bounds as BoundsValue};
ghost use Rattle.branch_core.specs.Whole.{AreWholeRecords};
ghost use Rattle.darwin_solve.specs.ValidOnce.{valid_once};

use branch_core::Records;
use me_terms::{Bounds, Problem};
use steal_pool::Explored;

/// A valid problem and lawful bounds, which determine a search tree.
pub(crate) trait PoolSearch {
    /// What is kept of the workers' records.
    type Found;

    /// The problem.
    ghost problem_of: { Self → ProblemValue };

    /// The bounds.
    ghost bounds_of: { Self → BoundsValue };

    /// What whole records of the tree are kept as.
    ghost is_found: { Self → Self.Found → Type 0 };

    fn problem(&self) -> &Problem
        ensures { result.now ≡ problem_of self.now };

    fn bounds(&self) -> &Bounds
        ensures { result.now ≡ bounds_of self.now };

    /// What is kept.
    fn found(&self, explored: Explored) -> Self::Found
        requires { AreWholeRecords (problem_of self.now) (bounds_of self.now) explored.records.items }
        ensures { is_found self.now result };

    /// The problem is valid and the bounds are lawful.
    ghost lawful: { (search : Self) → IsValid (problem_of search) × IsLawful (bounds_of search) };
}

/// A problem within bounds, of whose exploration the records are kept.
#[derive(Drop)]
pub(crate) struct Exploration<'n> {
    pub(crate) problem: &'n Problem,
    pub(crate) bounds: &'n Bounds,
    ghost valid: { IsValid problem.now } by { valid_once problem.now },
    ghost lawful: { IsLawful bounds.now },
}

impl<'n> Exploration<'n> {
    ghost use Rattle.std.specs.Prelude.{◌≡◌};
    ghost use Rattle.me_terms.specs.Validity.{IsLawful, IsValid};

    pub(crate) fn new(problem: &'n Problem, bounds: &'n Bounds) -> Self
        requires valid { IsValid problem.now }
        requires bounds { IsLawful bounds.now }
        ensures problem { result.problem.now ≡ problem.now }
        ensures bounds { result.bounds.now ≡ bounds.now }
    {
        Exploration { problem, bounds }
    }
}

impl<'n> PoolSearch for Exploration<'n> {
    type Found = Records;

    ghost problem_of = { λ search. search.problem.now };

    ghost bounds_of = { λ search. search.bounds.now };

    ghost is_found = { λ search records. AreWholeRecords search.problem.now search.bounds.now records.items };

    fn problem(&self) -> &Problem {
        self.problem
    }

    fn bounds(&self) -> &Bounds {
        self.bounds
    }

    fn found(&self, explored: Explored) -> Records {
        explored.records
    }

    ghost lawful = { λ search. (search.valid, search.lawful) };
}
