//! Lists of closed leaves, within the list bound.
//!
//! Of a list that weighs more than the bound nothing is kept.
ghost use Rattle.std.specs.Prelude.{◌≡◌, ◌<◌, List, IfOk, IfErr, OnOk, OnErr};
ghost use Rattle.me_terms.specs.Validity.{IsLawful, IsValid};
ghost use Rattle.me_terms.specs.Values.{InstanceValue};
ghost use Rattle.me_terms.specs.FirstOccurrences.{joined};
ghost use Rattle.me_terms.specs.LeafList.{IsLeafList};
ghost use Rattle.me_terms.specs.Measures.{GREATEST_U64};
ghost use Rattle.me_terms.specs.Next.{Close, IsNext};
ghost use Rattle.branch_core.specs.Parts as part;
ghost use Rattle.branch_core.specs.Parts.{listed};
ghost use Rattle.branch_core.specs.PartViews.{listed_value};
ghost use Rattle.branch_core.specs.SearchTree.{EachOnce};
ghost use Rattle.ground_refutation.specs.Queue.{IsGrownOver};

use branch_core::Listed;
use ground_refutation::instances_of;
use instance_lists::{ListError, merge};
use me_terms::{Bounds, Instances, Problem, Tuple, View};
use std::alloc::{AllocError, Global};

/// The list of the leaf that the clause closes with the tuple.
pub(crate) fn leaf_listed<V: View>(
    alloc: Global,
    problem: &Problem,
    bounds: &Bounds,
    branch: &V,
    clause: u32,
    tuple: &Tuple,
) -> Result<Listed, AllocError>
    requires valid { IsValid problem.now }
    requires bounds { IsLawful bounds.now }
    requires grown { IsGrownOver problem.now (V.context branch.now) }
    requires closes { IsNext problem.now bounds.now (V.context branch.now) (Close clause tuple.now.items) }
    ensures { IfOk result (λ found. (list : List InstanceValue) → IsLeafList problem.now (V.context branch.now) clause tuple.now.items list → listed_value found ≡ listed bounds.now.list list) }
{
    match instances_of(alloc, problem, branch, clause, tuple, bounds.list) {
        Ok(list) => Ok(Listed::Whole { list }),
        Err(ListError::TooHeavy) => Ok(Listed::TooHeavy),
        Err(ListError::Memory) => Err(AllocError),
    }
}

/// Joins a list within the bound with the one that follows it. They are too heavy where they weigh more.
pub(crate) fn join_listed(
    alloc: Global,
    list: &mut Instances,
    more: Listed,
    list_bound: u64,
) -> Result<(), ListError>
    requires once { EachOnce list.old.items }
    requires bound { list_bound < GREATEST_U64 }
    ensures whole { OnOk result ((after : List InstanceValue) → EachOnce after → listed_value more ≡ listed list_bound after → part.Whole list.new.items ≡ listed list_bound (joined list.old.items after)) }
    ensures heavy { IfErr result (λ e. e ≡ ListError.TooHeavy → (after : List InstanceValue) → EachOnce after → listed_value more ≡ listed list_bound after → part.TooHeavy ≡ listed list_bound (joined list.old.items after)) }
    ensures err { OnErr result (list.new ≡ list.old) }
{
    match more {
        Listed::Whole { list: after } => merge(alloc, list, after, list_bound),
        Listed::TooHeavy => Err(ListError::TooHeavy),
    }
}
