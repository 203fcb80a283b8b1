//! The answer to a problem, by a pool of workers.
ghost use Rattle.std.specs.Prelude.{◌≡◌, ◌≤◌, IfOk};
ghost use Rattle.me_terms.specs.Validity.{IsLawful, IsValid};
ghost use Rattle.me_terms.specs.Answer.{HasAnswer};
ghost use Rattle.me_terms.specs.AnswerViews.{answer_value};
ghost use Rattle.me_laws_counting.specs.FunctionFree.{IsFunctionFree, IsRoomy};
ghost use Rattle.branch_core.specs.Whole.{AreWholeRecords};
ghost use Rattle.darwin_solve.specs.Evidence.{HasModel, HasRefutation, IsOverProblem, MeetsOnlyList};

use crate::exploration::{Exploration, PoolSearch};
use crate::explorer::Explorer;
use branch_core::{Records, assemble};
use branch_roots::{LentNodes, Roots};
use context_nodes::Nodes;
use me_terms::{Answer, Bounds, Problem};
use std::alloc::{AllocError, Global};
use std::sync::Wait;
use std::thread::Threads;
use steal_pool::{Gate, explore_all};

/// The answer to a valid problem within lawful bounds, found by 1 to 64 workers, each in a thread of its own
/// where one can be made.
///
/// It is that of `solve_alone`, with all that comes with it, whatever the number of workers, the share, the
/// gate and the order in which the workers' steps fall.
pub fn solve_pool<R: Threads + Wait + Sync, G: Gate>(
    rt: &R,
    alloc: Global,
    problem: &Problem,
    bounds: &Bounds,
    workers: u32,
    share: u32,
    gate: &G,
) -> Result<Answer, AllocError>
    requires valid { IsValid problem.now }
    requires bounds { IsLawful bounds.now }
    requires workers { (1 ≤ workers) × (workers ≤ 64) }
    requires share { share ≤ 16 }
    ensures answer { IfOk result (λ answer. HasAnswer problem.now bounds.now (answer_value answer)) }
    ensures refuted { IfOk result (λ answer. HasRefutation problem.now bounds.now (answer_value answer)) }
    ensures model { IfOk result (λ answer. HasModel problem.now (answer_value answer)) }
    ensures function_free { IfOk result (λ answer. IsFunctionFree problem.now → IsRoomy problem.now bounds.now → MeetsOnlyList (answer_value answer)) }
    ensures printable { IfOk result (λ answer. IsOverProblem problem.now (answer_value answer)) }
{
    let records = explore_pool(rt, alloc, problem, bounds, workers, share, gate)?;
    assemble(alloc, &records, bounds.list)
}

/// The records of the workers of `solve_pool`, which are whole over the problem's search tree.
///
/// Which records there are depends on the schedule. What is assembled of them does not.
pub fn explore_pool<R: Threads + Wait + Sync, G: Gate>(
    rt: &R,
    alloc: Global,
    problem: &Problem,
    bounds: &Bounds,
    workers: u32,
    share: u32,
    gate: &G,
) -> Result<Records, AllocError>
    requires valid { IsValid problem.now }
    requires bounds { IsLawful bounds.now }
    requires workers { (1 ≤ workers) × (workers ≤ 64) }
    requires share { share ≤ 16 }
    ensures whole { IfOk result (λ records. AreWholeRecords problem.now bounds.now records.items) }
{
    let nodes = Nodes::new(alloc)?;
    let search = Exploration::new(problem, bounds);
    explore_nodes(rt, alloc, workers, share, &nodes, &search, gate)
}

/// Explores the whole tree by branches over the table.
fn explore_nodes<R: Threads + Wait + Sync, S: PoolSearch, G: Gate>(
    rt: &R,
    alloc: Global,
    workers: u32,
    share: u32,
    nodes: &Nodes,
    search: &S,
    gate: &G,
) -> Result<S::Found, AllocError>
    requires workers { (1 ≤ workers) × (workers ≤ 64) }
    requires share { share ≤ 16 }
    ensures { IfOk result (S.is_found search.now) }
{
    let roots = LentNodes::new(rt, nodes);
    explore(rt, alloc, workers, share, &roots, search, gate)
}

/// Explores the whole tree by branches that begin at these roots.
fn explore<R: Threads + Wait + Sync, N: Roots, S: PoolSearch, G: Gate>(
    rt: &R,
    alloc: Global,
    workers: u32,
    share: u32,
    roots: &N,
    search: &S,
    gate: &G,
) -> Result<S::Found, AllocError>
    requires workers { (1 ≤ workers) × (workers ≤ 64) }
    requires share { share ≤ 16 }
    ensures { IfOk result (S.is_found search.now) }
{
    let explorer = Explorer::new(roots, search.problem(), search.bounds(), share);
    let explored = explore_all(rt, alloc, workers, share, &explorer, gate)?;
    Ok(search.found(explored))
}
