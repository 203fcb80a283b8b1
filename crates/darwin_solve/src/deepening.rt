//! The answer with iterative deepening.
//!
//! The bounds of depth are tried one after another, and the first that is not met decides.
ghost use Rattle.std.specs.Prelude.{◌≡◌, ◌↔◌, ◌<◌, ◌≤◌, ◌+◌, IfOk, IfSome, IsSome, IsTrue};
ghost use Rattle.me_terms.specs.Validity.{IsLawful, IsValid};
ghost use Rattle.me_terms.specs.Answer.{GaveUp};
ghost use Rattle.me_terms.specs.AnswerViews.{answer_value};
ghost use Rattle.me_terms.specs.Deepening.{HasAnswerFrom, at_depth};
ghost use Rattle.me_terms.specs.declared.bounds.Bound.TheVariants as bound;
ghost use Rattle.me_laws_counting.specs.FunctionFree.{IsFunctionFree, IsRoomy};
ghost use Rattle.darwin_solve.specs.Evidence.{HasModel, HasRefutation, IsOverProblem, MeetsOnlyList};

use crate::pool::solve_pool;
use crate::solve::solve_alone;
use me_terms::{Answer, Bound, Bounds, Problem};
use std::alloc::{AllocError, Global};
use std::sync::Wait;
use std::thread::Threads;
use steal_pool::Gate;

/// The depth to try after this one: one more, exactly where the answer is that the bound of depth was met
/// and this depth is less than the last.
pub fn next_depth(answer: &Answer, depth: u32, last: u32) -> Option<u32>
    ensures deeper { IfSome result (λ deeper. deeper ≡ depth + 1) }
    ensures exactly { IsSome result ↔ ((answer_value answer.now ≡ GaveUp bound.Depth) × (depth < last)) }
{
    if has_met_depth(answer) && depth < last {
        Some(depth + 1)
    } else {
        None
    }
}

/// The answer to a valid problem within lawful bounds, found on this thread with each depth from `from` on
/// in turn, up to that of the bounds.
///
/// What comes with it is what comes with the answer of `solve_alone`.
pub fn deepen_alone(
    alloc: Global,
    problem: &Problem,
    bounds: &Bounds,
    from: u32,
) -> Result<Answer, AllocError>
    requires valid { IsValid problem.now }
    requires bounds { IsLawful bounds.now }
    requires from { (1 ≤ from) × (from ≤ bounds.now.depth) }
    ensures answer { IfOk result (λ answer. HasAnswerFrom problem.now bounds.now from (answer_value answer)) }
    ensures refuted { IfOk result (λ answer. HasRefutation problem.now bounds.now (answer_value answer)) }
    ensures model { IfOk result (λ answer. HasModel problem.now (answer_value answer)) }
    ensures function_free { IfOk result (λ answer. IsFunctionFree problem.now → IsRoomy problem.now bounds.now → MeetsOnlyList (answer_value answer)) }
    ensures printable { IfOk result (λ answer. IsOverProblem problem.now (answer_value answer)) }
{
    let mut depth = from;
    'deepen: loop {
        let answer = solve_alone(alloc, problem, &with_depth(bounds, depth))?;
        match next_depth(&answer, depth, bounds.depth) {
            Some(deeper) => depth = deeper,
            None => return Ok(answer),
        }
    }
}

/// The answer of `deepen_alone`, found with each depth by 1 to 64 workers with a share of at most 16.
pub fn deepen_pool<R: Threads + Wait + Sync, G: Gate>(
    rt: &R,
    alloc: Global,
    problem: &Problem,
    bounds: &Bounds,
    from: u32,
    workers: u32,
    share: u32,
    gate: &G,
) -> Result<Answer, AllocError>
    requires valid { IsValid problem.now }
    requires bounds { IsLawful bounds.now }
    requires from { (1 ≤ from) × (from ≤ bounds.now.depth) }
    requires workers { (1 ≤ workers) × (workers ≤ 64) }
    requires share { share ≤ 16 }
    ensures answer { IfOk result (λ answer. HasAnswerFrom problem.now bounds.now from (answer_value answer)) }
    ensures refuted { IfOk result (λ answer. HasRefutation problem.now bounds.now (answer_value answer)) }
    ensures model { IfOk result (λ answer. HasModel problem.now (answer_value answer)) }
    ensures function_free { IfOk result (λ answer. IsFunctionFree problem.now → IsRoomy problem.now bounds.now → MeetsOnlyList (answer_value answer)) }
    ensures printable { IfOk result (λ answer. IsOverProblem problem.now (answer_value answer)) }
{
    let mut depth = from;
    'deepen: loop {
        let deep = with_depth(bounds, depth);
        let answer = solve_pool(rt, alloc, problem, &deep, workers, share, gate)?;
        match next_depth(&answer, depth, bounds.depth) {
            Some(deeper) => depth = deeper,
            None => return Ok(answer),
        }
    }
}

/// Whether the answer is that the bound of depth was met.
fn has_met_depth(answer: &Answer) -> bool
    ensures { IsTrue result ↔ (answer_value answer.now ≡ GaveUp bound.Depth) }
{
    matches!(
        answer,
        Answer::GaveUp {
            bound: Bound::Depth
        }
    )
}

/// The bounds, with another depth.
fn with_depth(bounds: &Bounds, depth: u32) -> Bounds
    ensures { result ≡ at_depth bounds.now depth }
{
    Bounds { depth, ..*bounds }
}
