//! The answer to a problem.
ghost use Rattle.std.specs.Prelude.{IfOk};
ghost use Rattle.me_terms.specs.Validity.{IsLawful, IsValid};
ghost use Rattle.me_terms.specs.Answer.{HasAnswer};
ghost use Rattle.me_terms.specs.AnswerViews.{answer_value};
ghost use Rattle.me_laws_counting.specs.FunctionFree.{IsFunctionFree, IsRoomy};
ghost use Rattle.darwin_solve.specs.Evidence.{HasModel, HasRefutation, IsOverProblem, MeetsOnlyList};

use branch_core::{Records, assemble};
use branch_walk::walk_alone;
use me_terms::{Answer, Bounds, Problem};
use std::alloc::{AllocError, Global};

/// The answer to a valid problem within lawful bounds, found on this thread.
///
/// With Unsatisfiable comes a list of ground instances of the problem's clauses that no choice of truth
/// values makes true, and that weighs no more than the list bound. With Satisfiable comes a context that is
/// a model of every clause. Without functions with arguments, and with room for each atom twice, the list
/// bound is the only one that can be met.
pub fn solve_alone(alloc: Global, problem: &Problem, bounds: &Bounds) -> Result<Answer, AllocError>
    requires valid { IsValid problem.now }
    requires bounds { IsLawful bounds.now }
    ensures answer { IfOk result (λ answer. HasAnswer problem.now bounds.now (answer_value answer)) }
    ensures refuted { IfOk result (λ answer. HasRefutation problem.now bounds.now (answer_value answer)) }
    ensures model { IfOk result (λ answer. HasModel problem.now (answer_value answer)) }
    ensures function_free { IfOk result (λ answer. IsFunctionFree problem.now → IsRoomy problem.now bounds.now → MeetsOnlyList (answer_value answer)) }
    ensures printable { IfOk result (λ answer. IsOverProblem problem.now (answer_value answer)) }
{
    let record = walk_alone(alloc, problem, bounds)?;
    let mut records = Records::new(alloc);
    let Ok(()) = records.push(record) else {
        return Err(AllocError);
    };
    assemble(alloc, &records, bounds.list)
}
