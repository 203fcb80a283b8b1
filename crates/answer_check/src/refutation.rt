//! Whether a refutation shows what it claims.
ghost use Rattle.std.specs.Prelude.{◌≡◌, ◌<◌, ◌-◌, ◌^◌, IfOk};
ghost use Rattle.me_terms.specs.Values.{ProblemValue};
ghost use Rattle.ground_solver.specs.Assignments.{clauses_of};
ghost use Rattle.ground_solver.specs.Named.{literal_count};
ghost use Rattle.answer_check.specs.Instances.{IsGrown};
ghost use Rattle.answer_check.specs.Judgements.{AreKnownLines, IsFirstWrong, IsRefutationJudged, literals_of};

use crate::instance::is_own_instance;
use crate::verdict::Verdict;
use ground_solver::{Decision, GroundList, decide};
use me_terms::Problem;
use std::alloc::{AllocError, Global};
use szs_read::{InstanceLine, InstanceLines};

/// The number of the first line that is no ground instance of the clause that it names, over the problem's
/// own functions.
fn first_wrong(
    alloc: Global,
    problem: &Problem,
    functions: u32,
    lines: &[InstanceLine],
) -> Result<Option<u64>, AllocError>
    requires { AreKnownLines problem.now.signature lines.now }
    ensures { IfOk result (λ wrong. (own : ProblemValue) → IsGrown own problem.now functions → IsFirstWrong own lines.now wrong) }
{
    for k in 0..lines.len() {
        if !is_own_instance(alloc, problem, functions, &lines[k])? {
            return Ok(Some(k as u64 + 1));
        }
    }
    Ok(None)
}

/// The clauses that the lines are.
fn list_of(alloc: Global, lines: InstanceLines) -> Result<GroundList, AllocError>
    ensures { IfOk result (λ list. clauses_of list.items ≡ literals_of lines.items) }
{
    let mut list = GroundList::new(alloc);
    for line in lines.into_vec() {
        if list.push(line.literals).is_err() {
            return Err(AllocError);
        }
    }
    Ok(list)
}

/// What is said of a refutation.
pub(crate) fn judge_refutation(
    alloc: Global,
    problem: &Problem,
    functions: u32,
    lines: InstanceLines,
) -> Result<Verdict, AllocError>
    requires known { AreKnownLines problem.now.signature lines.items }
    requires few { literal_count (literals_of lines.items) < 2 ^ 32 - 1 }
    ensures { IfOk result (λ verdict. (own : ProblemValue) → IsGrown own problem.now functions → IsRefutationJudged own lines.items verdict) }
{
    if let Some(line) = first_wrong(alloc, problem, functions, lines.as_slice())? {
        return Ok(Verdict::WrongLine { line });
    }
    let list = list_of(alloc, lines)?;
    match decide(alloc, &list)? {
        Decision::Model { trues } => Ok(Verdict::Satisfied { trues }),
        Decision::Closed { .. } => Ok(Verdict::Refutation),
    }
}
