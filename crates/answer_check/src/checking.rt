//! What is said of an input.
ghost use Rattle.std.specs.Prelude.{◌≡◌, ◌≢◌, ◌+◌, ◌<◌, ◌≤◌, ◌-◌, ◌^◌, ◌⊎◌, length, IfOk, IfErr};
ghost use Rattle.me_io.specs.declared.source.TheConstants.{MAX_BYTES};
ghost use Rattle.me_terms.specs.Validity.{IsValid};
ghost use Rattle.me_terms.specs.Values.{ProblemValue};
ghost use Rattle.szs_read.specs.Claims.{IsClaim};
ghost use Rattle.answer_check.specs.Checks.{IsAnswerChecked, IsInputCause, IsInputChecked, told_as};
ghost use Rattle.answer_check.specs.Instances.{IsGrown};
ghost use Rattle.answer_check.specs.Judgements.{HasFewLiterals, IsClaimJudged, IsJudged};

use crate::marks::part;
use crate::model::judge_model;
use crate::refutation::judge_refutation;
use crate::verdict::{Verdict, print_verdict, status_of};
use me_terms::Problem;
use std::alloc::{AllocError, Global};
use szs_print::Refusal;
use szs_read::{AnswerError, Claim, read_answer};
use tptp_cnf::{CnfError, read_problem};

/// A text and its status.
#[derive(Drop)]
pub(crate) struct Checked {
    pub status: u8,
    pub text: Vec<u8>,
}

/// What is said of a claim. The problem's signature has the symbols of the claim behind its own, of which
/// the functions have numbers below `functions`.
fn judge_claim(
    alloc: Global,
    problem: &Problem,
    functions: u32,
    claim: Claim,
) -> Result<Verdict, AllocError>
    requires claim { IsClaim problem.now.signature claim }
    requires own { (own : ProblemValue) × IsGrown own problem.now functions }
    requires few { HasFewLiterals claim }
    ensures { IfOk result (λ verdict. (own : ProblemValue) → IsGrown own problem.now functions → IsClaimJudged own claim verdict) }
{
    match claim {
        Claim::Refuted { lines } => judge_refutation(alloc, problem, functions, lines),
        Claim::Model { start, lines } => judge_model(alloc, problem, start, lines),
        Claim::Open { .. } => Ok(Verdict::Open),
    }
}

/// What is said of an answer. Its new symbols are added to the problem's signature.
fn judge(alloc: Global, problem: &mut Problem, bytes: &[u8]) -> Result<Verdict, AllocError>
    requires valid { IsValid problem.old }
    requires few { length problem.old.signature.functions + length problem.old.signature.predicates + length bytes.now < 2 ^ 32 - 1 }
    ensures { IfOk result (IsJudged problem.old bytes.now problem.new.signature) }
{
    let functions = problem.signature.fun_count();
    match read_answer(alloc, bytes, &mut problem.signature) {
        Ok(claim) => judge_claim(alloc, problem, functions, claim),
        Err(AnswerError::Line { line }) => Ok(Verdict::Unread { line }),
        Err(AnswerError::Memory) => Err(AllocError),
    }
}

/// The text of what is said of an answer, and the status.
fn check_answer(alloc: Global, problem: &mut Problem, bytes: &[u8]) -> Result<Checked, AllocError>
    requires valid { IsValid problem.old }
    requires few { length problem.old.signature.functions + length problem.old.signature.predicates + length bytes.now < 2 ^ 32 - 1 }
    ensures checked { IfOk result (λ checked. IsAnswerChecked problem.old bytes.now checked.status checked.text.items) }
    ensures own { IfOk result (λ checked. checked.status ≢ 6) }
{
    let verdict = judge(alloc, problem, bytes)?;
    Ok(Checked {
        status: status_of(&verdict),
        text: print_verdict(alloc, &problem.signature, &verdict)?,
    })
}

/// Why a problem was not read.
fn refusal_of(error: CnfError) -> Refusal
    ensures { result ≡ told_as error }
{
    match error {
        CnfError::Syntax { at } => Refusal::Syntax { at },
        CnfError::Inappropriate { what, at } => Refusal::Inappropriate { what, at },
        CnfError::Limit { which, at } => Refusal::Limit { which, at },
        CnfError::Memory => Refusal::Memory,
    }
}

/// The text of what is said of an input, and the status, or why its problem is refused.
pub(crate) fn check_input(alloc: Global, input: &[u8]) -> Result<Checked, Refusal>
    requires { length input.now ≤ MAX_BYTES }
    ensures checked { IfOk result (λ checked. IsInputChecked input.now checked.status checked.text.items) }
    ensures own { IfOk result (λ checked. checked.status ≢ 6) }
    ensures refused { IfErr result (λ refusal. (refusal ≡ Refusal.Memory) ⊎ IsInputCause input.now refusal) }
{
    let (file, answer) = part(input);
    match read_problem(alloc, file) {
        Ok(problem) => {
            let mut problem = problem;
            match check_answer(alloc, &mut problem, answer) {
                Ok(checked) => Ok(checked),
                Err(_) => Err(Refusal::Memory),
            }
        }
        Err(error) => Err(refusal_of(error)),
    }
}
