//! The text of the answer that the options ask for.
//!
//! It is the answer to the problem that the source holds, or the summary of the answer to a problem that is
//! made of a seed. Where there is none, the refusal has its cause.
ghost use Rattle.std.specs.Prelude.{◌≡◌, ◌+◌, ◌<◌, ◌≤◌, ◌⊎◌, length, None, IfOk, IfErr, IsSome, IsErrOf};
ghost use Rattle.me_io.specs.declared.source.TheConstants.{MAX_BYTES};
ghost use Rattle.me_terms.specs.Validity.{IsValid};
ghost use Rattle.me_terms.specs.AnswerViews.{answer_value};
ghost use Rattle.szs_print.specs.Printable.{IsPrintable};
ghost use Rattle.tptp_cnf.specs.Files.{IsFile};
ghost use Rattle.darwin_options.specs.Ranges.{IsInRange};
ghost use Rattle.darwin_cli.specs.Outcome.{IsAskedFor, IsSure, IsFileCause, IsCause, IsAnswered, IsTextFor, told_as};
ghost use Rattle.darwin_cli.specs.Replies.{IsReply};

use darwin_options::Options;
use darwin_solve::{deepen_alone, deepen_pool};
use make_problem::make;
use me_io::{ReadError, Source, read_all};
use me_terms::{Answer, Problem};
use std::alloc::{AllocError, Global};
use std::sync::Wait;
use std::thread::Threads;
use steal_pool::Gate;
use szs_print::{Refusal, print_answer, print_summary};
use tptp_cnf::{CnfError, read_problem};

/// The number of predicates of a made problem.
pub const MADE_PREDICATES: u32 = 30;

/// The number of clauses of a made problem.
pub const MADE_CLAUSES: u32 = 100;

/// The text of the answer that this thread finds, or why there is none.
pub(crate) fn text_alone<S: Source>(
    alloc: Global,
    options: &Options,
    source: &mut S,
) -> Result<Vec<u8>, Refusal>
    requires { IsInRange options.now }
    ensures answered { IfOk result (λ text. IsAnswered S.left S.given S.ended S.faults options.now source.old source.new text.items) }
    ensures refused { IfErr result (IsCause S.left S.given S.ended S.faults options.now source.old source.new) }
    ensures unread { IsSome options.now.make → source.new ≡ source.old }
    ensures too_long { S.given source.old + MAX_BYTES < S.given source.new → IsErrOf result Refusal.Length }
{
    match problem_of(alloc, options, source) {
        Ok(problem) => match answer_alone(alloc, options, &problem) {
            Ok(answer) => text_of(alloc, options, &problem, &answer),
            Err(_) => Err(Refusal::Memory),
        },
        Err(refusal) => Err(refusal),
    }
}

/// The text of the answer that a pool of workers finds, or why there is none.
pub(crate) fn text_by_pool<R: Threads + Wait + Sync, S: Source, G: Gate>(
    rt: &R,
    alloc: Global,
    options: &Options,
    source: &mut S,
    gate: &G,
) -> Result<Vec<u8>, Refusal>
    requires { IsInRange options.now }
    ensures answered { IfOk result (λ text. IsAnswered S.left S.given S.ended S.faults options.now source.old source.new text.items) }
    ensures refused { IfErr result (IsCause S.left S.given S.ended S.faults options.now source.old source.new) }
    ensures unread { IsSome options.now.make → source.new ≡ source.old }
    ensures too_long { S.given source.old + MAX_BYTES < S.given source.new → IsErrOf result Refusal.Length }
{
    match problem_of(alloc, options, source) {
        Ok(problem) => match answer_by_pool(rt, alloc, options, &problem, gate) {
            Ok(answer) => text_of(alloc, options, &problem, &answer),
            Err(_) => Err(Refusal::Memory),
        },
        Err(refusal) => Err(refusal),
    }
}

/// The problem that is asked for, or why there is none.
fn problem_of<S: Source>(
    alloc: Global,
    options: &Options,
    source: &mut S,
) -> Result<Problem, Refusal>
    requires { IsInRange options.now }
    ensures asked { IfOk result (IsAskedFor S.left S.given S.ended S.faults options.now source.old source.new options.now.make) }
    ensures valid { IfOk result IsValid }
    ensures refused { IfErr result (IsCause S.left S.given S.ended S.faults options.now source.old source.new) }
    ensures unread { IsSome options.now.make → source.new ≡ source.old }
    ensures too_long { S.given source.old + MAX_BYTES < S.given source.new → IsErrOf result Refusal.Length }
{
    match options.make {
        Some(seed) => match make(alloc, seed, MADE_PREDICATES, MADE_CLAUSES) {
            Ok(problem) => Ok(problem),
            Err(_) => Err(Refusal::Memory),
        },
        None => problem_of_source(alloc, options, source),
    }
}

/// The problem that the source holds, or why there is none.
fn problem_of_source<S: Source>(
    alloc: Global,
    options: &Options,
    source: &mut S,
) -> Result<Problem, Refusal>
    requires { options.now.make ≡ None }
    ensures asked { IfOk result (IsAskedFor S.left S.given S.ended S.faults options.now source.old source.new options.now.make) }
    ensures valid { IfOk result IsValid }
    ensures refused { IfErr result (IsCause S.left S.given S.ended S.faults options.now source.old source.new) }
    ensures too_long { S.given source.old + MAX_BYTES < S.given source.new → IsErrOf result Refusal.Length }
{
    match read_all(alloc, source) {
        Ok(bytes) => problem_of_file(alloc, &bytes),
        Err(ReadError::Fault) => Err(Refusal::Read),
        Err(ReadError::TooLong) => Err(Refusal::Length),
        Err(ReadError::Memory) => Err(Refusal::Memory),
    }
}

/// The problem that the bytes mean, or why there is none.
fn problem_of_file(alloc: Global, bytes: &[u8]) -> Result<Problem, Refusal>
    requires { length bytes.now ≤ MAX_BYTES }
    ensures means { IfOk result (IsFile bytes.now) }
    ensures valid { IfOk result IsValid }
    ensures refused { IfErr result (λ refusal. (refusal ≡ Refusal.Memory) ⊎ IsFileCause bytes.now refusal) }
{
    match read_problem(alloc, bytes) {
        Ok(problem) => Ok(problem),
        Err(error) => Err(refusal_of(error)),
    }
}

/// Why a file was not read.
fn refusal_of(error: CnfError) -> Refusal
    ensures { result ≡ told_as error }
{
    match error {
        CnfError::Syntax { at } => Refusal::Syntax { at },
        CnfError::Inappropriate { what, at } => Refusal::Inappropriate { what, at },
        CnfError::Limit { which, at } => Refusal::Limit { which, at },
        CnfError::Memory => Refusal::Memory,
    }
}

/// The answer to the problem within the bounds of the options, from the depth that they begin with.
fn answer_alone(alloc: Global, options: &Options, problem: &Problem) -> Result<Answer, AllocError>
    requires in_range { IsInRange options.now }
    requires valid { IsValid problem.now }
    ensures sure { IfOk result (λ answer. IsSure problem.now options.now.bounds options.now.from (answer_value answer)) }
    ensures printable { IfOk result (λ answer. IsPrintable problem.now answer) }
{
    deepen_alone(alloc, problem, &options.bounds, options.from)
}

/// The same answer, by the workers that the options ask for.
fn answer_by_pool<R: Threads + Wait + Sync, G: Gate>(
    rt: &R,
    alloc: Global,
    options: &Options,
    problem: &Problem,
    gate: &G,
) -> Result<Answer, AllocError>
    requires in_range { IsInRange options.now }
    requires valid { IsValid problem.now }
    ensures sure { IfOk result (λ answer. IsSure problem.now options.now.bounds options.now.from (answer_value answer)) }
    ensures printable { IfOk result (λ answer. IsPrintable problem.now answer) }
{
    deepen_pool(
        rt,
        alloc,
        problem,
        &options.bounds,
        options.from,
        options.workers,
        options.share,
        gate,
    )
}

/// The text of an answer, or of its summary where the problem was made of a seed.
fn text_of(
    alloc: Global,
    options: &Options,
    problem: &Problem,
    answer: &Answer,
) -> Result<Vec<u8>, Refusal>
    requires in_range { IsInRange options.now }
    requires sure { IsSure problem.now options.now.bounds options.now.from (answer_value answer.now) }
    requires printable { IsPrintable problem.now answer.now }
    ensures text { IfOk result (λ text. IsReply options.now problem.now text.items) }
    ensures refused { IfErr result (λ refusal. refusal ≡ Refusal.Memory) }
{
    match printed(alloc, options, problem, answer) {
        Ok(text) => Ok(text),
        Err(_) => Err(Refusal::Memory),
    }
}

/// The text of an answer, or of its summary, where memory suffices.
fn printed(
    alloc: Global,
    options: &Options,
    problem: &Problem,
    answer: &Answer,
) -> Result<Vec<u8>, AllocError>
    requires in_range { IsInRange options.now }
    requires printable { IsPrintable problem.now answer.now }
    ensures { IfOk result (λ text. IsTextFor options.now.make options.now.name.items problem.now answer.now text.items) }
{
    match options.make {
        Some(_) => print_summary(alloc, &options.name, problem, answer),
        None => print_answer(alloc, &options.name, problem, answer),
    }
}
