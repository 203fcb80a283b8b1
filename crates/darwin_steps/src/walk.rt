//! The walk of a search tree on one thread, leaf by leaf, with a line for each step.
//!
//! It is depth-first search: a left branch is gone before the right one beside it, and the first exhausted
//! leaf ends it. What is told of a step is what `specs/Told` says of the context's next step.
ghost use Rattle.std.specs.Prelude.{◌≡◌, ◌<◌, ◌≤◌, ◌++◌, ℕ, List, true, length, IfOk, OnOk};
ghost use Rattle.std.specs.Io.KnownBytes.{Appends};
ghost use Rattle.me_terms.specs.AnswerViews.{next_value};
ghost use Rattle.me_terms.specs.Values.{EntryValue};
ghost use Rattle.me_terms.specs.Validity.{IsLawful, IsValid};
ghost use Rattle.me_terms.specs.Context.{Context as ContextValue, IsLiteralEntry, add};
ghost use Rattle.me_terms.specs.Contradictory.{Contradicts};
ghost use Rattle.me_terms.specs.Grown.{IsGrown};
ghost use Rattle.me_terms.specs.Next.{IsNext};
ghost use Rattle.me_terms.specs.declared.bounds.TheConstants.{MAX_ENTRIES};
ghost use Rattle.next_rule.specs.NextLaws.{IsAddedBy, MayBeAdded};
ghost use Rattle.darwin_steps.specs.StepText.{right_text, step_text};
ghost use Rattle.darwin_steps.specs.Told.{IsAdded, IsFollowed, IsLeft, IsTold};
ghost use Rattle.darwin_steps.specs.Traces.{IsWalkText};

use crate::hidden::push_hidden;
use crate::step_text::{push_key, push_right, push_step};
use branch_walk::{Search, back, grow, left_entry, next_step};
use me_context::Context;
use me_io::{Sink, write_all};
use me_terms::{Bounds, Entry, Next, Problem, View};
use std::alloc::{AllocError, Global};

/// The greatest number of steps that are written.
const MAX_STEPS: u32 = 1_000_000;

/// Why a walk ends before the tree does.
pub(crate) enum Stop {
    /// There is no memory.
    Memory,
    /// A write failed.
    Sink,
}

/// Puts the line of the right branch at the end that the last entry begins.
fn push_turn(out: &mut Vec<u8>, problem: &Problem, context: &Context) -> Result<(), AllocError>
    requires { 1 ≤ length context.now }
    ensures { OnOk result ((before : ContextValue) (last : EntryValue) → context.now ≡ add before last → out.new.items ≡ out.old.items ++ right_text problem.now.signature (length before) last) }
{
    let k = context.len() - 1;
    let Some(last) = context.entry(k) else {
        unreachable!()
    };
    push_right(out, &problem.signature, k, last)
}

/// Puts the entry at the end of the context, and the line of what it hides at the end of the text.
fn add(
    alloc: Global,
    context: &mut Context,
    entry: Entry,
    out: &mut Vec<u8>,
) -> Result<(), AllocError>
    requires literal { IsLiteralEntry entry }
    requires apart { ¬ Contradicts context.old entry.positive entry.kind entry.atom }
    requires room { length context.old < MAX_ENTRIES }
    ensures { OnOk result ((text : List ℕ) × IsAdded context.old entry context.new text × (out.new.items ≡ out.old.items ++ text)) }
{
    push_hidden(alloc, out, context, &entry)?;
    grow(context, entry)
}

/// Goes back from a leaf to the next right branch, and tells whether there is one.
fn leave(search: &Search, context: &mut Context, out: &mut Vec<u8>) -> Result<bool, AllocError>
    requires bounds { IsLawful search.now.bounds.now }
    requires grown { IsGrown search.now.problem.now search.now.bounds.now context.old }
    ensures grown { IfOk result (λ goes_on. goes_on ≡ true → IsGrown search.now.problem.now search.now.bounds.now context.new) }
    ensures told { IfOk result (λ goes_on. (text : List ℕ) × IsLeft search.now.problem.now context.old goes_on context.new text × (out.new.items ≡ out.old.items ++ text)) }
{
    push_key(out, context)?;
    if !back(context, 1) {
        return Ok(false);
    }
    search.turn_right(context)?;
    push_turn(out, search.problem, context)?;
    Ok(true)
}

/// Does the next step, and puts the lines behind its own at the end. Tells whether the walk goes on.
fn follow(
    search: &Search,
    next: Next,
    context: &mut Context,
    out: &mut Vec<u8>,
) -> Result<bool, AllocError>
    requires bounds { IsLawful search.now.bounds.now }
    requires grown { IsGrown search.now.problem.now search.now.bounds.now context.old }
    requires next { IsNext search.now.problem.now search.now.bounds.now context.old (next_value next) }
    requires added { (e : EntryValue) → IsAddedBy (next_value next) e → MayBeAdded search.now.bounds.now context.old e }
    ensures grown { IfOk result (λ goes_on. goes_on ≡ true → IsGrown search.now.problem.now search.now.bounds.now context.new) }
    ensures told { IfOk result (λ goes_on. (text : List ℕ) × IsFollowed search.now.problem.now context.old (next_value next) goes_on context.new text × (out.new.items ≡ out.old.items ++ text)) }
{
    match next {
        Next::Assert { entry } => {
            add(search.alloc, context, entry, out)?;
            Ok(true)
        }
        Next::Split { literal, kind } => {
            add(search.alloc, context, left_entry(literal, kind), out)?;
            Ok(true)
        }
        Next::Exhausted => {
            push_key(out, context)?;
            Ok(false)
        }
        Next::Close { .. } => leave(search, context, out),
        Next::Bounded { .. } => leave(search, context, out),
    }
}

/// Does one step and puts its lines at the end. Tells whether the walk goes on.
fn step(search: &Search, context: &mut Context, out: &mut Vec<u8>) -> Result<bool, AllocError>
    requires valid { IsValid search.now.problem.now }
    requires bounds { IsLawful search.now.bounds.now }
    requires grown { IsGrown search.now.problem.now search.now.bounds.now context.old }
    ensures grown { IfOk result (λ goes_on. goes_on ≡ true → IsGrown search.now.problem.now search.now.bounds.now context.new) }
    ensures told { IfOk result (λ goes_on. (text : List ℕ) × IsTold search.now.problem.now search.now.bounds.now context.old goes_on context.new text × (out.new.items ≡ out.old.items ++ text)) }
{
    let next = next_step(search.alloc, search.problem, context, search.bounds)?;
    push_step(out, search.problem, context.len(), &next)?;
    follow(search, next, context, out)
}

/// Writes the text.
fn say<K: Sink>(sink: &mut K, text: &[u8]) -> Result<(), Stop>
    ensures { OnOk result (Appends (K.written sink.old) (K.written sink.new) text.now) }
{
    match write_all(sink, text) {
        Ok(()) => Ok(()),
        Err(_) => Err(Stop::Sink),
    }
}

/// Does one step and writes its lines. Tells whether the walk goes on.
fn tell_step<K: Sink>(search: &Search, context: &mut Context, sink: &mut K) -> Result<bool, Stop>
    requires valid { IsValid search.now.problem.now }
    requires bounds { IsLawful search.now.bounds.now }
    requires grown { IsGrown search.now.problem.now search.now.bounds.now context.old }
    ensures grown { IfOk result (λ goes_on. goes_on ≡ true → IsGrown search.now.problem.now search.now.bounds.now context.new) }
    ensures told { IfOk result (λ goes_on. (text : List ℕ) × IsTold search.now.problem.now search.now.bounds.now context.old goes_on context.new text × Appends (K.written sink.old) (K.written sink.new) text) }
{
    let mut lines = Vec::new(search.alloc);
    let Ok(goes_on) = step(search, context, &mut lines) else {
        return Err(Stop::Memory);
    };
    say(sink, lines.as_slice())?;
    Ok(goes_on)
}

/// Writes the lines of each step of the search for the problem within the bounds, or of the first
/// `MAX_STEPS` ones and a line that says so.
pub(crate) fn walk<K: Sink>(
    alloc: Global,
    problem: &Problem,
    bounds: &Bounds,
    sink: &mut K,
) -> Result<(), Stop>
    requires valid { IsValid problem.now }
    requires bounds { IsLawful bounds.now }
    ensures { OnOk result ((text : List ℕ) × IsWalkText problem.now bounds.now text × Appends (K.written sink.old) (K.written sink.new) text) }
{
    let search = Search {
        alloc,
        problem,
        bounds,
    };
    let Ok(mut context) = Context::new(alloc, bounds.start) else {
        return Err(Stop::Memory);
    };
    'steps: for _ in 0..MAX_STEPS {
        let goes_on = tell_step(&search, &mut context, sink)?;
        if !goes_on {
            return Ok(());
        }
    }
    say(sink, b"more steps follow\n")
}
