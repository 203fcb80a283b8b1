//! Whether a model shows what it claims.
//!
//! Its lines are added to a context one by one, and then each clause is searched for a productive context
//! unifier, over the same tuples as a search goes.
ghost use Rattle.std.specs.Prelude.{◌≡◌, ◌<◌, ◌-◌, ◌^◌, ◌↔◌, None, IsTrue, IfOk, length};
ghost use Rattle.me_terms.specs.Variables.{is_canonical};
ghost use Rattle.me_terms.specs.Positions.{AreOpposite, positions_of};
ghost use Rattle.me_terms.specs.declared.bounds.TheConstants.{MAX_ENTRIES};
ghost use Rattle.next_rule.specs.FewPlaces.{HasFewPlaces};
ghost use Rattle.szs_read.specs.Claims.{Rises};
ghost use Rattle.answer_check.specs.Entries.{AreBelow, AreEntered, HasProductiveUnifier, IsAdded, IsProductiveSearch, IsProductiveTuple};
ghost use Rattle.answer_check.specs.Judgements.{IsModelJudged, IsRightEntry, entry_of};

use crate::verdict::Verdict;
use context_unifier::is_productive;
use joint_unifiers::{is_contradictory, joint_unifier};
use me_context::Context;
use me_terms::{
    Clause, Entry, Kind, Literal, Pattern, Problem, Reason, Start, Tuple, canonical, is_ground,
};
use std::alloc::{AllocError, Global};
use szs_read::{EntryLine, EntryLines};
use tuple_search::{Cursor, Limits};

/// Whether the literal's variables are numbered from 0 by first occurrence.
fn has_canonical_atom(alloc: Global, line: &EntryLine) -> Result<bool, AllocError>
    ensures { IfOk result (λ answer. IsTrue answer ↔ IsTrue (is_canonical line.now.literal.atom)) }
{
    let form = canonical(alloc, &line.literal)?;
    Ok(form.atom == line.literal.atom)
}

/// Whether the line may stand behind the context.
fn is_right(alloc: Global, context: &Context, line: &EntryLine) -> Result<bool, AllocError>
    ensures { IfOk result (λ answer. IsTrue answer ↔ IsRightEntry context.now line.now) }
{
    if line.kind == Kind::Parametric && is_ground(&line.literal) {
        return Ok(false);
    }
    if !has_canonical_atom(alloc, line)? {
        return Ok(false);
    }
    let is_apart = !is_contradictory(alloc, context, &line.literal, line.kind)?;
    Ok(is_apart)
}

/// The entry of a line.
fn entry_of_line(line: EntryLine) -> Entry
    ensures { result ≡ entry_of line }
{
    let Literal { positive, atom } = line.literal;
    Entry {
        positive,
        atom: Pattern::Of(atom),
        kind: line.kind,
        reason: Reason::SplitLeft,
    }
}

/// Adds the line to the context where it may stand there, and else answers its position.
fn add_line(
    alloc: Global,
    context: &mut Context,
    line: EntryLine,
) -> Result<Option<u32>, AllocError>
    requires { length context.old < MAX_ENTRIES }
    ensures { IfOk result (λ wrong. IsAdded context.old context.new line wrong) }
{
    let at = line.at;
    if !is_right(alloc, context, &line)? {
        return Ok(Some(at));
    }
    if context.add(entry_of_line(line)).is_err() {
        return Err(AllocError);
    }
    Ok(None)
}

/// The context of lines, or the position of the first line that may not stand behind those before it.
#[derive(Drop)]
enum Entered {
    All { context: Context },
    Wrong { at: u32 },
}

/// The context that has the lines behind the start's pseudo-literal, if each may stand there.
fn enter_lines(alloc: Global, start: Start, lines: EntryLines) -> Result<Entered, AllocError>
    requires rising { Rises 0 lines.items }
    requires few { AreBelow lines.items }
    ensures { IfOk result (AreEntered start lines.items) }
{
    let mut context = Context::new(alloc, start)?;
    for line in lines.into_vec() {
        if let Some(at) = add_line(alloc, &mut context, line)? {
            return Ok(Entered::Wrong { at });
        }
    }
    Ok(Entered::All { context })
}

/// Whether the clause has a productive context unifier.
fn has_productive(alloc: Global, clause: &Clause, context: &Context) -> Result<bool, AllocError>
    requires { length clause.now.literals < 2 ^ 32 - 1 }
    ensures { IfOk result (λ answer. IsTrue answer ↔ HasProductiveUnifier context.now clause.now.literals) }
{
    let mut cursor = Cursor::new(alloc, &clause.literals, None, Limits::none(), context);
    while cursor.advance()? {
        if is_productive_tuple(alloc, clause, context, cursor.tuple())? {
            return Ok(true);
        }
    }
    Ok(false)
}

/// Whether the clause has a productive context unifier with the tuple.
fn is_productive_tuple(
    alloc: Global,
    clause: &Clause,
    context: &Context,
    tuple: &Tuple,
) -> Result<bool, AllocError>
    requires opposite { AreOpposite context.now clause.now.literals (positions_of None tuple.now.items) }
    requires few { length clause.now.literals < 2 ^ 32 - 1 }
    ensures { IfOk result (λ answer. IsTrue answer ↔ IsProductiveTuple context.now clause.now.literals tuple.now.items) }
{
    match joint_unifier(alloc, clause, None, tuple, context)? {
        Some(unifier) => is_productive(alloc, clause, context, &unifier),
        None => Ok(false),
    }
}

/// The number of the first clause that has a productive context unifier.
fn first_productive(
    alloc: Global,
    problem: &Problem,
    context: &Context,
) -> Result<Option<u32>, AllocError>
    requires { HasFewPlaces problem.now }
    ensures { IfOk result (IsProductiveSearch problem.now context.now) }
{
    for clause in problem.clauses.as_slice() {
        if has_productive(alloc, clause, context)? {
            return Ok(Some(clause.number));
        }
    }
    Ok(None)
}

/// What is said of a model.
pub(crate) fn judge_model(
    alloc: Global,
    problem: &Problem,
    start: Start,
    lines: EntryLines,
) -> Result<Verdict, AllocError>
    requires places { HasFewPlaces problem.now }
    requires rising { Rises 0 lines.items }
    requires few { AreBelow lines.items }
    ensures { IfOk result (λ verdict. IsModelJudged problem.now start lines.items verdict) }
{
    let context = match enter_lines(alloc, start, lines)? {
        Entered::All { context } => context,
        Entered::Wrong { at } => {
            return Ok(Verdict::WrongLine {
                line: u64::from(at),
            });
        }
    };
    match first_productive(alloc, problem, &context)? {
        Some(number) => Ok(Verdict::Unifier { number }),
        None => Ok(Verdict::Model),
    }
}
