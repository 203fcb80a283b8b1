//! Lines of a refutation, and the clauses of which they are ground instances.
//!
//! A clause and a line are matched by the equations between their literals, which are solved by
//! unification: the line is ground, so what solves them is a substitution for the clause's variables.
ghost use Rattle.std.specs.Prelude.{◌≡◌, ◌≤◌, ◌↔◌, IsTrue, IfOk, length};
ghost use Rattle.std.specs.List.{list_all};
ghost use Rattle.me_terms.specs.Substitutions.{Family};
ghost use Rattle.me_terms.specs.Values.{ProblemValue};
ghost use Rattle.me_unify.specs.Equations.{SolvesAll};
ghost use Rattle.answer_check.specs.Instances.{IsGrown, IsMatched, HasMatch, IsMatchedLine, IsOwnInstance, AreKnown, SolvesWith};

use crate::own::are_own_literals;
use me_terms::{Clause, Literal, Problem};
use me_unify::Bindings;
use std::alloc::{AllocError, Global};
use szs_read::InstanceLine;

/// Whether two literals have one sign, and their atoms are made equal together with what was made equal
/// before, the variables of each its own.
fn match_literal(
    bindings: &mut Bindings,
    literal: &Literal,
    special: &Literal,
) -> Result<bool, AllocError>
    ensures exact { IfOk result (λ answer. IsTrue answer ↔ ((u : Family) × SolvesWith u bindings.old literal.now special.now)) }
    ensures yes { IfOk result (λ answer. IsTrue answer → (u : Family) → SolvesAll u bindings.new ↔ SolvesWith u bindings.old literal.now special.now) }
{
    if literal.positive != special.positive {
        return Ok(false);
    }
    bindings.unify(0, &literal.atom, 1, &special.atom)
}

/// Whether some substitution takes the literals to the special ones, which are ground.
fn matches(alloc: Global, literals: &[Literal], special: &[Literal]) -> Result<bool, AllocError>
    ensures { IfOk result (λ answer. IsTrue answer ↔ IsMatched literals.now special.now) }
{
    if literals.len() != special.len() {
        return Ok(false);
    }
    let mut bindings = Bindings::new(alloc);
    for k in 0..literals.len() {
        if !match_literal(&mut bindings, &literals[k], &special[k])? {
            return Ok(false);
        }
    }
    Ok(true)
}

/// Whether the line has the clause's number and label, and its literals match.
fn is_line_of(alloc: Global, clause: &Clause, line: &InstanceLine) -> Result<bool, AllocError>
    ensures { IfOk result (λ answer. IsTrue answer ↔ IsMatchedLine clause.now line.now) }
{
    if clause.number != line.number || clause.label != line.label {
        return Ok(false);
    }
    matches(alloc, clause.literals.as_slice(), line.literals.as_slice())
}

/// The place at which the clause of that number stands, where the numbers rise.
fn place_near(clauses: &[Clause], number: u32) -> usize
    ensures { result ≤ length clauses.now }
{
    let mut low = 0;
    let mut high = clauses.len();
    while low < high {
        let middle = low + (high - low) / 2;
        let clause = &clauses[middle];
        if clause.number < number {
            low = middle + 1;
        } else {
            high = middle;
        }
    }
    low
}

/// Whether some clause is one of which the line is an instance.
fn has_clause(alloc: Global, clauses: &[Clause], line: &InstanceLine) -> Result<bool, AllocError>
    ensures { IfOk result (λ answer. IsTrue answer ↔ HasMatch clauses.now line.now) }
{
    if let Some(clause) = clauses.get(place_near(clauses, line.number)) {
        if is_line_of(alloc, clause, line)? {
            return Ok(true);
        }
    }
    for clause in clauses {
        if is_line_of(alloc, clause, line)? {
            return Ok(true);
        }
    }
    Ok(false)
}

/// Whether the line is a ground instance of a clause of its number and label, over the functions with
/// numbers below this one.
pub(crate) fn is_own_instance(
    alloc: Global,
    problem: &Problem,
    functions: u32,
    line: &InstanceLine,
) -> Result<bool, AllocError>
    requires known { AreKnown problem.now.signature line.now.literals }
    ensures { IfOk result (λ answer. (own : ProblemValue) → IsGrown own problem.now functions → IsTrue answer ↔ IsOwnInstance own line.now) }
{
    if !are_own_literals(line.literals.as_slice(), functions) {
        return Ok(false);
    }
    has_clause(alloc, problem.clauses.as_slice(), line)
}
