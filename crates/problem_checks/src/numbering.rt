//! Whether functions, predicates and variables are numbered by first occurrence.
//!
//! A walk goes over numbers in the order in which they stand, with the number that the next new one has to
//! have. Where it comes to the end, that is how many different ones there are.
ghost use Rattle.std.specs.Prelude.{◌≡◌, [], ◌∷◌};
ghost use Rattle.std.specs.List.{flat_map};
ghost use Rattle.me_terms.specs.TermViews.{term_value};
ghost use Rattle.me_terms.specs.Terms.{arguments_of};
ghost use Rattle.me_terms.specs.Validity.{clause_variables};
ghost use Rattle.problem_checks.specs.ValidityTests.{numbered_on};
ghost use Rattle.tptp_cnf.specs.Plain.{clauses_functions, clauses_predicates};
ghost use Rattle.problem_checks.specs.PlainTests.{term_numbers, numbers_of, literals_numbers, predicate_numbers};
ghost use Rattle.problem_checks.specs.declared.numbering.Counted.TheVariants.{Functions};

use me_terms::{Clause, Literal, Term, Terms};

/// Whose numbers a walk over terms looks at.
#[derive(Clone, Copy, Debug)]
pub(crate) enum Counted {
    Functions,
    Variables,
}

/// The number of the next new one behind this number; none where it is too great.
fn next_behind(number: u32, next: u64) -> Option<u64>
    ensures { result ≡ numbered_on next (number ∷ []) }
{
    let number = number as u64;
    if number < next {
        Some(next)
    } else if number == next {
        Some(number + 1)
    } else {
        None
    }
}

/// The number of the next new one behind those of the term; none where they are not numbered by first
/// occurrence.
#[cycle(numbered)]
fn next_in_term(counted: Counted, term: &Term, next: u64) -> Option<u64>
    ensures { result ≡ numbered_on next (term_numbers counted (term_value term.now)) }
{
    match (counted, term) {
        (Counted::Functions, Term::Var(_)) => Some(next),
        (Counted::Functions, Term::App { f, args }) => match next_behind(*f, next) {
            Some(next) => next_in_terms(counted, args, next),
            None => None,
        },
        (Counted::Variables, Term::Var(x)) => next_behind(*x, next),
        (Counted::Variables, Term::App { f: _, args }) => next_in_terms(counted, args, next),
    }
}

/// The number of the next new one behind those of the terms; none where they are not numbered by first
/// occurrence.
#[cycle(numbered)]
fn next_in_terms(counted: Counted, terms: &Terms, next: u64) -> Option<u64>
    ensures { result ≡ numbered_on next (numbers_of counted (arguments_of terms.now.items)) }
{
    let mut number = next;
    for k in 0..terms.len() {
        let Some(term) = terms.get(k) else {
            unreachable!();
        };
        match next_in_term(counted, term, number) {
            Some(next) => number = next,
            None => return None,
        }
    }
    Some(number)
}

fn next_in_literal(counted: Counted, literal: &Literal, next: u64) -> Option<u64>
    ensures { result ≡ numbered_on next (numbers_of counted literal.now.atom.args) }
{
    next_in_terms(counted, &literal.atom.args, next)
}

fn next_in_literals(counted: Counted, literals: &[Literal], next: u64) -> Option<u64>
    ensures { result ≡ numbered_on next (literals_numbers counted literals.now) }
{
    let mut number = next;
    for literal in literals {
        match next_in_literal(counted, literal, number) {
            Some(next) => number = next,
            None => return None,
        }
    }
    Some(number)
}

/// The number of variables of the literals; none where they are not numbered by first occurrence.
pub(crate) fn variable_count(literals: &[Literal]) -> Option<u64>
    ensures { result ≡ numbered_on 0 (clause_variables literals.now) }
{
    next_in_literals(Counted::Variables, literals, 0)
}

fn next_function(clause: &Clause, next: u64) -> Option<u64>
    ensures { result ≡ numbered_on next (literals_numbers Functions clause.now.literals) }
{
    next_in_literals(Counted::Functions, clause.literals.as_slice(), next)
}

/// The number of functions of the clauses; none where they are not numbered by first occurrence.
pub(crate) fn function_count(clauses: &[Clause]) -> Option<u64>
    ensures { result ≡ numbered_on 0 (clauses_functions clauses.now) }
{
    let mut number = 0;
    for clause in clauses {
        match next_function(clause, number) {
            Some(next) => number = next,
            None => return None,
        }
    }
    Some(number)
}

fn next_in_atom(literal: &Literal, next: u64) -> Option<u64>
    ensures { result ≡ numbered_on next (literal.now.atom.pred ∷ []) }
{
    next_behind(literal.atom.pred, next)
}

fn next_in_atoms(literals: &[Literal], next: u64) -> Option<u64>
    ensures { result ≡ numbered_on next (predicate_numbers literals.now) }
{
    let mut number = next;
    for literal in literals {
        match next_in_atom(literal, number) {
            Some(next) => number = next,
            None => return None,
        }
    }
    Some(number)
}

fn next_predicate(clause: &Clause, next: u64) -> Option<u64>
    ensures { result ≡ numbered_on next (predicate_numbers clause.now.literals) }
{
    next_in_atoms(clause.literals.as_slice(), next)
}

/// The number of predicates of the clauses; none where they are not numbered by first occurrence.
pub(crate) fn predicate_count(clauses: &[Clause]) -> Option<u64>
    ensures { result ≡ numbered_on 0 (clauses_predicates clauses.now) }
{
    let mut number = 0;
    for clause in clauses {
        match next_predicate(clause, number) {
            Some(next) => number = next,
            None => return None,
        }
    }
    Some(number)
}
