//! Whether a problem is plain.
//!
//! A plain problem is numbered as a file numbers its formulas, symbols and variables, it is within the
//! limits of a file, and it has no symbol that does not occur, but for `c0` where no other is a constant.
ghost use Rattle.std.specs.Prelude.{◌≡◌, ◌↔◌, IsTrue, slice_get};
ghost use Rattle.problem_checks.specs.ValidityTests.{has, numbered_on};
ghost use Rattle.tptp_cnf.specs.Plain.{IsPlain, clauses_functions, clauses_predicates};
ghost use Rattle.tptp_cnf.specs.Rows.{constant_at};
ghost use Rattle.problem_checks.specs.PlainTests as tests;

use crate::limits::{are_within, symbols_have_few};
use crate::numbering::{function_count, predicate_count};
use crate::validity::is_valid;
use me_terms::{Clause, Form, Problem, Signature, Symbol};
use tptp_grammar::MAX_FORMULAS;

fn is_numbered(clause: &Clause, number: u64) -> bool
    ensures { result ≡ tests.is_numbered number clause.now }
{
    clause.number as u64 == number
}

/// Whether the clauses have the numbers from 1 on.
fn are_numbered(clauses: &[Clause]) -> bool
    ensures { result ≡ tests.are_numbered 1 clauses.now }
{
    let mut number = 1;
    for clause in clauses {
        if !is_numbered(clause, number) {
            return false;
        }
        number += 1;
    }
    true
}

fn is_c0(symbol: &Symbol) -> bool
    ensures { result ≡ tests.is_c0 symbol.now }
{
    symbol.arity == 0
        && symbol.label.form == Form::Word
        && symbol.label.text.as_slice() == b"c0".as_slice()
}

fn is_c0_at(signature: &Signature, f: u32) -> bool
    ensures { result ≡ has tests.is_c0 (slice_get signature.now.functions f) }
{
    match signature.fun(f) {
        Some(symbol) => is_c0(symbol),
        None => false,
    }
}

fn is_constant_at(signature: &Signature, f: u32) -> bool
    ensures { result ≡ constant_at (slice_get signature.now.functions f) }
{
    match signature.fun(f) {
        Some(symbol) => symbol.arity == 0,
        None => false,
    }
}

/// Whether this is the number of the first constant.
fn is_first_constant(signature: &Signature, c0: u32) -> bool
    ensures { result ≡ tests.is_first_constant signature.now.functions c0 }
{
    'functions: for f in 0..signature.fun_count() {
        if is_constant_at(signature, f) {
            return f == c0;
        }
    }
    false
}

/// Whether the functions are those that occur, numbered by first occurrence, with the constant that is
/// added where there is none.
fn has_plain_functions(problem: &Problem) -> bool
    ensures { result ≡ tests.are_plain_functions problem.now.signature.functions problem.now.c0 (numbered_on 0 (clauses_functions problem.now.clauses)) }
{
    let total = problem.signature.fun_count() as u64;
    let c0 = problem.c0 as u64;
    match function_count(problem.clauses.as_slice()) {
        Some(count) => {
            count == total
                || (c0 == count && c0 + 1 == total && is_c0_at(&problem.signature, problem.c0))
        }
        None => false,
    }
}

/// Whether the predicates are those that occur, numbered by first occurrence.
fn has_plain_predicates(problem: &Problem) -> bool
    ensures { result ≡ tests.are_plain_predicates problem.now.signature.predicates (numbered_on 0 (clauses_predicates problem.now.clauses)) }
{
    match predicate_count(problem.clauses.as_slice()) {
        Some(count) => count == problem.signature.pred_count() as u64,
        None => false,
    }
}

/// Whether the problem passes the tests of plainness but those of validity and of the symbols' arguments.
fn passes_tests(problem: &Problem) -> bool
    ensures { result ≡ tests.passes_plain_tests problem.now }
{
    let clauses = problem.clauses.as_slice();
    are_numbered(clauses)
        && has_plain_functions(problem)
        && has_plain_predicates(problem)
        && is_first_constant(&problem.signature, problem.c0)
        && problem.clauses.len() <= u64::from(MAX_FORMULAS)
        && are_within(clauses)
}

/// Whether the problem is valid, its clauses have the numbers 1, 2, .., its symbols are those that occur,
/// numbered by first occurrence, with `c0` as the last function where no other is a constant, `c0` is the
/// first constant, and all is within the limits of a file. It takes no memory.
pub fn is_plain(problem: &Problem) -> bool
    ensures { IsTrue result ↔ IsPlain problem.now }
{
    if !is_valid(problem) {
        return false;
    }
    if !symbols_have_few(&problem.signature) {
        return false;
    }
    passes_tests(problem)
}
