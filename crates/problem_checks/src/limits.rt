//! Whether a problem is within the limits of a file.
//!
//! The literals and the variables of a formula are counted, the arguments of a symbol, and how many
//! brackets are open at once: that of the formula, and one round each list of arguments.
ghost use Rattle.std.specs.Prelude.{◌≡◌, IsTrue, slice_get};
ghost use Rattle.std.specs.List.{list_all};
ghost use Rattle.me_terms.specs.Validity.{clause_variables};
ghost use Rattle.problem_checks.specs.ValidityTests.{has, numbered_on};
ghost use Rattle.problem_checks.specs.SymbolKinds.{symbols_of};
ghost use Rattle.problem_checks.specs.PlainTests.{at_most, is_shallow as shallow, is_within as within, has_few_arguments, have_few_arguments, HasOwnNumber, HaveOwnNumbers};
ghost use Rattle.tptp_grammar.specs.declared.limits.TheConstants.{MAX_VARIABLES};

use crate::numbering::variable_count;
use crate::symbols::{SymbolKind, symbol, symbol_count};
use me_terms::{Clause, Literal, Signature, Symbol, depth_of};
use tptp_grammar::{MAX_ARGUMENTS, MAX_BRACKETS, MAX_LITERALS, MAX_VARIABLES};

fn is_shallow(literal: &Literal) -> bool
    ensures { result ≡ shallow literal.now }
{
    depth_of(literal) < u64::from(MAX_BRACKETS)
}

fn are_shallow(literals: &[Literal]) -> bool
    ensures { result ≡ list_all shallow literals.now }
{
    for literal in literals {
        if !is_shallow(literal) {
            return false;
        }
    }
    true
}

fn has_few_variables(literals: &[Literal]) -> bool
    ensures { result ≡ at_most MAX_VARIABLES (numbered_on 0 (clause_variables literals.now)) }
{
    match variable_count(literals) {
        Some(count) => count <= u64::from(MAX_VARIABLES),
        None => false,
    }
}

fn is_within(clause: &Clause) -> bool
    ensures { result ≡ within clause.now }
{
    let literals = clause.literals.as_slice();
    clause.literals.len() <= u64::from(MAX_LITERALS)
        && has_few_variables(literals)
        && are_shallow(literals)
}

/// Whether each clause is within the limits of a formula.
pub(crate) fn are_within(clauses: &[Clause]) -> bool
    ensures { result ≡ list_all within clauses.now }
{
    for clause in clauses {
        if !is_within(clause) {
            return false;
        }
    }
    true
}

fn has_few(symbol: &Symbol) -> bool
    ensures { result ≡ has_few_arguments symbol.now }
{
    symbol.arity <= MAX_ARGUMENTS
}

fn symbol_has_few(signature: &Signature, kind: SymbolKind, number: u32) -> bool
    ensures few { result ≡ has has_few_arguments (slice_get (symbols_of kind signature.now) number) }
    ensures own { HasOwnNumber (symbols_of kind signature.now) number }
{
    match symbol(signature, kind, number) {
        Some(symbol) => has_few(symbol),
        None => false,
    }
}

/// Whether each symbol of the kind has few enough arguments. Then each was looked at, and stands once.
fn have_few(signature: &Signature, kind: SymbolKind) -> bool
    ensures few { result ≡ list_all has_few_arguments (symbols_of kind signature.now) }
    ensures own { IsTrue result → HaveOwnNumbers (symbols_of kind signature.now) }
{
    'symbols: for number in 0..symbol_count(signature, kind) {
        if !symbol_has_few(signature, kind, number) {
            return false;
        }
    }
    true
}

/// Whether each symbol has few enough arguments. Then each was looked at, and stands once.
pub(crate) fn symbols_have_few(signature: &Signature) -> bool
    ensures few { result ≡ have_few_arguments signature.now }
    ensures functions { IsTrue result → HaveOwnNumbers signature.now.functions }
    ensures predicates { IsTrue result → HaveOwnNumbers signature.now.predicates }
{
    if !have_few(signature, SymbolKind::Function) {
        return false;
    }
    have_few(signature, SymbolKind::Predicate)
}
