//! Whether a problem is valid.
//!
//! Each test looks once at each part of the problem, goes down as far as its terms are deep, and takes no
//! memory.
ghost use Rattle.std.specs.Prelude.{◌≡◌, ◌↔◌, IsTrue, slice_get, nat_eq};
ghost use Rattle.std.specs.List.{list_all};
ghost use Rattle.me_terms.specs.Labels.{is_printable, is_digit};
ghost use Rattle.me_terms.specs.Signatures.{takes, is_known, are_known, is_known_atom};
ghost use Rattle.me_terms.specs.TermViews.{term_value};
ghost use Rattle.me_terms.specs.Terms.{arguments_of};
ghost use Rattle.me_terms.specs.Validity.{clause_variables, IsValid};
ghost use Rattle.me_terms.specs.Variables.{is_numbered_from};
ghost use Rattle.problem_checks.specs.SymbolKinds.{symbols_of};
ghost use Rattle.problem_checks.specs.ValidityTests as tests;

use crate::numbering::variable_count;
use crate::symbols::{SymbolKind, symbol, symbol_count};
use me_terms::{Atom, Clause, Form, Label, Literal, Problem, Signature, Symbol, Term, Terms};

/// Whether the symbol of this number takes so many arguments.
fn symbol_takes(signature: &Signature, kind: SymbolKind, number: u32, count: u64) -> bool
    ensures { result ≡ takes (slice_get (symbols_of kind signature.now) number) count }
{
    match symbol(signature, kind, number) {
        Some(symbol) => symbol.arity as u64 == count,
        None => false,
    }
}

/// Whether the term is over the signature.
#[cycle(is_known)]
#[tactic(auto, using(crate::proofs::ValidityTests::count_is))]
fn is_known_term(term: &Term, signature: &Signature) -> bool
    ensures { result ≡ is_known signature.now (term_value term.now) }
{
    match term {
        Term::Var(_) => true,
        Term::App { f, args } => {
            symbol_takes(signature, SymbolKind::Function, *f, args.len())
                && are_known_terms(args, signature)
        }
    }
}

/// Whether the terms are over the signature.
#[cycle(is_known)]
fn are_known_terms(terms: &Terms, signature: &Signature) -> bool
    ensures { result ≡ are_known signature.now (arguments_of terms.now.items) }
{
    for k in 0..terms.len() {
        let Some(term) = terms.get(k) else {
            unreachable!();
        };
        if !is_known_term(term, signature) {
            return false;
        }
    }
    true
}

/// Whether the atom is over the signature.
#[tactic(auto, using(crate::proofs::ValidityTests::count_is))]
fn is_known(atom: &Atom, signature: &Signature) -> bool
    ensures { result ≡ is_known_atom signature.now atom.now }
{
    symbol_takes(signature, SymbolKind::Predicate, atom.pred, atom.args.len())
        && are_known_terms(&atom.args, signature)
}

/// Whether the literals are over the signature.
fn are_known(literals: &[Literal], signature: &Signature) -> bool
    ensures { result ≡ list_all (λ l. is_known_atom signature.now l.atom) literals.now }
{
    for literal in literals {
        if !is_known(&literal.atom, signature) {
            return false;
        }
    }
    true
}

/// Whether the variables of the literals are numbered by first occurrence.
#[tactic(auto, using(crate::proofs::ValidityTests::numbered_test))]
fn are_numbered(literals: &[Literal]) -> bool
    ensures { result ≡ is_numbered_from 0 (clause_variables literals.now) }
{
    variable_count(literals).is_some()
}

fn printable(byte: u8) -> bool
    ensures { result ≡ is_printable byte }
{
    byte >= 32 && byte <= 126
}

fn digit(byte: u8) -> bool
    ensures { result ≡ is_digit byte }
{
    byte >= b'0' && byte <= b'9'
}

fn all_printable(text: &[u8]) -> bool
    ensures { result ≡ list_all is_printable text.now }
{
    text.iter().all(|byte| printable(*byte))
}

fn all_digits(text: &[u8]) -> bool
    ensures { result ≡ list_all is_digit text.now }
{
    text.iter().all(|byte| digit(*byte))
}

/// Whether a label of this form can have the text.
fn is_readable_as(form: Form, text: &[u8]) -> bool
    ensures { result ≡ tests.readable_as form text.now }
{
    match (form, text) {
        (Form::Distinct, text) => all_printable(text),
        (_, []) => false,
        (Form::Word, text) => all_printable(text),
        (Form::Number, text) => all_digits(text),
    }
}

/// Whether a file can have the label.
fn is_readable(label: &Label) -> bool
    ensures { result ≡ tests.readable label.now }
{
    is_readable_as(label.form, label.text.as_slice())
}

/// Whether a formula of a file can have the label.
fn is_clause_label(label: &Label) -> bool
    ensures { result ≡ tests.clause_label label.now }
{
    is_readable(label) && label.form != Form::Distinct
}

fn is_function(symbol: &Symbol) -> bool
    ensures { result ≡ tests.function_symbol symbol.now }
{
    is_readable(&symbol.label)
        && match symbol.label.form {
            Form::Word => true,
            Form::Distinct => symbol.arity == 0,
            Form::Number => false,
        }
}

fn is_predicate(symbol: &Symbol) -> bool
    ensures { result ≡ tests.predicate_symbol symbol.now }
{
    is_readable(&symbol.label) && symbol.label.form == Form::Word
}

/// Whether a file can have the symbol.
fn is_symbol(symbol: &Symbol, kind: SymbolKind) -> bool
    ensures { result ≡ tests.is_symbol kind symbol.now }
{
    match kind {
        SymbolKind::Function => is_function(symbol),
        SymbolKind::Predicate => is_predicate(symbol),
    }
}

fn is_symbol_at(signature: &Signature, kind: SymbolKind, number: u32) -> bool
    ensures { result ≡ tests.has (tests.is_symbol kind) (slice_get (symbols_of kind signature.now) number) }
{
    match symbol(signature, kind, number) {
        Some(symbol) => is_symbol(symbol, kind),
        None => false,
    }
}

fn are_symbols(signature: &Signature, kind: SymbolKind) -> bool
    ensures { result ≡ list_all (tests.is_symbol kind) (symbols_of kind signature.now) }
{
    'symbols: for number in 0..symbol_count(signature, kind) {
        if !is_symbol_at(signature, kind, number) {
            return false;
        }
    }
    true
}

/// Whether the clause is valid over the signature.
fn is_valid_clause(clause: &Clause, signature: &Signature) -> bool
    ensures { result ≡ tests.valid_clause signature.now clause.now }
{
    let literals = clause.literals.as_slice();
    are_known(literals, signature)
        && are_numbered(literals)
        && is_clause_label(&clause.label)
        && clause.literals.len() < u32::MAX as u64
}

fn are_valid(clauses: &[Clause], signature: &Signature) -> bool
    ensures { result ≡ list_all (tests.valid_clause signature.now) clauses.now }
{
    for clause in clauses {
        if !is_valid_clause(clause, signature) {
            return false;
        }
    }
    true
}

/// Whether the problem passes the tests of validity.
fn passes_tests(problem: &Problem) -> bool
    ensures { result ≡ tests.valid_problem problem.now }
{
    are_valid(problem.clauses.as_slice(), &problem.signature)
        && problem.clauses.len() < u32::MAX as u64
        && are_symbols(&problem.signature, SymbolKind::Function)
        && are_symbols(&problem.signature, SymbolKind::Predicate)
        && symbol_takes(&problem.signature, SymbolKind::Function, problem.c0, 0)
}

/// Whether numbers and arities agree with the signature, variables are numbered by first occurrence in
/// each clause, a file can have each label, `c0` is a constant, and neither clauses nor literals are too
/// many for a number. It takes no memory.
pub fn is_valid(problem: &Problem) -> bool
    ensures { IsTrue result ↔ IsValid problem.now }
{
    passes_tests(problem)
}
