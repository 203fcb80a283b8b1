//! Ground terms over the functions that a problem has of its own.
//!
//! A printed answer may have symbols that its problem has not. They are numbered behind the problem's own.
ghost use Rattle.std.specs.Prelude.{◌≡◌};
ghost use Rattle.std.specs.List.{list_all};
ghost use Rattle.me_terms.specs.Terms.{arguments_of};
ghost use Rattle.me_terms.specs.TermViews.{term_value};
ghost use Rattle.answer_check.specs.Own.{are_own_terms, is_own_term};

use me_terms::{Literal, Term, Terms};

/// Whether the term has no variable, and its functions have numbers below this one.
#[cycle(is_own)]
fn is_own_term(term: &Term, functions: u32) -> bool
    ensures { result ≡ is_own_term functions (term_value term.now) }
{
    match term {
        Term::Var(_) => false,
        Term::App { f, args } => *f < functions && are_own_terms(args, functions),
    }
}

/// Whether this holds of each of the terms.
#[cycle(is_own)]
fn are_own_terms(terms: &Terms, functions: u32) -> bool
    ensures { result ≡ are_own_terms functions (arguments_of terms.now.items) }
{
    for k in 0..terms.len() {
        let Some(term) = terms.get(k) else {
            unreachable!();
        };
        if !is_own_term(term, functions) {
            return false;
        }
    }
    true
}

/// Whether it holds of all arguments of the literals.
pub(crate) fn are_own_literals(literals: &[Literal], functions: u32) -> bool
    ensures { result ≡ list_all (λ l. are_own_terms functions l.atom.args) literals.now }
{
    for literal in literals {
        if !are_own_terms(&literal.atom.args, functions) {
            return false;
        }
    }
    true
}
