//! Canonical forms: a literal with its variables numbered from 0 in the order in which they first stand.
//!
//! One pass over the literal. Two literals of one sign are variants exactly where their canonical forms
//! are equal.
ghost use Rattle.std.specs.Prelude.{◌≡◌, ℕ, ◌<◌, ◌^◌, ◌++◌, ◌∷◌, [], List, OnOk, IfOk, nat_eq};
ghost use Rattle.std.specs.List.{All};
ghost use Rattle.me_terms.specs.TermViews.{term_value};
ghost use Rattle.me_terms.specs.Terms.{arguments_of};
ghost use Rattle.me_terms.specs.Substitutions.{apply_term, apply_arguments};
ghost use Rattle.me_terms.specs.Variables.{term_variables, variables_of, first_ones, place_of, canonical as canonical_atom};
ghost use Rattle.me_terms.specs.Measures.{canonical_literal};
ghost use Rattle.me_terms.specs.Names.{by_place};

use crate::atom::{Atom, Literal};
use crate::term::{Term, Terms};
use indexmap::IndexSet;
use std::alloc::{AllocError, Global};

/// The variant of a literal whose variables are numbered 0, 1, .. by first occurrence.
pub fn canonical(alloc: Global, lit: &Literal) -> Result<Literal, AllocError>
    ensures { IfOk result (λ form. form ≡ canonical_literal lit.now) }
{
    let mut names = IndexSet::new(alloc);
    Ok(Literal {
        positive: lit.positive,
        atom: numbered_atom(alloc, &mut names, &lit.atom)?,
    })
}

fn numbered_atom(alloc: Global, names: &mut IndexSet<u32>, atom: &Atom) -> Result<Atom, AllocError>
    requires { names.old.keys ≡ [] }
    ensures { IfOk result (λ form. form ≡ canonical_atom atom.now) }
{
    Ok(Atom {
        pred: atom.pred,
        args: numbered_all(alloc, names, &atom.args)?,
    })
}

/// The number of a variable, which is the next one where it is new. As names differ and are words of 32
/// bits, so is each place.
fn number(names: &mut IndexSet<u32>, x: u32) -> Result<u32, AllocError>
    requires { All (λ y. y < 2 ^ 32) names.old.keys }
    ensures names { OnOk result (names.new.keys ≡ first_ones names.old.keys (x ∷ [])) }
    ensures number { IfOk result (λ n. (later : List ℕ) → n ≡ place_of x (names.new.keys ++ later)) }
    ensures small { OnOk result (All (λ y. y < 2 ^ 32) names.new.keys) }
{
    match names.insert_full(x) {
        Ok((place, _)) => Ok(place as u32),
        Err(_) => Err(AllocError),
    }
}

#[cycle(numbered)]
fn numbered(alloc: Global, names: &mut IndexSet<u32>, term: &Term) -> Result<Term, AllocError>
    requires { All (λ y. y < 2 ^ 32) names.old.keys }
    ensures names { OnOk result (names.new.keys ≡ first_ones names.old.keys (term_variables (term_value term.now))) }
    ensures term { IfOk result (λ form. (later : List ℕ) → term_value form ≡ apply_term (by_place (names.new.keys ++ later)) (term_value term.now)) }
    ensures small { OnOk result (All (λ y. y < 2 ^ 32) names.new.keys) }
{
    match term {
        Term::Var(x) => Ok(Term::Var(number(names, *x)?)),
        Term::App { f, args } => Ok(Term::App {
            f: *f,
            args: numbered_all(alloc, names, args)?,
        }),
    }
}

#[cycle(numbered)]
fn numbered_all(
    alloc: Global,
    names: &mut IndexSet<u32>,
    terms: &Terms,
) -> Result<Terms, AllocError>
    requires { All (λ y. y < 2 ^ 32) names.old.keys }
    ensures names { OnOk result (names.new.keys ≡ first_ones names.old.keys (variables_of (arguments_of terms.now.items))) }
    ensures terms { IfOk result (λ form. (later : List ℕ) → arguments_of form.items ≡ apply_arguments (by_place (names.new.keys ++ later)) (arguments_of terms.now.items)) }
    ensures small { OnOk result (All (λ y. y < 2 ^ 32) names.new.keys) }
{
    let mut made = Terms::with_capacity(alloc, terms.len())?;
    for k in 0..terms.len() {
        let Some(term) = terms.get(k) else {
            unreachable!();
        };
        let form = numbered(alloc, names, term)?;
        let Ok(()) = made.push(form) else {
            return Err(AllocError);
        };
    }
    Ok(made)
}
