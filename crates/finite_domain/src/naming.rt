//! Which terms of a clause get variables, and which variables.
//!
//! One walk finds the terms that are no variables, a term before its arguments. The variables are then
//! numbered by the first occurrence of their terms in the flattened clause.
ghost use Rattle.std.specs.Prelude.{◌≡◌, ◌<◌, ◌≤◌, ◌^◌, ◌∷◌, [], map, length, OnOk, IfOk};
ghost use Rattle.std.specs.List.{flat_map, position_or_len};
ghost use Rattle.me_terms.specs.TermViews.{term_value};
ghost use Rattle.me_terms.specs.TermEquality.{same_term};
ghost use Rattle.me_terms.specs.Terms.{arguments_of, list_of};
ghost use Rattle.finite_domain.specs.Names as naming;

use crate::subterm::{Subterm, arguments, atom_arguments};
use indexmap::IndexSet;
use me_terms::{Literal, Term};
use std::alloc::{AllocError, Global};

/// Puts the term at the end, where it does not stand among them yet.
fn note<'a>(found: &mut IndexSet<Subterm<'a>>, term: &'a Term) -> Result<(), AllocError>
    ensures { OnOk result (found.new.keys ≡ naming.first_terms found.old.keys (term_value term.now ∷ [])) }
{
    match found.insert(Subterm::new(term)) {
        Ok(_) => Ok(()),
        Err(_) => Err(AllocError),
    }
}

/// Puts those of the terms at the end that do not stand among them yet.
fn note_all<'a>(found: &mut IndexSet<Subterm<'a>>, terms: &'a [Term]) -> Result<(), AllocError>
    ensures { OnOk result (found.new.keys ≡ naming.first_terms found.old.keys (map term_value terms.now)) }
{
    'terms: for term in terms {
        note(found, term)?;
    }
    Ok(())
}

/// Notes the parts of the term that are no variables.
#[cycle(walk)]
fn walk<'a>(found: &mut IndexSet<Subterm<'a>>, term: &'a Term) -> Result<(), AllocError>
    ensures { OnOk result (found.new.keys ≡ naming.first_terms found.old.keys (naming.applied_in (term_value term.now))) }
{
    match term {
        Term::Var(_) => Ok(()),
        Term::App { f: _, args } => {
            note(found, term)?;
            walk_all(found, args.as_slice())
        }
    }
}

#[cycle(walk)]
fn walk_all<'a>(found: &mut IndexSet<Subterm<'a>>, terms: &'a [Term]) -> Result<(), AllocError>
    ensures { OnOk result (found.new.keys ≡ naming.first_terms found.old.keys (naming.applied_in_all (arguments_of (map term_value terms.now)))) }
{
    'terms: for term in terms {
        walk(found, term)?;
    }
    Ok(())
}

/// The different terms of the clause that are no variables.
pub(crate) fn applied_terms<'a>(
    alloc: Global,
    literals: &'a [Literal],
) -> Result<IndexSet<Subterm<'a>>, AllocError>
    ensures { IfOk result (λ terms. terms.keys ≡ naming.applied_terms literals.now) }
{
    let mut found = IndexSet::new(alloc);
    'literals: for literal in literals {
        walk_all(&mut found, atom_arguments(&literal.atom))?;
    }
    Ok(found)
}

/// Notes the arguments of each term, and then the term.
fn note_values<'a>(
    names: &mut IndexSet<Subterm<'a>>,
    terms: &IndexSet<Subterm<'a>>,
) -> Result<(), AllocError>
    ensures { OnOk result (names.new.keys ≡ naming.first_terms names.old.keys (flat_map naming.with_value terms.now.keys)) }
{
    'terms: for subterm in terms.as_slice() {
        let term = subterm.term();
        note_all(names, arguments(term))?;
        note(names, term)?;
    }
    Ok(())
}

/// Notes the arguments of the literals.
fn note_own<'a>(
    names: &mut IndexSet<Subterm<'a>>,
    literals: &'a [Literal],
) -> Result<(), AllocError>
    ensures { OnOk result (names.new.keys ≡ naming.first_terms names.old.keys (flat_map (λ l. list_of l.atom.args) literals.now)) }
{
    'literals: for literal in literals {
        note_all(names, atom_arguments(&literal.atom))?;
    }
    Ok(())
}

/// The different terms for which the flattened clause has variables, in the order of these.
pub(crate) fn named_terms<'a>(
    alloc: Global,
    terms: &IndexSet<Subterm<'a>>,
    literals: &'a [Literal],
) -> Result<IndexSet<Subterm<'a>>, AllocError>
    ensures { IfOk result (λ names. names.keys ≡ naming.named_terms terms.now.keys literals.now) }
{
    let mut names = IndexSet::new(alloc);
    note_values(&mut names, terms)?;
    note_own(&mut names, literals)?;
    Ok(names)
}

/// The term's place among those that are named.
fn place(names: &IndexSet<Subterm<'_>>, term: &Term) -> usize
    ensures place { result ≡ position_or_len (same_term (term_value term.now)) names.now.keys }
    ensures within { result ≤ length names.now.keys }
{
    match names.get_index_of(&Subterm::new(term)) {
        Some(place) => place,
        None => names.len(),
    }
}

/// The variable of the term.
pub(crate) fn variable_of(names: &IndexSet<Subterm<'_>>, term: &Term) -> Term
    requires { length names.now.keys < 2 ^ 32 }
    ensures { term_value result ≡ naming.variable_of names.now.keys (term_value term.now) }
{
    Term::Var(place(names, term) as u32)
}
