//! The literals of flattened clauses.
//!
//! A term becomes a literal that its variable is no value of its function, and a literal of the clause has
//! variables in the place of its arguments.
ghost use Rattle.std.specs.Prelude.{◌≡◌, ◌+◌, ◌<◌, ◌^◌, ◌++◌, map, length, OnOk, IfOk};
ghost use Rattle.std.specs.List.{range_with_len};
ghost use Rattle.me_terms.specs.TermViews.{term_value};
ghost use Rattle.me_terms.specs.Terms.{Var as VarTerm};
ghost use Rattle.me_terms.specs.Measures.{literals_weight};
ghost use Rattle.finite_domain.specs.Names.{variable_of as name_of};
ghost use Rattle.finite_domain.specs.Flat as flat;

use crate::naming::{applied_terms, named_terms, variable_of};
use crate::subterm::{Subterm, arguments, symbol};
use crate::symbols::place;
use indexmap::IndexSet;
use me_terms::{Atom, Literal, Literals, Term, Terms};
use std::alloc::{AllocError, Global};

/// The variables of the terms, in a list that has room for one term more.
fn variables(
    alloc: Global,
    names: &IndexSet<Subterm<'_>>,
    terms: &[Term],
) -> Result<Terms, AllocError>
    requires { length names.now.keys < 2 ^ 32 }
    ensures { IfOk result (λ made. made.items ≡ map (λ t. name_of names.now.keys (term_value t)) terms.now) }
{
    let mut made = Terms::new(alloc);
    'terms: for term in terms {
        if made.push(variable_of(names, term)).is_err() {
            return Err(AllocError);
        }
    }
    Ok(made)
}

/// The literal that the term's variable is no value of its function.
fn term_literal(
    alloc: Global,
    names: &IndexSet<Subterm<'_>>,
    term: &Term,
) -> Result<Literal, AllocError>
    requires { length names.now.keys < 2 ^ 32 }
    ensures { IfOk result (λ l. l ≡ flat.term_literal names.now.keys (term_value term.now)) }
{
    let mut args = variables(alloc, names, arguments(term))?;
    if args.push(variable_of(names, term)).is_err() {
        return Err(AllocError);
    }
    Ok(Literal {
        positive: false,
        atom: Atom {
            pred: symbol(term),
            args,
        },
    })
}

/// The atom with variables as its arguments, of the predicate's copy.
fn own_atom(
    alloc: Global,
    relations: u32,
    order: &IndexSet<u32>,
    names: &IndexSet<Subterm<'_>>,
    atom: &Atom,
) -> Result<Atom, AllocError>
    requires names { length names.now.keys < 2 ^ 32 }
    requires room { relations + length order.now.keys < 2 ^ 32 }
    ensures { IfOk result (λ own. own ≡ flat.own_atom relations order.now.keys names.now.keys atom.now) }
{
    let args = variables(alloc, names, atom.args.as_slice())?;
    Ok(Atom {
        pred: relations + place(order, atom.pred) as u32,
        args,
    })
}

/// The literal of the clause, with variables as its arguments.
fn own_literal(
    alloc: Global,
    relations: u32,
    order: &IndexSet<u32>,
    names: &IndexSet<Subterm<'_>>,
    literal: &Literal,
) -> Result<Literal, AllocError>
    requires names { length names.now.keys < 2 ^ 32 }
    requires room { relations + length order.now.keys < 2 ^ 32 }
    ensures { IfOk result (λ l. l ≡ flat.own_literal relations order.now.keys names.now.keys literal.now) }
{
    Ok(Literal {
        positive: literal.positive,
        atom: own_atom(alloc, relations, order, names, &literal.atom)?,
    })
}

/// The literals of the terms.
fn term_literals(
    alloc: Global,
    names: &IndexSet<Subterm<'_>>,
    terms: &IndexSet<Subterm<'_>>,
) -> Result<Literals, AllocError>
    requires { length names.now.keys < 2 ^ 32 }
    ensures { IfOk result (λ made. made.items ≡ map (flat.term_literal names.now.keys) terms.now.keys) }
{
    let mut made = Literals::new(alloc);
    'terms: for subterm in terms.as_slice() {
        let literal = term_literal(alloc, names, subterm.term())?;
        if made.push(literal).is_err() {
            return Err(AllocError);
        }
    }
    Ok(made)
}

/// Adds the literals of the clause.
fn add_own(
    alloc: Global,
    relations: u32,
    order: &IndexSet<u32>,
    names: &IndexSet<Subterm<'_>>,
    literals: &[Literal],
    made: &mut Literals,
) -> Result<(), AllocError>
    requires names { length names.now.keys < 2 ^ 32 }
    requires room { relations + length order.now.keys < 2 ^ 32 }
    ensures { OnOk result (made.new.items ≡ made.old.items ++ map (flat.own_literal relations order.now.keys names.now.keys) literals.now) }
{
    'literals: for literal in literals {
        let own = own_literal(alloc, relations, order, names, literal)?;
        if made.push(own).is_err() {
            return Err(AllocError);
        }
    }
    Ok(())
}

/// The clause, flattened: the literals of its terms, and then its own.
pub(crate) fn flat_literals(
    alloc: Global,
    relations: u32,
    order: &IndexSet<u32>,
    literals: &[Literal],
) -> Result<Literals, AllocError>
    requires light { literals_weight literals.now < 2 ^ 31 }
    requires room { relations + length order.now.keys < 2 ^ 32 }
    ensures { IfOk result (λ made. made.items ≡ flat.flat_literals relations order.now.keys literals.now) }
{
    let terms = applied_terms(alloc, literals)?;
    let names = named_terms(alloc, &terms, literals)?;
    let mut made = term_literals(alloc, &names, &terms)?;
    add_own(alloc, relations, order, &names, literals, &mut made)?;
    Ok(made)
}

/// The first variables, in a list that has room for one term more.
fn first_variables(alloc: Global, arity: u32) -> Result<Terms, AllocError>
    ensures { IfOk result (λ made. made.items ≡ map VarTerm (range_with_len 0 arity)) }
{
    let mut made = Terms::new(alloc);
    made.reserve(arity as u64 + 1)?;
    'variables: for x in 0..arity {
        if made.push(Term::Var(x)).is_err() {
            return Err(AllocError);
        }
    }
    Ok(made)
}

/// The relation of function `j` for the first variables as arguments, and an element as the value.
fn value_literal(alloc: Global, j: u32, arity: u32, element: u32) -> Result<Literal, AllocError>
    ensures { IfOk result (λ l. l ≡ flat.value_literal j arity element) }
{
    let mut args = first_variables(alloc, arity)?;
    let value = Term::App {
        f: element,
        args: Terms::new(alloc),
    };
    if args.push(value).is_err() {
        return Err(AllocError);
    }
    Ok(Literal {
        positive: true,
        atom: Atom { pred: j, args },
    })
}

/// The literals that function `j` has one of `n` elements as its value.
pub(crate) fn totality(alloc: Global, n: u32, j: u32, arity: u32) -> Result<Literals, AllocError>
    ensures { IfOk result (λ made. made.items ≡ flat.totality n j arity) }
{
    let mut made = Literals::new(alloc);
    'elements: for element in 0..n {
        let literal = value_literal(alloc, j, arity, element)?;
        if made.push(literal).is_err() {
            return Err(AllocError);
        }
    }
    Ok(made)
}
