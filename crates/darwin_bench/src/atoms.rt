//! Generated pairs of atoms with variables, of which the second of a pair is an instance of the first.
//!
//! Each pair has a most general unifier too, after the pairs before it, where both atoms have the
//! variables of one space.
use me_terms::{Atom, Term, Terms};
use std::alloc::{AllocError, Global};

/// How the pairs look, of a size `n`.
#[derive(Clone, Copy)]
pub(crate) enum Shape {
    /// `p(X1,..,Xn)` and `p(a,..,a)`.
    Flat,
    /// `p(f(..f(X)..))` and `p(f(..f(a)..))`, with `n` symbols `f`.
    Deep,
    /// `p(X1)` and `p(f(X0,X0))`, then `p(X2)` and `p(f(X1,X1))`, and so on, `n` pairs.
    Doubling,
}

/// Two atoms.
#[derive(Drop)]
pub(crate) struct Pair {
    pub left: Atom,
    pub right: Atom,
}

/// The list with one more term.
fn with(terms: Terms, term: Term) -> Result<Terms, AllocError> {
    let mut terms = terms;
    match terms.push(term) {
        Ok(()) => Ok(terms),
        Err(_) => Err(AllocError),
    }
}

/// The constant `a`.
fn constant(alloc: Global) -> Term {
    Term::App {
        f: 0,
        args: Terms::new(alloc),
    }
}

/// `p` of the arguments.
fn atom(args: Terms) -> Atom {
    Atom { pred: 0, args }
}

/// `p` of one argument.
fn unary(alloc: Global, term: Term) -> Result<Atom, AllocError> {
    Ok(atom(with(Terms::new(alloc), term)?))
}

/// `p(X1,..,Xn)` and `p(a,..,a)`.
fn flat(alloc: Global, n: u32) -> Result<Pair, AllocError> {
    let mut variables = Terms::new(alloc);
    let mut constants = Terms::new(alloc);
    for x in 0..n {
        variables = with(variables, Term::Var(x))?;
        constants = with(constants, constant(alloc))?;
    }
    Ok(Pair {
        left: atom(variables),
        right: atom(constants),
    })
}

/// A term in `n` symbols `f` of one argument.
fn nested(alloc: Global, term: Term, n: u32) -> Result<Term, AllocError> {
    let mut term = term;
    for _ in 0..n {
        let args = with(Terms::new(alloc), term)?;
        term = Term::App { f: 1, args };
    }
    Ok(term)
}

/// `p(f(..f(X)..))` and `p(f(..f(a)..))`.
fn deep(alloc: Global, n: u32) -> Result<Pair, AllocError> {
    Ok(Pair {
        left: unary(alloc, nested(alloc, Term::Var(0), n)?)?,
        right: unary(alloc, nested(alloc, constant(alloc), n)?)?,
    })
}

/// `p` of the variable after that of number `x`, and of the pair `f` of that one with itself.
fn link(alloc: Global, x: u32) -> Result<Pair, AllocError> {
    let args = with(with(Terms::new(alloc), Term::Var(x))?, Term::Var(x))?;
    Ok(Pair {
        left: unary(alloc, Term::Var(x.saturating_add(1)))?,
        right: unary(alloc, Term::App { f: 2, args })?,
    })
}

fn doubling(alloc: Global, n: u32) -> Result<Vec<Pair>, AllocError> {
    let mut pairs = Vec::new(alloc);
    for x in 0..n {
        pairs.push(link(alloc, x)?)?;
    }
    Ok(pairs)
}

/// The pairs of a shape and a size.
pub(crate) fn pairs_of(alloc: Global, shape: Shape, n: u32) -> Result<Vec<Pair>, AllocError> {
    match shape {
        Shape::Flat => Ok(vec![in alloc; flat(alloc, n)?]?),
        Shape::Deep => Ok(vec![in alloc; deep(alloc, n)?]?),
        Shape::Doubling => doubling(alloc, n),
    }
}
