//! Contexts of many entries: `~v, ~p0(c0), ~p1(c0), .., ~p0(c1), ~p1(c1), ..`.
ghost use Rattle.std.specs.Prelude.{◌≡◌, ◌<◌, IfOk};
ghost use Rattle.me_terms.specs.TermViews.{term_value};
ghost use Rattle.me_terms.specs.Terms as tree;

use anyhow::{Result, bail};
use joint_unifiers::is_contradictory;
use me_terms::{
    Atom, Entry, Kind, Literal, MAX_ENTRIES, Pattern, Reason, Term, Terms, Trunk, View,
};
use std::alloc::{AllocError, Global};

/// A constant.
fn constant(alloc: Global, f: u32) -> Term
    ensures { term_value result ≡ tree.App f tree.Nil }
{
    Term::App {
        f,
        args: Terms::new(alloc),
    }
}

/// An atom of one argument.
pub(crate) fn unary(alloc: Global, pred: u32, term: Term) -> Result<Atom, AllocError>
    ensures { IfOk result (λ a. a ≡ record { pred = pred; args = tree.Cons (term_value term) tree.Nil }) }
{
    let mut args = Terms::new(alloc);
    match args.push(term) {
        Ok(()) => Ok(Atom { pred, args }),
        Err(_) => Err(AllocError),
    }
}

/// Puts the denial of a predicate of a constant at the end of the context.
#[tactic(auto, using(crate::proofs::Entries::constant_literal))]
fn deny<T: Trunk>(alloc: Global, context: &mut T, pred: u32, f: u32) -> Result<()> {
    let literal = Literal {
        positive: false,
        atom: unary(alloc, pred, constant(alloc, f))?,
    };
    if context.len() >= MAX_ENTRIES
        || is_contradictory(alloc, context, &literal, Kind::Universal)?
    {
        bail!("the context does not take so many entries");
    }
    let entry = Entry {
        positive: false,
        atom: Pattern::Of(literal.atom),
        kind: Kind::Universal,
        reason: Reason::SplitRight,
    };
    match context.extend(entry) {
        Ok(()) => Ok(()),
        Err(_) => bail!("memory is out"),
    }
}

/// Puts so many entries at the end, which deny so many predicates of one constant after another.
pub(crate) fn deny_all<T: Trunk>(
    alloc: Global,
    context: &mut T,
    predicates: u32,
    entries: u32,
) -> Result<()>
    requires { 0 < predicates }
{
    for k in 0..entries {
        deny(alloc, context, k % predicates, k / predicates)?;
    }
    Ok(())
}
