//! Literals in which each variable becomes one constant.
//!
//! It is a copy in depth with a stack of its own, so that the terms may be as deep as there is memory.
ghost use Rattle.std.specs.Prelude.{◌≡◌, IfOk};
ghost use Rattle.me_terms.specs.Terms.{arguments_of};
ghost use Rattle.me_terms.specs.Substitutions.{apply_arguments, apply_atom, apply_literal};
ghost use Rattle.me_terms.specs.ListedInstances.{constant};

use me_terms::{Atom, Literal, Term, Terms};
use std::alloc::{AllocError, Global};

/// A term of which some arguments are filled: its function, those arguments, and those behind the one that
/// is being filled.
#[derive(Drop)]
pub(crate) struct Filling<'a> {
    f: u32,
    made: Terms,
    rest: &'a [Term],
}

/// Equal terms, but for the constant in place of each variable.
fn filled_all(alloc: Global, terms: &Terms, c0: u32) -> Result<Terms, AllocError>
    ensures { IfOk result (λ form. arguments_of form.items ≡ apply_arguments (λ x. constant c0) (arguments_of terms.now.items)) }
{
    let mut above: Vec<Filling<'_>> = Vec::new(alloc);
    let mut rest = terms.as_slice();
    let mut made = Terms::with_capacity(alloc, terms.len())?;
    'terms: loop {
        if let Some((first, others)) = rest.split_first() {
            match first {
                Term::Var(_) => {
                    let args = Terms::new(alloc);
                    if made.push(Term::App { f: c0, args }).is_err() {
                        return Err(AllocError);
                    }
                    rest = others;
                }
                Term::App { f, args } => {
                    above.push(Filling {
                        f: *f,
                        made,
                        rest: others,
                    })?;
                    made = Terms::with_capacity(alloc, args.len())?;
                    rest = args.as_slice();
                }
            }
        } else {
            let Some(frame) = above.pop() else {
                return Ok(made);
            };
            let Filling {
                f,
                made: before,
                rest: others,
            } = frame;
            let args = made;
            made = before;
            if made.push(Term::App { f, args }).is_err() {
                return Err(AllocError);
            }
            rest = others;
        }
    }
}

fn filled_atom(alloc: Global, atom: &Atom, c0: u32) -> Result<Atom, AllocError>
    ensures { IfOk result (λ form. form ≡ apply_atom (λ x. constant c0) atom.now) }
{
    Ok(Atom {
        pred: atom.pred,
        args: filled_all(alloc, &atom.args, c0)?,
    })
}

/// The literal with the constant for each variable.
pub(crate) fn filled_literal(alloc: Global, lit: &Literal, c0: u32) -> Result<Literal, AllocError>
    ensures { IfOk result (λ form. form ≡ apply_literal (λ x. constant c0) lit.now) }
{
    Ok(Literal {
        positive: lit.positive,
        atom: filled_atom(alloc, &lit.atom, c0)?,
    })
}
