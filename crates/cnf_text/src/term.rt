//! Terms and atoms as text.
//!
//! A symbol is printed by its label in the signature, with its arguments in round brackets. Terms may be
//! deep, so what waits for its turn stands in a list.
ghost use Rattle.std.specs.Prelude.{◌≡◌, ◌<◌, ◌++◌, codes, decimal, map, slice_get, OnOk, OnErr, IfOk};
ghost use Rattle.std.specs.Io.{StartsWith};
ghost use Rattle.me_terms.specs.TermViews.{term_value};
ghost use Rattle.me_terms.specs.Terms.{arguments_of};
ghost use Rattle.me_terms.specs.Variables.{weight, weights};
ghost use Rattle.cnf_text.specs.ClauseText.{symbol_text, term_text, arguments_text, atom_text};

use crate::label::{push_label, push_number};
use me_terms::{Atom, Signature, Term, Terms};
use std::alloc::AllocError;

/// Arguments that wait while one before them is printed.
#[derive(Clone, Copy)]
struct Others<'a> {
    terms: &'a [Term],
}

/// Puts the variable at the end.
fn push_variable(out: &mut Vec<u8>, x: u32) -> Result<(), AllocError>
    ensures ok { OnOk result (out.new.items ≡ out.old.items ++ (codes "X" ++ decimal x)) }
    ensures err { OnErr result (StartsWith out.new.items out.old.items) }
{
    out.extend_from_slice(b"X")?;
    push_number(out, u64::from(x))
}

/// Puts the label of function `f` at the end.
fn push_function(out: &mut Vec<u8>, signature: &Signature, f: u32) -> Result<(), AllocError>
    ensures ok { OnOk result (out.new.items ≡ out.old.items ++ symbol_text (slice_get signature.now.functions f)) }
    ensures err { OnErr result (StartsWith out.new.items out.old.items) }
{
    match signature.fun(f) {
        Some(symbol) => push_label(out, &symbol.label),
        None => Ok(()),
    }
}

/// Puts the label of predicate `p` at the end.
fn push_predicate(out: &mut Vec<u8>, signature: &Signature, p: u32) -> Result<(), AllocError>
    ensures ok { OnOk result (out.new.items ≡ out.old.items ++ symbol_text (slice_get signature.now.predicates p)) }
    ensures err { OnErr result (StartsWith out.new.items out.old.items) }
{
    match signature.pred(p) {
        Some(symbol) => push_label(out, &symbol.label),
        None => Ok(()),
    }
}

/// Puts the term without its arguments at the end, and gives these.
fn push_head<'a>(
    out: &mut Vec<u8>,
    signature: &Signature,
    term: &'a Term,
) -> Result<&'a [Term], AllocError>
    ensures ok { IfOk result (λ args. out.new.items ++ arguments_text signature.now (arguments_of (map term_value args.now)) ≡ out.old.items ++ term_text signature.now (term_value term.now)) }
    ensures lighter { IfOk result (λ args. weights (arguments_of (map term_value args.now)) < weight (term_value term.now)) }
    ensures kept { StartsWith out.new.items out.old.items }
{
    match term {
        Term::Var(x) => {
            push_variable(out, *x)?;
            Ok(&[])
        }
        Term::App { f, args } => {
            push_function(out, signature, *f)?;
            Ok(args.as_slice())
        }
    }
}

/// Puts the arguments at the end, in round brackets, or nothing where there is none.
fn push_arguments(out: &mut Vec<u8>, signature: &Signature, args: &Terms) -> Result<(), AllocError>
    ensures ok { OnOk result (out.new.items ≡ out.old.items ++ arguments_text signature.now (arguments_of args.now.items)) }
    ensures err { OnErr result (StartsWith out.new.items out.old.items) }
{
    if args.is_empty() {
        return Ok(());
    }
    let mut later: Vec<Others<'_>> = Vec::new(*out.allocator());
    let mut terms = args.as_slice();
    let mut separator = b'(';
    'terms: loop {
        if let Some((first, others)) = terms.split_first() {
            out.push(separator)?;
            let inner = push_head(out, signature, first)?;
            if inner.is_empty() {
                terms = others;
                separator = b',';
            } else {
                later.push(Others { terms: others })?;
                terms = inner;
                separator = b'(';
            }
        } else {
            out.push(b')')?;
            let Some(next) = later.pop() else {
                return Ok(());
            };
            terms = next.terms;
            separator = b',';
        }
    }
}

/// Puts the atom at the end.
pub fn push_atom(out: &mut Vec<u8>, signature: &Signature, atom: &Atom) -> Result<(), AllocError>
    ensures ok { OnOk result (out.new.items ≡ out.old.items ++ atom_text signature.now atom.now) }
    ensures err { OnErr result (StartsWith out.new.items out.old.items) }
{
    push_predicate(out, signature, atom.pred)?;
    push_arguments(out, signature, &atom.args)
}
