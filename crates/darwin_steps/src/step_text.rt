//! A step of the search as a line of text.
//!
//! A line tells the rule, the literal with its kind and position, and the clause, place and positions that it
//! follows from. It is the text that `specs/StepText` defines, byte for byte.
ghost use Rattle.std.specs.Prelude.{◌≡◌, ◌++◌, OnOk};
ghost use Rattle.me_terms.specs.AnswerViews.{next_value};
ghost use Rattle.darwin_steps.specs.StepText as text;

use branch_walk::node_key;
use cnf_text::{push_number, push_signed};
use me_context::Context;
use me_terms::{Atom, Bound, Entry, Kind, Literal, Next, Pattern, Problem, Reason, Signature};
use std::alloc::AllocError;

/// Puts the numbers at the end, a comma before each.
fn push_others(out: &mut Vec<u8>, positions: &[u32]) -> Result<(), AllocError>
    ensures { OnOk result (out.new.items ≡ out.old.items ++ text.commas_text positions.now) }
{
    for position in positions {
        out.extend_from_slice(b",")?;
        push_number(out, u64::from(*position))?;
    }
    Ok(())
}

/// Puts the numbers at the end, in brackets.
fn push_tuple(out: &mut Vec<u8>, positions: &[u32]) -> Result<(), AllocError>
    ensures { OnOk result (out.new.items ≡ out.old.items ++ text.tuple_text positions.now) }
{
    let [first, others @ ..] = positions else {
        return out.extend_from_slice(b"()");
    };
    out.extend_from_slice(b"(")?;
    push_number(out, u64::from(*first))?;
    push_others(out, others)?;
    out.extend_from_slice(b")")
}

/// Puts the number at the end that the clause at a place of the problem has in its file.
fn push_clause_number(out: &mut Vec<u8>, problem: &Problem, clause: u32) -> Result<(), AllocError>
    ensures { OnOk result (out.new.items ≡ out.old.items ++ text.clause_text problem.now clause) }
{
    out.extend_from_slice(b"clause ")?;
    match problem.clauses.get(u64::from(clause)) {
        Some(clause) => push_number(out, u64::from(clause.number)),
        None => Ok(()),
    }
}

/// The word for the kind, behind a blank.
fn kind_words(kind: Kind) -> &'static [u8]
    ensures { result.now ≡ text.kind_text kind }
{
    match kind {
        Kind::Universal => b" universal",
        Kind::Parametric => b" parametric",
    }
}

/// Puts the literal at the end that stands at position `k`, with its kind.
fn push_entry(
    out: &mut Vec<u8>,
    signature: &Signature,
    k: u32,
    positive: bool,
    atom: &Atom,
    kind: Kind,
) -> Result<(), AllocError>
    ensures { OnOk result (out.new.items ≡ out.old.items ++ text.entry_text signature.now k positive atom.now kind) }
{
    out.extend_from_slice(b"e")?;
    push_number(out, u64::from(k))?;
    out.extend_from_slice(b" ")?;
    push_signed(out, signature, positive, atom)?;
    out.extend_from_slice(kind_words(kind))
}

/// Puts the line of an asserted entry at the end.
fn push_assert(
    out: &mut Vec<u8>,
    problem: &Problem,
    k: u32,
    entry: &Entry,
) -> Result<(), AllocError>
    ensures { OnOk result (out.new.items ≡ out.old.items ++ text.assert_text problem.now k entry.now) }
{
    let (
        Pattern::Of(atom),
        Reason::Asserted {
            clause,
            place,
            tuple,
        },
    ) = (&entry.atom, &entry.reason)
    else {
        return Ok(());
    };
    out.extend_from_slice(b"assert ")?;
    push_entry(out, &problem.signature, k, entry.positive, atom, entry.kind)?;
    out.extend_from_slice(b" by ")?;
    push_clause_number(out, problem, *clause)?;
    out.extend_from_slice(b" place ")?;
    push_number(out, u64::from(*place) + 1)?;
    out.extend_from_slice(b" at ")?;
    push_tuple(out, tuple.as_slice())?;
    out.extend_from_slice(b"\n")
}

/// Puts the line of a literal that is split on at the end.
fn push_split(
    out: &mut Vec<u8>,
    signature: &Signature,
    k: u32,
    literal: &Literal,
    kind: Kind,
) -> Result<(), AllocError>
    ensures { OnOk result (out.new.items ≡ out.old.items ++ text.split_text signature.now k literal.now kind) }
{
    out.extend_from_slice(b"split ")?;
    push_entry(out, signature, k, literal.positive, &literal.atom, kind)?;
    out.extend_from_slice(b"\n")
}

/// Puts the line of a clause that closes the branch at the end.
fn push_close(
    out: &mut Vec<u8>,
    problem: &Problem,
    clause: u32,
    positions: &[u32],
) -> Result<(), AllocError>
    ensures { OnOk result (out.new.items ≡ out.old.items ++ text.close_text problem.now clause positions.now) }
{
    out.extend_from_slice(b"close by ")?;
    push_clause_number(out, problem, clause)?;
    out.extend_from_slice(b" at ")?;
    push_tuple(out, positions)?;
    out.extend_from_slice(b"\n")
}

/// Puts the line of the bound that is met at the end.
fn push_bound(out: &mut Vec<u8>, bound: Bound) -> Result<(), AllocError>
    ensures { OnOk result (out.new.items ≡ out.old.items ++ text.bound_text bound) }
{
    let line: &[u8] = match bound {
        Bound::Depth => b"bounded by depth\n",
        Bound::Weight => b"bounded by weight\n",
        Bound::Literals => b"bounded by literals\n",
        Bound::List => b"bounded by list\n",
    };
    out.extend_from_slice(line)
}

/// Puts the line of a next step at the end. What it adds gets position `k`.
pub(crate) fn push_step(
    out: &mut Vec<u8>,
    problem: &Problem,
    k: u32,
    next: &Next,
) -> Result<(), AllocError>
    ensures { OnOk result (out.new.items ≡ out.old.items ++ text.step_text problem.now k (next_value next.now)) }
{
    match next {
        Next::Close { clause, tuple } => push_close(out, problem, *clause, tuple.as_slice()),
        Next::Assert { entry } => push_assert(out, problem, k, entry),
        Next::Split { literal, kind } => push_split(out, &problem.signature, k, literal, *kind),
        Next::Exhausted => out.extend_from_slice(b"exhausted\n"),
        Next::Bounded { bound } => push_bound(out, *bound),
    }
}

/// Puts the line of an entry at position `k` that begins a right branch at the end.
pub(crate) fn push_right(
    out: &mut Vec<u8>,
    signature: &Signature,
    k: u32,
    entry: &Entry,
) -> Result<(), AllocError>
    ensures { OnOk result (out.new.items ≡ out.old.items ++ text.right_text signature.now k entry.now) }
{
    let Pattern::Of(atom) = &entry.atom else {
        return Ok(());
    };
    out.extend_from_slice(b"right ")?;
    push_entry(out, signature, k, entry.positive, atom, entry.kind)?;
    out.extend_from_slice(b"\n")
}

/// Puts the line of the key of the context's leaf at the end.
pub(crate) fn push_key(out: &mut Vec<u8>, context: &Context) -> Result<(), AllocError>
    ensures { OnOk result (out.new.items ≡ out.old.items ++ text.key_text context.now) }
{
    out.extend_from_slice(b"key ")?;
    push_number(out, u64::from(node_key(context)))?;
    out.extend_from_slice(b"\n")
}
