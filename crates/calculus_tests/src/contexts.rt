//! Calls on a context: what is added and taken off, what is visible, what is produced, and what is true.
ghost use Rattle.std.specs.Prelude.{◌≡◌, IsTrue};
ghost use Rattle.me_terms.specs.Variables.{are_ground};
ghost use Rattle.me_terms.specs.declared.entry.Kind.TheVariants.{Universal};

use crate::script::{say, say_numbers, say_whether};
use cnf_text::push_number;
use induced_model::{produces, truth_of};
use joint_unifiers::is_contradictory;
use me_context::Context;
use me_terms::{Entry, Kind, Literal, Pattern, Reason, View, canonical, is_ground};
use std::alloc::Global;
use std::test::Fail;

/// The kind of an entry that a literal asks for: one without variables is Universal.
fn kind_for(literal: &Literal, kind: Kind) -> Kind
    ensures { IsTrue (are_ground literal.now.atom.args) → result ≡ Universal }
{
    if is_ground(literal) {
        Kind::Universal
    } else {
        kind
    }
}

/// Puts the literal at the end of the context, unless it contradicts it, which is printed.
pub(crate) fn put(
    alloc: Global,
    context: &mut Context,
    literal: &Literal,
    kind: Kind,
    out: &mut Vec<u8>,
) -> Result<(), Fail> {
    let literal = canonical(alloc, literal)?;
    let kind = kind_for(&literal, kind);
    if context.len() >= 1_000 {
        return Err("too long for a script".into());
    }
    if is_contradictory(alloc, context, &literal, kind)? {
        return say(out, b"contradicts");
    }
    let entry = Entry {
        positive: literal.positive,
        atom: Pattern::Of(literal.atom),
        kind,
        reason: Reason::SplitLeft,
    };
    match context.add(entry) {
        Ok(()) => Ok(()),
        Err(_) => Err("memory".into()),
    }
}

/// Takes the last entry off, and prints whether there was one.
pub(crate) fn pop(context: &mut Context, out: &mut Vec<u8>) -> Result<(), Fail> {
    say_whether(out, context.pop().is_some())
}

/// Prints the positions that are visible.
pub(crate) fn push_visible(context: &Context, out: &mut Vec<u8>) -> Result<(), Fail> {
    let mut first = true;
    for k in 0..context.len() {
        if context.visible(k) {
            push_next(out, k, first)?;
            first = false;
        }
    }
    say(out, b"")
}

fn push_next(out: &mut Vec<u8>, number: u32, is_first: bool) -> Result<(), Fail> {
    if !is_first {
        out.push(b' ')?;
    }
    push_number(out, u64::from(number))?;
    Ok(())
}

/// Prints whether the literal contradicts the context as a Universal one, and as a Parametric one.
pub(crate) fn push_contradicts(
    alloc: Global,
    context: &Context,
    literal: &Literal,
    out: &mut Vec<u8>,
) -> Result<(), Fail> {
    say_whether(
        out,
        is_contradictory(alloc, context, literal, Kind::Universal)?,
    )?;
    say_whether(
        out,
        is_contradictory(alloc, context, literal, Kind::Parametric)?,
    )
}

/// Prints the truth of the atom, and the first position that decides it.
pub(crate) fn push_truth(
    context: &Context,
    literal: &Literal,
    out: &mut Vec<u8>,
) -> Result<(), Fail> {
    let verdict = truth_of(context, &literal.atom);
    out.extend_from_slice(if verdict.value {
        b"true by "
    } else {
        b"false by "
    })?;
    say_numbers(out, &[verdict.entry])
}

/// Prints the positions that produce the literal.
pub(crate) fn push_producers(
    context: &Context,
    literal: &Literal,
    out: &mut Vec<u8>,
) -> Result<(), Fail> {
    let mut first = true;
    for k in 0..context.len() {
        if produces(context, k, literal) {
            push_next(out, k, first)?;
            first = false;
        }
    }
    say(out, b"")
}
