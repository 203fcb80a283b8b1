//! Calls on terms alone: sizes, canonical forms, and which of two atoms is more general.
use crate::script::{say, say_whether};
use cnf_text::{push_number, push_signed};
use me_terms::{
    Literal, Pattern, Signature, canonical, depth_of, is_ground, is_variant, matches,
    strictly_more_general, weight_of,
};
use std::alloc::Global;
use std::test::Fail;

/// Prints the depth, the weight, and whether the literal is ground.
pub(crate) fn push_size(literal: &Literal, out: &mut Vec<u8>) -> Result<(), Fail> {
    push_number(out, depth_of(literal))?;
    out.push(b' ')?;
    push_number(out, weight_of(literal))?;
    out.push(b' ')?;
    say_whether(out, is_ground(literal))
}

/// Prints the canonical form.
pub(crate) fn push_form(
    alloc: Global,
    signature: &Signature,
    literal: &Literal,
    out: &mut Vec<u8>,
) -> Result<(), Fail> {
    let form = canonical(alloc, literal)?;
    push_signed(out, signature, form.positive, &form.atom)?;
    say(out, b"")
}

/// Prints whether the second atom is an instance of the first, a variant of it, and strictly less general.
pub(crate) fn push_compared(
    alloc: Global,
    general: &Literal,
    special: &Literal,
    out: &mut Vec<u8>,
) -> Result<(), Fail> {
    let pattern = Pattern::Of(canonical(alloc, general)?.atom);
    say_whether(out, matches(&pattern, &special.atom))?;
    say_whether(out, is_variant(&general.atom, &special.atom))?;
    say_whether(out, strictly_more_general(&pattern, &special.atom))
}
