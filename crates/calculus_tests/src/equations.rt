//! Calls on a list of equations between atoms of two spaces.
use crate::script::{say, say_whether};
use cnf_text::{push_number, push_signed};
use me_terms::{Literal, Signature};
use me_unify::Bindings;
use std::test::Fail;

/// Adds the equation of two atoms, the second of which is of this space, and prints whether there is a unifier.
pub(crate) fn unify(
    equations: &mut Bindings,
    space: u32,
    left: &Literal,
    right: &Literal,
    out: &mut Vec<u8>,
) -> Result<(), Fail> {
    let answer = equations.unify(0, &left.atom, space, &right.atom)?;
    say_whether(out, answer)
}

/// Takes the last equation back, and prints how many are left.
pub(crate) fn undo(equations: &mut Bindings, out: &mut Vec<u8>) -> Result<(), Fail> {
    let mark = equations.mark();
    if mark > 0 {
        equations.undo(mark - 1);
    }
    push_number(out, equations.mark())?;
    say(out, b"")
}

/// Prints the first literal, of the first space, and the second one, of the second, under the unifier.
pub(crate) fn push_forms(
    equations: &Bindings,
    signature: &Signature,
    left: &Literal,
    right: &Literal,
    out: &mut Vec<u8>,
) -> Result<(), Fail> {
    push_form(equations, 0, signature, left, out)?;
    push_form(equations, 1, signature, right, out)
}

fn push_form(
    equations: &Bindings,
    space: u32,
    signature: &Signature,
    literal: &Literal,
    out: &mut Vec<u8>,
) -> Result<(), Fail> {
    let form = equations.literal(space, literal)?;
    push_signed(out, signature, form.positive, &form.atom)?;
    say(out, b"")
}

/// Prints the depth and the weight of the atom under the unifier, and whether it is ground.
pub(crate) fn push_measure(
    equations: &mut Bindings,
    literal: &Literal,
    out: &mut Vec<u8>,
) -> Result<(), Fail> {
    let measure = equations.measure(0, &literal.atom)?;
    push_number(out, measure.depth)?;
    out.push(b' ')?;
    push_number(out, measure.weight)?;
    out.push(b' ')?;
    say_whether(out, measure.ground)
}
