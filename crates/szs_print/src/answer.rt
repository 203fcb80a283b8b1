//! Answers as text.
//!
//! A refutation is printed as its list of instances, a model as the visible entries of its context, and
//! where the search gave up, the bound that it met.
ghost use Rattle.std.specs.Prelude.{◌≡◌, ◌++◌, OnOk, IfOk};
ghost use Rattle.szs_print.specs.AnswerText.{gave_up_text, IsAnswerText};
ghost use Rattle.szs_print.specs.Printable.{IsName, IsPrintable};

use crate::model::print_model;
use crate::refutation::print_refutation;
use crate::status::{push_reason, push_status};
use me_terms::{Answer, Bound, Problem, Text};
use std::alloc::{AllocError, Global};

/// The most bytes of a problem's name.
pub const MAX_NAME_BYTES: usize = 200;

/// Puts the text for a search that gave up at the bound at the end.
pub(crate) fn push_gave_up(out: &mut Vec<u8>, name: &[u8], bound: Bound) -> Result<(), AllocError>
    ensures { OnOk result (out.new.items ≡ out.old.items ++ gave_up_text name.now bound) }
{
    push_status(out, b"GaveUp", name)?;
    match bound {
        Bound::Depth => push_reason(out, b"depth"),
        Bound::Weight => push_reason(out, b"weight"),
        Bound::Literals => push_reason(out, b"literals"),
        Bound::List => push_reason(out, b"list"),
    }
}

/// The text for a search that gave up at the bound.
fn print_gave_up(alloc: Global, name: &[u8], bound: Bound) -> Result<Vec<u8>, AllocError>
    ensures { IfOk result (λ text. text.items ≡ gave_up_text name.now bound) }
{
    let mut out = Vec::new(alloc);
    push_gave_up(&mut out, name, bound)?;
    Ok(out)
}

/// The text of the answer to the problem, under the problem's name. The name has 1 to `MAX_NAME_BYTES`
/// bytes from 33 to 126, and the answer speaks of the problem's clauses and symbols.
pub fn print_answer(
    alloc: Global,
    name: &Text,
    problem: &Problem,
    answer: &Answer,
) -> Result<Vec<u8>, AllocError>
    requires name { IsName name.now.items }
    requires answer { IsPrintable problem.now answer.now }
    ensures { IfOk result (λ text. IsAnswerText name.now.items problem.now answer.now text.items) }
{
    let name = name.as_slice();
    match answer {
        Answer::Unsatisfiable { list } => {
            print_refutation(alloc, name, problem, list.as_slice())
        }
        Answer::Satisfiable { context } => {
            print_model(alloc, name, &problem.signature, context.as_slice())
        }
        Answer::GaveUp { bound } => print_gave_up(alloc, name, *bound),
    }
}
