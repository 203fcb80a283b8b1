//! What a script prints: each formula of the text is a call, and its label says which.
use crate::{contexts, enumeration, equations, terms};
use cnf_text::push_number;
use me_context::Context;
use me_terms::{Clause, Kind, Signature, Start};
use me_unify::Bindings;
use std::alloc::Global;
use std::test::Fail;
use tptp_cnf::read_problem;

/// What the calls change and read.
#[derive(Drop)]
pub(crate) struct State {
    pub(crate) context: Context,
    pub(crate) equations: Bindings,
    pub(crate) out: Vec<u8>,
}

/// What the script prints.
pub(crate) fn printed(alloc: Global, script: &[u8]) -> Result<Vec<u8>, Fail> {
    if script.len() > 10_000 {
        return Err("too long for a script".into());
    }
    let problem = read_problem(alloc, script).ok().ok_or("no script")?;
    let mut state = State {
        context: Context::new(alloc, Start::Negative)?,
        equations: Bindings::new(alloc),
        out: Vec::new(alloc),
    };
    for clause in problem.clauses.as_slice() {
        call(alloc, &problem.signature, clause, &mut state)?;
    }
    Ok(state.out)
}

/// Makes one call, and prints what it answers.
fn call(
    alloc: Global,
    signature: &Signature,
    clause: &Clause,
    state: &mut State,
) -> Result<(), Fail> {
    let State {
        context,
        equations,
        out,
    } = state;
    match (clause.label.text.as_slice(), clause.literals.as_slice()) {
        (b"universal", [literal]) => contexts::put(alloc, context, literal, Kind::Universal, out),
        (b"parametric", [literal]) => contexts::put(alloc, context, literal, Kind::Parametric, out),
        (b"visible", _) => contexts::push_visible(context, out),
        (b"pop", _) => contexts::pop(context, out),
        (b"contradicts", [literal]) => contexts::push_contradicts(alloc, context, literal, out),
        (b"truth", [literal]) => contexts::push_truth(context, literal, out),
        (b"produces", [literal]) => contexts::push_producers(context, literal, out),
        (b"tuples", _) => enumeration::push_tuples(alloc, context, &clause.literals, out),
        (b"closing", _) => enumeration::push_closing(alloc, context, &clause.literals, out),
        (b"asserting", _) => enumeration::push_asserting(alloc, context, &clause.literals, out),
        (b"pivots", _) => enumeration::push_pivots(alloc, context, &clause.literals, out),
        (b"productive", _) => enumeration::push_productive(alloc, context, clause, out),
        (b"productive_ones", _) => enumeration::push_last(alloc, context, clause, out),
        (b"apart", [left, right]) => equations::unify(equations, 1, left, right, out),
        (b"same", [left, right]) => equations::unify(equations, 0, left, right, out),
        (b"undo", _) => equations::undo(equations, out),
        (b"forms", [left, right]) => equations::push_forms(equations, signature, left, right, out),
        (b"measure", [literal]) => equations::push_measure(equations, literal, out),
        (b"size", [literal]) => terms::push_size(literal, out),
        (b"form", [_, literal]) => terms::push_form(alloc, signature, literal, out),
        (b"compare", [general, special]) => terms::push_compared(alloc, general, special, out),
        _ => Err("no such call".into()),
    }
}

/// Prints a word.
pub(crate) fn say(out: &mut Vec<u8>, word: &[u8]) -> Result<(), Fail> {
    out.extend_from_slice(word)?;
    out.push(b';')?;
    Ok(())
}

/// Prints a word of two.
pub(crate) fn say_whether(out: &mut Vec<u8>, is_so: bool) -> Result<(), Fail> {
    say(out, if is_so { b"yes" } else { b"no" })
}

/// Prints the numbers, with blanks between them.
pub(crate) fn say_numbers(out: &mut Vec<u8>, numbers: &[u32]) -> Result<(), Fail> {
    for (k, number) in numbers.iter().enumerate() {
        if k > 0 {
            out.push(b' ')?;
        }
        push_number(out, u64::from(*number))?;
    }
    say(out, b"")
}
