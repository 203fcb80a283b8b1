//! Calls that enumerate the unifiers of a clause with entries of the context.
ghost use Rattle.std.specs.Prelude.{◌<◌, ◌-◌, ◌^◌, length};
ghost use Rattle.joint_unifiers.specs.ClauseUnifiers.{IsSkip};

use crate::script::{say, say_numbers, say_whether};
use context_unifier::{is_productive, next_unifier};
use me_context::Context;
use me_terms::{Clause, Literals, Tuple, View};
use std::alloc::Global;
use std::test::Fail;
use tuple_search::{Cursor, Limits, Pivot};

/// Prints the next tuples of the cursor, up to nine.
fn push_all(cursor: &mut Cursor<'_, Context>, out: &mut Vec<u8>) -> Result<(), Fail> {
    for _ in 0..9_u32 {
        if !cursor.advance()? {
            break;
        }
        say_numbers(out, cursor.tuple().as_slice())?;
    }
    say(out, b".")
}

fn push_within(
    alloc: Global,
    context: &Context,
    literals: &Literals,
    skip: Option<u32>,
    limits: Limits,
    out: &mut Vec<u8>,
) -> Result<(), Fail>
    requires skip { IsSkip skip literals.now.items }
    requires few { length literals.now.items < 2 ^ 32 - 1 }
{
    let mut cursor = Cursor::new(alloc, literals, skip, limits, context);
    push_all(&mut cursor, out)
}

/// Prints the tuples of all places.
pub(crate) fn push_tuples(
    alloc: Global,
    context: &Context,
    literals: &Literals,
    out: &mut Vec<u8>,
) -> Result<(), Fail> {
    if literals.len() > 1_000 {
        return Err("too long for a script".into());
    }
    push_within(alloc, context, literals, None, Limits::none(), out)
}

/// Prints the tuples of all places that leave no remainder.
pub(crate) fn push_closing(
    alloc: Global,
    context: &Context,
    literals: &Literals,
    out: &mut Vec<u8>,
) -> Result<(), Fail> {
    if literals.len() > 1_000 {
        return Err("too long for a script".into());
    }
    push_within(
        alloc,
        context,
        literals,
        None,
        Limits::of_remainder(Some(0)),
        out,
    )
}

/// Prints the tuples of all places but the last that leave no remainder, and under which the last literal
/// weighs at most 2.
pub(crate) fn push_asserting(
    alloc: Global,
    context: &Context,
    literals: &Literals,
    out: &mut Vec<u8>,
) -> Result<(), Fail> {
    let places = literals.len();
    if places == 0 || places > 1_000 {
        return Err("no clause to assert".into());
    }
    let limits = Limits {
        remaining: Some(0),
        weight: Some(2),
        pivot: None,
    };
    push_within(
        alloc,
        context,
        literals,
        Some(places as u32 - 1),
        limits,
        out,
    )
}

/// Prints, for each index, the tuples that have the newest entry as their pivot there.
pub(crate) fn push_pivots(
    alloc: Global,
    context: &Context,
    literals: &Literals,
    out: &mut Vec<u8>,
) -> Result<(), Fail> {
    let places = literals.len();
    if places > 1_000 {
        return Err("too long for a script".into());
    }
    let position = context.len().saturating_sub(1);
    for index in 0..places as u32 {
        let limits = Limits {
            remaining: None,
            weight: None,
            pivot: Some(Pivot { position, index }),
        };
        push_within(alloc, context, literals, None, limits, out)?;
    }
    Ok(())
}

/// Prints the first unifier's tuple, its remainder, and whether it is productive.
pub(crate) fn push_productive(
    alloc: Global,
    context: &Context,
    clause: &Clause,
    out: &mut Vec<u8>,
) -> Result<(), Fail> {
    if clause.literals.len() > 1_000 {
        return Err("too long for a script".into());
    }
    match next_unifier(alloc, clause, context, None)? {
        Some(unifier) => {
            say_numbers(out, unifier.tuple().as_slice())?;
            say_numbers(out, unifier.remainder().as_slice())?;
            say_whether(out, is_productive(alloc, clause, context, &unifier)?)
        }
        None => say(out, b"none"),
    }
}

/// The position 1 so many times, and 0 behind them.
fn ones(alloc: Global, count: u64) -> Result<Tuple, Fail> {
    let mut tuple = Tuple::new(alloc);
    for _ in 0..count {
        tuple.push(1).ok().ok_or("memory")?;
    }
    tuple.push(0).ok().ok_or("memory")?;
    Ok(tuple)
}

/// Prints whether the unifier with the entry at position 1 at each place is productive, where the next one
/// after it at all places but the last is this one.
pub(crate) fn push_last(
    alloc: Global,
    context: &Context,
    clause: &Clause,
    out: &mut Vec<u8>,
) -> Result<(), Fail> {
    let places = clause.literals.len();
    if places == 0 || places > 1_000 {
        return Err("too long for a script".into());
    }
    let after = ones(alloc, places - 1)?;
    if after.len() != places {
        return Err("length".into());
    }
    match next_unifier(alloc, clause, context, Some(&after))? {
        Some(unifier) => say_whether(out, is_productive(alloc, clause, context, &unifier)?),
        None => say(out, b"none"),
    }
}
