//! The next context unifier of a clause.
ghost use Rattle.std.specs.Prelude.{◌≡◌, ◌<◌, ◌-◌, ◌^◌, List, ℕ, length, IfOk, IfSome, IsNone, None};
ghost use Rattle.std.specs.Option.{option_map};
ghost use Rattle.tuple_search.specs.Enumeration.{no_limits, IsLastTuple};
ghost use Rattle.tuple_search.specs.Cursors.{CursorValue};
ghost use Rattle.context_unifier.specs.NextUnifiers.{IsNextUnifier};

use joint_unifiers::{Unifier, joint_unifier};
use me_terms::{Clause, Literals, Tuple, View};
use std::alloc::{AllocError, Global};
use tuple_search::{Cursor, Limits};

/// A cursor at the given tuple, or before all.
fn start<'a, V: View>(
    alloc: Global,
    literals: &'a Literals,
    view: &'a V,
    after: Option<&Tuple>,
) -> Result<Cursor<'a, V>, AllocError>
    requires few { length literals.now.items < 2 ^ 32 - 1 }
    requires after { IfSome after (λ tuple. length tuple.now.items ≡ length literals.now.items) }
    ensures { IfOk result (λ c. c ≡ record { context = V.context view.now; literals = literals.now.items; skip = None; limits = no_limits; at = option_map (λ tuple. tuple.now.items) after.entry }) }
{
    match after {
        Some(tuple) => Cursor::after(alloc, literals, None, Limits::none(), view, tuple),
        None => Ok(Cursor::new(alloc, literals, None, Limits::none(), view)),
    }
}

/// The context unifier of the clause whose tuple is the least after the given one, or the least of all.
/// None exactly where there is none.
///
/// The given tuple has one position for each literal; nothing else is asked of its positions.
pub fn next_unifier<'a, V: View>(
    alloc: Global,
    clause: &'a Clause,
    view: &V,
    after: Option<&Tuple>,
) -> Result<Option<Unifier<'a>>, AllocError>
    requires few { length clause.now.literals < 2 ^ 32 - 1 }
    requires after { IfSome after (λ tuple. length tuple.now.items ≡ length clause.now.literals) }
    ensures some { IfOk result (λ r. IfSome r (λ u. IsNextUnifier (V.context view.now) clause.now.literals (option_map (λ tuple. tuple.now.items) after.entry) u)) }
    ensures none { IfOk result (λ r. IsNone r → IsLastTuple (V.context view.now) clause.now.literals None no_limits (option_map (λ tuple. tuple.now.items) after.entry)) }
{
    let mut cursor = start(alloc, &clause.literals, view, after)?;
    if !cursor.advance()? {
        return Ok(None);
    }
    joint_unifier(alloc, clause, None, cursor.tuple(), view)
}
