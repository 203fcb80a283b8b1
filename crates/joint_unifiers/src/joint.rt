//! The unifier of a clause's literals with entries of a context.
//!
//! The places are unified one after another, each entry's variables apart from all others.
ghost use Rattle.std.specs.Prelude.{◌≡◌, ℕ, ◌<◌, ◌-◌, ◌^◌, length, IfOk, IfSome, IsSome, ◌↔◌};
ghost use Rattle.me_terms.specs.Substitutions.{Family};
ghost use Rattle.me_terms.specs.Positions.{positions_of, AreOpposite};
ghost use Rattle.me_terms.specs.Unifier.{IsContextUnifier};
ghost use Rattle.joint_unifiers.specs.ClauseUnifiers.{IsUnifierOf, IsSkip};

use crate::equations::clause_bindings;
use crate::remainder::remaining;
use crate::unifier::Unifier;
use me_terms::{Clause, Tuple, View};
use std::alloc::{AllocError, Global};

/// The most general unifier of a clause's literals, but for the one at `skip`, and the entries at the
/// positions of the tuple. None exactly where there is none.
///
/// The tuple has one position of a visible entry of the opposite sign for each place that is not skipped.
pub fn joint_unifier<'a, V: View>(
    alloc: Global,
    clause: &'a Clause,
    skip: Option<u32>,
    tuple: &Tuple,
    view: &V,
) -> Result<Option<Unifier<'a>>, AllocError>
    requires skip { IsSkip skip clause.now.literals }
    requires opposite { AreOpposite (V.context view.now) clause.now.literals (positions_of skip tuple.now.items) }
    requires few { length clause.now.literals < 2 ^ 32 - 1 }
    ensures exact { IfOk result (λ r. IsSome r ↔ ((f : Family) × IsContextUnifier (V.context view.now) clause.now.literals skip tuple.now.items f)) }
    ensures unifier { IfOk result (λ r. IfSome r (λ u. IsUnifierOf (V.context view.now) clause.now.literals skip tuple.now.items u)) }
{
    let literals = &clause.literals;
    let Some(bindings) = clause_bindings(alloc, view, literals.as_slice(), skip, tuple)? else {
        return Ok(None);
    };
    let count = literals.len() as u32;
    let remainder = remaining(alloc, &bindings, view, skip, tuple, count)?;
    Ok(Some(Unifier::new(alloc, literals, tuple, bindings, remainder)?))
}
