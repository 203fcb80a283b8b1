//! The equations of a clause's places, added to bindings place by place.
//!
//! A skipped place gives no equation, and the pseudo-literal none. The answer tells exactly whether the
//! equations of all places have a solution.
ghost use Rattle.std.specs.Prelude.{◌≡◌, ℕ, ◌<◌, ◌≤◌, ◌+◌, ◌-◌, ◌^◌, ◌++◌, [], false, length, slice_get, Some, IfOk, IfSome, IsSome, OnErr, IsTrue, ◌↔◌};
ghost use Rattle.me_terms.specs.Positions.{positions_of, entry_at};
ghost use Rattle.me_unify.specs.Equations.{IsSolvable};
ghost use Rattle.me_unify.specs.ClauseEquations.{equations_with, equations_at, clause_equations};
ghost use Rattle.joint_unifiers.specs.Places.{IsPlaceOf};

use me_terms::{Entry, Literal, Pattern, Tuple, View};
use me_unify::Bindings;
use std::alloc::{AllocError, Global};

/// The position that is set against a place, and none at a skipped place.
pub(crate) fn position_at(skip: Option<u32>, tuple: &Tuple, place: u32) -> Option<u32>
    requires skip { IsPlaceOf skip (length (positions_of skip tuple.now.items)) }
    requires within { place < length (positions_of skip tuple.now.items) }
    ensures { slice_get (positions_of skip tuple.now.items) place ≡ Some result }
{
    match skip {
        None => tuple.get(place as u64).copied(),
        Some(skipped) => {
            if place < skipped {
                tuple.get(place as u64).copied()
            } else if place == skipped {
                None
            } else {
                tuple.get((place - 1) as u64).copied()
            }
        }
    }
}

/// Adds the equation of an entry, with the variables of a space, and a literal, and tells whether all
/// equations have a solution. After no, and where memory is out, they are as before.
pub fn add_entry(
    bindings: &mut Bindings,
    space: u32,
    entry: &Entry,
    literal: &Literal,
) -> Result<bool, AllocError>
    ensures exact { IfOk result (λ answer. IsTrue answer ↔ IsSolvable (bindings.old ++ equations_with space entry.now.atom literal.now)) }
    ensures yes { IfOk result (λ answer. IsTrue answer → bindings.new ≡ bindings.old ++ equations_with space entry.now.atom literal.now) }
    ensures no { IfOk result (λ answer. answer ≡ false → bindings.new ≡ bindings.old) }
    ensures err { OnErr result (bindings.new ≡ bindings.old) }
{
    // for the proof: the equations so far have a solution
    let _solvable = bindings.mark();
    match &entry.atom {
        Pattern::Any => Ok(true),
        Pattern::Of(atom) => bindings.unify(space, atom, 0, &literal.atom),
    }
}

/// The same for the entry at a position. Without a position no equation is added.
fn add_position<V: View>(
    bindings: &mut Bindings,
    view: &V,
    space: u32,
    position: Option<u32>,
    literal: &Literal,
) -> Result<bool, AllocError>
    ensures exact { IfOk result (λ answer. IsTrue answer ↔ IsSolvable (bindings.old ++ equations_at space (entry_at (V.context view.now) position) literal.now)) }
    ensures yes { IfOk result (λ answer. IsTrue answer → bindings.new ≡ bindings.old ++ equations_at space (entry_at (V.context view.now) position) literal.now) }
{
    // for the proof: the equations so far have a solution
    let _solvable = bindings.mark();
    let Some(k) = position else {
        return Ok(true);
    };
    match view.entry(k) {
        Some(entry) => add_entry(bindings, space, entry, literal),
        None => Ok(true),
    }
}

/// Adds the equations of all places to bindings without equations. Whether they have a solution.
fn add_places<V: View>(
    bindings: &mut Bindings,
    view: &V,
    literals: &[Literal],
    skip: Option<u32>,
    tuple: &Tuple,
) -> Result<bool, AllocError>
    requires none { bindings.old ≡ [] }
    requires skip { IsPlaceOf skip (length literals.now) }
    requires each_place { length (positions_of skip tuple.now.items) ≡ length literals.now }
    requires few { length literals.now < 2 ^ 32 - 1 }
    ensures exact { IfOk result (λ answer. IsTrue answer ↔ IsSolvable (clause_equations (V.context view.now) literals.now (positions_of skip tuple.now.items))) }
    ensures yes { IfOk result (λ answer. IsTrue answer → bindings.new ≡ clause_equations (V.context view.now) literals.now (positions_of skip tuple.now.items)) }
{
    for place in 0..literals.len() {
        let position = position_at(skip, tuple, place as u32);
        if !add_position(bindings, view, place as u32 + 1, position, &literals[place])? {
            return Ok(false);
        }
    }
    Ok(true)
}

/// The equations of a clause's literals, but for the one at `skip`, with the entries at the positions of the
/// tuple. None exactly where they have no solution.
pub fn clause_bindings<V: View>(
    alloc: Global,
    view: &V,
    literals: &[Literal],
    skip: Option<u32>,
    tuple: &Tuple,
) -> Result<Option<Bindings>, AllocError>
    requires skip { IsPlaceOf skip (length literals.now) }
    requires each_place { length (positions_of skip tuple.now.items) ≡ length literals.now }
    requires few { length literals.now < 2 ^ 32 - 1 }
    ensures exact { IfOk result (λ r. IsSome r ↔ IsSolvable (clause_equations (V.context view.now) literals.now (positions_of skip tuple.now.items))) }
    ensures equations { IfOk result (λ r. IfSome r (λ bindings. bindings ≡ clause_equations (V.context view.now) literals.now (positions_of skip tuple.now.items))) }
{
    let mut bindings = Bindings::new(alloc);
    if add_places(&mut bindings, view, literals, skip, tuple)? {
        Ok(Some(bindings))
    } else {
        Ok(None)
    }
}
