//! The places of a clause: the positions that stand there, and the equations with the entries at these
//! positions.
//!
//! Each place has a space of variables of its own, behind that of the clause.
ghost use Rattle.std.specs.Prelude.{◌≡◌, ◌≤◌, ◌<◌, ◌+◌, ◌-◌, ◌^◌, ◌++◌, MatchOption, IfOk, OnOk, length, map};
ghost use Rattle.me_terms.specs.Positions.{positions_of, entry_at};
ghost use Rattle.me_unify.specs.Equations.{IsSolvable};
ghost use Rattle.me_unify.specs.ClauseEquations.{equations_at, equations_from};

use me_terms::{Literal, Pattern, Tuple, View};
use me_unify::Bindings;
use std::alloc::{AllocError, Global};

/// The positions of a tuple, in order.
fn places_of(alloc: Global, tuple: &Tuple) -> Result<Vec<Option<u32>>, AllocError>
    ensures { IfOk result (λ positions. positions.items ≡ map Some tuple.now.items) }
{
    let mut positions = Vec::new(alloc);
    for k in tuple.as_slice() {
        positions.push(Some(*k))?;
    }
    Ok(positions)
}

/// The positions at the places of a clause, in order, with none at the skipped place.
pub(crate) fn positions(
    alloc: Global,
    skip: Option<u32>,
    tuple: &Tuple,
) -> Result<Vec<Option<u32>>, AllocError>
    requires { MatchOption skip (Unit {0}) (λ place. place ≤ length tuple.now.items) }
    ensures { IfOk result (λ positions. positions.items ≡ positions_of skip tuple.now.items) }
{
    let mut positions = places_of(alloc, tuple)?;
    let Some(place) = skip else {
        return Ok(positions);
    };
    match positions.insert(place as usize, None) {
        Ok(()) => Ok(positions),
        Err(_) => Err(AllocError),
    }
}

/// Adds the equation of place `i`, which has a solution with those so far.
fn bind<V: View>(
    bindings: &mut Bindings,
    view: &V,
    i: u32,
    literal: &Literal,
    position: Option<u32>,
) -> Result<(), AllocError>
    requires space { i < 2 ^ 32 - 1 }
    requires solvable { IsSolvable (bindings.old ++ equations_at (i + 1) (entry_at (V.context view.now) position) literal.now) }
    ensures { OnOk result (bindings.new ≡ bindings.old ++ equations_at (i + 1) (entry_at (V.context view.now) position) literal.now) }
{
    let Some(k) = position else {
        return Ok(());
    };
    let Some(entry) = view.entry(k) else {
        return Ok(());
    };
    match &entry.atom {
        Pattern::Any => Ok(()),
        Pattern::Of(atom) => {
            let unified = bindings.unify(i + 1, atom, 0, &literal.atom)?;
            prove!(unified);
            Ok(())
        }
    }
}

/// Adds the equations of all places, which have a solution with those so far.
pub(crate) fn bind_all<V: View>(
    bindings: &mut Bindings,
    view: &V,
    literals: &[Literal],
    positions: &[Option<u32>],
) -> Result<(), AllocError>
    requires few { length literals.now < 2 ^ 32 - 1 }
    requires solvable { IsSolvable (bindings.old ++ equations_from 0 (V.context view.now) literals.now positions.now) }
    ensures { OnOk result (bindings.new ≡ bindings.old ++ equations_from 0 (V.context view.now) literals.now positions.now) }
{
    for i in 0..literals.len().min(positions.len()) {
        bind(bindings, view, i as u32, &literals[i], positions[i])?;
    }
    Ok(())
}
