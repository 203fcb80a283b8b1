//! The remainder of a unifier: the places at which an entry is used for less than all that it stands for.
//!
//! A place at the pseudo-literal always remains. Another one remains where its entry is Parametric and a
//! variable of the entry becomes a term that is no variable. No memory is taken but for the places.
ghost use Rattle.std.specs.Prelude.{◌≡◌, ℕ, ◌<◌, ◌-◌, ◌^◌, ◌++◌, ◌∷◌, [], not, length, OnOk, IfOk, if◌then◌else◌};
ghost use Rattle.std.specs.List.{list_any};
ghost use Rattle.me_terms.specs.TermViews.{term_value};
ghost use Rattle.me_terms.specs.Terms.{arguments_of};
ghost use Rattle.me_terms.specs.Variables.{term_variables, variables_of};
ghost use Rattle.me_terms.specs.Substitutions.{Family};
ghost use Rattle.me_terms.specs.Positions.{positions_of, entry_at};
ghost use Rattle.me_terms.specs.Remainder.{is_variable, is_remaining, remains_at as remains_there, remainder};
ghost use Rattle.me_unify.specs.Equations.{IsMostGeneral};
ghost use Rattle.joint_unifiers.specs.Places.{IsPlaceOf};

use crate::equations::position_at;
use me_terms::{Entry, Kind, Pattern, Places, Term, Terms, Tuple, View};
use me_unify::Bindings;
use std::alloc::{AllocError, Global};

/// Whether some variable of the term becomes a term that is no variable.
#[cycle(binds)]
fn binds_in(bindings: &Bindings, space: u32, term: &Term) -> bool
    ensures { (u : Family) → IsMostGeneral bindings.now u → result ≡ list_any (λ x. not (is_variable (u space x))) (term_variables (term_value term.now)) }
{
    match term {
        Term::Var(x) => !bindings.is_variable(space, *x),
        Term::App { f: _, args } => binds_among(bindings, space, args),
    }
}

#[cycle(binds)]
fn binds_among(bindings: &Bindings, space: u32, terms: &Terms) -> bool
    ensures { (u : Family) → IsMostGeneral bindings.now u → result ≡ list_any (λ x. not (is_variable (u space x))) (variables_of (arguments_of terms.now.items)) }
{
    for k in 0..terms.len() {
        let Some(term) = terms.get(k) else {
            unreachable!();
        };
        if binds_in(bindings, space, term) {
            return true;
        }
    }
    false
}

/// Whether an entry with the variables of that space is used for less than all that it stands for.
pub fn is_restricted(bindings: &Bindings, space: u32, entry: &Entry) -> bool
    ensures { (u : Family) → IsMostGeneral bindings.now u → result ≡ is_remaining entry.now.kind entry.now.atom (u space) }
{
    match &entry.atom {
        Pattern::Any => true,
        Pattern::Of(atom) => match entry.kind {
            Kind::Universal => false,
            Kind::Parametric => binds_among(bindings, space, &atom.args),
        },
    }
}

/// The same of the entry at a position, if anything stands there.
fn remains_at<V: View>(bindings: &Bindings, view: &V, space: u32, position: Option<u32>) -> bool
    ensures { (u : Family) → IsMostGeneral bindings.now u → result ≡ remains_there (entry_at (V.context view.now) position) (u space) }
{
    let Some(k) = position else {
        return false;
    };
    match view.entry(k) {
        Some(entry) => is_restricted(bindings, space, entry),
        None => false,
    }
}

/// Puts a place at the end where it remains.
fn push_if(places: &mut Places, place: u32, remains: bool) -> Result<(), AllocError>
    ensures { OnOk result (places.new.items ≡ (if remains then places.old.items ++ place ∷ [] else places.old.items)) }
{
    if remains && places.push(place).is_err() {
        return Err(AllocError);
    }
    Ok(())
}

/// The places of the remainder among so many, rising.
pub(crate) fn remaining<V: View>(
    alloc: Global,
    bindings: &Bindings,
    view: &V,
    skip: Option<u32>,
    tuple: &Tuple,
    count: u32,
) -> Result<Places, AllocError>
    requires skip { IsPlaceOf skip count }
    requires each_place { length (positions_of skip tuple.now.items) ≡ count }
    requires few { count < 2 ^ 32 - 1 }
    ensures { IfOk result (λ places. (u : Family) → IsMostGeneral bindings.now u → places.items ≡ remainder (V.context view.now) (positions_of skip tuple.now.items) u) }
{
    let mut places = Places::new(alloc);
    for place in 0..count {
        let position = position_at(skip, tuple, place);
        push_if(
            &mut places,
            place,
            remains_at(bindings, view, place + 1, position),
        )?;
    }
    Ok(places)
}
