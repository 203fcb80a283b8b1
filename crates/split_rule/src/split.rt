//! The choice of a literal to split on.
//!
//! The unifier has the measures of its literals at hand, so no memory is taken.
ghost use Rattle.std.specs.Prelude.{◌≡◌, ℕ, ◌<◌, List, [], ◌∷◌, ◌++◌, length, if◌then◌else◌};
ghost use Rattle.me_terms.specs.Substitutions.{Family};
ghost use Rattle.me_terms.specs.Validity.{IsLawful};
ghost use Rattle.me_terms.specs.declared.atom.Literal.{Literal};
ghost use Rattle.me_terms.specs.declared.bounds.Bounds.{Bounds as BoundsOf};
ghost use Rattle.me_terms.specs.declared.entry.Kind.TheVariants as kind;
ghost use Rattle.me_unify.specs.Equations.{IsMostGeneral};
ghost use Rattle.split_rule.specs.SplitChoices.{IsChosen, FollowsRule};

use crate::choice::SplitChoice;
use joint_unifiers::Unifier;
use me_terms::{Bounds, Kind};

/// The kind of a literal that is split on, by whether it is ground.
fn kind_of(ground: bool) -> Kind
    ensures { result ≡ (if ground then kind.Universal else kind.Parametric) }
{
    if ground {
        Kind::Universal
    } else {
        Kind::Parametric
    }
}

/// What is chosen of that place alone: its literal, if that is within the bounds.
fn choice_at(u: &Unifier<'_>, bounds: &Bounds, place: u32) -> Option<SplitChoice>
    requires place { place < length u.now.literals }
    requires bounds { IsLawful bounds.now }
    ensures { (f : Family) → IsMostGeneral u.now.equations f → IsChosen u.now.literals (place ∷ []) bounds.now f result }
{
    if !u.fits(place, bounds) {
        return None;
    }
    Some(SplitChoice {
        place,
        kind: kind_of(u.ground(place)),
        weight: u.weight(place),
    })
}

/// What is chosen of two lists of places, from what is chosen of each.
fn first_of(chosen: Option<SplitChoice>, next: Option<SplitChoice>) -> Option<SplitChoice>
    ensures { (literals : List Literal) (xs ys : List ℕ) (bounds : BoundsOf) (f : Family) → IsChosen literals xs bounds f chosen → IsChosen literals ys bounds f next → IsChosen literals (xs ++ ys) bounds f result }
{
    let Some(other) = next else {
        return chosen;
    };
    let Some(choice) = chosen else {
        return next;
    };
    if choice.precedes(&other) {
        chosen
    } else {
        next
    }
}

/// The place of the unifier's remainder whose literal is to be split on: of those within the bounds the
/// lightest, and of two equally heavy ones the lower place. None exactly where no literal of the remainder
/// is within the bounds.
///
/// Where the unifier is a productive context unifier of a clause of a problem, this is the Split of the
/// clause and the unifier's tuple that comes before all others of them, and None where they have none.
pub fn split_of(u: &Unifier<'_>, bounds: &Bounds) -> Option<SplitChoice>
    requires bounds { IsLawful bounds.now }
    ensures chosen { (f : Family) → IsMostGeneral u.now.equations f → IsChosen u.now.literals u.now.remainder bounds.now f result }
    ensures rule { FollowsRule u.now bounds.now result }
{
    let mut chosen = None;
    let places = u.remainder().as_slice();
    for place in places {
        chosen = first_of(chosen, choice_at(u, bounds, *place));
    }
    chosen
}
