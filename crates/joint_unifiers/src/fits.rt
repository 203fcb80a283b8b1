//! Which literals are within bounds under a unifier.
ghost use Rattle.std.specs.Prelude.{◌≡◌, ◌<◌, length, slice_get, Some, IsTrue, ◌↔◌};
ghost use Rattle.me_terms.specs.Substitutions.{Family};
ghost use Rattle.me_terms.specs.Unifier.{unified};
ghost use Rattle.me_terms.specs.Fits.{Fits};
ghost use Rattle.me_terms.specs.Validity.{IsLawful};
ghost use Rattle.me_terms.specs.declared.atom.Literal.{Literal as LiteralOf};
ghost use Rattle.me_unify.specs.Equations.{IsMostGeneral};

use crate::unifier::Unifier;
use me_terms::Bounds;

impl<'a> Unifier<'a> {
    /// Whether the literal of that place, under the unifier, is within the bounds on depth and weight.
    pub fn fits(&self, place: u32, bounds: &Bounds) -> bool
        requires place { place < length self.now.literals }
        requires bounds { IsLawful bounds.now }
        ensures { (f : Family) (l : LiteralOf) → IsMostGeneral self.now.equations f → slice_get self.now.literals place ≡ Some l → IsTrue result ↔ Fits bounds.now (unified f l) }
    {
        self.depth(place) <= u64::from(bounds.depth) && self.weight(place) <= bounds.weight
    }
}
