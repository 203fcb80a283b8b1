//! How many entries a grown context has, as laws of the definitions of `me_terms`, each the contract of
//! a function with an empty body.
//!
//! An atom stands at most twice, so without functions with arguments no search meets wide bounds.
#![tactic(auto)]

ghost use Rattle.me_laws_counting.specs.FunctionFree.{FunctionFreeIsDecided};
ghost use Rattle.me_laws_counting.specs.Premises.{PremisesAreMet};
ghost use Rattle.me_laws_counting.specs.Twice.{AtomsStandTwice};

/// In a grown context an atom stands at most twice, up to variants.
pub fn atoms_stand_twice()
    ensures { AtomsStandTwice }
{}

/// Without functions with arguments, no search meets the depth, the weight or the literals of wide bounds.
pub fn function_free_is_decided()
    ensures { FunctionFreeIsDecided }
{}

/// The premises of the function-free case can be met.
pub fn premises_are_met()
    ensures { PremisesAreMet }
{}
