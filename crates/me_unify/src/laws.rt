//! A law of equations, as the contract of a function with an empty body.
ghost use Rattle.me_unify.specs.Laws.{SolvableHaveMostGeneral};

/// Equations that have a solution have a most general unifier.
pub fn most_general_unifiers_exist()
    ensures { SolvableHaveMostGeneral }
{}
