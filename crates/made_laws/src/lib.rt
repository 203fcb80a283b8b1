//! Problems that are made of a seed, as laws, each the contract of a function with an empty body.
//!
//! A seed makes one problem, which has no functions with arguments, so that no search meets wide bounds.
#![tactic(auto)]

ghost use Rattle.made_laws.specs.MadeProblems.{MadeIsRoomy, MadeProblemIsDetermined};

/// A seed makes one problem.
pub fn made_problem_is_determined()
    ensures { MadeProblemIsDetermined }
{}

/// A made problem has no functions with arguments, and no search of it meets wide bounds.
pub fn made_is_roomy()
    ensures { MadeIsRoomy }
{}
