//! What exists, as laws of the definitions of `me_terms`, each the contract of a function with an empty body.
//!
//! A context has a next step and its tree an outcome, so a problem has exactly one answer, with deepening
//! and without.
#![tactic(auto)]

ghost use Rattle.me_laws_existence.specs.Existence.{CandidatesAreDecided, DeepeningFromTheLastDepth, ExactlyOneAnswer, ExactlyOneDeepenedAnswer, LeafListExists, NextExists, OutcomeExists, SolvabilityIsDecided};

/// Whether a clause's equations with entries have a solution is decided.
pub fn solvability_is_decided()
    ensures { SolvabilityIsDecided }
{}

/// A context has a least Close, Assert and Split where it has one, and it is decided whether it has.
pub fn candidates_are_decided()
    ensures { CandidatesAreDecided }
{}

/// A context has a next step.
pub fn next_exists()
    ensures { NextExists }
{}

/// A leaf of a grown context has a list.
pub fn leaf_list_exists()
    ensures { LeafListExists }
{}

/// The tree of a grown context has an outcome.
pub fn outcome_exists()
    ensures { OutcomeExists }
{}

/// A problem within bounds has exactly one answer.
pub fn exactly_one_answer()
    ensures { ExactlyOneAnswer }
{}

/// With deepening too a problem has exactly one answer.
pub fn exactly_one_deepened_answer()
    ensures { ExactlyOneDeepenedAnswer }
{}

/// Deepening that begins at the bounds' own depth answers as the search without it.
pub fn deepening_from_the_last_depth()
    ensures { DeepeningFromTheLastDepth }
{}
