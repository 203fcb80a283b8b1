//! Laws of the calculus, each the contract of a function with an empty body.
//!
//! They say of the definitions of `me_terms` that they fit together: what is determined, what stays
//! consistent, and that an exhausted context is a model.
#![tactic(auto)]

ghost use Rattle.me_laws.specs.CanonicalForm.{CanonicalFormIsTheVariant};
ghost use Rattle.me_laws.specs.ContextLaws.{AddKeepsConsistency, ClashIsSymmetric, ContextIsTotal};
ghost use Rattle.me_laws.specs.GrownLaws.{GrownIsConsistent, ReasonsHold, SplitIsApart};
ghost use Rattle.me_laws.specs.SearchLaws.{AnswerIsDetermined, DeepenedAnswerIsDetermined, ExhaustedIsModel, LeafListIsDetermined, NextIsDetermined, OutcomeIsDetermined, SatisfiableIsModel};
ghost use Rattle.me_laws.specs.TermLaws.{GeneralityIsOrder, VariantsAreAlike};
ghost use Rattle.me_laws.specs.UnifierLaws.{ProductionLifts, UnifiersAgree, UnifiersExist};
ghost use Rattle.me_laws.specs.UnifierMeasures.{UnifiersMeasureAlike};

/// Being at least as general is reflexive and transitive.
pub fn generality_is_order()
    ensures { GeneralityIsOrder }
{}

/// Atoms that are instances of each other have the same canonical form, depth and weight.
pub fn variants_are_alike()
    ensures { VariantsAreAlike }
{}

/// An atom's canonical form is its only canonical variant, and variants are what shares one.
pub fn canonical_form_is_the_variant()
    ensures { CanonicalFormIsTheVariant }
{}

/// What contradicts is contradicted.
pub fn clash_is_symmetric()
    ensures { ClashIsSymmetric }
{}

/// What does not contradict a consistent context leaves it consistent when it is added.
pub fn add_keeps_consistency()
    ensures { AddKeepsConsistency }
{}

/// A context produces each literal or its complement.
pub fn context_is_total()
    ensures { ContextIsTotal }
{}

/// What has a solution has a most general unifier.
pub fn unifiers_exist()
    ensures { UnifiersExist }
{}

/// Most general unifiers of the same places share their remainder and their literals' canonical forms.
pub fn unifiers_agree()
    ensures { UnifiersAgree }
{}

/// A literal has the same depth, weight and groundness under each most general unifier.
pub fn unifiers_measure_alike()
    ensures { UnifiersMeasureAlike }
{}

/// Production lifts from a solution to a most general unifier.
pub fn production_lifts()
    ensures { ProductionLifts }
{}

/// Neither the literal of a Split nor its complement contradicts the context.
pub fn split_is_apart()
    ensures { SplitIsApart }
{}

/// Every context to which the rules lead is a context, and consistent.
pub fn grown_is_consistent()
    ensures { GrownIsConsistent }
{}

/// In a grown context the reason of every entry holds of the entries before it.
pub fn reasons_hold()
    ensures { ReasonsHold }
{}

/// A context has at most one next step.
pub fn next_is_determined()
    ensures { NextIsDetermined }
{}

/// A leaf that a clause and a tuple close has at most one list.
pub fn leaf_list_is_determined()
    ensures { LeafListIsDetermined }
{}

/// The tree of a context has at most one outcome.
pub fn outcome_is_determined()
    ensures { OutcomeIsDetermined }
{}

/// A problem within bounds has at most one answer.
pub fn answer_is_determined()
    ensures { AnswerIsDetermined }
{}

/// With deepening from a depth a problem within bounds has at most one answer.
pub fn deepened_answer_is_determined()
    ensures { DeepenedAnswerIsDetermined }
{}

/// An exhausted context is a model of all ground instances.
pub fn exhausted_is_model()
    ensures { ExhaustedIsModel }
{}

/// The context of a Satisfiable answer is consistent, and a model of all ground instances.
pub fn satisfiable_is_model()
    ensures { SatisfiableIsModel }
{}
