//! Examples of the definitions of `me_terms` as theorems, each the contract of a function with an empty body.
//!
//! They show contexts, what contradicts and hides, an Assert and a Split, and whole answers, with deepening
//! and without.
#![tactic(auto)]

ghost use Rattle.me_laws_examples.specs.AddedEntries.{AddedEntries};
ghost use Rattle.me_laws_examples.specs.AssertThenSplit.{AssertsThenSplits};
ghost use Rattle.me_laws_examples.specs.AtTheBounds.{AtTheBounds};
ghost use Rattle.me_laws_examples.specs.BoundByFirstPlace.{BoundByFirstPlace};
ghost use Rattle.me_laws_examples.specs.Contexts.{Contexts};
ghost use Rattle.me_laws_examples.specs.Contradictions.{Contradictions};
ghost use Rattle.me_laws_examples.specs.CoveredEntries.{CoveredEntries};
ghost use Rattle.me_laws_examples.specs.DeepenedAnswers.{DeepenedAnswers};
ghost use Rattle.me_laws_examples.specs.EitherStart.{EitherStart};
ghost use Rattle.me_laws_examples.specs.Exceptions.{Exceptions};
ghost use Rattle.me_laws_examples.specs.FirstRun.{FirstRun};
ghost use Rattle.me_laws_examples.specs.Generality.{Generality};
ghost use Rattle.me_laws_examples.specs.GroundLists.{GroundLists};
ghost use Rattle.me_laws_examples.specs.GroundTerms.{GroundTerms};
ghost use Rattle.me_laws_examples.specs.HiddenCounted.{HiddenIsCounted};
ghost use Rattle.me_laws_examples.specs.HiddenEntry.{LaterEntryHides};
ghost use Rattle.me_laws_examples.specs.LawfulBounds.{LawfulBounds};
ghost use Rattle.me_laws_examples.specs.LeftVariable.{LeftVariableIsRead};
ghost use Rattle.me_laws_examples.specs.MeasuredTerms.{MeasuredTerms};
ghost use Rattle.me_laws_examples.specs.MergedVariables.{MergedVariablesClose};
ghost use Rattle.me_laws_examples.specs.Models.{Models};
ghost use Rattle.me_laws_examples.specs.OrderOfCandidates.{OrderOfCandidates};
ghost use Rattle.me_laws_examples.specs.ParametricAssert.{AssertsParametric};
ghost use Rattle.me_laws_examples.specs.PartialRemainder.{PartialRemainder};
ghost use Rattle.me_laws_examples.specs.Places.{Places};
ghost use Rattle.me_laws_examples.specs.QueueOrder.{QueueOrder};
ghost use Rattle.me_laws_examples.specs.RepeatedInstance.{RepeatIsDropped};
ghost use Rattle.me_laws_examples.specs.Sharpening.{Sharpening};
ghost use Rattle.me_laws_examples.specs.SmallAnswers.{SmallAnswers};
ghost use Rattle.me_laws_examples.specs.SplitOutcomes.{OutcomesAreJoined};
ghost use Rattle.me_laws_examples.specs.Subsumption.{Subsumption};
ghost use Rattle.me_laws_examples.specs.TruthOfAtoms.{TruthOfAtoms};
ghost use Rattle.me_laws_examples.specs.ValidProblems.{ValidProblems};

/// What the context of ~v, parametric p(a,X0) and universal ~p(X0,b) produces.
pub fn truth_of_atoms()
    ensures { TruthOfAtoms }
{}

/// A later universal entry of the same sign hides what it generalizes, and nothing else does.
pub fn later_entry_hides()
    ensures { LaterEntryHides }
{}

/// The four ways in which a literal contradicts a context, and a near miss of each.
pub fn contradictions()
    ensures { Contradictions }
{}

/// Two variables that become one leave no remainder, and one that becomes a constant does.
pub fn merged_variables_close()
    ensures { MergedVariablesClose }
{}

/// An Assert, a Split, and what the left branch's context produces.
pub fn asserts_then_splits()
    ensures { AssertsThenSplits }
{}

/// The answers to no clauses, to the empty clause, and to p(X0) within bounds that it meets.
pub fn small_answers()
    ensures { SmallAnswers }
{}

/// The clauses p and ~p are unsatisfiable, by the list of their instances.
pub fn first_run()
    ensures { FirstRun }
{}

/// Which of two candidates comes before the other.
pub fn order_of_candidates()
    ensures { OrderOfCandidates }
{}

/// The outcome of a node, and the list of one.
pub fn outcomes_are_joined()
    ensures { OutcomesAreJoined }
{}

/// Which literals are ground instances, and which lists are refuted.
pub fn ground_lists()
    ensures { GroundLists }
{}

/// A leaf lists its instances in the order of a queue.
pub fn queue_order()
    ensures { QueueOrder }
{}

/// A Universal literal may be asserted beside a Parametric one, and not the other way round.
pub fn sharpening()
    ensures { Sharpening }
{}

/// The first literal of the remainder says which bound was met.
pub fn bound_by_first_place()
    ensures { BoundByFirstPlace }
{}

/// Hidden entries count at the bound on literals.
pub fn hidden_is_counted()
    ensures { HiddenIsCounted }
{}

/// What a Parametric entry asserts is Parametric where it is not ground.
pub fn asserts_parametric()
    ensures { AssertsParametric }
{}

/// A leaf's list has an instance once that its queue has twice, and the repeat is worked.
pub fn repeat_is_dropped()
    ensures { RepeatIsDropped }
{}

/// A variable that the unifier leaves is read as c0 in the closing instance.
pub fn left_variable_is_read()
    ensures { LeftVariableIsRead }
{}

/// The least and the greatest lawful bounds, and what is beyond them.
pub fn lawful_bounds()
    ensures { LawfulBounds }
{}

/// Valid problems, and a near miss for each condition.
pub fn valid_problems()
    ensures { ValidProblems }
{}

/// By default every atom is true from the positive start, and false from the negative one.
pub fn either_start()
    ensures { EitherStart }
{}

/// What terms weigh, how deep they are, and how their variables are numbered and replaced.
pub fn measured_terms()
    ensures { MeasuredTerms }
{}

/// Which atoms are more general than which.
pub fn generality()
    ensures { Generality }
{}

/// What is at a bound is within it.
pub fn at_the_bounds()
    ensures { AtTheBounds }
{}

/// Positions, the remainder and what is asked for, place by place.
pub fn places()
    ensures { Places }
{}

/// The entries that an Assert and a Split add, and their kinds.
pub fn added_entries()
    ensures { AddedEntries }
{}

/// Which terms are ground over a problem, and ground instances of a clause of two variables.
pub fn ground_terms()
    ensures { GroundTerms }
{}

/// In which contexts clauses are true.
pub fn models()
    ensures { Models }
{}

/// Which lists of entries are contexts, and which contexts are consistent.
pub fn contexts()
    ensures { Contexts }
{}

/// The exceptions of Parametric entries, of either sign and kind.
pub fn exceptions()
    ensures { Exceptions }
{}

/// What may be asserted beside a more general or a more special entry.
pub fn subsumption()
    ensures { Subsumption }
{}

/// A remainder that leaves a place out.
pub fn partial_remainder()
    ensures { PartialRemainder }
{}

/// Which entries a Universal one covers.
pub fn covered_entries()
    ensures { CoveredEntries }
{}

/// A search that deepens stops at the first depth at which it doesn't give up for depth, or at the last.
pub fn deepened_answers()
    ensures { DeepenedAnswers }
{}
