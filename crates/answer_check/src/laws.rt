//! What an answer that is shown says of its problem, and which answers are shown.
//!
//! The functions do nothing; each one's contract is the law.
ghost use Rattle.answer_check.specs.Laws.{PrintedModelsAreShown, PrintedRefutationsAreShown, ShownModelsAreModels, ShownRefutationsAreRefuted, YesIsShown};

use ground_solver::lists_of_instances_are_clauses;

/// A refutation that is shown is a list of ground instances of the problem's clauses that no truth
/// assignment satisfies.
pub fn shown_refutations_are_refuted()
    ensures { ShownRefutationsAreRefuted }
{
    lists_of_instances_are_clauses();
}

/// A model that is shown is a context in whose interpretation every ground instance of every clause is true.
pub fn shown_models_are_models()
    ensures { ShownModelsAreModels }
{}

/// What is said of a claim is a yes exactly where the claim is shown.
pub fn yes_is_shown()
    ensures { YesIsShown }
{}

/// The lines of a refutation that the search answers show it.
pub fn printed_refutations_are_shown()
    ensures { PrintedRefutationsAreShown }
{
    lists_of_instances_are_clauses();
}

/// The lines of a model that the search answers show it.
pub fn printed_models_are_shown()
    ensures { PrintedModelsAreShown }
{}
