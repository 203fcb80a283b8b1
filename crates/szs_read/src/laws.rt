//! What holds of printed answers whatever the code does.
//!
//! The functions do nothing; each one's contract is the law.
ghost use Rattle.std.specs.Prelude.{◌≡◌, ◌≤◌, ℕ, Bool, List, length};
ghost use Rattle.std.specs.List.{All, AllByRecursion};
ghost use Rattle.me_terms.specs.Known.{IsKnownInstance, IsKnownContext};
ghost use Rattle.me_terms.specs.Context.{Context, StandsAt, pseudo};
ghost use Rattle.me_terms.specs.declared.bounds.TheConstants.{MAX_ENTRIES};
ghost use Rattle.szs_print.specs.ModelText.{IsModelText};
ghost use Rattle.szs_read.specs.declared.claim.EntryLine.{EntryLine};
ghost use Rattle.me_terms.specs.Sequences.{SequenceValue};
ghost use Rattle.me_terms.specs.Validity.{IsValid};
ghost use Rattle.me_terms.specs.Values.{EntryValue, InstanceValue, ProblemValue, SignatureValue};
ghost use Rattle.me_terms.specs.declared.bounds.Bound.{Bound};
ghost use Rattle.szs_print.specs.AnswerText.{gave_up_text};
ghost use Rattle.szs_print.specs.Printable.{IsName};
ghost use Rattle.szs_print.specs.RefutationText.{refutation_text};
ghost use Rattle.szs_read.specs.Answers.{IsAnswer};
ghost use Rattle.szs_read.specs.Printed.{AreLinesOf, IsNumbered, IsPrinted, AreEntryLinesOf, start_of, IsPrintedPattern};
ghost use Rattle.szs_read.specs.Values.{InstanceLineValue};
ghost use Rattle.szs_read.specs.declared.claim.Claim.TheVariants.{Refuted, Model, Open};

/// The text of a refutation is an answer, which claims a line for each instance and adds no symbol.
pub fn printed_refutations_are_answers()
    ensures { (name : List ℕ) (problem : ProblemValue) (list : List InstanceValue) → IsName name → IsValid problem → All (IsKnownInstance problem) list → AllByRecursion IsNumbered problem.clauses → AllByRecursion (λ i. AllByRecursion IsPrinted i.literals) list → (lines : SequenceValue InstanceLineValue) × AreLinesOf problem list lines.items × IsAnswer problem.signature (refutation_text name problem list) problem.signature (Refuted lines) }
{}

/// The text of a model is an answer, which claims the context's start and a line for each visible literal,
/// and adds no symbol.
pub fn printed_models_are_answers()
    ensures { (name : List ℕ) (problem : ProblemValue) (context : Context) (text : List ℕ) → IsName name → IsValid problem → IsKnownContext problem.signature context → length context ≤ MAX_ENTRIES → ((k : ℕ) (e : EntryValue) → StandsAt context k e → IsPrintedPattern e.atom) → IsModelText name problem.signature context text → (positive : Bool) × (lines : SequenceValue EntryLine) × StandsAt context 0 (pseudo positive) × AreEntryLinesOf context (length context) lines.items × IsAnswer problem.signature text problem.signature (Model (start_of positive) lines) }
{}

/// The text for a search that gave up is an answer, which claims the bound and adds no symbol.
pub fn printed_bounds_are_answers()
    ensures { (name : List ℕ) (signature : SignatureValue) (bound : Bound) → IsName name → IsAnswer signature (gave_up_text name bound) signature (Open bound) }
{}
