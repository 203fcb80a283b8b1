//! What holds of files once they are flat, whatever the code does.
//!
//! The functions do nothing; each one's contract is the law.
ghost use Rattle.std.specs.Prelude.{◌≡◌, ℕ, List};
ghost use Rattle.tptp_include.specs.Files.{FileValue};
ghost use Rattle.tptp_include.specs.Flat.{FlatValue, IsFlat};
ghost use Rattle.tptp_include.specs.Outcomes.{Outcome, Flat, IsOutcome};
ghost use Rattle.tptp_include.specs.declared.limits.TheConstants.{MAX_CHAIN};

/// There is at most one outcome of a file.
pub fn one_outcome()
    ensures { (files : List FileValue) (main : List ℕ) (outcome other : Outcome) → IsOutcome files main outcome → IsOutcome files main other → outcome ≡ other }
{}

/// The formulas of an outcome are those of the file once each include in it is replaced by what it includes.
pub fn outcome_is_flat()
    ensures { (files : List FileValue) (main : List ℕ) (flat : List FlatValue) → IsOutcome files main (Flat flat) → IsFlat MAX_CHAIN files main flat }
{}

/// A file is flat in one way, however deep its includes may go.
pub fn one_flat()
    ensures { (depth deep : ℕ) (files : List FileValue) (name : List ℕ) (flat other : List FlatValue) → IsFlat depth files name flat → IsFlat deep files name other → flat ≡ other }
{}
