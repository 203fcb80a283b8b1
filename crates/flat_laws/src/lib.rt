//! What a file is once it is flat, as a law: the contract of a function with an empty body.
//!
//! Whatever its includes pick, and from whichever files, the text is a file of the profile.
#![tactic(auto)]

ghost use Rattle.std.specs.Prelude.{ℕ, List};
ghost use Rattle.me_terms.specs.Values.{ProblemValue};
ghost use Rattle.tptp_cnf.specs.Files.{IsFile};
ghost use Rattle.tptp_include.specs.Files.{FileValue};
ghost use Rattle.tptp_include.specs.Flat.{FlatValue, text_of};
ghost use Rattle.tptp_include.specs.Outcomes.{Flat, IsOutcome};

/// The text of a file once it is flat is a file of the profile.
pub fn flat_is_file()
    ensures { (files : List FileValue) (main : List ℕ) (flat : List FlatValue) → IsOutcome files main (Flat flat) → (problem : ProblemValue) × IsFile (text_of flat) problem }
{}
