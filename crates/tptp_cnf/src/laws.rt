//! What holds of files and refusals whatever the code does.
//!
//! The functions do nothing; each one's contract is the law.
ghost use Rattle.std.specs.Prelude.{◌≡◌, ℕ, List};
ghost use Rattle.me_terms.specs.Values.{ProblemValue};
ghost use Rattle.tptp_grammar.specs.declared.refusal.Refusal.{Refusal};
ghost use Rattle.tptp_cnf.specs.Files.{IsFile};
ghost use Rattle.tptp_cnf.specs.Causes.{RefusedAt};

/// Bytes mean at most one problem.
pub fn one_problem()
    ensures { (bytes : List ℕ) (p q : ProblemValue) → IsFile bytes p → IsFile bytes q → p ≡ q }
{}

/// Bytes are refused at one place at most, for one cause.
pub fn one_cause()
    ensures { (bytes : List ℕ) (why other : Refusal) (at place : ℕ) → RefusedAt why at bytes → RefusedAt other place bytes → (why ≡ other) × (at ≡ place) }
{}

/// Bytes that are refused are no file.
pub fn refused_is_no_file()
    ensures { (bytes : List ℕ) (why : Refusal) (at : ℕ) (problem : ProblemValue) → RefusedAt why at bytes → IsFile bytes problem → ⊥ }
{}
