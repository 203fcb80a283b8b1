//! What holds of lines and refusals whatever the code does.
//!
//! The functions do nothing; each one's contract is the law.
ghost use Rattle.std.specs.Prelude.{◌≡◌, ℕ, List};
ghost use Rattle.tptp_grammar.specs.declared.refusal.Refusal.{Refusal};
ghost use Rattle.tptp_lines.specs.Lines.{LineValue, AreLines};
ghost use Rattle.tptp_lines.specs.LineCauses.{LinesRefusedAt};

/// Bytes are one list of lines at most.
pub fn one_lines()
    ensures { (bytes : List ℕ) (lines others : List LineValue) → AreLines bytes lines → AreLines bytes others → lines ≡ others }
{}

/// Bytes are refused at one place at most, for one cause.
pub fn one_lines_cause()
    ensures { (bytes : List ℕ) (why other : Refusal) (at place : ℕ) → LinesRefusedAt why at bytes → LinesRefusedAt other place bytes → (why ≡ other) × (at ≡ place) }
{}

/// Bytes that are refused are no lines.
pub fn refused_is_no_lines()
    ensures { (bytes : List ℕ) (why : Refusal) (at : ℕ) (lines : List LineValue) → LinesRefusedAt why at bytes → AreLines bytes lines → ⊥ }
{}
