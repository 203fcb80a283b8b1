//! What holds of files and refusals whatever the code does.
//!
//! The functions do nothing; each one's contract is the law.
ghost use Rattle.std.specs.Prelude.{◌≡◌, ℕ, List, ◌∷◌, ◌++◌};
ghost use Rattle.tptp_grammar.specs.Terminals.{Terminal};
ghost use Rattle.tptp_grammar.specs.Written.{WrittenFormula};
ghost use Rattle.tptp_grammar.specs.Files.{IsFileWithinLimits};
ghost use Rattle.tptp_grammar.specs.Refusals.{IsRefusalOf, IsCutShort};
ghost use Rattle.tptp_grammar.specs.declared.refusal.Refusal.{Refusal};

/// Tokens with a refused token among them are no file, whatever comes behind it.
#[tactic(auto, using(crate::proofs::Unique::refused_is_no_file))]
pub fn refused_is_no_file()
    ensures { (before after : List Terminal) (t : Terminal) (x : Refusal) (file : List WrittenFormula) → IsRefusalOf x before t → IsFileWithinLimits (before ++ t ∷ after) file → ⊥ }
{}

/// Tokens have at most one refused token, and one cause.
#[tactic(auto, using(crate::proofs::Unique::one_refusal))]
pub fn one_refusal()
    ensures { (before after others rest : List Terminal) (t u : Terminal) (x y : Refusal) → before ++ t ∷ after ≡ others ++ u ∷ rest → IsRefusalOf x before t → IsRefusalOf y others u → (before ≡ others) × (t ≡ u) × (x ≡ y) }
{}

/// Tokens that are cut short are no file, and have no refused token.
#[tactic(auto, using(crate::proofs::Unique::none_refused))]
pub fn none_refused()
    ensures { (before after : List Terminal) (t : Terminal) (x : Refusal) → IsCutShort (before ++ t ∷ after) → IsRefusalOf x before t → ⊥ }
{}
