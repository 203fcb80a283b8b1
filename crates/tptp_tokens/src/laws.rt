//! What holds of tokens whatever the code does.
//!
//! The functions do nothing; each one's contract is the law.
ghost use Rattle.std.specs.Prelude.{◌≡◌, ℕ, List};
ghost use Rattle.me_terms.specs.Labels.{IsReadableAs};
ghost use Rattle.me_terms.specs.declared.symbol.Form.TheVariants.{Word};
ghost use Rattle.tptp_tokens.specs.Remainders.{Remainder};
ghost use Rattle.tptp_tokens.specs.Tokens.{PlacedToken, IsText, IsNextToken, IsCut};
ghost use Rattle.tptp_tokens.specs.declared.token.TokenKind.TheVariants.{LowerWord};

/// Bytes are cut into tokens in one way.
pub fn one_cut()
    ensures { (bytes : List ℕ) (tokens others : List PlacedToken) → IsCut bytes tokens → IsCut bytes others → tokens ≡ others }
{}

/// What is left has one next token, and after it one thing is left.
pub fn one_next()
    ensures { (now : Remainder) (token other : PlacedToken) (left rest : Remainder) → IsNextToken now token left → IsNextToken now other rest → (token ≡ other) × (left ≡ rest) }
{}

/// The text of a lower word is one that a label of a word can have.
pub fn lower_words_are_words()
    ensures { (text : List ℕ) → IsText LowerWord text → IsReadableAs Word text }
{}
