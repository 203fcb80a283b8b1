//! The texts of tokens, as lists of their own.
//!
//! The text of a token that stands in quotes has no backslash of a pair left. Names are compared by
//! these texts.
ghost use Rattle.std.specs.Prelude.{◌≡◌, IfOk};
ghost use Rattle.tptp_tokens.specs.Tokens.{token_value};

use crate::quoted::unescaped;
use crate::token::{Token, TokenKind};
use me_terms::Text;
use std::alloc::{AllocError, Global};

/// The text of a token: what stands between its quotes, with each pair of a backslash and a byte read
/// as the byte, or all its bytes where it has no quotes. The error says that memory is out.
pub fn text_of(alloc: Global, token: &Token<'_>) -> Result<Text, AllocError>
    ensures { IfOk result (λ text. text.items ≡ (token_value token.now).text) }
{
    match token.kind {
        TokenKind::SingleQuoted | TokenKind::Distinct => unescaped(alloc, token.text),
        _ => Text::from_slice(token.text, alloc),
    }
}
