//! The tokens of a line, without bad ones.
ghost use Rattle.std.specs.Prelude.{◌≡◌, ◌<◌, ◌≤◌, ◌^◌, ℕ, List, length, drop, decimal, Some, IfSome, IfNone, IfOk};
ghost use Rattle.me_terms.specs.Labels.{IsReadable, IsReadableAs};
ghost use Rattle.me_terms.specs.Values.{LabelValue};
ghost use Rattle.tptp_tokens.specs.Tokens.{TokenValue, IsToken, IsText, token_value};
ghost use Rattle.szs_read.specs.LineTokens.{AreLeft, label_token};
ghost use Rattle.szs_read.specs.Nexts.{IsNextOf};

use me_terms::{Form, Label};
use std::alloc::{AllocError, Global};
use std::str;
use tptp_tokens::{Token, TokenKind, Tokenizer, text_of};

/// The next token, and none where the tokens end or a bad one comes.
pub(crate) fn next_token<'a>(tokens: &mut Tokenizer<'a>) -> Option<Token<'a>>
    ensures lawful { IfSome result (λ token. IsToken (token_value token)) }
    ensures shorter { IfSome result (λ _. length tokens.new.bytes < length tokens.old.bytes) }
    ensures none { IfNone result (length tokens.new.bytes ≤ length tokens.old.bytes) }
    ensures next { (ts : List TokenValue) → AreLeft tokens.old.bytes ts → IsNextOf ts result × AreLeft tokens.new.bytes (drop 1 ts) }
{
    match tokens.next() {
        Some(token) => match token.kind {
            TokenKind::Bad => None,
            _ => Some(token),
        },
        None => None,
    }
}

/// Goes over so many tokens.
pub(crate) fn skip(tokens: &mut Tokenizer<'_>, count: usize)
    ensures shorter { length tokens.new.bytes ≤ length tokens.old.bytes }
    ensures left { (ts : List TokenValue) → AreLeft tokens.old.bytes ts → AreLeft tokens.new.bytes (drop count ts) }
{
    'tokens: for _passed in 0..count {
        next_token(tokens);
    }
}

/// The form of a label that is written as a token of this kind.
fn form_of(kind: TokenKind) -> Option<Form>
    ensures readable { IfSome result (λ form. (text : List ℕ) → IsText kind text → IsReadableAs form text) }
    ensures same { (label : LabelValue) → kind ≡ (label_token label).kind → result ≡ Some label.form }
{
    match kind {
        TokenKind::LowerWord | TokenKind::SingleQuoted => Some(Form::Word),
        TokenKind::Distinct => Some(Form::Distinct),
        TokenKind::Digits => Some(Form::Number),
        _ => None,
    }
}

/// The label that is written as the token.
pub(crate) fn label_of(alloc: Global, token: &Token<'_>) -> Result<Option<Label>, AllocError>
    requires { IsToken (token_value token.now) }
    ensures readable { IfOk result (λ label. IfSome label IsReadable) }
    ensures same { IfOk result (λ read. (label : LabelValue) → token_value token.now ≡ label_token label → read ≡ Some label) }
{
    let Some(form) = form_of(token.kind) else {
        return Ok(None);
    };
    let text = text_of(alloc, token)?;
    Ok(Some(Label { form, text }))
}

/// The number that the digits are, if it has 32 bits. They may begin with zeros or a plus.
pub(crate) fn number_of(digits: &[u8]) -> Option<u32>
    ensures { (n : ℕ) → n < 2 ^ 32 → digits.now ≡ decimal n → result ≡ Some n }
{
    match str::from_utf8(digits) {
        Ok(text) => text.parse::<u32>().ok(),
        Err(_) => None,
    }
}
