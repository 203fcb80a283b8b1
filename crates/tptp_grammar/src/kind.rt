//! As what a token is refused, with which no file goes on.
//!
//! That depends on the token, and on what may come where it stands.
ghost use Rattle.std.specs.Prelude.{◌≡◌, ℕ, List, reverse};
ghost use Rattle.tptp_grammar.specs.Readings as readings;
ghost use Rattle.tptp_grammar.specs.Refusals as refusals;
ghost use Rattle.tptp_grammar.specs.Terminals as terminal;
ghost use Rattle.tptp_grammar.specs.Views.{terminal_of, state_of};

use crate::place::{Place, Stage};
use crate::refusal::{Refusal, What};
use tptp_tokens::{Token, TokenKind};

/// Whether the word begins a formula of another TPTP language.
fn is_language(word: &[u8]) -> bool
    ensures { result ≡ refusals.is_language (terminal.LowerWord word.now) }
{
    word == b"fof".as_slice()
        || word == b"tff".as_slice()
        || word == b"thf".as_slice()
        || word == b"tcf".as_slice()
        || word == b"tpi".as_slice()
}

/// Where a formula may begin.
fn formula_refusal(token: &Token<'_>) -> Refusal
    ensures { result ≡ readings.formula_kind (terminal_of token.now) }
{
    match token.kind {
        TokenKind::LowerWord if is_language(token.text) => Refusal::Inappropriate(What::Language),
        TokenKind::LowerWord if token.text == b"include".as_slice() => Refusal::Inappropriate(
            What::Include,
        ),
        _ => Refusal::Syntax,
    }
}

/// Where the role stands.
fn role_refusal(token: &Token<'_>) -> Refusal
    ensures { result ≡ readings.role_kind (terminal_of token.now) }
{
    match token.kind {
        TokenKind::LowerWord if token.text == b"conjecture".as_slice() => Refusal::Inappropriate(
            What::Conjecture,
        ),
        TokenKind::LowerWord => Refusal::Inappropriate(What::Role),
        _ => Refusal::Syntax,
    }
}

/// Where an argument may begin.
fn argument_refusal(token: &Token<'_>) -> Refusal
    ensures { result ≡ readings.argument_kind (terminal_of token.now) }
{
    match token.kind {
        TokenKind::Digits | TokenKind::Number => Refusal::Inappropriate(What::Number),
        TokenKind::DollarWord => Refusal::Inappropriate(What::Defined),
        _ => Refusal::Syntax,
    }
}

/// Where an atom may begin.
fn atom_refusal(token: &Token<'_>) -> Refusal
    ensures { result ≡ readings.atom_kind (terminal_of token.now) }
{
    match token.kind {
        TokenKind::Variable | TokenKind::Distinct => Refusal::Inappropriate(What::Equality),
        _ => argument_refusal(token),
    }
}

/// Behind an atom.
fn atom_end_refusal(token: &Token<'_>) -> Refusal
    ensures { result ≡ readings.atom_end_kind (terminal_of token.now) }
{
    match token.kind {
        TokenKind::Equal | TokenKind::NotEqual => Refusal::Inappropriate(What::Equality),
        _ => Refusal::Syntax,
    }
}

/// As what the token is refused at this place, where no file goes on with it.
pub(crate) fn refusal(place: &Place, token: &Token<'_>) -> Refusal
    ensures { result ≡ readings.kind_at (state_of place.now) (terminal_of token.now) }
{
    match place.stage {
        Stage::Between => formula_refusal(token),
        Stage::LabelEnd => role_refusal(token),
        Stage::FormulaStart | Stage::LiteralStart | Stage::Negated | Stage::AtomStart =>
            atom_refusal(token),
        Stage::ArgumentStart => argument_refusal(token),
        Stage::Named | Stage::Done => if place.arguments.is_empty() {
            atom_end_refusal(token)
        } else {
            Refusal::Syntax
        },
        _ => Refusal::Syntax,
    }
}
