//! The token at the front of bytes, with which no gap begins.
//!
//! It is the longest token with which the bytes begin, and a bad token, which takes all of them, where
//! they begin with none.
ghost use Rattle.std.specs.Prelude.{◌≡◌, ◌≢◌, ◌++◌, ◌∷◌, [], List, ℕ, IfSome, IfNone, if◌then◌else◌};
ghost use Rattle.std.specs.List.{list_all};
ghost use Rattle.me_terms.specs.Labels.{is_digit};
ghost use Rattle.tptp_tokens.specs.Founds.{IsFound, BeginsSignsAlone};
ghost use Rattle.tptp_tokens.specs.Fronts.{IsAfter};
ghost use Rattle.tptp_tokens.specs.Leads.{lead_of};
ghost use Rattle.tptp_tokens.specs.Numbers.{IsNumber};
ghost use Rattle.tptp_tokens.specs.Tokens.{OpensComment};

use crate::bytes::{after_byte, after_pair, after_word, is_digit, split};
use crate::lead::{Lead, lead_of, sign_kind};
use crate::number::after_number;
use crate::quoted::closed;
use crate::token::TokenKind;

/// A token that is found: its kind, its bytes without its quotes, and what comes after it.
#[derive(Clone, Copy, Debug)]
pub(crate) struct Found<'a> {
    pub(crate) kind: TokenKind,
    pub(crate) inside: &'a [u8],
    pub(crate) rest: &'a [u8],
}

/// The token of the bytes before `rest`.
fn up_to<'a>(kind: TokenKind, bytes: &'a [u8], rest: &'a [u8]) -> Found<'a>
    requires { (text : List ℕ) × (bytes.now ≡ text ++ rest.now) }
    ensures kind { result.kind ≡ kind }
    ensures rest { result.rest.now ≡ rest.now }
    ensures parts { bytes.now ≡ result.inside.now ++ rest.now }
{
    Found {
        kind,
        inside: &bytes[..bytes.len() - rest.len()],
        rest,
    }
}

/// A bad token, which takes all bytes.
fn bad(bytes: &[u8]) -> Found<'_>
    ensures kind { result.kind ≡ TokenKind.Bad }
    ensures inside { result.inside.now ≡ bytes.now }
    ensures rest { result.rest.now ≡ [] }
{
    Found {
        kind: TokenKind::Bad,
        inside: bytes,
        rest: &[],
    }
}

fn lower_word<'a>(bytes: &'a [u8], byte: u8, after: &'a [u8]) -> Found<'a>
    requires head { bytes.now ≡ byte ∷ after.now }
    requires lead { lead_of byte ≡ Lead.LowerLetter }
    ensures { IsFound bytes.now result }
{
    up_to(TokenKind::LowerWord, bytes, after_word(after))
}

fn variable<'a>(bytes: &'a [u8], byte: u8, after: &'a [u8]) -> Found<'a>
    requires head { bytes.now ≡ byte ∷ after.now }
    requires lead { lead_of byte ≡ Lead.UpperLetter }
    ensures { IsFound bytes.now result }
{
    up_to(TokenKind::Variable, bytes, after_word(after))
}

fn dollar_word<'a>(bytes: &'a [u8], byte: u8, after: &'a [u8]) -> Found<'a>
    requires head { bytes.now ≡ byte ∷ after.now }
    requires lead { lead_of byte ≡ Lead.Dollar }
    ensures { IsFound bytes.now result }
{
    match after_byte(after, b'$') {
        Some(second) => up_to(TokenKind::DollarWord, bytes, after_word(second)),
        None => up_to(TokenKind::DollarWord, bytes, after_word(after)),
    }
}

fn single_quoted<'a>(bytes: &'a [u8], byte: u8, after: &'a [u8]) -> Found<'a>
    requires head { bytes.now ≡ byte ∷ after.now }
    requires lead { lead_of byte ≡ Lead.SingleQuote }
    ensures { IsFound bytes.now result }
{
    match closed(after, b'\'') {
        Some((inside, rest)) => if inside.is_empty() {
            bad(bytes)
        } else {
            Found {
                kind: TokenKind::SingleQuoted,
                inside,
                rest,
            }
        },
        None => bad(bytes),
    }
}

fn distinct<'a>(bytes: &'a [u8], byte: u8, after: &'a [u8]) -> Found<'a>
    requires head { bytes.now ≡ byte ∷ after.now }
    requires lead { lead_of byte ≡ Lead.DoubleQuote }
    ensures { IsFound bytes.now result }
{
    match closed(after, b'"') {
        Some((inside, rest)) => Found {
            kind: TokenKind::Distinct,
            inside,
            rest,
        },
        None => bad(bytes),
    }
}

fn are_digits(text: &[u8]) -> bool
    ensures { result ≡ list_all is_digit text.now }
{
    text.iter().all(|byte| is_digit(*byte))
}

/// The kind of a number of this text.
fn number_kind(text: &[u8]) -> TokenKind
    ensures { result ≡ (if list_all is_digit text.now then TokenKind.Digits else TokenKind.Number) }
{
    if are_digits(text) {
        TokenKind::Digits
    } else {
        TokenKind::Number
    }
}

/// The number that takes the bytes before `rest`.
fn number<'a>(bytes: &'a [u8], rest: &'a [u8]) -> Found<'a>
    requires { IsAfter IsNumber bytes.now rest.now }
    ensures { IsFound bytes.now result }
{
    let text = &bytes[..bytes.len() - rest.len()];
    Found {
        kind: number_kind(text),
        inside: text,
        rest,
    }
}

/// A sign of one byte, or a bad token, where no other token may begin.
#[inline(always)]
fn sign<'a>(bytes: &'a [u8], byte: u8, after: &'a [u8]) -> Found<'a>
    requires head { bytes.now ≡ byte ∷ after.now }
    requires signs { BeginsSignsAlone byte bytes.now }
    requires no_comment { OpensComment bytes.now → ⊥ }
    ensures { IsFound bytes.now result }
{
    match sign_kind(byte) {
        TokenKind::Bad => bad(bytes),
        kind => up_to(kind, bytes, after),
    }
}

/// A number, or a plus or a minus.
fn number_or_sign<'a>(bytes: &'a [u8], byte: u8, after: &'a [u8]) -> Found<'a>
    requires head { bytes.now ≡ byte ∷ after.now }
    requires lead { lead_of byte ≡ Lead.Numeric }
    ensures { IsFound bytes.now result }
{
    match after_number(bytes) {
        Some(rest) => number(bytes, rest),
        None => sign(bytes, byte, after),
    }
}

/// `!=`, or an exclamation mark.
fn exclamation<'a>(bytes: &'a [u8], byte: u8, after: &'a [u8]) -> Found<'a>
    requires head { bytes.now ≡ byte ∷ after.now }
    requires lead { lead_of byte ≡ Lead.Exclamation }
    ensures { IsFound bytes.now result }
{
    match after_byte(after, b'=') {
        Some(rest) => up_to(TokenKind::NotEqual, bytes, rest),
        None => sign(bytes, byte, after),
    }
}

/// The token that begins with this byte.
fn token_of<'a>(bytes: &'a [u8], byte: u8, after: &'a [u8]) -> Found<'a>
    requires head { bytes.now ≡ byte ∷ after.now }
    requires no_comment { OpensComment bytes.now → ⊥ }
    ensures { IsFound bytes.now result }
{
    match lead_of(byte) {
        Lead::LowerLetter => lower_word(bytes, byte, after),
        Lead::UpperLetter => variable(bytes, byte, after),
        Lead::Dollar => dollar_word(bytes, byte, after),
        Lead::SingleQuote => single_quoted(bytes, byte, after),
        Lead::DoubleQuote => distinct(bytes, byte, after),
        Lead::Numeric => number_or_sign(bytes, byte, after),
        Lead::Exclamation => exclamation(bytes, byte, after),
        Lead::Other => sign(bytes, byte, after),
    }
}

/// The first token of the bytes, with which no gap begins; none where there are no bytes.
pub(crate) fn first(bytes: &[u8]) -> Option<Found<'_>>
    ensures some { IfSome result (IsFound bytes.now) }
    ensures none { IfNone result (bytes.now ≡ []) }
{
    let Some((byte, after)) = split(bytes) else {
        return None;
    };
    match after_pair(bytes, b'/', b'*') {
        Some(_) => Some(bad(bytes)),
        None => Some(token_of(bytes, byte, after)),
    }
}
