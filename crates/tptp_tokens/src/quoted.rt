//! Texts in quotes.
//!
//! Between quotes stand printable bytes, with a backslash before each quote of that kind and each
//! backslash. What the text means is that with these backslashes taken off.
ghost use Rattle.std.specs.Prelude.{◌≡◌, ◌≢◌, ◌≤◌, ◌<◌, ℕ, List, length, IfOk, IfSome, IfNone};
ghost use Rattle.tptp_tokens.specs.Founds.{BeginsPrintable, IsPrintables, IsClosedQuote};
ghost use Rattle.tptp_tokens.specs.Quoted.{is_escaped, unescaped};

use crate::bytes::{after_byte, is_printable};
use me_terms::Text;
use std::alloc::{AllocError, Global};

/// Whether the byte is written with a backslash between two of these quotes.
pub fn is_escaped(byte: u8, quote: u8) -> bool
    ensures { result ≡ is_escaped quote byte }
{
    byte == quote || byte == b'\\'
}

/// What comes after the printable byte that is written at the front, if there is one.
fn after_printable(bytes: &[u8], quote: u8) -> Option<&[u8]>
    ensures some { IfSome result (λ rest. BeginsPrintable quote bytes.now rest.now) }
    ensures none { IfNone result ((rest : List ℕ) → BeginsPrintable quote bytes.now rest → ⊥) }
    ensures shorter { IfSome result (λ rest. length rest.now < length bytes.now) }
{
    match bytes {
        [] => None,
        [b'\\'] => None,
        [b'\\', byte, rest @ ..] => if is_escaped(*byte, quote) && is_printable(*byte) {
            Some(rest)
        } else {
            None
        },
        [byte, rest @ ..] => if is_printable(*byte) && *byte != quote {
            Some(rest)
        } else {
            None
        },
    }
}

/// What comes after the printable bytes that are written at the front.
fn after_printables(bytes: &[u8], quote: u8) -> &[u8]
    ensures parts { IsPrintables quote bytes.now result.now }
    ensures stops { (rest : List ℕ) → BeginsPrintable quote result.now rest → ⊥ }
    ensures within { length result.now ≤ length bytes.now }
{
    let mut rest = bytes;
    'bytes: while let Some(after) = after_printable(rest, quote) {
        rest = after;
    }
    rest
}

/// Behind a quote: what stands before the second quote, and what comes after that.
pub(crate) fn closed(bytes: &[u8], quote: u8) -> Option<(&[u8], &[u8])>
    requires { quote ≢ 92 }
    ensures some { IfSome result (λ x. IsClosedQuote quote x.0.now bytes.now x.1.now) }
    ensures none { IfNone result ((inside rest : List ℕ) → IsClosedQuote quote inside bytes.now rest → ⊥) }
{
    let end = after_printables(bytes, quote);
    match after_byte(end, quote) {
        Some(rest) => Some((&bytes[..bytes.len() - end.len()], rest)),
        None => None,
    }
}

/// The text of what stands between two quotes: each pair of a backslash and a byte is read as the byte.
/// The error says that memory is out.
pub fn unescaped(alloc: Global, written: &[u8]) -> Result<Text, AllocError>
    ensures { IfOk result (λ text. text.items ≡ unescaped written.now) }
{
    let mut text = Text::new(alloc);
    let mut pending = false;
    'bytes: for byte in written {
        if !pending && *byte == b'\\' {
            pending = true;
            continue;
        }
        text.push(*byte).map_err(|_| AllocError)?;
        pending = false;
    }
    Ok(text)
}
