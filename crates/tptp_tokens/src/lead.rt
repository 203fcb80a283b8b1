//! The first byte of a token.
//!
//! It decides which tokens may begin with it, and for a sign of one byte which one it is.
ghost use Rattle.std.specs.Prelude.{◌≡◌};
ghost use Rattle.tptp_tokens.specs.Leads.{lead_of, sign_kind};

use crate::token::TokenKind;

/// Which tokens a byte may begin.
#[derive(Clone, Copy, Debug)]
pub(crate) enum Lead {
    /// A lower word.
    LowerLetter,
    /// A variable.
    UpperLetter,
    /// A dollar word.
    Dollar,
    /// A single quoted token.
    SingleQuote,
    /// A distinct object.
    DoubleQuote,
    /// A number, or a plus or a minus.
    Numeric,
    /// `!=`, or an exclamation mark.
    Exclamation,
    /// A sign of one byte, or a bad token.
    Other,
}

pub(crate) fn lead_of(byte: u8) -> Lead
    ensures { result ≡ lead_of byte }
{
    match byte {
        b'a'..=b'z' => Lead::LowerLetter,
        b'A'..=b'Z' => Lead::UpperLetter,
        b'$' => Lead::Dollar,
        b'\'' => Lead::SingleQuote,
        b'"' => Lead::DoubleQuote,
        b'0'..=b'9' | b'+' | b'-' => Lead::Numeric,
        b'!' => Lead::Exclamation,
        _ => Lead::Other,
    }
}

/// The kind of a sign of one byte, and `Bad` for any other byte.
#[inline(always)]
pub(crate) fn sign_kind(byte: u8) -> TokenKind
    ensures { result ≡ sign_kind byte }
{
    match byte {
        b'(' => TokenKind::OpenRound,
        b')' => TokenKind::CloseRound,
        b'[' => TokenKind::OpenSquare,
        b']' => TokenKind::CloseSquare,
        b',' => TokenKind::Comma,
        b'.' => TokenKind::Dot,
        b'|' => TokenKind::Bar,
        b'~' => TokenKind::Tilde,
        b'=' => TokenKind::Equal,
        b':'
        | b';'
        | b'!'
        | b'?'
        | b'&'
        | b'<'
        | b'>'
        | b'*'
        | b'+'
        | b'-'
        | b'/'
        | b'\\'
        | b'^'
        | b'@'
        | b'{'
        | b'}'
        | b'#' => TokenKind::OtherSign,
        _ => TokenKind::Bad,
    }
}
