//! The tokens of the cnf language.
//!
//! A token borrows its text from the bytes that it was read from, and knows the place of its first byte.
//! Names are compared by their unescaped texts.

/// The kinds of tokens.
#[derive(Clone, Copy, Debug, PartialEq, Eq)]
pub enum TokenKind {
    /// `a` to `z`, then word bytes: letters, digits and `_`.
    LowerWord,
    /// `A` to `Z`, then word bytes.
    Variable,
    /// One or two `$`, then word bytes.
    DollarWord,
    /// One or more printable bytes in single quotes.
    SingleQuoted,
    /// Any number of printable bytes in double quotes.
    Distinct,
    /// A number of digits alone.
    Digits,
    /// Any other number: with a sign, as a ratio, with a fraction or with an exponent.
    Number,
    /// `(`
    OpenRound,
    /// `)`
    CloseRound,
    /// `[`
    OpenSquare,
    /// `]`
    CloseSquare,
    /// `,`
    Comma,
    /// `.`
    Dot,
    /// `|`
    Bar,
    /// `~`
    Tilde,
    /// `=`
    Equal,
    /// `!=`
    NotEqual,
    /// One of `: ; ! ? & < > * + - / \ ^ @ { } #`.
    OtherSign,
    /// A `/*` without `*/`, a quote that is not closed or has a wrong byte or pair in it, an empty
    /// single quoted token, or any other byte. It takes all bytes up to the end.
    Bad,
}

/// A token, read from bytes.
#[derive(Clone, Copy, Debug)]
pub struct Token<'a> {
    pub kind: TokenKind,
    /// The offset of the token's first byte, from 0.
    pub at: u64,
    /// The token's bytes, without its quotes, but with each backslash that stands between them.
    pub text: &'a [u8],
}
