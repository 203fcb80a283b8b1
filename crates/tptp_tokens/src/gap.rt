//! The gaps between tokens: blanks and comments.
//!
//! A comment of a line ends with its line feed or with the bytes, and one that begins with `/*` at the
//! first `*/`. A `/*` without `*/` is no part of a gap.
ghost use Rattle.std.specs.Prelude.{◌≡◌, ◌<◌, ◌≤◌, ◌++◌, ◌∷◌, ℕ, List, length, IfSome, IfNone};
ghost use Rattle.tptp_tokens.specs.Gaps.{GapPiece, IsPiece, IsFirstEnd, IsGap};
ghost use Rattle.tptp_tokens.specs.Founds.{EndsLine};

use crate::bytes::{after_byte, after_pair, is_blank, split};

/// What comes after the line.
fn after_line(bytes: &[u8]) -> &[u8]
    ensures ends { EndsLine bytes.now result.now }
    ensures shorter { length result.now ≤ length bytes.now }
{
    let mut rest = bytes;
    'bytes: while let Some((byte, after)) = split(rest) {
        if byte == b'\n' {
            return after;
        }
        rest = after;
    }
    rest
}

/// What comes after the first `*/`.
fn after_block(bytes: &[u8]) -> Option<&[u8]>
    ensures some { IfSome result (λ rest. (text : List ℕ) × IsFirstEnd text bytes.now rest.now) }
    ensures shorter { IfSome result (λ rest. length rest.now ≤ length bytes.now) }
    ensures none { IfNone result ((text rest : List ℕ) → bytes.now ≡ text ++ 42 ∷ 47 ∷ rest → ⊥) }
{
    let mut rest = bytes;
    'bytes: while let Some((_, after)) = split(rest) {
        if let Some(end) = after_pair(rest, b'*', b'/') {
            return Some(end);
        }
        rest = after;
    }
    None
}

/// What comes after the blank or the comment at the front, if one is there.
fn after_piece(bytes: &[u8]) -> Option<&[u8]>
    ensures some { IfSome result (λ rest. (piece : GapPiece) × IsPiece piece bytes.now rest.now) }
    ensures shorter { IfSome result (λ rest. length rest.now < length bytes.now) }
    ensures none { IfNone result ((piece : GapPiece) (rest : List ℕ) → IsPiece piece bytes.now rest → ⊥) }
{
    if let Some(after) = after_byte(bytes, b'%') {
        return Some(after_line(after));
    }
    if let Some(after) = after_pair(bytes, b'/', b'*') {
        return after_block(after);
    }
    match split(bytes) {
        Some((byte, after)) => if is_blank(byte) { Some(after) } else { None },
        None => None,
    }
}

/// What comes after the gap at the front.
pub(crate) fn after_gap(bytes: &[u8]) -> &[u8]
    ensures gap { IsGap bytes.now result.now }
    ensures within { length result.now ≤ length bytes.now }
{
    let mut rest = bytes;
    'pieces: while let Some(after) = after_piece(rest) {
        rest = after;
    }
    rest
}
