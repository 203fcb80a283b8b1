//! Numbers.
//!
//! Each function finds the longest front of the bytes that is a part of a number, so a `.`, a `/` or
//! an `e` without digits behind it is left.
ghost use Rattle.std.specs.Prelude.{◌≡◌, ℕ, List, IfSome, IfNone};
ghost use Rattle.me_terms.specs.Labels.{is_digit};
ghost use Rattle.tptp_tokens.specs.Fronts.{Stops, IsRun, IsAfter, HasNoFront};
ghost use Rattle.tptp_tokens.specs.Numbers.{IsDigits, IsSign, IsDigitsBehind, IsFraction, IsPower, IsExponent, IsTail, IsNumber};

use crate::bytes::{after_byte, after_digit_run, is_digit, split};

/// What comes after the digits at the front, of which there is at least one.
fn after_digits(bytes: &[u8]) -> Option<&[u8]>
    ensures some { IfSome result (λ rest. (run : List ℕ) × IsRun is_digit run bytes.now rest.now × IsDigits run) }
    ensures none { IfNone result (Stops is_digit bytes.now) }
{
    match split(bytes) {
        Some((byte, _)) if is_digit(byte) => Some(after_digit_run(bytes)),
        _ => None,
    }
}

/// What comes after a plus or a minus, if one comes first.
fn after_sign(bytes: &[u8]) -> &[u8]
    ensures { IsAfter IsSign bytes.now result.now }
{
    if let Some(rest) = after_byte(bytes, b'+') {
        return rest;
    }
    match after_byte(bytes, b'-') {
        Some(rest) => rest,
        None => bytes,
    }
}

/// What comes after this byte with digits behind it.
fn after_digits_behind(bytes: &[u8], mark: u8) -> Option<&[u8]>
    ensures some { IfSome result (λ rest. IsAfter (IsDigitsBehind mark) bytes.now rest.now) }
    ensures none { IfNone result (HasNoFront (IsDigitsBehind mark) bytes.now) }
{
    match after_byte(bytes, mark) {
        Some(after) => after_digits(after),
        None => None,
    }
}

/// What comes after this byte with a sign and digits behind it.
fn after_power(bytes: &[u8], mark: u8) -> Option<&[u8]>
    ensures some { IfSome result (λ rest. IsAfter (IsPower mark) bytes.now rest.now) }
    ensures none { IfNone result (HasNoFront (IsPower mark) bytes.now) }
{
    match after_byte(bytes, mark) {
        Some(after) => after_digits(after_sign(after)),
        None => None,
    }
}

fn after_fraction(bytes: &[u8]) -> &[u8]
    ensures { IsAfter IsFraction bytes.now result.now }
{
    match after_digits_behind(bytes, b'.') {
        Some(rest) => rest,
        None => bytes,
    }
}

fn after_exponent(bytes: &[u8]) -> &[u8]
    ensures { IsAfter IsExponent bytes.now result.now }
{
    if let Some(rest) = after_power(bytes, b'e') {
        return rest;
    }
    match after_power(bytes, b'E') {
        Some(rest) => rest,
        None => bytes,
    }
}

fn after_tail(bytes: &[u8]) -> &[u8]
    ensures { IsAfter IsTail bytes.now result.now }
{
    match after_digits_behind(bytes, b'/') {
        Some(rest) => rest,
        None => after_exponent(after_fraction(bytes)),
    }
}

/// What comes after the number at the front, if one is there.
pub(crate) fn after_number(bytes: &[u8]) -> Option<&[u8]>
    ensures some { IfSome result (λ rest. IsAfter IsNumber bytes.now rest.now) }
    ensures none { IfNone result (HasNoFront IsNumber bytes.now) }
{
    match after_digits(after_sign(bytes)) {
        Some(after) => Some(after_tail(after)),
        None => None,
    }
}
