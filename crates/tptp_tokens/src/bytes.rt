//! The kinds of bytes, the words that are made of them, and the first bytes of a slice.
//!
//! Each test is the definition. Each function that splits off the first bytes says exactly where there are none such.
ghost use Rattle.std.specs.Prelude.{◌≡◌, ◌≤◌, ◌∷◌, [], ℕ, List, length, IfSome, IfNone};
ghost use Rattle.std.specs.List.{list_all, prefix_len};
ghost use Rattle.me_terms.specs.Labels.{is_digit, is_printable};
ghost use Rattle.tptp_tokens.specs.Bytes.{is_blank, is_lower_letter, is_word_byte, is_lower_word};
ghost use Rattle.tptp_tokens.specs.Fronts.{IsRun};

pub(crate) fn is_blank(byte: u8) -> bool
    ensures { result ≡ is_blank byte }
{
    matches!(byte, 9..=13 | 32)
}

/// The letters, the digits and the underscore, as a set of bytes: byte `b` is in it where bit `b % 64` of
/// number `b / 64` is set.
const WORD_BYTES: [u64; 4] = [0x03ff_0000_0000_0000, 0x07ff_fffe_87ff_fffe, 0, 0];

/// Whether the byte is a letter, a digit or `_`.
pub fn is_word_byte(byte: u8) -> bool
    ensures { result ≡ is_word_byte byte }
{
    (WORD_BYTES[(byte / 64) as usize] >> (byte % 64)) & 1 == 1
}

/// Whether the byte is one of `a` to `z`.
pub fn is_lower_letter(byte: u8) -> bool
    ensures { result ≡ is_lower_letter byte }
{
    matches!(byte, b'a'..=b'z')
}

/// Whether each of the bytes is a letter, a digit or `_`.
fn are_word_bytes(bytes: &[u8]) -> bool
    ensures { result ≡ list_all is_word_byte bytes.now }
{
    bytes.iter().all(|byte| is_word_byte(*byte))
}

/// Whether the text is a lower letter and then any number of word bytes.
pub fn is_lower_word(text: &[u8]) -> bool
    ensures { result ≡ is_lower_word text.now }
{
    match text {
        [first, others @ ..] => is_lower_letter(*first) && are_word_bytes(others),
        [] => false,
    }
}

pub(crate) fn is_digit(byte: u8) -> bool
    ensures { result ≡ is_digit byte }
{
    matches!(byte, b'0'..=b'9')
}

pub(crate) fn is_printable(byte: u8) -> bool
    ensures { result ≡ is_printable byte }
{
    matches!(byte, 32..=126)
}

/// The first byte, and the others.
pub(crate) fn split(bytes: &[u8]) -> Option<(u8, &[u8])>
    ensures some { IfSome result (λ x. bytes.now ≡ x.0 ∷ x.1.now) }
    ensures none { IfNone result (bytes.now ≡ []) }
{
    match bytes {
        [] => None,
        [byte, rest @ ..] => Some((*byte, rest)),
    }
}

/// What comes after this byte, if it comes first.
pub(crate) fn after_byte(bytes: &[u8], byte: u8) -> Option<&[u8]>
    ensures some { IfSome result (λ rest. bytes.now ≡ byte ∷ rest.now) }
    ensures none { IfNone result ((rest : List ℕ) → bytes.now ≡ byte ∷ rest → ⊥) }
{
    match bytes {
        [first, rest @ ..] if *first == byte => Some(rest),
        _ => None,
    }
}

/// What comes after these two bytes, if they come first.
pub(crate) fn after_pair(bytes: &[u8], first: u8, second: u8) -> Option<&[u8]>
    ensures some { IfSome result (λ rest. bytes.now ≡ first ∷ second ∷ rest.now) }
    ensures none { IfNone result ((rest : List ℕ) → bytes.now ≡ first ∷ second ∷ rest → ⊥) }
{
    match bytes {
        [x, y, rest @ ..] if *x == first && *y == second => Some(rest),
        _ => None,
    }
}

fn word_count(bytes: &[u8]) -> usize
    ensures count { result ≡ prefix_len is_word_byte bytes.now }
    ensures within { result ≤ length bytes.now }
{
    bytes.iter().take_while(|byte| is_word_byte(**byte)).count()
}

fn digit_count(bytes: &[u8]) -> usize
    ensures count { result ≡ prefix_len is_digit bytes.now }
    ensures within { result ≤ length bytes.now }
{
    bytes.iter().take_while(|byte| is_digit(**byte)).count()
}

/// What comes after the word bytes at the front.
pub(crate) fn after_word(bytes: &[u8]) -> &[u8]
    ensures { (run : List ℕ) × IsRun is_word_byte run bytes.now result.now }
{
    bytes.split_at(word_count(bytes)).1
}

/// What comes after the digits at the front.
pub(crate) fn after_digit_run(bytes: &[u8]) -> &[u8]
    ensures { (run : List ℕ) × IsRun is_digit run bytes.now result.now }
{
    bytes.split_at(digit_count(bytes)).1
}
