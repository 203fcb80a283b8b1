//! The values of the options, each in its form and range.
//!
//! A number is read where it is 1 to `MAX_DIGITS` decimal digits and stands in the range, a name where it is
//! 1 to `MAX_NAME_BYTES` bytes that are printed and are no blanks, and a start by its word.
ghost use Rattle.std.specs.Prelude.{◌≡◌, ◌≤◌, ◌<◌, ◌↔◌, codes, length, IsTrue, IfSome, IsNone, IfOk, IfErr, OnErr, unwrap_or};
ghost use Rattle.std.specs.List.{All};
ghost use Rattle.clap.specs.Matches.{first_value, found_of};
ghost use Rattle.szs_print.specs.Printable.{IsName};
ghost use Rattle.me_terms.specs.Validity.{IsLawful};
ghost use Rattle.darwin_options.specs.Settings.{IsNumberWithin, IsNumberOr, IsOutside, decimal_value, AreInForm};
ghost use Rattle.darwin_options.specs.OptionsCommand.{value_found};
ghost use Rattle.darwin_options.specs.AcceptedWords.{AreOptionsOf, AreBoundsOf, IsNameOr, IsNoName, IsSeed, IsStartOr, IsNoStart};
ghost use Rattle.darwin_options.specs.Ranges.{IsInRange};

use crate::error::WordsError;
use crate::options::{
    DEFAULT_DEPTH, DEFAULT_ENTRIES, DEFAULT_LIST, DEFAULT_SHARE, DEFAULT_WEIGHT, DEFAULT_WORKERS,
    MAX_DIGITS, MAX_SEED, MAX_SHARE, MAX_WORKERS, Options,
};
use clap::ArgMatches;
use me_terms::{Bounds, MAX_DEPTH, MAX_ENTRIES, MAX_LIST, MAX_WEIGHT, Start, Text};
use std::alloc::Global;
use szs_print::MAX_NAME_BYTES;

/// Whether each of the bytes is a decimal digit.
fn are_digits(bytes: &[u8]) -> bool
    ensures { IsTrue result ↔ All (λ byte. (48 ≤ byte) × (byte ≤ 57)) bytes.now }
{
    bytes.iter().all(|byte| b'0' <= *byte && *byte <= b'9')
}

/// Whether each of the bytes is printed and is no blank.
fn are_printed(bytes: &[u8]) -> bool
    ensures { IsTrue result ↔ All (λ byte. (33 ≤ byte) × (byte ≤ 126)) bytes.now }
{
    bytes.iter().all(|byte| 33 <= *byte && *byte <= 126)
}

/// Whether the bytes can name a problem.
fn is_name(bytes: &[u8]) -> bool
    ensures { IsTrue result ↔ IsName bytes.now }
{
    !bytes.is_empty() && bytes.len() <= MAX_NAME_BYTES && are_printed(bytes)
}

/// The number that the text writes, where it stands in the range.
#[tactic(auto, using(crate::proofs::Numerals::number_read))]
fn number_within(text: &str, low: u64, high: u64) -> Option<u64>
    ensures some { IfSome result (λ number. IsNumberWithin low high text.now × (number ≡ decimal_value text.now)) }
    ensures none { IsNone result → ¬ IsNumberWithin low high text.now }
{
    let digits = text.as_bytes();
    if digits.is_empty() || digits.len() > MAX_DIGITS || !are_digits(digits) {
        return None;
    }
    match text.parse::<u64>() {
        Ok(number) if low <= number && number <= high => Some(number),
        _ => None,
    }
}

/// The number that is given for the option, or the default where none is.
fn number_or(
    matches: &ArgMatches,
    name: &str,
    low: u64,
    high: u64,
    default: u64,
) -> Result<u64, WordsError>
    requires { (low ≤ default) × (default ≤ high) }
    ensures ok { IfOk result (IsNumberOr low high default (first_value (found_of matches.now) name.now)) }
    ensures in_range { IfOk result (λ number. (low ≤ number) × (number ≤ high)) }
    ensures usage { OnErr result (IsOutside low high (first_value (found_of matches.now) name.now)) }
{
    match matches.get_str(name) {
        None => Ok(default),
        Some(text) => match number_within(text, low, high) {
            Some(number) => Ok(number),
            None => Err(WordsError::Usage),
        },
    }
}

/// The start that is given, or the negative one.
fn start_in(matches: &ArgMatches) -> Result<Start, WordsError>
    ensures ok { IfOk result (IsStartOr (first_value (found_of matches.now) (codes "start"))) }
    ensures usage { OnErr result (IsNoStart (first_value (found_of matches.now) (codes "start"))) }
{
    match matches.get_str("start") {
        None => Ok(Start::Negative),
        Some(word) => match word.as_bytes() {
            b"negative" => Ok(Start::Negative),
            b"positive" => Ok(Start::Positive),
            _ => Err(WordsError::Usage),
        },
    }
}

/// The bounds that are given.
fn bounds_in(matches: &ArgMatches) -> Result<Bounds, WordsError>
    ensures ok { IfOk result (AreBoundsOf (value_found matches.now)) }
    ensures lawful { IfOk result IsLawful }
    ensures usage { OnErr result (¬ AreInForm (value_found matches.now)) }
{
    let depth = number_or(matches, "depth", 1, MAX_DEPTH as u64, DEFAULT_DEPTH as u64)?;
    let weight = number_or(matches, "weight", 1, MAX_WEIGHT, DEFAULT_WEIGHT)?;
    let literals = number_or(
        matches,
        "literals",
        1,
        MAX_ENTRIES as u64,
        DEFAULT_ENTRIES as u64,
    )?;
    let list = number_or(matches, "list", 1, MAX_LIST, DEFAULT_LIST)?;
    Ok(Bounds {
        depth: depth as u32,
        weight,
        literals: literals as u32,
        list,
        start: start_in(matches)?,
    })
}

/// The seed that is given for a made problem.
fn seed_in(matches: &ArgMatches) -> Result<Option<u64>, WordsError>
    ensures ok { IfOk result (IsSeed (first_value (found_of matches.now) (codes "make"))) }
    ensures in_range { IfOk result (λ seed. IfSome seed (λ number. number ≤ MAX_SEED)) }
    ensures usage { OnErr result (IsOutside 0 MAX_SEED (first_value (found_of matches.now) (codes "make"))) }
{
    match matches.get_str("make") {
        None => Ok(None),
        Some(text) => match number_within(text, 0, MAX_SEED) {
            Some(number) => Ok(Some(number)),
            None => Err(WordsError::Usage),
        },
    }
}

/// The bytes as a name of their own.
fn name_from(alloc: Global, bytes: &[u8]) -> Result<Text, WordsError>
    ensures ok { IfOk result (λ name. name.items ≡ bytes.now) }
    ensures memory { IfErr result (λ e. e ≡ WordsError.Memory) }
{
    match Text::from_slice(bytes, alloc) {
        Ok(name) => Ok(name),
        Err(_) => Err(WordsError::Memory),
    }
}

/// The name that is given, or the default name.
fn name_in(alloc: Global, matches: &ArgMatches) -> Result<Text, WordsError>
    ensures ok { IfOk result (λ name. IsNameOr (first_value (found_of matches.now) (codes "name")) name.items) }
    ensures printable { IfOk result (λ name. IsName name.items) }
    ensures usage { IfErr result (λ e. e ≡ WordsError.Usage → IsNoName (first_value (found_of matches.now) (codes "name"))) }
{
    match matches.get_str("name") {
        Some(name) if is_name(name.as_bytes()) => name_from(alloc, name.as_bytes()),
        Some(_) => Err(WordsError::Usage),
        None => name_from(alloc, b"stdin".as_slice()),
    }
}

/// The options that the matches give.
pub(crate) fn options_in(alloc: Global, matches: &ArgMatches) -> Result<Options, WordsError>
    ensures asked { IfOk result (AreOptionsOf (value_found matches.now)) }
    ensures in_range { IfOk result IsInRange }
    ensures usage { IfErr result (λ e. e ≡ WordsError.Usage → ¬ AreInForm (value_found matches.now)) }
{
    let name = name_in(alloc, matches)?;
    let bounds = bounds_in(matches)?;
    let depth = bounds.depth as u64;
    let from = number_or(matches, "from", 1, depth, depth)?;
    let workers = number_or(
        matches,
        "workers",
        1,
        MAX_WORKERS as u64,
        DEFAULT_WORKERS as u64,
    )?;
    let share = number_or(matches, "share", 0, MAX_SHARE as u64, DEFAULT_SHARE as u64)?;
    let make = seed_in(matches)?;
    Ok(Options {
        name,
        bounds,
        from: from as u32,
        workers: workers as u32,
        share: share as u32,
        make,
    })
}
