//! The command whose arguments are the options.
//!
//! Each option is an argument with one value that is given by its long name. A parse takes just the words
//! that are settings of different options, and finds their values.
ghost use Rattle.std.specs.Prelude.{◌≡◌, ◌≢◌, IfOk, IfErr, Some, false, true, List};
ghost use Rattle.std.specs.List.{list_any};
ghost use Rattle.std.specs.String.{string_bytes};
ghost use Rattle.clap.specs.Values.{kind_of};
ghost use Rattle.clap.specs.Simple.{app_of, new_rule};
ghost use Rattle.clap.specs.Walk.{rule_of};
ghost use Rattle.clap.specs.declared.builder.action.ArgAction.TheVariants.{Set};
ghost use Rattle.darwin_options.specs.OptionsCommand.{options_app, is_bare, is_readable, IsFoundIn, AreNoSettings, HoldsValuesOf};
ghost use Rattle.darwin_options.specs.Settings.{Setting, Distinguishes};

use crate::error::WordsError;
use clap::error::ErrorKind;
use clap::{Arg, ArgAction, ArgMatches, Command, Error};
use std::alloc::{AllocError, Global};

/// The argument with one value that is given by its long name.
fn option<'a>(alloc: Global, name: &'a str) -> Arg<'a>
    ensures rule { rule_of result ≡ record (new_rule name.entry.now) { long = Some name.entry.now; action = Some Set } }
    ensures local { result.global ≡ false }
{
    Arg::new(alloc, name).long(name).action(ArgAction::Set)
}

/// The command whose arguments are the options, and no other.
fn command<'a>(alloc: Global) -> Result<Command<'a>, AllocError>
    ensures { IfOk result (λ command. app_of command ≡ options_app) }
{
    Command::new(alloc, "darwin")
        .disable_help_flag(true)
        .arg(option(alloc, "name"))?
        .arg(option(alloc, "depth"))?
        .arg(option(alloc, "from"))?
        .arg(option(alloc, "weight"))?
        .arg(option(alloc, "literals"))?
        .arg(option(alloc, "list"))?
        .arg(option(alloc, "workers"))?
        .arg(option(alloc, "share"))?
        .arg(option(alloc, "start"))?
        .arg(option(alloc, "make"))
}

/// Whether the word begins with one hyphen, or is two of them.
fn is_bare(word: &[u8]) -> bool
    ensures { result ≡ is_bare word.now }
{
    match word {
        [b'-', b'-', _, ..] => false,
        [b'-', ..] => true,
        _ => false,
    }
}

/// Whether one of the words begins with one hyphen, or is two of them.
fn has_bare(words: &[String]) -> bool
    ensures { result ≡ list_any (λ word. is_bare (string_bytes word)) words.now }
{
    words.iter().any(|word| is_bare(word.as_bytes()))
}

/// Why a parse gave no matches.
fn reason(error: &Error) -> WordsError
    ensures { result ≡ WordsError.Usage → kind_of error.now ≢ ErrorKind.OutOfMemory }
{
    match error.kind() {
        ErrorKind::OutOfMemory => WordsError::Memory,
        _ => WordsError::Usage,
    }
}

/// Whether there is a first word, and none of those that follow it is bare.
fn is_readable(words: &[String]) -> bool
    ensures { result ≡ is_readable words.now }
{
    match words {
        [_, others @ ..] => !has_bare(others),
        [] => false,
    }
}

/// The matches of words of which none is bare.
#[tactic(none)]
fn parsed<'a>(alloc: Global, words: &'a [String]) -> Result<ArgMatches<'a>, WordsError>
    requires { is_readable words.now ≡ true }
    ensures found { IfOk result (IsFoundIn words.entry.now) }
    ensures same { IfOk result (λ m. (settings : List Setting) → Distinguishes words.entry.now settings → HoldsValuesOf settings m) }
    ensures usage { IfErr result (λ e. e ≡ WordsError.Usage → AreNoSettings words.entry.now) }
{
    let Ok(command) = command(alloc) else {
        return Err(WordsError::Memory);
    };
    match command.try_get_matches_from(words) {
        Ok(matches) => Ok(matches),
        Err(error) => Err(reason(&error)),
    }
}

/// The matches of the words, of which the first is the program's name.
#[tactic(auto, using(crate::proofs::Parsed::unreadable))]
pub(crate) fn matches_in<'a>(
    alloc: Global,
    words: &'a [String],
) -> Result<ArgMatches<'a>, WordsError>
    ensures found { IfOk result (IsFoundIn words.entry.now) }
    ensures same { IfOk result (λ m. (settings : List Setting) → Distinguishes words.entry.now settings → HoldsValuesOf settings m) }
    ensures usage { IfErr result (λ e. e ≡ WordsError.Usage → AreNoSettings words.entry.now) }
{
    if is_readable(words) {
        parsed(alloc, words)
    } else {
        Err(WordsError::Usage)
    }
}
