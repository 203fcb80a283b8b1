//! What a word says.
//!
//! A word is read as a predicate, a sign, and a constant or none. Names are a letter and a number.
ghost use Rattle.std.specs.Prelude.{◌≡◌, ◌≤◌, ◌∷◌, ◌++◌, decimal, OnOk, IfOk};
ghost use Rattle.tptp_cnf.specs.Meaning.{word as word_label};
ghost use Rattle.make_problem.specs.Made as made;

use itoa::Buffer;
use me_terms::{Form, Label, Symbol, Text};
use std::alloc::{AllocError, Global};

/// The place value of the bit that makes a literal negative.
const SIGN_BIT: u32 = 65_536;

/// The place value of the two bits that choose the argument.
const ARGUMENT_BITS: u32 = 131_072;

/// The number of choices of an argument: the constant `a`, the constant `b`, and twice the variable.
const ARGUMENTS: u32 = 4;

/// The word of these bytes.
pub(crate) fn name(alloc: Global, bytes: &[u8]) -> Result<Label, AllocError>
    ensures { IfOk result (λ label. label ≡ word_label bytes.now) }
{
    Ok(Label {
        form: Form::Word,
        text: Text::from_slice(bytes, alloc)?,
    })
}

/// The word of these bytes and a number in decimal.
pub(crate) fn numbered(alloc: Global, bytes: &[u8], number: u32) -> Result<Label, AllocError>
    ensures { IfOk result (λ label. label ≡ word_label (bytes.now ++ decimal number)) }
{
    let mut buffer = Buffer::new();
    let mut label = name(alloc, bytes)?;
    label
        .text
        .extend_from_slice(buffer.format(number).as_bytes())?;
    Ok(label)
}

/// The predicate of the word.
pub(crate) fn predicate(alloc: Global, preds: u32, word: u32) -> Result<Symbol, AllocError>
    requires { 1 ≤ preds }
    ensures { IfOk result (λ symbol. symbol ≡ made.predicate_of preds word) }
{
    Ok(Symbol {
        label: numbered(alloc, b"p", word % preds)?,
        arity: 1,
    })
}

/// Whether the literal of the word is positive.
pub(crate) fn is_positive(word: u32) -> bool
    ensures { result ≡ made.is_made_positive word }
{
    word / SIGN_BIT % 2 == 0
}

/// The constant of these bytes.
pub(crate) fn constant_named(alloc: Global, bytes: &[u8]) -> Result<Symbol, AllocError>
    ensures { IfOk result (λ symbol. symbol ≡ record { label = word_label bytes.now; arity = 0 }) }
{
    Ok(Symbol {
        label: name(alloc, bytes)?,
        arity: 0,
    })
}

/// The constant of the word, or none where the word says the clause's variable.
pub(crate) fn constant(alloc: Global, word: u32) -> Result<Option<Symbol>, AllocError>
    ensures { IfOk result (λ symbol. symbol ≡ made.constant_of word) }
{
    match word / ARGUMENT_BITS % ARGUMENTS {
        0 => Ok(Some(constant_named(alloc, b"a")?)),
        1 => Ok(Some(constant_named(alloc, b"b")?)),
        _ => Ok(None),
    }
}
