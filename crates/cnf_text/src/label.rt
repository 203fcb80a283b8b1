//! Labels as text.
//!
//! A label is printed so that it reads as itself: bare where that is possible, else in quotes.
ghost use Rattle.std.specs.Prelude.{◌≡◌, ◌++◌, decimal, OnOk, OnErr};
ghost use Rattle.std.specs.Io.{StartsWith};
ghost use Rattle.tptp_tokens.specs.Quoted.{quoted, escaped_byte};
ghost use Rattle.cnf_text.specs.LabelText.{label_text};

use itoa::Buffer;
use me_terms::{Form, Label};
use std::alloc::AllocError;
use tptp_tokens::{is_escaped, is_lower_word};

/// Puts the number at the end, in decimal.
pub fn push_number(out: &mut Vec<u8>, n: u64) -> Result<(), AllocError>
    ensures ok { OnOk result (out.new.items ≡ out.old.items ++ decimal n) }
    ensures err { OnErr result (StartsWith out.new.items out.old.items) }
{
    let mut buffer = Buffer::new();
    out.extend_from_slice(buffer.format(n).as_bytes())
}

/// Puts the byte at the end, behind a backslash where it is escaped between two of the quotes.
fn push_escaped(out: &mut Vec<u8>, quote: u8, byte: u8) -> Result<(), AllocError>
    ensures ok { OnOk result (out.new.items ≡ out.old.items ++ escaped_byte quote byte) }
    ensures err { OnErr result (StartsWith out.new.items out.old.items) }
{
    if is_escaped(byte, quote) {
        out.extend_from_slice(&[b'\\', byte])
    } else {
        out.extend_from_slice(&[byte])
    }
}

/// Puts the text at the end, between two of the quotes.
fn push_quoted(out: &mut Vec<u8>, quote: u8, text: &[u8]) -> Result<(), AllocError>
    ensures ok { OnOk result (out.new.items ≡ out.old.items ++ quoted quote text.now) }
    ensures err { OnErr result (StartsWith out.new.items out.old.items) }
{
    out.push(quote)?;
    for byte in text {
        push_escaped(out, quote, *byte)?;
    }
    Ok(out.push(quote)?)
}

/// Puts the label at the end.
pub fn push_label(out: &mut Vec<u8>, label: &Label) -> Result<(), AllocError>
    ensures ok { OnOk result (out.new.items ≡ out.old.items ++ label_text label.now) }
    ensures err { OnErr result (StartsWith out.new.items out.old.items) }
{
    let text = label.text.as_slice();
    match label.form {
        Form::Word if is_lower_word(text) => out.extend_from_slice(text),
        Form::Word => push_quoted(out, b'\'', text),
        Form::Distinct => push_quoted(out, b'"', text),
        Form::Number => out.extend_from_slice(text),
    }
}
