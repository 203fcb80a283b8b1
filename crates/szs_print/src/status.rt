//! The lines that name the status and enclose the output.
//!
//! Each line ends with a line feed.
ghost use Rattle.std.specs.Prelude.{◌≡◌, ◌++◌, OnOk};
ghost use Rattle.szs_print.specs.StatusText.{named_line, status_line, output_line, reason_line};

use std::alloc::AllocError;

/// Puts a line at the end that begins with a head and a word and ends with the name.
fn push_named(out: &mut Vec<u8>, head: &[u8], word: &[u8], name: &[u8]) -> Result<(), AllocError>
    ensures { OnOk result (out.new.items ≡ out.old.items ++ named_line head.now word.now name.now) }
{
    out.extend_from_slice(head)?;
    out.extend_from_slice(word)?;
    out.extend_from_slice(b" for ")?;
    out.extend_from_slice(name)?;
    out.extend_from_slice(b"\n")
}

/// Puts the status line of an SZS word at the end.
pub(crate) fn push_status(out: &mut Vec<u8>, word: &[u8], name: &[u8]) -> Result<(), AllocError>
    ensures { OnOk result (out.new.items ≡ out.old.items ++ status_line word.now name.now) }
{
    push_named(out, b"% SZS status ", word, name)
}

/// Puts the line before or after the output at the end.
pub(crate) fn push_output(out: &mut Vec<u8>, edge: &[u8], name: &[u8]) -> Result<(), AllocError>
    ensures { OnOk result (out.new.items ≡ out.old.items ++ output_line edge.now name.now) }
{
    push_named(out, b"% SZS output ", edge, name)
}

/// Puts the line of a reason at the end.
pub(crate) fn push_reason(out: &mut Vec<u8>, reason: &[u8]) -> Result<(), AllocError>
    ensures { OnOk result (out.new.items ≡ out.old.items ++ reason_line reason.now) }
{
    out.extend_from_slice(b"% reason ")?;
    out.extend_from_slice(reason)?;
    out.extend_from_slice(b"\n")
}
