//! Models as text.
//!
//! A model has a line for the default value, and one for each visible literal of the context. Whether an
//! entry is hidden is found by a look at all later ones, in a time that grows with the square of the
//! number of entries.
ghost use Rattle.std.specs.Prelude.{◌≡◌, ◌<◌, ◌+◌, ◌++◌, ◌↔◌, IsTrue, ℕ, List, Some, slice_get, length, OnOk, IfOk, Contains};
ghost use Rattle.me_terms.specs.Context.{Covers};
ghost use Rattle.me_terms.specs.Values.{EntryValue};
ghost use Rattle.szs_print.specs.ModelText.{kind_text, literal_line, default_line, IsTextAt, IsTextOf, IsModelText};

use crate::status::{push_output, push_status};
use cnf_text::{push_number, push_signed};
use me_terms::{Atom, Entry, Kind, Pattern, Signature, covers};
use std::alloc::{AllocError, Global};

/// Whether one of the later entries hides the entry.
pub(crate) fn is_covered(later: &[Entry], entry: &Entry) -> bool
    ensures { IsTrue result ↔ ((j : ℕ) × (universal : EntryValue) × (slice_get later.now j ≡ Some universal) × Covers universal entry.now) }
{
    for universal in later {
        if covers(universal, entry) {
            return true;
        }
    }
    false
}

/// Puts the line of a literal at position `k` at the end.
fn push_literal(
    out: &mut Vec<u8>,
    signature: &Signature,
    k: usize,
    entry: &Entry,
    atom: &Atom,
) -> Result<(), AllocError>
    ensures { OnOk result (out.new.items ≡ out.old.items ++ literal_line signature.now k entry.now.positive atom.now entry.now.kind) }
{
    out.extend_from_slice(b"cnf(e")?;
    push_number(out, k as u64)?;
    out.extend_from_slice(b",plain,")?;
    push_signed(out, signature, entry.positive, atom)?;
    let kind: &[u8] = match entry.kind {
        Kind::Universal => b",universal).\n",
        Kind::Parametric => b",parametric).\n",
    };
    out.extend_from_slice(kind)
}

/// Puts the text at position `k` at the end: the line of a visible literal, or nothing.
fn push_entry(
    out: &mut Vec<u8>,
    signature: &Signature,
    entries: &[Entry],
    k: usize,
) -> Result<(), AllocError>
    requires { k < length entries.now }
    ensures { OnOk result ((line : List ℕ) × IsTextAt signature.now entries.now k line × (out.new.items ≡ out.old.items ++ line)) }
{
    let entry = &entries[k];
    let Pattern::Of(atom) = &entry.atom else {
        return Ok(());
    };
    if is_covered(&entries[k + 1..], entry) {
        return Ok(());
    }
    push_literal(out, signature, k, entry, atom)
}

/// Puts the text at every position at the end.
fn push_entries(
    out: &mut Vec<u8>,
    signature: &Signature,
    entries: &[Entry],
) -> Result<(), AllocError>
    ensures { OnOk result ((text : List ℕ) × IsTextOf signature.now entries.now (length entries.now) text × (out.new.items ≡ out.old.items ++ text)) }
{
    for k in 0..entries.len() {
        push_entry(out, signature, entries, k)?;
    }
    Ok(())
}

/// Puts the line of the default value at the end.
fn push_default(out: &mut Vec<u8>, entries: &[Entry]) -> Result<(), AllocError>
    ensures { OnOk result (out.new.items ≡ out.old.items ++ default_line entries.now) }
{
    let [first, ..] = entries else {
        return Ok(());
    };
    if first.positive {
        out.extend_from_slice(b"% default true\n")
    } else {
        out.extend_from_slice(b"% default false\n")
    }
}

/// The text of the model that the context induces.
pub(crate) fn print_model(
    alloc: Global,
    name: &[u8],
    signature: &Signature,
    entries: &[Entry],
) -> Result<Vec<u8>, AllocError>
    ensures { IfOk result (λ text. IsModelText name.now signature.now entries.now text.items) }
{
    let mut out = Vec::new(alloc);
    push_status(&mut out, b"Satisfiable", name)?;
    push_output(&mut out, b"start Model", name)?;
    push_default(&mut out, entries)?;
    push_entries(&mut out, signature, entries)?;
    push_output(&mut out, b"end Model", name)?;
    Ok(out)
}
