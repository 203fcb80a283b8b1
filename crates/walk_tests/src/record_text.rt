//! What a walk hands back, as text.
use crate::keeper::Keeper;
use branch_core::{Part, Record, code_of};
use cnf_text::{push_number, push_signed};
use me_terms::{Entries, Pattern, Signature};
use std::alloc::{AllocError, Global};

/// Puts a word and a number at the end.
fn push_numbered(out: &mut Vec<u8>, word: &[u8], number: u32) -> Result<(), AllocError> {
    out.extend_from_slice(word)?;
    out.extend_from_slice(b" ")?;
    push_number(out, u64::from(number))?;
    out.extend_from_slice(b";")
}

/// Puts the entries after the pseudo-literal at the end.
fn push_model(
    out: &mut Vec<u8>,
    signature: &Signature,
    context: &Entries,
) -> Result<(), AllocError> {
    out.extend_from_slice(b"model")?;
    for entry in context.as_slice() {
        if let Pattern::Of(atom) = &entry.atom {
            out.extend_from_slice(b" ")?;
            push_signed(out, signature, entry.positive, atom)?;
        }
    }
    out.extend_from_slice(b";")
}

fn push_part(out: &mut Vec<u8>, signature: &Signature, part: &Part) -> Result<(), AllocError> {
    match part {
        Part::Closed { .. } => out.extend_from_slice(b"closed;"),
        Part::Bounded { .. } => out.extend_from_slice(b"bounded;"),
        Part::Sat { context } => push_model(out, signature, context),
        Part::Gift { path } => push_numbered(out, b"gift", code_of(*path)),
        Part::Cut { key } => push_numbered(out, b"cut", u32::from(*key)),
        Part::NoMemory => out.extend_from_slice(b"no memory;"),
    }
}

/// The parts of a record.
pub(crate) fn text_of(
    alloc: Global,
    signature: &Signature,
    record: &Record,
) -> Result<Vec<u8>, AllocError> {
    let mut out = Vec::new(alloc);
    for part in record.parts.as_slice() {
        push_part(&mut out, signature, part)?;
    }
    Ok(out)
}

/// Puts what the search took and was told at the end.
pub(crate) fn push_kept(out: &mut Vec<u8>, keeper: &Keeper) -> Result<(), AllocError> {
    if let Some(path) = keeper.gift {
        push_numbered(out, b"taken", code_of(path))?;
    }
    if let Some(key) = keeper.last_posted {
        push_numbered(out, b"posted", u32::from(key))?;
    }
    Ok(())
}
