//! What is read from a text, as lines of their own.
//!
//! An answer is said by its kind, and then by a line for each of its lines, an atom by its text over the
//! signature that it was read into, and a refusal by its cause.
use cnf_text::{push_atom, push_clause, push_label, push_number, push_signed};
use me_terms::{Bound, Kind, Signature, Start};
use std::alloc::{AllocError, Global};
use szs_read::{AnswerError, Claim, EntryLine, InstanceLine, read_answer, read_atom};

fn push_instance(
    out: &mut Vec<u8>,
    signature: &Signature,
    line: &InstanceLine,
) -> Result<(), AllocError> {
    push_number(out, u64::from(line.number))?;
    out.extend_from_slice(b" ")?;
    push_label(out, &line.label)?;
    out.extend_from_slice(b" ")?;
    push_clause(out, signature, line.literals.as_slice())?;
    out.extend_from_slice(b"\n")
}

fn push_entry(
    out: &mut Vec<u8>,
    signature: &Signature,
    line: &EntryLine,
) -> Result<(), AllocError> {
    push_number(out, u64::from(line.at))?;
    let kind: &[u8] = match line.kind {
        Kind::Universal => b" universal ",
        Kind::Parametric => b" parametric ",
    };
    out.extend_from_slice(kind)?;
    push_signed(out, signature, line.literal.positive, &line.literal.atom)?;
    out.extend_from_slice(b"\n")
}

fn push_claim(out: &mut Vec<u8>, signature: &Signature, claim: &Claim) -> Result<(), AllocError> {
    match claim {
        Claim::Refuted { lines } => {
            out.extend_from_slice(b"refuted\n")?;
            for line in lines.as_slice() {
                push_instance(out, signature, line)?;
            }
        }
        Claim::Model { start, lines } => {
            let head: &[u8] = match start {
                Start::Negative => b"model false\n",
                Start::Positive => b"model true\n",
            };
            out.extend_from_slice(head)?;
            for line in lines.as_slice() {
                push_entry(out, signature, line)?;
            }
        }
        Claim::Open { bound } => {
            let text: &[u8] = match bound {
                Bound::Depth => b"open depth\n",
                Bound::Weight => b"open weight\n",
                Bound::Literals => b"open literals\n",
                Bound::List => b"open list\n",
            };
            out.extend_from_slice(text)?;
        }
    }
    Ok(())
}

/// What is read from the text as an answer.
pub fn said_of(alloc: Global, text: &[u8]) -> Result<Vec<u8>, AllocError> {
    let mut out = Vec::new(alloc);
    if text.len() >= 1_000_000_000 {
        return Ok(out);
    }
    let mut signature = Signature::new(alloc);
    match read_answer(alloc, text, &mut signature) {
        Ok(claim) => push_claim(&mut out, &signature, &claim)?,
        Err(AnswerError::Line { line }) => {
            out.extend_from_slice(b"line ")?;
            push_number(&mut out, u64::from(line))?;
        }
        Err(AnswerError::Memory) => return Err(AllocError),
    }
    Ok(out)
}

/// What is read from the text as an atom, and how many functions and predicates it has.
pub fn said_of_atom(alloc: Global, text: &[u8]) -> Result<Vec<u8>, AllocError> {
    let mut out = Vec::new(alloc);
    if text.len() >= 1_000_000_000 {
        return Ok(out);
    }
    let mut signature = Signature::new(alloc);
    match read_atom(alloc, text, &mut signature)? {
        Some(atom) => {
            push_atom(&mut out, &signature, &atom)?;
            out.extend_from_slice(b" ")?;
            push_number(&mut out, u64::from(signature.fun_count()))?;
        }
        None => out.extend_from_slice(b"none")?,
    }
    Ok(out)
}
