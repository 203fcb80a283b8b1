//! What is said of an answer, as a text and a status.
ghost use Rattle.std.specs.Prelude.{◌≡◌, ◌≢◌, ◌++◌, OnOk, IfOk, codes, decimal};
ghost use Rattle.std.specs.List.{flat_map};
ghost use Rattle.answer_check.specs.Verdicts.{status_of as status_number, true_line, verdict_text};

use cnf_text::{push_atom, push_number};
use ground_solver::Atoms;
use me_terms::{Atom, Signature};
use std::alloc::{AllocError, Global};

/// What is said of an answer.
#[derive(Drop)]
pub enum Verdict {
    /// It shows that no interpretation makes every clause true.
    Refutation,
    /// It shows an interpretation that makes every clause true.
    Model,
    /// The line of this number is not what a line has to be; it is the first such one.
    WrongLine { line: u64 },
    /// The lines are satisfied where these atoms are true and the others false.
    Satisfied { trues: Atoms },
    /// The clause of this number has a productive unifier; it is the first such one.
    Unifier { number: u32 },
    /// The text is none of an answer, and the line of this number is the first that shows it.
    Unread { line: u32 },
    /// Nothing is claimed, since the search gave up.
    Open,
}

/// The exit status.
pub(crate) fn status_of(verdict: &Verdict) -> u8
    ensures status { result ≡ status_number verdict.now }
    ensures own { result ≢ 6 }
{
    match verdict {
        Verdict::Refutation | Verdict::Model => 0,
        Verdict::WrongLine { .. } | Verdict::Satisfied { .. } | Verdict::Unifier { .. } => 8,
        Verdict::Unread { .. } => 9,
        Verdict::Open => 10,
    }
}

/// Puts a line with a number at the end.
fn push_numbered(out: &mut Vec<u8>, words: &[u8], number: u64) -> Result<(), AllocError>
    ensures { OnOk result (out.new.items ≡ out.old.items ++ (words.now ++ (decimal number ++ codes "\n"))) }
{
    out.extend_from_slice(words)?;
    push_number(out, number)?;
    out.extend_from_slice(b"\n")
}

/// Puts the line of an atom that is true at the end.
fn push_true(out: &mut Vec<u8>, signature: &Signature, atom: &Atom) -> Result<(), AllocError>
    ensures { OnOk result (out.new.items ≡ out.old.items ++ true_line signature.now atom.now) }
{
    out.extend_from_slice(b"% true ")?;
    push_atom(out, signature, atom)?;
    out.extend_from_slice(b"\n")
}

/// Puts the lines of the atoms that are true at the end.
fn push_trues(out: &mut Vec<u8>, signature: &Signature, trues: &[Atom]) -> Result<(), AllocError>
    ensures { OnOk result (out.new.items ≡ out.old.items ++ flat_map (true_line signature.now) trues.now) }
{
    for atom in trues {
        push_true(out, signature, atom)?;
    }
    Ok(())
}

/// Puts the text at the end.
fn push_verdict(
    out: &mut Vec<u8>,
    signature: &Signature,
    verdict: &Verdict,
) -> Result<(), AllocError>
    ensures { OnOk result (out.new.items ≡ out.old.items ++ verdict_text signature.now verdict.now) }
{
    match verdict {
        Verdict::Refutation => out.extend_from_slice(b"% check yes refutation\n"),
        Verdict::Model => out.extend_from_slice(b"% check yes model\n"),
        Verdict::WrongLine { line } => push_numbered(out, b"% check no line ", *line),
        Verdict::Satisfied { trues } => {
            out.extend_from_slice(b"% check no assignment\n")?;
            push_trues(out, signature, trues.as_slice())
        }
        Verdict::Unifier { number } => {
            push_numbered(out, b"% check no unifier in clause ", u64::from(*number))
        }
        Verdict::Unread { line } => {
            push_numbered(out, b"% check answer line ", u64::from(*line))
        }
        Verdict::Open => out.extend_from_slice(b"% check none\n"),
    }
}

/// The text, with the atoms over the signature.
pub(crate) fn print_verdict(
    alloc: Global,
    signature: &Signature,
    verdict: &Verdict,
) -> Result<Vec<u8>, AllocError>
    ensures { IfOk result (λ text. text.items ≡ verdict_text signature.now verdict.now) }
{
    let mut out = Vec::new(alloc);
    push_verdict(&mut out, signature, verdict)?;
    Ok(out)
}
