//! Problems as text.
//!
//! A clause is written as one line, with its label and the role `axiom`.
ghost use Rattle.std.specs.Prelude.{◌≡◌, ◌++◌, OnOk, IfOk};
ghost use Rattle.cnf_writer.specs.ProblemText.{clause_line, clause_lines, problem_text};
ghost use Rattle.tptp_cnf.specs.Files.{IsFile};
ghost use Rattle.tptp_cnf.specs.Plain.{IsPlain};

use cnf_text::{push_clause, push_label};
use me_terms::{Clause, Problem, Signature};
use std::alloc::{AllocError, Global};

/// Puts the line of the clause at the end.
fn push_line(out: &mut Vec<u8>, signature: &Signature, clause: &Clause) -> Result<(), AllocError>
    ensures { OnOk result (out.new.items ≡ out.old.items ++ clause_line signature.now clause.now) }
{
    out.extend_from_slice(b"cnf(")?;
    push_label(out, &clause.label)?;
    out.extend_from_slice(b",axiom,")?;
    push_clause(out, signature, clause.literals.as_slice())?;
    out.extend_from_slice(b").\n")
}

/// Puts the lines of the clauses at the end.
fn push_lines(
    out: &mut Vec<u8>,
    signature: &Signature,
    clauses: &[Clause],
) -> Result<(), AllocError>
    ensures { OnOk result (out.new.items ≡ out.old.items ++ clause_lines signature.now clauses.now) }
{
    for clause in clauses {
        push_line(out, signature, clause)?;
    }
    Ok(())
}

/// The text of any problem.
pub(crate) fn text_of(alloc: Global, p: &Problem) -> Result<Vec<u8>, AllocError>
    ensures { IfOk result (λ text. text.items ≡ problem_text p.now) }
{
    let mut out = Vec::new(alloc);
    push_lines(&mut out, &p.signature, p.clauses.as_slice())?;
    Ok(out)
}

/// The text of the plain problem, with one line for each clause. It is a file that means this problem.
#[tactic(auto, using(crate::proofs::Written::text_is_file))]
pub fn write_problem(alloc: Global, p: &Problem) -> Result<Vec<u8>, AllocError>
    requires plain { IsPlain p.now }
    ensures text { IfOk result (λ text. text.items ≡ problem_text p.now) }
    ensures means { IfOk result (λ text. IsFile text.items p.now) }
{
    text_of(alloc, p)
}
