//! Literals and clauses as text.
//!
//! The literals of a clause are joined by bars, and the empty clause is `$false`.
ghost use Rattle.std.specs.Prelude.{◌≡◌, ◌++◌, codes, if◌then◌else◌, [], OnOk, OnErr};
ghost use Rattle.std.specs.Io.{StartsWith};
ghost use Rattle.cnf_text.specs.ClauseText.{literal_text, clause_text, atom_text};

use crate::term::push_atom;
use me_terms::{Atom, Literal, Signature};
use std::alloc::AllocError;

/// Puts the atom at the end, behind `~` where it is negated.
pub fn push_signed(
    out: &mut Vec<u8>,
    signature: &Signature,
    positive: bool,
    atom: &Atom,
) -> Result<(), AllocError>
    ensures ok { OnOk result (out.new.items ≡ out.old.items ++ literal_text signature.now (record { positive = positive; atom = atom.now })) }
    ensures err { OnErr result (StartsWith out.new.items out.old.items) }
{
    if !positive {
        out.extend_from_slice(b"~")?;
    }
    push_atom(out, signature, atom)
}

/// Puts the clause of these literals at the end.
pub fn push_clause(
    out: &mut Vec<u8>,
    signature: &Signature,
    literals: &[Literal],
) -> Result<(), AllocError>
    ensures ok { OnOk result (out.new.items ≡ out.old.items ++ clause_text signature.now literals.now) }
    ensures err { OnErr result (StartsWith out.new.items out.old.items) }
{
    let [first, others @ ..] = literals else {
        return out.extend_from_slice(b"$false");
    };
    push_signed(out, signature, first.positive, &first.atom)?;
    for literal in others {
        out.extend_from_slice(b" | ")?;
        push_signed(out, signature, literal.positive, &literal.atom)?;
    }
    Ok(())
}
