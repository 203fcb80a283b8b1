//! The atoms of a list, numbered by first occurrence.
ghost use Rattle.std.specs.Prelude.{◌≡◌, ◌+◌, ◌<◌, ◌^◌, Some, length, slice_get, IfOk, OnOk};
ghost use Rattle.std.specs.List.{AllZip};
ghost use Rattle.ground_solver.specs.Assignments.{clauses_of, with_atom, with_atoms, atoms_of};
ghost use Rattle.ground_solver.specs.Named.{Names, NameAll, literal_count};

use crate::decision::GroundList;
use crate::signed::Signed;
use indexmap::IndexSet;
use me_terms::{Again, Atom, Literal};
use std::alloc::{AllocError, Global};

/// The clauses of a list over numbers, and the atoms that these stand for.
#[derive(Drop)]
pub(crate) struct Numbering {
    pub atoms: IndexSet<Atom>,
    pub clauses: Vec<Vec<Signed>>,
}

/// The number of an atom, which is added where it is new.
fn number_of(alloc: Global, atoms: &mut IndexSet<Atom>, atom: &Atom) -> Result<u32, AllocError>
    requires { length atoms.old.keys < 2 ^ 32 }
    ensures atoms { OnOk result (atoms.new.keys ≡ with_atom atoms.old.keys atom.now) }
    ensures number { IfOk result (λ number. slice_get atoms.new.keys number ≡ Some atom.now) }
{
    if let Some(number) = atoms.get_index_of(atom) {
        return Ok(number as u32);
    }
    let number = atoms.len() as u32;
    if atoms.insert(atom.again(alloc)?).is_err() {
        return Err(AllocError);
    }
    Ok(number)
}

/// A clause over numbers. New atoms are added.
fn number_clause(
    alloc: Global,
    atoms: &mut IndexSet<Atom>,
    literals: &[Literal],
) -> Result<Vec<Signed>, AllocError>
    requires { length atoms.old.keys + length literals.now < 2 ^ 32 }
    ensures atoms { OnOk result (atoms.new.keys ≡ with_atoms atoms.old.keys literals.now) }
    ensures names { IfOk result (λ clause. AllZip (Names atoms.new.keys) clause.items literals.now) }
{
    let mut clause = Vec::new(alloc);
    for literal in literals {
        let atom = number_of(alloc, atoms, &literal.atom)?;
        clause.push(Signed {
            positive: literal.positive,
            atom,
        })?;
    }
    Ok(clause)
}

/// The clauses over numbers.
pub(crate) fn number(alloc: Global, list: &GroundList) -> Result<Numbering, AllocError>
    requires { literal_count (clauses_of list.now.items) < 2 ^ 32 }
    ensures atoms { IfOk result (λ numbering. numbering.atoms.keys ≡ atoms_of (clauses_of list.now.items)) }
    ensures names { IfOk result (λ numbering. NameAll numbering.atoms.keys numbering.clauses.items (clauses_of list.now.items)) }
{
    let mut atoms = IndexSet::new(alloc);
    let mut clauses = Vec::new(alloc);
    for literals in list.as_slice() {
        clauses.push(number_clause(alloc, &mut atoms, literals.as_slice())?)?;
    }
    Ok(Numbering { atoms, clauses })
}
