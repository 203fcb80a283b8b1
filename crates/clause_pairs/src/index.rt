//! An index of a problem's literals, which is made once.
//!
//! In it stand the places by their literals' predicates and signs, those of literals without variables also by
//! their atoms, which are hashed, and apart from them those of the others. An inverted index.
ghost use Rattle.std.specs.Prelude.{◌≡◌, ◌<◌, ◌-◌, ◌^◌, ◌↔◌, true, length, IfOk, IfSome, OnOk};
ghost use Rattle.std.specs.List.{Contains, position};
ghost use Rattle.me_terms.specs.Terms.{AtomValue};
ghost use Rattle.me_terms.specs.TermEquality.{same_atom};
ghost use Rattle.me_terms.specs.Validity.{IsValid};
ghost use Rattle.me_terms.specs.Variables.{are_ground};
ghost use Rattle.clause_pairs.specs.Filed.{filed};
ghost use Rattle.clause_pairs.specs.Index.{IsIndex, IsGroundAtomOf, IsGroundAtomIn, IsGroundAtomAt, AddsAtoms, KnowsGround, FilesLiteral, FilesClause};

use crate::clause_place::ClausePlace;
use crate::filed::{BySign, file, filed_at};
use indexmap::IndexSet;
use me_terms::{Again, Atom, Clause, Literal, Problem, is_ground};
use std::alloc::{AllocError, Global};
use std::marker::Model;

/// The places of a problem's literals, by predicate, by predicate where they have variables, and by atom
/// where they have none.
#[derive(Drop)]
pub(crate) struct Index {
    atoms: IndexSet<Atom>,
    by_predicate: Vec<BySign>,
    nonground: Vec<BySign>,
    by_atom: Vec<BySign>,
}

impl Model for Index {
    ghost use Rattle.std.specs.Coded.{codes};
    ghost use Rattle.me_terms.specs.Terms.{arguments_code};
    ghost use Rattle.clause_pairs.specs.Index.{IndexValue};

    ghost Value = { IndexValue };

    ghost coded = { Prim.hlevel (codes, arguments_code) };

    ghost view = { λ x. record { atoms = x.atoms.keys; by_predicate = x.by_predicate.items; nonground = x.nonground.items; by_atom = x.by_atom.items } };
}

/// Adds the literal's atom, unless it has variables or is there.
fn add_atom(alloc: Global, atoms: &mut IndexSet<Atom>, literal: &Literal) -> Result<(), AllocError>
    ensures { OnOk result (AddsAtoms atoms.old.keys atoms.new.keys (IsGroundAtomAt literal.now)) }
{
    if !is_ground(literal) {
        return Ok(());
    }
    if atoms.contains(&literal.atom) {
        return Ok(());
    }
    if atoms.insert(literal.atom.again(alloc)?).is_err() {
        return Err(AllocError);
    }
    Ok(())
}

/// Adds the atoms of those literals that have no variables.
fn add_atoms(
    alloc: Global,
    atoms: &mut IndexSet<Atom>,
    literals: &[Literal],
) -> Result<(), AllocError>
    ensures { OnOk result (AddsAtoms atoms.old.keys atoms.new.keys (IsGroundAtomIn literals.now)) }
{
    for literal in literals {
        add_atom(alloc, atoms, literal)?;
    }
    Ok(())
}

/// The atoms without variables of a problem.
fn ground_atoms(alloc: Global, problem: &Problem) -> Result<IndexSet<Atom>, AllocError>
    ensures { IfOk result (λ atoms. (a : AtomValue) → Contains atoms.keys a ↔ IsGroundAtomOf problem.now a) }
{
    let mut atoms = IndexSet::new(alloc);
    for clause in problem.clauses.as_slice() {
        add_atoms(alloc, &mut atoms, clause.literals.as_slice())?;
    }
    Ok(atoms)
}

impl Index {
    /// The index of a problem.
    pub(crate) fn new(alloc: Global, problem: &Problem) -> Result<Self, AllocError>
        requires { IsValid problem.now }
        ensures { IfOk result (λ index. IsIndex problem.now index) }
    {
        let mut index = Index {
            atoms: ground_atoms(alloc, problem)?,
            by_predicate: Vec::new(alloc),
            nonground: Vec::new(alloc),
            by_atom: Vec::new(alloc),
        };
        for (c, clause) in problem.clauses.as_slice().iter().enumerate() {
            index.file_clause(alloc, clause, c as u32)?;
        }
        Ok(index)
    }

    /// Files the places of the clause, which stands at place `c` of the problem.
    fn file_clause(&mut self, alloc: Global, clause: &Clause, c: u32) -> Result<(), AllocError>
        requires few { length clause.now.literals < 2 ^ 32 - 1 }
        requires atoms { KnowsGround self.old.atoms clause.now.literals }
        ensures { OnOk result (FilesClause clause.now.literals c self.old self.new) }
    {
        for (i, literal) in clause.literals.as_slice().iter().enumerate() {
            let at = ClausePlace {
                clause: c,
                place: i as u32,
            };
            self.file_literal(alloc, literal, at)?;
        }
        Ok(())
    }

    /// Files the place of a literal.
    fn file_literal(
        &mut self,
        alloc: Global,
        literal: &Literal,
        at: ClausePlace,
    ) -> Result<(), AllocError>
        requires { Contains self.old.atoms literal.now.atom ↔ (are_ground literal.now.atom.args ≡ true) }
        ensures { OnOk result (FilesLiteral literal.now at self.old self.new) }
    {
        let positive = literal.positive;
        let predicate = literal.atom.pred as usize;
        file(alloc, &mut self.by_predicate, predicate, positive, at)?;
        // for the proof: a set has fewer atoms than 2 ^ 64 - 1
        let _atoms = self.atoms.len();
        match self.number_of(&literal.atom) {
            Some(number) => file(alloc, &mut self.by_atom, number, positive, at),
            None => file(alloc, &mut self.nonground, predicate, positive, at),
        }
    }

    /// The number of an atom without variables that the problem has.
    pub(crate) fn number_of(&self, atom: &Atom) -> Option<usize>
        ensures number { result ≡ position (same_atom atom.now) self.now.atoms }
        ensures within { IfSome result (λ n. n < length self.now.atoms) }
    {
        self.atoms.get_index_of(atom)
    }

    /// The places of the literals of that predicate and sign.
    pub(crate) fn of_predicate(&self, predicate: u32, positive: bool) -> &[ClausePlace]
        ensures { result.now ≡ filed self.now.by_predicate predicate positive }
    {
        filed_at(&self.by_predicate, predicate as usize, positive)
    }

    /// The same of those with variables.
    pub(crate) fn nonground_of(&self, predicate: u32, positive: bool) -> &[ClausePlace]
        ensures { result.now ≡ filed self.now.nonground predicate positive }
    {
        filed_at(&self.nonground, predicate as usize, positive)
    }

    /// The places of the literals of that sign whose atom has the number.
    pub(crate) fn of_atom(&self, number: usize, positive: bool) -> &[ClausePlace]
        ensures { result.now ≡ filed self.now.by_atom number positive }
    {
        filed_at(&self.by_atom, number, positive)
    }
}
