//! The decision on a list of clauses, from that on its clauses over numbers.
ghost use Rattle.std.specs.Prelude.{◌≡◌, ◌<◌, ◌≤◌, ◌-◌, ◌^◌, ◌↔◌, [], ◌∷◌, ◌++◌, if◌then◌else◌, length, map, slice_get, IfOk, OnOk, MatchOption, Some};
ghost use Rattle.std.specs.List.{All, IsDistinct, filter};
ghost use Rattle.me_terms.specs.TermEquality.{same_atom};
ghost use Rattle.ground_solver.specs.Assignments.{IsUnsatisfiable, clauses_of};
ghost use Rattle.ground_solver.specs.Decisions.{IsClosed, IsClosedBy, IsDecided};
ghost use Rattle.ground_solver.specs.Named.{is_true, literal_count, named_node, valuation};
ghost use Rattle.ground_solver.specs.Numbered.{IsNodeWithin};

use crate::decision::{Atoms, Decision, GroundList, Split, Splits};
use crate::numbering::number;
use crate::signed::Step;
use crate::solving::{Verdict, solve};
use me_terms::{Again, Atom, Literals};
use std::alloc::{AllocError, Global};

/// Puts an atom at the end where it is true.
fn add_true(
    alloc: Global,
    trues: &mut Atoms,
    atom: &Atom,
    value: Option<bool>,
) -> Result<(), AllocError>
    ensures { OnOk result (trues.new.items ≡ trues.old.items ++ (if is_true value then atom.now ∷ [] else [])) }
{
    if let Some(true) = value {
        let atom = atom.again(alloc)?;
        return match trues.push(atom) {
            Ok(()) => Ok(()),
            Err(_) => Err(AllocError),
        };
    }
    Ok(())
}

/// The atoms that are true.
fn true_atoms(alloc: Global, atoms: &[Atom], values: &[Option<bool>]) -> Result<Atoms, AllocError>
    requires distinct { IsDistinct same_atom atoms.now }
    requires values { length values.now ≡ length atoms.now }
    ensures { IfOk result (λ trues. trues.items ≡ filter (valuation atoms.now values.now) atoms.now) }
{
    let mut trues = Atoms::new(alloc);
    for k in 0..atoms.len() {
        add_true(alloc, &mut trues, &atoms[k], values[k])?;
    }
    Ok(trues)
}

/// A node with the atom that its number stands for.
fn split_of(alloc: Global, atoms: &[Atom], step: Step) -> Result<Split, AllocError>
    requires { IsNodeWithin (length atoms.now) step }
    ensures { IfOk result (λ split. split ≡ named_node atoms.now step) }
{
    match step {
        Step::Branch(n) => Ok(Split::Branch {
            atom: atoms[n as usize].again(alloc)?,
        }),
        Step::Leaf(at) => Ok(Split::Leaf { at }),
    }
}

/// The tree of cases with the atoms that its numbers stand for.
fn splits_of(alloc: Global, atoms: &[Atom], steps: &[Step]) -> Result<Splits, AllocError>
    requires { All (IsNodeWithin (length atoms.now)) steps.now }
    ensures { IfOk result (λ splits. splits.items ≡ map (named_node atoms.now) steps.now) }
{
    let mut splits = Splits::new(alloc);
    for step in steps {
        let split = split_of(alloc, atoms, *step)?;
        if splits.push(split).is_err() {
            return Err(AllocError);
        }
    }
    Ok(splits)
}

/// The first clause without literals.
fn first_empty(list: &[Literals]) -> Option<u32>
    requires { literal_count (clauses_of list.now) < 2 ^ 32 }
    ensures { MatchOption result (length list.now ≤ literal_count (clauses_of list.now)) (λ at. slice_get (clauses_of list.now) at ≡ Some []) }
{
    for (k, literals) in list.iter().enumerate() {
        if literals.is_empty() {
            return Some(k as u32);
        }
    }
    None
}

/// The decision on a list without empty clauses.
fn decide_numbered(alloc: Global, list: &GroundList) -> Result<Decision, AllocError>
    requires few { literal_count (clauses_of list.now.items) < 2 ^ 32 - 1 }
    requires short { length list.now.items < 2 ^ 32 }
    ensures { IfOk result (λ decision. IsDecided (clauses_of list.now.items) decision) }
{
    let numbering = number(alloc, list)?;
    let atoms = numbering.atoms.as_slice();
    match solve(alloc, &numbering.clauses, atoms.len() as u32)? {
        Verdict::Satisfied(values) => Ok(Decision::Model {
            trues: true_atoms(alloc, atoms, &values)?,
        }),
        Verdict::Closed(steps) => Ok(Decision::Closed {
            proof: splits_of(alloc, atoms, &steps)?,
        }),
    }
}

/// The proof that ends at once, since the clause at that place is empty.
fn closed_at(alloc: Global, at: u32) -> Result<Decision, AllocError>
    ensures { IfOk result (λ decision. IsClosedBy at decision) }
{
    let mut proof = Splits::new(alloc);
    if proof.push(Split::Leaf { at }).is_err() {
        return Err(AllocError);
    }
    Ok(Decision::Closed { proof })
}

/// Whether some truth assignment makes all clauses of the list true.
///
/// A clause with variables is taken as it stands: each atom has a truth value of its own.
pub fn decide(alloc: Global, list: &GroundList) -> Result<Decision, AllocError>
    requires { literal_count (clauses_of list.now.items) < 2 ^ 32 - 1 }
    ensures decided { IfOk result (λ decision. IsDecided (clauses_of list.now.items) decision) }
    ensures exact { IfOk result (λ decision. IsClosed decision ↔ IsUnsatisfiable (clauses_of list.now.items)) }
{
    match first_empty(list.as_slice()) {
        Some(at) => closed_at(alloc, at),
        None => decide_numbered(alloc, list),
    }
}
