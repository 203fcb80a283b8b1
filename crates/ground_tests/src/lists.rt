//! Lists that are written as numbers, and what is decided of them.
use ground_solver::{Decision, GroundList, Split, decide, is_within_limit};
use me_terms::{Atom, Literal, Literals, Terms};
use std::alloc::{AllocError, Global};

/// The literal of a number: negative ones are negated, and atoms are predicates without arguments.
fn literal_of(alloc: Global, number: i32) -> Literal {
    Literal {
        positive: number > 0,
        atom: Atom {
            pred: number.unsigned_abs(),
            args: Terms::new(alloc),
        },
    }
}

fn clause_of(alloc: Global, numbers: &[i32]) -> Result<Literals, AllocError> {
    let mut clause = Literals::new(alloc);
    for number in numbers {
        if clause.push(literal_of(alloc, *number)).is_err() {
            return Err(AllocError);
        }
    }
    Ok(clause)
}

/// The decision on a list whose literals are numbers.
fn decision_on(alloc: Global, clauses: &[&[i32]]) -> Result<Option<Decision>, AllocError> {
    let mut list = GroundList::new(alloc);
    for numbers in clauses {
        let clause = clause_of(alloc, numbers)?;
        if list.push(clause).is_err() {
            return Err(AllocError);
        }
    }
    if !is_within_limit(&list) {
        return Ok(None);
    }
    let decision = decide(alloc, &list)?;
    Ok(Some(decision))
}

/// The numbers of the true atoms of a model, if there is one.
pub(crate) fn model_of(alloc: Global, clauses: &[&[i32]]) -> Result<Option<Vec<u32>>, AllocError> {
    match decision_on(alloc, clauses)? {
        Some(Decision::Model { trues }) => {
            let mut numbers = Vec::new(alloc);
            for atom in trues.as_slice() {
                numbers.push(atom.pred)?;
            }
            Ok(Some(numbers))
        }
        _ => Ok(None),
    }
}

/// The nodes of a closing proof, if there is one: whether each is a branch, and its atom or its clause.
pub(crate) fn proof_of(
    alloc: Global,
    clauses: &[&[i32]],
) -> Result<Option<Vec<(bool, u32)>>, AllocError> {
    match decision_on(alloc, clauses)? {
        Some(Decision::Closed { proof }) => {
            let mut nodes = Vec::new(alloc);
            for split in proof.as_slice() {
                match split {
                    Split::Branch { atom } => nodes.push((true, atom.pred))?,
                    Split::Leaf { at } => nodes.push((false, *at))?,
                }
            }
            Ok(Some(nodes))
        }
        _ => Ok(None),
    }
}
