//! The branch of the tree of cases that is underway, and the tree so far.
//!
//! Each atom is first tried as true, so that the nodes come in preorder.
ghost use Rattle.std.specs.Prelude.{◌≡◌, ℕ, ◌+◌, ◌<◌, [], ◌∷◌, ◌++◌, None, Some, false, length, slice_set, IsTrue, OnOk, IfOk};
ghost use Rattle.std.specs.List.{All};
ghost use Rattle.ground_solver.specs.Numbered.{Clauses, AreClosing, IsNodeWithin};
ghost use Rattle.ground_solver.specs.Standings.{value_at, IsFreeIn, IsLastOf, IsOpenOf, IsReasonFor, IsRefutedAt};
ghost use Rattle.ground_solver.specs.Underway.{IsUnderway, IsOnward, free, work};

use crate::signed::{Signed, Step, Values};
use std::alloc::{AllocError, Global};

/// Why an atom has a value on the branch.
#[derive(Clone, Copy, Drop)]
pub(crate) enum Fixed {
    /// It is tried as true. It was chosen when each clause before `from` had a true literal.
    Tried { atom: u32, from: usize },
    /// It is true, since the clause at that place has only false literals otherwise.
    Forced { atom: u32, by: u32 },
    /// It is false, and the tree in which it is true is closed.
    Refuted { atom: u32 },
}

impl Fixed {
    /// The literal that is false by it.
    pub fn falsified(self) -> Signed {
        match self {
            Fixed::Tried { atom, from: _ } | Fixed::Forced { atom, by: _ } => Signed {
                positive: false,
                atom,
            },
            Fixed::Refuted { atom } => Signed {
                positive: true,
                atom,
            },
        }
    }
}

/// The branch, from the root on.
#[derive(Drop)]
pub(crate) struct Search {
    pub values: Values,
    pub trail: Vec<Fixed>,
    /// The nodes so far.
    pub steps: Vec<Step>,
    /// What the trail has before this place was propagated.
    pub head: usize,
    /// Each clause before this place has a true literal.
    pub from: usize,
}

/// The value of an atom is another one, or none.
fn set(values: &mut Values, atom: u32, value: Option<bool>)
    ensures { values.new.items ≡ slice_set values.old.items atom value }
{
    if let Some(old) = values.get_mut(atom as usize) {
        *old = value;
    }
}

impl Search {
    /// Of so many atoms none has a value.
    pub fn new(alloc: Global, atoms: u32) -> Result<Self, AllocError>
        ensures size { IfOk result (λ search. length search.values.items ≡ atoms) }
        ensures values { IfOk result (λ search. (a : ℕ) → value_at search.values.items a ≡ None) }
        ensures trail { IfOk result (λ search. search.trail.items ≡ []) }
        ensures steps { IfOk result (λ search. search.steps.items ≡ []) }
    {
        let mut values = Vec::new(alloc);
        'values: for _ in 0..atoms {
            values.push(None)?;
        }
        Ok(Search {
            values,
            trail: Vec::new(alloc),
            steps: Vec::new(alloc),
            head: 0,
            from: 0,
        })
    }

    /// The literal is true from here on.
    fn hold(&mut self, literal: Signed, fixed: Fixed) -> Result<(), AllocError>
        ensures values { OnOk result (self.new.values.items ≡ slice_set self.old.values.items literal.atom (Some literal.positive)) }
        ensures trail { OnOk result (self.new.trail.items ≡ self.old.trail.items ++ fixed ∷ []) }
        ensures steps { self.new.steps.items ≡ self.old.steps.items }
        ensures head { self.new.head ≡ self.old.head }
    {
        self.trail.push(fixed)?;
        set(&mut self.values, literal.atom, Some(literal.positive));
        Ok(())
    }

    /// The atom is true from here on, until its case is closed. Each clause before `from` has a true literal.
    pub fn try_true(&mut self, atom: u32, from: usize) -> Result<(), AllocError>
        ensures underway { OnOk result ((clauses : Clauses) (n : ℕ) → IsUnderway clauses n self.old → atom < n → IsUnderway clauses n self.new) }
        ensures less { OnOk result (atom < length self.old.values.items → value_at self.old.values.items atom ≡ None → work self.new.values.items self.new.trail.items < work self.old.values.items self.old.trail.items) }
    {
        self.steps.push(Step::Branch(atom))?;
        self.from = from;
        let literal = Signed {
            positive: true,
            atom,
        };
        self.hold(literal, Fixed::Tried { atom, from })?;
        Ok(())
    }

    /// The literal is true from here on, since the clause at that place has only false literals otherwise.
    pub fn force(&mut self, literal: Signed, by: u32) -> Result<(), AllocError>
        ensures underway { OnOk result ((clauses : Clauses) (n : ℕ) → IsUnderway clauses n self.old → literal.atom < n → IsReasonFor clauses self.old.values.items literal by → IsUnderway clauses n self.new) }
        ensures less { OnOk result (literal.atom < length self.old.values.items → IsFreeIn self.old.values.items literal → work self.new.values.items self.new.trail.items < work self.old.values.items self.old.trail.items) }
        ensures longer { OnOk result (length self.new.trail.items ≡ length self.old.trail.items + 1) }
        ensures fewer { OnOk result (literal.atom < length self.old.values.items → IsFreeIn self.old.values.items literal → free self.new.values.items + 1 ≡ free self.old.values.items) }
        ensures head { self.new.head ≡ self.old.head }
    {
        let atom = literal.atom;
        self.steps.push(Step::Branch(atom))?;
        if literal.positive {
            self.hold(literal, Fixed::Forced { atom, by })?;
            return Ok(());
        }
        self.steps.push(Step::Leaf(by))?;
        self.hold(literal, Fixed::Refuted { atom })?;
        Ok(())
    }

    /// The literal at place `k` of a clause is true from here on, since all others are false.
    pub fn force_last(
        &mut self,
        clauses: &[Vec<Signed>],
        by: u32,
        k: usize,
    ) -> Result<(), AllocError>
        requires underway { (n : ℕ) × IsUnderway clauses.now n self.old }
        requires last { IsLastOf clauses.now self.old.values.items by k }
        ensures onward { OnOk result (IsOnward clauses.now self.old self.new) }
        ensures less { OnOk result (work self.new.values.items self.new.trail.items < work self.old.values.items self.old.trail.items) }
        ensures head { self.new.head ≡ self.old.head }
    {
        let clause = &clauses[by as usize];
        let literals = clause.as_slice();
        self.force(literals[k], by)?;
        Ok(())
    }

    /// The atom of the literal at place `k` of a clause is true from here on, until its case is closed. Each
    /// clause before that one has a true literal.
    pub fn try_at(
        &mut self,
        clauses: &[Vec<Signed>],
        place: usize,
        k: usize,
    ) -> Result<(), AllocError>
        requires underway { (n : ℕ) × IsUnderway clauses.now n self.old }
        requires unknown { IsOpenOf clauses.now self.old.values.items place k }
        ensures underway { OnOk result ((n : ℕ) → IsUnderway clauses.now n self.old → IsUnderway clauses.now n self.new) }
        ensures less { OnOk result (work self.new.values.items self.new.trail.items < work self.old.values.items self.old.trail.items) }
    {
        let clause = &clauses[place];
        let literals = clause.as_slice();
        self.try_true(literals[k].atom, place)?;
        Ok(())
    }

    /// The branch ends at the clause of that place, which has only false literals. The next one goes from
    /// the last atom that was tried, which is false now; there is none where no atom was.
    pub fn close(&mut self, by: u32) -> Result<bool, AllocError>
        ensures underway { IfOk result (λ goes. IsTrue goes → (clauses : Clauses) (n : ℕ) → IsUnderway clauses n self.old → IsRefutedAt clauses self.old.values.items by → IsUnderway clauses n self.new) }
        ensures less { IfOk result (λ goes. IsTrue goes → work self.new.values.items self.new.trail.items < work self.old.values.items self.old.trail.items) }
        ensures closing { IfOk result (λ goes. goes ≡ false → (clauses : Clauses) (n : ℕ) → IsUnderway clauses n self.old → IsRefutedAt clauses self.old.values.items by → AreClosing clauses self.new.steps.items × All (IsNodeWithin n) self.new.steps.items) }
    {
        self.steps.push(Step::Leaf(by))?;
        'trail: while let Some(fixed) = self.trail.pop() {
            match fixed {
                Fixed::Tried { atom, from } => {
                    self.head = self.trail.len();
                    self.from = from;
                    self.trail.push(Fixed::Refuted { atom })?;
                    set(&mut self.values, atom, Some(false));
                    return Ok(true);
                }
                Fixed::Forced { atom, by: reason } => {
                    self.steps.push(Step::Leaf(reason))?;
                    set(&mut self.values, atom, None);
                }
                Fixed::Refuted { atom } => set(&mut self.values, atom, None),
            }
        }
        Ok(false)
    }
}
