//! Equations between atoms, and their most general unifier.
//!
//! A contract sees the equations in the order in which they were added. They always have a solution, so
//! that all of the unifier that does not depend on the names of its variables is determined by them.
ghost use Rattle.std.specs.Prelude.{◌≡◌, ◌∷◌, [], ◌++◌, ◌≤◌, ◌↔◌, OnErr, IfOk, IsTrue, false, length, take};
ghost use Rattle.me_terms.specs.Substitutions.{Family, apply_atom, apply_literal};
ghost use Rattle.me_terms.specs.Remainder.{is_variable};
ghost use Rattle.me_terms.specs.Measures.{canonical_literal};
ghost use Rattle.me_terms.specs.ListedInstances.{constant};
ghost use Rattle.me_unify.specs.Measured.{IsAtomMeasure};
ghost use Rattle.me_unify.specs.Equations.{equation, IsSolvable, IsMostGeneral};

use crate::arena::Arena;
use crate::constants::filled_literal;
use crate::measure::{Measure, of_atom};
use crate::step::Step;
use me_terms::{Atom, Literal};
use std::alloc::{AllocError, Global};
use std::marker::Model;

/// Equations that have a solution, and what the variables of all spaces stand for under them.
#[derive(Drop)]
pub struct Bindings {
    arena: Arena,
    steps: Vec<Step>,
    alloc: Global,
}

impl Model for Bindings {
    ghost use Rattle.std.specs.Prelude.{List};
    ghost use Rattle.me_unify.specs.Equations.{Equation, equations_code};

    ghost Value = { List Equation };

    ghost coded = { equations_code };

    ghost use Rattle.me_unify.specs.Marks.{step_equations, AreBound};

    ghost view = { λ b. step_equations b.arena.nodes b.steps.items };

    ghost invariant = { λ b. AreBound b.arena.nodes b.arena.links b.steps.items };
}

impl Bindings {
    /// No equations. It takes no memory; later calls take theirs from `alloc`.
    pub fn new(alloc: Global) -> Self
        ensures { result ≡ [] }
    {
        Bindings {
            arena: Arena::new(alloc),
            steps: Vec::new(alloc),
            alloc,
        }
    }

    /// The number of equations so far.
    pub fn mark(&self) -> u64
        ensures count { result ≡ length self.now }
        ensures solvable { IsSolvable self.now }
    {
        self.steps.len() as u64
    }

    /// Takes back all equations but the first `mark`. What the variables stand for is then what it was when
    /// these stood alone. It takes no memory.
    pub fn undo(&mut self, mark: u64)
        requires { mark ≤ length self.old }
        ensures { self.new ≡ take mark self.old }
    {
        let mark = mark as usize;
        if mark < self.steps.len() {
            let step = self.steps[mark];
            self.steps.truncate(mark);
            self.arena.cut(step.nodes, step.links);
        }
    }

    /// Adds the equation of two atoms, `left` with the variables of space `ls` and `right` with those of
    /// `rs`. Variables of different spaces are different. False exactly where the equations so far and
    /// this one have no solution; then, and where memory is out, the equations are as before.
    pub fn unify(&mut self, ls: u32, left: &Atom, rs: u32, right: &Atom) -> Result<bool, AllocError>
        ensures exact { IfOk result (λ answer. IsTrue answer ↔ IsSolvable (self.old ++ equation ls left.now rs right.now ∷ [])) }
        ensures yes { IfOk result (λ answer. IsTrue answer → self.new ≡ self.old ++ equation ls left.now rs right.now ∷ []) }
        ensures unifier { IfOk result (λ answer. IsTrue answer → (u : Family) × IsMostGeneral self.new u) }
        ensures no { IfOk result (λ answer. answer ≡ false → self.new ≡ self.old) }
        ensures err { OnErr result (self.new ≡ self.old) }
    {
        if self.arena.are_apart(ls, left, rs, right) {
            return Ok(false);
        }
        self.steps.reserve(1)?;
        let nodes = self.arena.nodes.len();
        let links = self.arena.links.froms.len();
        match self.arena.pose(self.alloc, ls, left, rs, right)? {
            Some(sides) => {
                self.steps.push_reserved(Step {
                    left_space: ls,
                    left: sides.left,
                    right_space: rs,
                    right: sides.right,
                    nodes,
                    links,
                });
                Ok(true)
            }
            None => Ok(false),
        }
    }

    /// The same as `measure`, by nodes in an order.
    fn measure_in_order(&mut self, space: u32, atom: &Atom) -> Result<Measure, AllocError>
        ensures kept { self.new ≡ self.old }
        ensures measure { IfOk result (λ m. (u : Family) → IsMostGeneral self.old u → IsAtomMeasure (apply_atom (u space) atom.now) m) }
    {
        let nodes = self.arena.nodes.len();
        let links = self.arena.links.froms.len();
        let result = self.arena.measure_terms(self.alloc, space, &atom.args);
        self.arena.cut(nodes, links);
        let all = result?;
        Ok(of_atom(all))
    }

    /// What is counted of an atom with the variables of a space, under the unifier of the equations: its
    /// weight, its depth and whether it is ground. No term is written out, and the equations stay.
    pub fn measure(&mut self, space: u32, atom: &Atom) -> Result<Measure, AllocError>
        ensures kept { self.new ≡ self.old }
        ensures measure { IfOk result (λ m. (u : Family) → IsMostGeneral self.old u → IsAtomMeasure (apply_atom (u space) atom.now) m) }
    {
        match self.arena.flat_terms(space, &atom.args) {
            Some(all) => Ok(of_atom(all)),
            None => self.measure_in_order(space, atom),
        }
    }

    /// Whether what a variable of a space stands for is still a variable. It takes no memory.
    pub fn is_variable(&self, space: u32, x: u32) -> bool
        ensures { (u : Family) → IsMostGeneral self.now u → result ≡ is_variable (u space x) }
    {
        self.arena.is_variable(space, x)
    }

    /// The canonical form of a literal with the variables of a space, under the unifier of the equations.
    pub fn literal(&self, space: u32, lit: &Literal) -> Result<Literal, AllocError>
        ensures form { IfOk result (λ m. (u : Family) → IsMostGeneral self.now u → m ≡ canonical_literal (apply_literal (u space) lit.now)) }
    {
        Ok(self.arena.write_literal(self.alloc, space, lit)?)
    }

    /// A literal with the variables of a space, under the unifier of the equations, with the constant `c0`
    /// for each variable that is left.
    pub fn grounded(&self, space: u32, lit: &Literal, c0: u32) -> Result<Literal, AllocError>
        ensures instance { IfOk result (λ m. (u : Family) → IsMostGeneral self.now u → m ≡ apply_literal (λ x. constant c0) (apply_literal (u space) lit.now)) }
    {
        let form = self.literal(space, lit)?;
        Ok(filled_literal(self.alloc, &form, c0)?)
    }
}
