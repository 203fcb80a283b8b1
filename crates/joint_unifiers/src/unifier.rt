//! Unifiers of a clause's literals with entries of a context.
//!
//! A contract sees the clause's literals, the positions, the equations and the places of the remainder.
//! The equations have a most general family, and what is asked of a literal is so under each such family.
ghost use Rattle.std.specs.Prelude.{◌≡◌, ℕ, ◌<◌, length, slice_get, Some, IfOk};
ghost use Rattle.me_terms.specs.Substitutions.{Family};
ghost use Rattle.me_terms.specs.Variables.{are_ground};
ghost use Rattle.me_terms.specs.Measures.{capped, literal_weight, literal_depth, canonical_literal};
ghost use Rattle.me_terms.specs.Unifier.{unified};
ghost use Rattle.me_terms.specs.declared.atom.Literal.{Literal as LiteralOf};
ghost use Rattle.me_unify.specs.Equations.{IsMostGeneral};
ghost use Rattle.joint_unifiers.specs.Measured.{HasMeasures};
ghost use Rattle.joint_unifiers.specs.Places.{ArePlaces};

use me_terms::{Literal, Literals, Places, Tuple};
use me_unify::{Bindings, Measure};
use std::alloc::{AllocError, Global};
use std::marker::Model;

/// A most general unifier of a clause's literals with the entries at positions of a context.
/// It refers to those literals.
#[derive(Drop)]
pub struct Unifier<'a> {
    pub(crate) literals: &'a Literals,
    pub(crate) tuple: Tuple,
    pub(crate) bindings: Bindings,
    pub(crate) measures: Vec<Measure>,
    pub(crate) remainder: Places,
}

impl<'a> Model for Unifier<'a> {
    ghost use Rattle.std.specs.Coded.{codes};
    ghost use Rattle.me_terms.specs.Terms.{arguments_code};
    ghost use Rattle.joint_unifiers.specs.ClauseUnifiers.{UnifierValue};

    ghost Value = { UnifierValue };

    ghost coded = { Prim.hlevel (codes, arguments_code) };

    ghost use Rattle.joint_unifiers.specs.Measured.{IsMeasuredUnifier};

    ghost view = { λ u. record { literals = u.literals.now.items; tuple = u.tuple.items; equations = u.bindings; remainder = u.remainder.items } };

    ghost invariant = { λ u. IsMeasuredUnifier u.bindings u.literals.now.items u.measures.items u.remainder.items };
}

/// What is counted of each literal, with the variables of space 0, under the bindings.
fn measures_of(
    alloc: Global,
    bindings: &mut Bindings,
    literals: &[Literal],
) -> Result<Vec<Measure>, AllocError>
    ensures kept { bindings.new ≡ bindings.old }
    ensures measured { IfOk result (λ measures. HasMeasures bindings.old literals.now measures.items) }
{
    let mut measures = Vec::new(alloc);
    for literal in literals {
        let measure = bindings.measure(0, &literal.atom)?;
        measures.push(measure)?;
    }
    Ok(measures)
}

impl<'a> Unifier<'a> {
    /// The unifier of these literals and positions by these bindings, with the places that remain.
    pub(crate) fn new(
        alloc: Global,
        literals: &'a Literals,
        tuple: &Tuple,
        bindings: Bindings,
        remainder: Places,
    ) -> Result<Unifier<'a>, AllocError>
        requires family { (f : Family) × IsMostGeneral bindings f }
        requires places { ArePlaces literals.now.items remainder.items }
        ensures literals { IfOk result (λ u. u.literals ≡ literals.now.items) }
        ensures tuple { IfOk result (λ u. u.tuple ≡ tuple.now.items) }
        ensures equations { IfOk result (λ u. u.equations ≡ bindings) }
        ensures remainder { IfOk result (λ u. u.remainder ≡ remainder.items) }
    {
        let mut bindings = bindings;
        let measures = measures_of(alloc, &mut bindings, literals.as_slice())?;
        Ok(Unifier {
            literals,
            tuple: tuple.again(alloc)?,
            bindings,
            measures,
            remainder,
        })
    }

    /// The positions of the entries, one for each place that is not skipped.
    pub fn tuple(&self) -> &Tuple
        ensures positions { result.now.items ≡ self.now.tuple }
        ensures family { (f : Family) × IsMostGeneral self.now.equations f }
    {
        &self.tuple
    }

    /// The places at which an entry is used for less than all that it stands for, rising.
    pub fn remainder(&self) -> &Places
        ensures items { result.now.items ≡ self.now.remainder }
        ensures places { ArePlaces self.now.literals self.now.remainder }
    {
        &self.remainder
    }

    /// How many predicates, functions and variables stand in the literal of that place under the unifier.
    pub fn weight(&self, place: u32) -> u64
        requires { place < length self.now.literals }
        ensures { (f : Family) (l : LiteralOf) → IsMostGeneral self.now.equations f → slice_get self.now.literals place ≡ Some l → result ≡ capped (literal_weight (unified f l)) }
    {
        self.measures[place as usize].weight
    }

    /// The greatest depth of the arguments of that place's literal under the unifier.
    pub fn depth(&self, place: u32) -> u64
        requires { place < length self.now.literals }
        ensures { (f : Family) (l : LiteralOf) → IsMostGeneral self.now.equations f → slice_get self.now.literals place ≡ Some l → result ≡ capped (literal_depth (unified f l)) }
    {
        self.measures[place as usize].depth
    }

    /// Whether no variable stands in the literal of that place under the unifier.
    pub fn ground(&self, place: u32) -> bool
        requires { place < length self.now.literals }
        ensures { (f : Family) (l : LiteralOf) → IsMostGeneral self.now.equations f → slice_get self.now.literals place ≡ Some l → result ≡ are_ground (unified f l).atom.args }
    {
        self.measures[place as usize].ground
    }

    /// The literal of that place under the unifier, with its variables numbered by first occurrence.
    pub fn literal(&self, place: u32) -> Result<Literal, AllocError>
        requires { place < length self.now.literals }
        ensures { IfOk result (λ m. (f : Family) (l : LiteralOf) → IsMostGeneral self.now.equations f → slice_get self.now.literals place ≡ Some l → m ≡ canonical_literal (unified f l)) }
    {
        let Some(literal) = self.literals.get(place as u64) else {
            unreachable!();
        };
        self.bindings.literal(0, literal)
    }
}
