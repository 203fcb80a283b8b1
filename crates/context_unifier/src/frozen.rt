//! Which atoms a literal under equations is an instance of, asked without writing the literal out.
//!
//! The literal's variables are frozen twice, with constants of which none is used both times. An atom goes
//! with both frozen literals exactly where the literal is an instance of it: where it has a symbol against
//! a variable, that symbol is at most one of the two constants.
ghost use Rattle.std.specs.Prelude.{◌≡◌, ◌↔◌, ◌<◌, ◌-◌, ◌^◌, ℕ, length, None, IsTrue, IfOk, IfSome};
ghost use Rattle.me_terms.specs.Terms.{AtomValue};
ghost use Rattle.me_terms.specs.Substitutions.{Family, apply_atom, IsInstance};
ghost use Rattle.me_terms.specs.Positions.{positions_of};
ghost use Rattle.me_unify.specs.Equations.{IsMostGeneral, IsSolvable};
ghost use Rattle.me_unify.specs.ClauseEquations.{clause_equations};
ghost use Rattle.context_unifier.specs.Frozen.{IsFrozen, LeavesGround, asking, TellInstances};

use crate::freezing::Freezing;
use joint_unifiers::clause_bindings;
use me_terms::{Atom, Literal, Tuple, View};
use me_unify::Bindings;
use std::alloc::{AllocError, Global};

/// The equations of a clause's places with two freezings of what they leave free.
#[derive(Drop)]
pub(crate) struct Frozen {
    one: Bindings,
    other: Bindings,
}

/// Whether the bindings leave no variable in the literal.
fn is_closed(bindings: &mut Bindings, literal: &Literal) -> Result<bool, AllocError>
    ensures kept { bindings.new ≡ bindings.old }
    ensures closed { IfOk result (λ b. IsTrue b → LeavesGround bindings.old literal.now.atom) }
{
    // for the proof: the equations have a solution
    let _solvable = bindings.mark();
    let measure = bindings.measure(0, &literal.atom)?;
    Ok(measure.ground)
}

/// Whether the atom, with variables of its own, goes with the literal under the bindings.
fn goes_with(bindings: &mut Bindings, atom: &Atom, literal: &Literal) -> Result<bool, AllocError>
    ensures kept { bindings.new ≡ bindings.old }
    ensures exact { IfOk result (λ b. IsTrue b ↔ IsSolvable (asking bindings.old atom.now literal.now.atom)) }
{
    let equations = bindings.mark();
    let answer = bindings.unify(u32::MAX, atom, 0, &literal.atom)?;
    bindings.undo(equations);
    Ok(answer)
}

/// The clause's equations with what they leave free frozen, by constants from that number on. None only
/// where they have no solution.
fn freeze_clause<V: View>(
    alloc: Global,
    literals: &[Literal],
    view: &V,
    tuple: &Tuple,
    first: u32,
) -> Result<Option<Freezing>, AllocError>
    requires each_place { length tuple.now.items ≡ length literals.now }
    requires few { length literals.now < 2 ^ 32 - 1 }
    ensures { IfOk result (λ r. IfSome r (λ z. IsFrozen (clause_equations (V.context view.now) literals.now (positions_of None tuple.now.items)) first z.bindings z.next)) }
{
    let Some(bindings) = clause_bindings(alloc, view, literals, None, tuple)? else {
        return Ok(None);
    };
    let mut freezing = Freezing::new(alloc, bindings, first);
    freezing.freeze_literals(literals)?;
    freezing.freeze_entries(view, tuple)?;
    Ok(Some(freezing))
}

impl Frozen {
    /// Two freezings that leave no variable in the literal. None only where the numbers of constants run out,
    /// or the equations have no solution.
    pub(crate) fn new<V: View>(
        alloc: Global,
        literals: &[Literal],
        view: &V,
        tuple: &Tuple,
        literal: &Literal,
    ) -> Result<Option<Frozen>, AllocError>
        requires each_place { length tuple.now.items ≡ length literals.now }
        requires few { length literals.now < 2 ^ 32 - 1 }
        ensures { IfOk result (λ r. IfSome r (λ z. (f : Family) → IsMostGeneral (clause_equations (V.context view.now) literals.now (positions_of None tuple.now.items)) f → TellInstances z.one z.other literal.now.atom (apply_atom (f 0) literal.now.atom))) }
    {
        let Some(one) = freeze_clause(alloc, literals, view, tuple, 0)? else {
            return Ok(None);
        };
        let Some(other) = freeze_clause(alloc, literals, view, tuple, one.next)? else {
            return Ok(None);
        };
        let mut frozen = Frozen {
            one: one.bindings,
            other: other.bindings,
        };
        if is_closed(&mut frozen.one, literal)? && is_closed(&mut frozen.other, literal)? {
            Ok(Some(frozen))
        } else {
            Ok(None)
        }
    }

    /// Whether the literal is an instance of the atom.
    pub(crate) fn is_instance(&mut self, atom: &Atom, literal: &Literal) -> Result<bool, AllocError>
        ensures one { self.new.one ≡ self.old.one }
        ensures other { self.new.other ≡ self.old.other }
        ensures exact { IfOk result (λ b. (c : AtomValue) → TellInstances self.old.one self.old.other literal.now.atom c → IsTrue b ↔ IsInstance atom.now c) }
    {
        if !goes_with(&mut self.one, atom, literal)? {
            return Ok(false);
        }
        goes_with(&mut self.other, atom, literal)
    }
}
