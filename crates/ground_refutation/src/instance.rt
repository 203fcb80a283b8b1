//! The instance of a clause under a unifier, weighed before it is written out.
//!
//! A variable weighs as much as the constant as which it is read, so nothing that is heavier than the
//! bound is ever written.
ghost use Rattle.std.specs.Prelude.{◌≡◌, ℕ, ◌≤◌, ◌<◌, IfOk, IfErr, IfSome, IsNone};
ghost use Rattle.me_terms.specs.Substitutions.{Family};
ghost use Rattle.me_terms.specs.Measures.{literals_weight, GREATEST_U64};
ghost use Rattle.me_terms.specs.ListedInstances.{constant, instance_of};
ghost use Rattle.me_unify.specs.Equations.{IsMostGeneral};

use instance_lists::ListError;
use me_terms::{Literal, Literals};
use me_unify::Bindings;
use std::alloc::{AllocError, Global};

/// The literals of an instance, and the sum of their weights.
#[derive(Drop)]
pub(crate) struct Weighed {
    pub literals: Literals,
    pub weight: u64,
}

/// What the literals weigh under the unifier, if that is at most `bound`. A constant stands for each
/// variable that is left.
fn weight_within(
    bindings: &mut Bindings,
    literals: &[Literal],
    bound: u64,
) -> Result<Option<u64>, AllocError>
    requires { bound < GREATEST_U64 }
    ensures kept { bindings.new ≡ bindings.old }
    ensures light { IfOk result (λ answer. IfSome answer (λ weight. weight ≤ bound)) }
    ensures exact { IfOk result (λ answer. IfSome answer (λ weight. (u : Family) (c0 : ℕ) → IsMostGeneral bindings.old u → weight ≡ literals_weight (instance_of u (λ x. constant c0) literals.now))) }
    ensures heavy { IfOk result (λ answer. IsNone answer → (u : Family) (c0 : ℕ) → IsMostGeneral bindings.old u → bound < literals_weight (instance_of u (λ x. constant c0) literals.now)) }
{
    let mut weight = 0_u64;
    for literal in literals {
        let more = bindings.measure(0, &literal.atom)?.weight;
        if more > bound - weight {
            return Ok(None);
        }
        weight += more;
    }
    Ok(Some(weight))
}

/// The literals under the unifier, with the constant `c0` for each variable that is left.
fn written(
    alloc: Global,
    bindings: &Bindings,
    literals: &[Literal],
    c0: u32,
) -> Result<Literals, AllocError>
    ensures { IfOk result (λ list. (u : Family) → IsMostGeneral bindings.now u → list.items ≡ instance_of u (λ x. constant c0) literals.now) }
{
    let mut list = Literals::new(alloc);
    for literal in literals {
        let literal = bindings.grounded(0, literal, c0)?;
        if list.push(literal).is_err() {
            return Err(AllocError);
        }
    }
    Ok(list)
}

/// The literals under the unifier, with the constant `c0` for each variable that is left, unless they
/// weigh more than `bound`.
pub(crate) fn instance_within(
    alloc: Global,
    bindings: &mut Bindings,
    literals: &[Literal],
    c0: u32,
    bound: u64,
) -> Result<Weighed, ListError>
    requires bound { bound < GREATEST_U64 }
    requires unifier { (u : Family) × IsMostGeneral bindings.old u }
    ensures exact { IfOk result (λ weighed. (u : Family) → IsMostGeneral bindings.old u → weighed.literals.items ≡ instance_of u (λ x. constant c0) literals.now) }
    ensures weight { IfOk result (λ weighed. weighed.weight ≡ literals_weight weighed.literals.items) }
    ensures heavy { IfErr result (λ error. error ≡ ListError.TooHeavy → (u : Family) → IsMostGeneral bindings.old u → bound < literals_weight (instance_of u (λ x. constant c0) literals.now)) }
{
    match weight_within(bindings, literals, bound)? {
        None => Err(ListError::TooHeavy),
        Some(weight) => Ok(Weighed {
            literals: written(alloc, bindings, literals, c0)?,
            weight,
        }),
    }
}
