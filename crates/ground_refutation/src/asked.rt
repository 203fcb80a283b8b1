//! The closing instance of a leaf, and the instance by which an asserted entry holds at a ground literal.
ghost use Rattle.std.specs.Prelude.{◌≡◌, ◌<◌, ℕ, List, IfOk, IfErr};
ghost use Rattle.me_terms.specs.Validity.{IsValid};
ghost use Rattle.me_terms.specs.Measures.{literals_weight, GREATEST_U64};
ghost use Rattle.me_terms.specs.Positions.{ClauseAt, positions_of};
ghost use Rattle.me_terms.specs.Values.{ClauseValue};
ghost use Rattle.me_terms.specs.Close.{IsClose};
ghost use Rattle.me_terms.specs.ListedInstances.{IsClosingInstance};
ghost use Rattle.me_terms.specs.declared.atom.Literal.{Literal};
ghost use Rattle.ground_refutation.specs.Queue.{IsDemanded};

use crate::instance::{Weighed, instance_within};
use crate::places::bind_all;
use instance_lists::ListError;
use me_terms::{Literal, Problem, View};
use me_unify::Bindings;
use std::alloc::Global;

/// The literals of the clause at that place of the problem.
fn literals_of(problem: &Problem, clause: u32) -> &[Literal]
    requires { (value : ClauseValue) × ClauseAt problem.now clause value }
    ensures { (value : ClauseValue) → ClauseAt problem.now clause value → result.now ≡ value.literals }
{
    let clause = &problem.clauses.as_slice()[clause as usize];
    clause.literals.as_slice()
}

/// The instance by which a clause closes with a tuple, whose positions stand at its places.
pub(crate) fn closing_instance<V: View>(
    alloc: Global,
    problem: &Problem,
    view: &V,
    clause: u32,
    positions: &[Option<u32>],
    bound: u64,
) -> Result<Weighed, ListError>
    requires valid { IsValid problem.now }
    requires close { (tuple : List ℕ) × (positions.now ≡ positions_of None tuple) × IsClose problem.now (V.context view.now) clause tuple }
    requires bound { bound < GREATEST_U64 }
    ensures closing { IfOk result (λ weighed. (tuple : List ℕ) → positions.now ≡ positions_of None tuple → IsClosingInstance problem.now (V.context view.now) clause tuple weighed.literals.items) }
    ensures weight { IfOk result (λ weighed. weighed.weight ≡ literals_weight weighed.literals.items) }
    ensures heavy { IfErr result (λ error. error ≡ ListError.TooHeavy → (tuple : List ℕ) (literals : List Literal) → positions.now ≡ positions_of None tuple → IsClosingInstance problem.now (V.context view.now) clause tuple literals → bound < literals_weight literals) }
{
    let literals = literals_of(problem, clause);
    let mut bindings = Bindings::new(alloc);
    bind_all(&mut bindings, view, literals, positions)?;
    instance_within(alloc, &mut bindings, literals, problem.c0, bound)
}

/// The instance of a clause by which an entry, asserted at that place with these positions, holds at the
/// literal that is asked for.
pub(crate) fn asked_instance<V: View>(
    alloc: Global,
    problem: &Problem,
    view: &V,
    clause: u32,
    place: u32,
    positions: &[Option<u32>],
    asked: &Literal,
    bound: u64,
) -> Result<Weighed, ListError>
    requires valid { IsValid problem.now }
    requires asked { (literals : List Literal) × IsDemanded problem.now (V.context view.now) clause place positions.now asked.now literals }
    requires bound { bound < GREATEST_U64 }
    ensures exact { IfOk result (λ weighed. (literals : List Literal) → IsDemanded problem.now (V.context view.now) clause place positions.now asked.now literals → weighed.literals.items ≡ literals) }
    ensures weight { IfOk result (λ weighed. weighed.weight ≡ literals_weight weighed.literals.items) }
    ensures heavy { IfErr result (λ error. error ≡ ListError.TooHeavy → (literals : List Literal) → IsDemanded problem.now (V.context view.now) clause place positions.now asked.now literals → bound < literals_weight literals) }
{
    let literals = literals_of(problem, clause);
    let own = &literals[place as usize];
    let mut bindings = Bindings::new(alloc);
    bind_all(&mut bindings, view, literals, positions)?;
    let unified = bindings.unify(0, &own.atom, 0, &asked.atom)?;
    prove!(unified);
    instance_within(alloc, &mut bindings, literals, problem.c0, bound)
}
