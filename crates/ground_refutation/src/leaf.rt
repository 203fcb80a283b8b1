//! The list of a closed leaf, by its queue of demands.
//!
//! It ends, since an asserted entry's instance asks only for entries before that entry.
ghost use Rattle.std.specs.Prelude.{◌≡◌, ◌+◌, ◌<◌, ◌≤◌, ◌∷◌, [], List, None, false, OnOk, IfOk, IfErr, length};
ghost use Rattle.std.specs.List.{list_any};
ghost use Rattle.me_terms.specs.Validity.{IsValid};
ghost use Rattle.me_terms.specs.Values.{InstanceValue};
ghost use Rattle.me_terms.specs.Measures.{list_weight};
ghost use Rattle.me_terms.specs.Close.{IsClose};
ghost use Rattle.me_terms.specs.LeafList.{IsAsserted, IsLeafList};
ghost use Rattle.me_terms.specs.declared.bounds.TheConstants.{MAX_LIST};
ghost use Rattle.me_laws_refutation.specs.RightDemands.{IsRight};
ghost use Rattle.ground_refutation.specs.Queue.{Completes, IsUnderway, IsGrownOver, same_demand};
ghost use Rattle.ground_refutation.specs.Work.{longest, work, work_all};

use crate::asked::{asked_instance, closing_instance};
use crate::demand::{Demand, Origin, ask_all, origin_of};
use crate::places::positions;
use crate::state::{Listing, State};
use indexmap::IndexSet;
use instance_lists::ListError;
use me_terms::{Instance, Instances, Problem, Tuple, View};
use std::alloc::Global;
use std::collections::VecDeque;

/// The closing instance is listed, and its demands wait.
fn begin<V: View>(
    alloc: Global,
    problem: &Problem,
    view: &V,
    clause: u32,
    tuple: &Tuple,
    bound: u64,
) -> Result<State, ListError>
    requires valid { IsValid problem.now }
    requires bound { bound ≤ MAX_LIST }
    requires close { IsClose problem.now (V.context view.now) clause tuple.now.items }
    requires grown { IsGrownOver problem.now (V.context view.now) }
    ensures underway { IfOk result (λ state. IsUnderway problem.now (V.context view.now) bound state.waiting.items state.listing.instances.keys state.listing.weight) }
    ensures completes { IfOk result (λ state. (list : List InstanceValue) → IsLeafList problem.now (V.context view.now) clause tuple.now.items list → Completes problem.now (V.context view.now) state.asked.keys state.waiting.items state.listing.instances.keys list) }
    ensures heavy { IfErr result (λ error. error ≡ ListError.TooHeavy → (list : List InstanceValue) → IsLeafList problem.now (V.context view.now) clause tuple.now.items list → bound < list_weight list) }
{
    let positions = positions(alloc, None, tuple)?;
    let closing = closing_instance(alloc, problem, view, clause, &positions, bound)?;
    let mut waiting = VecDeque::new(alloc);
    ask_all(alloc, &mut waiting, closing.literals.as_slice(), &positions)?;
    let mut listing = Listing::new(alloc);
    let instance = Instance {
        clause,
        literals: closing.literals,
    };
    listing.add(instance, closing.weight, bound)?;
    Ok(State {
        listing,
        asked: IndexSet::new(alloc),
        waiting,
    })
}

/// An asserted entry that is asked for at a new literal adds its instance, whose demands wait then.
fn answer<V: View>(
    alloc: Global,
    problem: &Problem,
    view: &V,
    origin: Origin<'_>,
    demand: Demand,
    state: &mut State,
    bound: u64,
) -> Result<(), ListError>
    requires valid { IsValid problem.now }
    requires bound { bound ≤ MAX_LIST }
    requires grown { IsGrownOver problem.now (V.context view.now) }
    requires asserted { IsAsserted (V.context view.now) demand.0 origin.clause origin.place origin.tuple.now.items }
    requires is_new { list_any (same_demand demand) state.old.asked.keys ≡ false }
    requires right { IsRight problem.now (V.context view.now) demand }
    requires underway { IsUnderway problem.now (V.context view.now) bound state.old.waiting.items state.old.listing.instances.keys state.old.listing.weight }
    requires completes { (list : List InstanceValue) × Completes problem.now (V.context view.now) state.old.asked.keys (demand ∷ state.old.waiting.items) state.old.listing.instances.keys list }
    ensures underway { OnOk result (IsUnderway problem.now (V.context view.now) bound state.new.waiting.items state.new.listing.instances.keys state.new.listing.weight) }
    ensures completes { OnOk result ((list : List InstanceValue) → Completes problem.now (V.context view.now) state.old.asked.keys (demand ∷ state.old.waiting.items) state.old.listing.instances.keys list → Completes problem.now (V.context view.now) state.new.asked.keys state.new.waiting.items state.new.listing.instances.keys list) }
    ensures less { OnOk result (work_all (longest problem.now.clauses) state.new.waiting.items < work (longest problem.now.clauses) demand.0 + work_all (longest problem.now.clauses) state.old.waiting.items) }
    ensures heavy { IfErr result (λ error. error ≡ ListError.TooHeavy → (list : List InstanceValue) → Completes problem.now (V.context view.now) state.old.asked.keys (demand ∷ state.old.waiting.items) state.old.listing.instances.keys list → bound < list_weight list) }
{
    let positions = positions(alloc, Some(origin.place), origin.tuple)?;
    let answer = asked_instance(
        alloc,
        problem,
        view,
        origin.clause,
        origin.place,
        &positions,
        &demand.1,
        bound,
    )?;
    if state.asked.insert(demand).is_err() {
        return Err(ListError::Memory);
    }
    ask_all(
        alloc,
        &mut state.waiting,
        answer.literals.as_slice(),
        &positions,
    )?;
    let instance = Instance {
        clause: origin.clause,
        literals: answer.literals,
    };
    state.listing.add(instance, answer.weight, bound)
}

/// A demand is worked. It adds nothing where its entry was not asserted, or was asked for at this literal
/// before.
fn work<V: View>(
    alloc: Global,
    problem: &Problem,
    view: &V,
    demand: Demand,
    state: &mut State,
    bound: u64,
) -> Result<(), ListError>
    requires valid { IsValid problem.now }
    requires bound { bound ≤ MAX_LIST }
    requires grown { IsGrownOver problem.now (V.context view.now) }
    requires right { IsRight problem.now (V.context view.now) demand }
    requires underway { IsUnderway problem.now (V.context view.now) bound state.old.waiting.items state.old.listing.instances.keys state.old.listing.weight }
    requires completes { (list : List InstanceValue) × Completes problem.now (V.context view.now) state.old.asked.keys (demand ∷ state.old.waiting.items) state.old.listing.instances.keys list }
    ensures underway { OnOk result (IsUnderway problem.now (V.context view.now) bound state.new.waiting.items state.new.listing.instances.keys state.new.listing.weight) }
    ensures completes { OnOk result ((list : List InstanceValue) → Completes problem.now (V.context view.now) state.old.asked.keys (demand ∷ state.old.waiting.items) state.old.listing.instances.keys list → Completes problem.now (V.context view.now) state.new.asked.keys state.new.waiting.items state.new.listing.instances.keys list) }
    ensures less { OnOk result (work_all (longest problem.now.clauses) state.new.waiting.items < work (longest problem.now.clauses) demand.0 + work_all (longest problem.now.clauses) state.old.waiting.items) }
    ensures heavy { IfErr result (λ error. error ≡ ListError.TooHeavy → (list : List InstanceValue) → Completes problem.now (V.context view.now) state.old.asked.keys (demand ∷ state.old.waiting.items) state.old.listing.instances.keys list → bound < list_weight list) }
{
    let Some(origin) = origin_of(view, demand.0) else {
        return Ok(());
    };
    if state.asked.contains(&demand) {
        return Ok(());
    }
    answer(alloc, problem, view, origin, demand, state, bound)
}

/// The list of the leaf that the clause at that place of the problem closes with the tuple, by its queue
/// of demands. The view is a context that is grown over the problem, and the bound at most 50,000,000.
///
/// TooHeavy exactly where the list weighs more than the bound.
pub fn instances_of<V: View>(
    alloc: Global,
    p: &Problem,
    view: &V,
    clause: u32,
    tuple: &Tuple,
    bound: u64,
) -> Result<Instances, ListError>
    requires valid { IsValid p.now }
    requires lawful { bound ≤ MAX_LIST }
    requires close { IsClose p.now (V.context view.now) clause tuple.now.items }
    requires grown { IsGrownOver p.now (V.context view.now) }
    ensures list { IfOk result (λ list. IsLeafList p.now (V.context view.now) clause tuple.now.items list.items) }
    ensures light { IfOk result (λ list. list_weight list.items ≤ bound) }
    ensures heavy { IfErr result (λ error. error ≡ ListError.TooHeavy → (list : List InstanceValue) → IsLeafList p.now (V.context view.now) clause tuple.now.items list → bound < list_weight list) }
{
    let mut state = begin(alloc, p, view, clause, tuple, bound)?;
    while let Some(demand) = state.waiting.pop_front() {
        work(alloc, p, view, demand, &mut state, bound)?;
    }
    Ok(state.listing.into_list(alloc)?)
}
