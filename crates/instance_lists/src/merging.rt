//! Two lists of instances as one.
//!
//! The list that is lent keeps its instances, and those that it lacks follow them.
ghost use Rattle.std.specs.Prelude.{◌≡◌, ◌+◌, ◌<◌, ◌≤◌, ◌++◌, ◌↔◌, length, IsTrue, OnOk, OnErr, IfErr};
ghost use Rattle.me_terms.specs.Measures.{list_weight, GREATEST_U64};
ghost use Rattle.instance_lists.specs.Merged.{merged};

use crate::error::ListError;
use crate::new_instances::{find_new, keep_marked};
use crate::weight::left_beside;
use me_terms::Instances;
use std::alloc::Global;

/// Puts each instance of `more` that `into` lacks at its end, once and in order. The list is too heavy
/// where it would weigh more than the bound.
pub fn merge(
    alloc: Global,
    into: &mut Instances,
    more: Instances,
    bound: u64,
) -> Result<(), ListError>
    requires bound { bound < GREATEST_U64 }
    ensures ok { OnOk result (into.new.items ≡ merged into.old.items more.items) }
    ensures light { OnOk result (list_weight into.new.items ≤ bound) }
    ensures heavy { IfErr result (λ e. e ≡ ListError.TooHeavy → bound < list_weight (merged into.old.items more.items)) }
    ensures err { OnErr result (into.new ≡ into.old) }
{
    let marks = find_new(alloc, into.as_slice(), more.as_slice())?;
    let added = keep_marked(alloc, more, &marks)?;
    if !fits_beside(into, &added, bound) {
        return Err(ListError::TooHeavy);
    }
    into.reserve(added.len())?;
    append(into, added);
    Ok(())
}

/// Whether the weights of both lists are together within the bound.
fn fits_beside(list: &Instances, more: &Instances, bound: u64) -> bool
    requires { bound < GREATEST_U64 }
    ensures { IsTrue result ↔ (list_weight list.now.items + list_weight more.now.items ≤ bound) }
{
    match left_beside(bound, list.as_slice()) {
        Some(left) => left_beside(left, more.as_slice()).is_some(),
        None => false,
    }
}

/// Puts the list at the end, for which there is room.
fn append(into: &mut Instances, list: Instances)
    requires { length list.items ≤ into.old.spare }
    ensures { into.new.items ≡ into.old.items ++ list.items }
{
    for instance in list.into_vec() {
        let _ = into.push(instance);
    }
}
