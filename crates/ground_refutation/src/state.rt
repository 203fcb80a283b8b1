//! How far the list of a leaf has come: the instances, each once, and the demands.
ghost use Rattle.std.specs.Prelude.{◌≡◌, [], ◌+◌, ◌<◌, ◌≤◌, ◌^◌, OnOk, IfOk, IfErr, false};
ghost use Rattle.std.specs.List.{list_any};
ghost use Rattle.indexmap.specs.IndexSet.{insert_key};
ghost use Rattle.me_terms.specs.Measures.{literals_weight, list_weight};
ghost use Rattle.me_terms.specs.FirstOccurrences.{same_instance};
ghost use Rattle.ground_refutation.specs.Queue.{IsListing};

use crate::demand::Demand;
use indexmap::IndexSet;
use instance_lists::ListError;
use me_terms::{Instance, Instances};
use std::alloc::{AllocError, Global};
use std::collections::VecDeque;

/// The instances of a list, in order and each once, and the sum of their weights.
#[derive(Drop)]
pub(crate) struct Listing {
    pub instances: IndexSet<Instance>,
    pub weight: u64,
}

impl Listing {
    /// No instances.
    pub fn new(alloc: Global) -> Self
        ensures instances { result.instances.keys ≡ [] }
        ensures weight { result.weight ≡ 0 }
    {
        Listing {
            instances: IndexSet::new(alloc),
            weight: 0,
        }
    }

    /// Adds an instance of that weight at the end, unless it is listed. The weight of a repeat is not
    /// counted again.
    pub fn add(&mut self, instance: Instance, weight: u64, bound: u64) -> Result<(), ListError>
        requires bound { bound < 2 ^ 63 }
        requires listing { IsListing bound self.old.instances.keys self.old.weight }
        requires weight { weight ≡ literals_weight instance.literals }
        ensures listing { OnOk result (IsListing bound self.new.instances.keys self.new.weight) }
        ensures added { OnOk result (self.new.instances.keys ≡ insert_key same_instance self.old.instances.keys instance) }
        ensures is_new { IfErr result (λ error. error ≡ ListError.TooHeavy → list_any (same_instance instance) self.old.instances.keys ≡ false) }
        ensures heavy { IfErr result (λ error. error ≡ ListError.TooHeavy → bound < self.old.weight + weight) }
    {
        if self.instances.contains(&instance) {
            return Ok(());
        }
        if weight > bound - self.weight {
            return Err(ListError::TooHeavy);
        }
        if self.instances.insert(instance).is_err() {
            return Err(ListError::Memory);
        }
        self.weight += weight;
        Ok(())
    }

    /// The instances in order.
    pub fn into_list(self, alloc: Global) -> Result<Instances, AllocError>
        ensures { IfOk result (λ list. list.items ≡ self.instances.keys) }
    {
        let mut list = Instances::new(alloc);
        for instance in self.instances {
            if list.push(instance).is_err() {
                return Err(AllocError);
            }
        }
        Ok(list)
    }
}

/// The list so far, the demands that added an instance, and those that wait.
#[derive(Drop)]
pub(crate) struct State {
    pub listing: Listing,
    pub asked: IndexSet<Demand>,
    pub waiting: VecDeque<Demand>,
}
