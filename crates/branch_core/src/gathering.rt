//! The lists of closed parts as one.
//!
//! Neighbours are joined, and then what was made of them, so that an instance is looked at as often as the
//! number of parts can be halved.
ghost use Rattle.std.specs.Prelude.{◌≡◌, ◌<◌, [], IfOk};
ghost use Rattle.me_terms.specs.Measures.{GREATEST_U64};
ghost use Rattle.branch_core.specs.Gathered.{gathered, listed_of, ListedOnce};
ghost use Rattle.branch_core.specs.PartViews.{listed_value, part_value, part_values};
ghost use Rattle.branch_core.specs.Parts as parts;
ghost use Rattle.branch_core.specs.Total.{listed_joined};

use crate::part::{Listed, Part};
use instance_lists::{ListError, merge};
use me_terms::Instances;
use std::alloc::{AllocError, Global};

/// The lists of the parts as one, or TooHeavy where one is left out or all together weigh more than the
/// bound.
pub(crate) fn gather(alloc: Global, parts: &[&Part], list_bound: u64) -> Result<Listed, AllocError>
    requires { list_bound < GREATEST_U64 }
    ensures { IfOk result (λ list. listed_value list ≡ gathered list_bound (part_values parts.now)) }
{
    match parts {
        [] => Ok(no_instances(alloc)),
        [part] => join(
            alloc,
            no_instances(alloc),
            list_of(alloc, part)?,
            list_bound,
        ),
        _ => {
            let (left, right) = parts.split_at(parts.len() / 2);
            let left = gather(alloc, left, list_bound)?;
            let right = gather(alloc, right, list_bound)?;
            join(alloc, left, right, list_bound)
        }
    }
}

/// The empty list.
fn no_instances(alloc: Global) -> Listed
    ensures { listed_value result ≡ parts.Whole [] }
{
    Listed::Whole {
        list: Instances::new(alloc),
    }
}

/// A copy of the list of a closed part. Any other part has none.
fn list_of(alloc: Global, part: &Part) -> Result<Listed, AllocError>
    ensures { IfOk result (λ list. listed_value list ≡ listed_of (part_value part.now)) }
{
    match part {
        Part::Closed {
            listed: Listed::Whole { list },
        } => Ok(Listed::Whole {
            list: list.again(alloc)?,
        }),
        _ => Ok(Listed::TooHeavy),
    }
}

/// Two lists as one, or TooHeavy where one is left out or both together weigh more than the bound.
fn join(alloc: Global, first: Listed, second: Listed, list_bound: u64) -> Result<Listed, AllocError>
    requires once { ListedOnce (listed_value first) }
    requires bound { list_bound < GREATEST_U64 }
    ensures { IfOk result (λ list. listed_value list ≡ listed_joined list_bound (listed_value first) (listed_value second)) }
{
    match (first, second) {
        (Listed::Whole { mut list }, Listed::Whole { list: more }) => {
            match merge(alloc, &mut list, more, list_bound) {
                Ok(()) => Ok(Listed::Whole { list }),
                Err(ListError::TooHeavy) => Ok(Listed::TooHeavy),
                Err(ListError::Memory) => Err(AllocError),
            }
        }
        _ => Ok(Listed::TooHeavy),
    }
}
