//! Unifications and matches of generated pairs.
//!
//! In each turn the pairs are unified one after another in the same bindings, which begin with no equation,
//! or each is matched by itself. What succeeded is counted.
use crate::atoms::{Pair, Shape, pairs_of};
use anyhow::Result;
use me_terms::is_instance;
use me_unify::Bindings;
use std::alloc::{AllocError, Global};

/// How many of the pairs are unified in one turn.
fn unified(alloc: Global, pairs: &[Pair]) -> Result<u64, AllocError> {
    let mut bindings = Bindings::new(alloc);
    for pair in pairs {
        let _ = bindings.unify(0, &pair.left, 0, &pair.right)?;
    }
    Ok(bindings.mark())
}

/// How many of the pairs match in one turn.
fn matched(pairs: &[Pair]) -> u64 {
    let mut count = 0u64;
    for pair in pairs {
        count = count.saturating_add(u64::from(is_instance(&pair.left, &pair.right)));
    }
    count
}

/// How many unifications succeed in so many turns.
pub(crate) fn unifications(alloc: Global, shape: Shape, size: u32, times: u32) -> Result<u64> {
    let pairs = pairs_of(alloc, shape, size)?;
    let mut count = 0u64;
    for _ in 0..times {
        count = count.saturating_add(unified(alloc, pairs.as_slice())?);
    }
    Ok(count)
}

/// How many matches succeed in so many turns.
pub(crate) fn instances(alloc: Global, shape: Shape, size: u32, times: u32) -> Result<u64> {
    let pairs = pairs_of(alloc, shape, size)?;
    let mut count = 0u64;
    for _ in 0..times {
        count = count.saturating_add(matched(pairs.as_slice()));
    }
    Ok(count)
}
