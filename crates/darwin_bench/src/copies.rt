//! Copies of a context that owns its entries, and of a branch over a table.
use crate::denials::deny_all;
use anyhow::Result;
use context_nodes::Nodes;
use me_context::Context;
use me_terms::{Start, Trunk};
use std::alloc::{AllocError, Global};
use std::sync::Wait;

/// How a context has its entries.
#[derive(Clone, Copy)]
pub(crate) enum Form {
    Owned,
    /// It is a branch over a table.
    Lent,
}

/// When copies are let go.
#[derive(Clone, Copy)]
pub(crate) enum Life {
    /// Each before the next is made.
    Short,
    /// All together.
    Long,
}

/// How many entries so many copies have, each of which is let go before the next.
fn copied<T: Trunk>(alloc: Global, context: &T, times: u32) -> Result<u64, AllocError> {
    let mut entries = 0u64;
    for _ in 0..times {
        let copy = context.again(alloc)?;
        entries = entries.saturating_add(u64::from(copy.len()));
    }
    Ok(entries)
}

/// How many entries so many copies have, which are let go together.
fn kept<T: Trunk>(alloc: Global, context: &T, times: u32) -> Result<u64, AllocError> {
    let mut copies = Vec::new(alloc);
    let mut entries = 0u64;
    for _ in 0..times {
        let copy = context.again(alloc)?;
        entries = entries.saturating_add(u64::from(copy.len()));
        copies.push(copy)?;
    }
    Ok(entries)
}

/// How many entries so many copies have of a context that grew from this one.
fn of_grown<T: Trunk>(
    alloc: Global,
    context: T,
    life: Life,
    entries: u32,
    times: u32,
) -> Result<u64> {
    let mut context = context;
    deny_all(alloc, &mut context, 6, entries)?;
    let count = match life {
        Life::Short => copied(alloc, &context, times)?,
        Life::Long => kept(alloc, &context, times)?,
    };
    Ok(count)
}

/// How many entries so many copies have of a context with so many entries.
pub(crate) fn copies<R: Wait>(
    rt: &R,
    alloc: Global,
    form: Form,
    life: Life,
    entries: u32,
    times: u32,
) -> Result<u64> {
    match form {
        Form::Owned => {
            let context = Context::new(alloc, Start::Negative)?;
            of_grown(alloc, context, life, entries, times)
        }
        Form::Lent => {
            let nodes = Nodes::new(alloc)?;
            let branch = nodes.root(rt, alloc, Start::Negative)?;
            of_grown(alloc, branch, life, entries, times)
        }
    }
}
