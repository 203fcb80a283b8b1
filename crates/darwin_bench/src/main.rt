//! Does operations of the calculus so many times, and prints how many succeeded.
//!
//! A program has no clock here, so `bench/operations.py` calls it with sizes and times it from outside.
#![tactic(auto)]

mod atoms;
mod call;
mod copies;
mod denials;
mod enumeration;
mod pairs;

use crate::call::{Call, Work, call_of};
use anyhow::{Result, bail};
use std::alloc::Global;
use std::env;
use std::sync::Wait;

/// The words of the call, the program's name first.
fn words_of(rt: &HostRuntime) -> Result<Vec<String>> {
    let mut words = Vec::new(rt.alloc());
    for word in env::args(rt)? {
        words.push(word)?;
    }
    Ok(words)
}

/// How many operations succeeded.
fn count_of<R: Wait>(rt: &R, alloc: Global, call: &Call) -> Result<u64> {
    match call.work {
        Work::Unify(shape) => pairs::unifications(alloc, shape, call.size, call.times),
        Work::Match(shape) => pairs::instances(alloc, shape, call.size, call.times),
        Work::Tuples(literals) => { enumeration::tuples(alloc, literals, call.size, call.times) }
        Work::Copy(form, life) => { copies::copies(rt, alloc, form, life, call.size, call.times) }
    }
}

fn main(rt: HostRuntime) -> Result<()> {
    let words = words_of(&rt)?;
    let Some(call) = call_of(words.as_slice()) else {
        bail!(
            "usage: darwin_bench unify|match flat|deep|doubling SIZE TIMES, or tuples 2|3|4|5|6 ENTRIES TIMES, or copy|keep context|branch ENTRIES TIMES"
        );
    };
    let count = count_of(&rt, rt.alloc(), &call)?;
    println!(rt; "{count}")?;
    Ok(())
}
