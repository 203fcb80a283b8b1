//! Pools of several sizes over trees of several shapes.
ghost use Rattle.std.specs.Prelude.{IfOk};
ghost use Rattle.me_terms.specs.Validity.{IsLawful, IsValid};

use crate::codes::{codes_of, gifts_of};
use crate::explorer::Explorer;
use crate::gates::{Log, UntilStolen};
use crate::rows::{FIRST, FULL, ROWS, Row};
use branch_core::Records;
use me_terms::{Bounds, Problem, Start};
use std::alloc::Global;
use std::sync::Wait;
use std::test::Fail;
use std::thread::Threads;
use steal_pool::{Explored, Gate, explore_all};
use tptp_cnf::read_problem;

fn bounds() -> Bounds
    ensures { IsLawful result }
{
    Bounds {
        depth: 3,
        weight: 9,
        literals: 99,
        list: 999,
        start: Start::Negative,
    }
}

/// The problem that the text means.
fn read(alloc: Global, text: &[u8]) -> Result<Problem, Fail>
    ensures { IfOk result IsValid }
{
    if text.len() > 67_108_864 {
        return Err(Fail::from("too long"));
    }
    match read_problem(alloc, text) {
        Ok(problem) => Ok(problem),
        Err(_) => Err(Fail::from("refused")),
    }
}

/// What so many workers find in the tree of the text's problem.
fn explored<R: Threads + Wait + Sync, G: Gate>(
    rt: &R,
    alloc: Global,
    text: &[u8],
    workers: u32,
    share: u32,
    gate: &G,
) -> Result<Explored, Fail> {
    if workers == 0 || workers > 64 || share > 16 {
        return Err(Fail::from("out of range"));
    }
    let problem = read(alloc, text)?;
    let bounds = bounds();
    let explorer = Explorer::new(&problem, &bounds, share);
    match explore_all(rt, alloc, workers, share, &explorer, gate) {
        Ok(explored) => Ok(explored),
        Err(_) => Err(Fail::from("want of memory")),
    }
}

/// Whether these portions, and no other, have a record, and were begun, given away and done in order, each
/// once.
fn is_each_once(records: &Records, log: &Log, portions: u64) -> bool {
    codes_of(records) == Some(portions)
        && gifts_of(records) == Some(portions)
        && log.begun.all() == portions
        && log.given.all() | 2 == portions
        && log.done.all() == portions
        && log.wrong() == 0
}

/// Whether each portion of a row's tree is walked once.
fn is_walked<R: Threads + Wait + Sync>(rt: &R, alloc: Global, row: Row) -> Result<bool, Fail> {
    let (tree, workers, share, portions) = row;
    let log = Log::new();
    let explored = explored(rt, alloc, tree, workers, share, &log)?;
    Ok(is_each_once(&explored.records, &log, portions))
}

#[test]
fn each_portion_is_walked_once(rt: HostRuntime) -> Result<(), Fail> {
    for (k, row) in ROWS.iter().enumerate() {
        assert!(rt; is_walked(&rt, rt.alloc(), *row)?, "row {k}");
    }
    Ok(())
}

#[test]
fn a_work_is_stolen(rt: HostRuntime) -> Result<(), Fail> {
    let gate = UntilStolen::new();
    let explored = explored(&rt, rt.alloc(), FULL, 2, 1, &gate)?;
    assert!(rt; codes_of(&explored.records) == Some(FIRST));
    assert!(rt; gate.stolen.has(3));
    Ok(())
}
