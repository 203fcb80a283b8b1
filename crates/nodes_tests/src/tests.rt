//! Each script against the texts that are due.
use crate::rows::ROWS;
use crate::script::{Stuck, run, step};
use branch_roots::{LentNodes, Roots};
use context_nodes::Nodes;
use me_context::Context;
use me_terms::{Problem, Start, Trunk};
use std::alloc::Global;
use std::sync::Wait;
use std::test::Fail;
use std::thread;
use std::thread::Threads;
use tptp_cnf::read_problem;

impl From<Stuck> for Fail {
    fn from(stuck: Stuck) -> Self {
        Fail::from(stuck.0)
    }
}

fn read(alloc: Global, script: &[u8]) -> Result<Problem, Stuck> {
    if script.len() > 10_000 {
        return Err(Stuck("too long for a script"));
    }
    read_problem(alloc, script).ok().ok_or(Stuck("no script"))
}

/// What the first branch and its copy print, whose calls are made in turn.
fn printed_in_turn<T: Trunk>(
    alloc: Global,
    script: &Problem,
    root: T,
) -> Result<(Vec<u8>, Vec<u8>), Stuck> {
    let mut first = root;
    run(alloc, script, b'a', &mut first)?;
    let mut copy = first.again(alloc)?;
    let mut of_first = Vec::new(alloc);
    let mut of_copy = Vec::new(alloc);
    for clause in script.clauses.as_slice() {
        let signature = &script.signature;
        step(alloc, signature, clause, b'b', &mut first, &mut of_first)?;
        step(alloc, signature, clause, b'c', &mut copy, &mut of_copy)?;
    }
    Ok((of_first, of_copy))
}

#[test]
fn copies_stand_apart(rt: HostRuntime) -> Result<(), Fail> {
    let alloc = rt.alloc();
    let nodes = Nodes::new(alloc)?;
    for row in ROWS {
        let script = read(alloc, row.script)?;
        let owned = Context::new(alloc, Start::Negative)?;
        let (first, copy) = printed_in_turn(alloc, &script, owned)?;
        assert_eq!(rt; first.as_slice(), row.first);
        assert_eq!(rt; copy.as_slice(), row.copy);
        let lent = nodes.root(&rt, alloc, Start::Negative)?;
        let (first, copy) = printed_in_turn(alloc, &script, lent)?;
        assert_eq!(rt; first.as_slice(), row.first);
        assert_eq!(rt; copy.as_slice(), row.copy);
    }
    Ok(())
}

/// What a script prints on the branch. A thread reads the script itself, so it shares bytes alone.
fn printed<T: Trunk>(
    alloc: Global,
    script: &[u8],
    letter: u8,
    branch: T,
) -> Result<Vec<u8>, Stuck> {
    let script = read(alloc, script)?;
    let mut branch = branch;
    run(alloc, &script, letter, &mut branch)
}

/// What the first branch and its copy print, each on a thread of its own.
fn printed_at_once<R: Threads + Sync, T: Trunk + Send>(
    rt: &R,
    alloc: Global,
    script: &[u8],
    first: T,
    copy: T,
) -> (Result<Vec<u8>, Stuck>, Result<Vec<u8>, Stuck>) {
    thread::join(
        rt,
        move || printed(alloc, script, b'b', first),
        move || printed(alloc, script, b'c', copy),
    )
}

/// The same of a branch that begins at these roots, and grows before it is copied.
fn printed_from<R: Threads + Sync, N: Roots>(
    rt: &R,
    alloc: Global,
    script: &[u8],
    roots: &N,
) -> Result<(Vec<u8>, Vec<u8>), Stuck> {
    let calls = read(alloc, script)?;
    let mut first = roots.root(alloc, Start::Negative)?;
    run(alloc, &calls, b'a', &mut first)?;
    let copy = first.again(alloc)?;
    let (first, copy) = printed_at_once(rt, alloc, script, first, copy);
    Ok((first?, copy?))
}

/// The same over a table. In a function of few types the check finds that the branches may go to other threads.
fn printed_over<R: Threads + Wait + Sync>(
    rt: &R,
    alloc: Global,
    script: &[u8],
    nodes: &Nodes,
) -> Result<(Vec<u8>, Vec<u8>), Stuck> {
    let roots = LentNodes::new(rt, nodes);
    printed_from(rt, alloc, script, &roots)
}

#[test]
fn branches_grow_on_two_threads(rt: HostRuntime) -> Result<(), Fail> {
    let alloc = rt.alloc();
    let nodes = Nodes::new(alloc)?;
    for row in ROWS {
        let (first, copy) = printed_over(&rt, alloc, row.script, &nodes)?;
        assert_eq!(rt; first.as_slice(), row.first);
        assert_eq!(rt; copy.as_slice(), row.copy);
    }
    Ok(())
}
