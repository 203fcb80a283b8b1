//! A pool, where one worker drops a node for what another one found.
ghost use Rattle.std.specs.Prelude.{IfOk};
ghost use Rattle.me_terms.specs.Validity.{IsLawful, IsValid};

use crate::gates::Holding;
use branch_core::{Part, Record, code_of};
use darwin_solve::explore_pool;
use me_terms::{Bounds, Entries, Entry, Pattern, Problem, Start};
use std::alloc::Global;
use std::test::Fail;
use steal_pool::Moment;
use tptp_cnf::read_problem;

/// The search tree is one Split, at p, with two exhausted leaves.
const CHOICE: &[u8] = b"cnf(a,axiom,p|q).";

const ROOT: u32 = 1;

const RIGHT: u32 = 3;

fn bounds() -> Bounds
    ensures { IsLawful result }
{
    Bounds {
        depth: 6,
        weight: 1_000,
        literals: 2_000,
        list: 10_000_000,
        start: Start::Negative,
    }
}

/// The problem that the text means.
fn read(alloc: Global, text: &[u8]) -> Result<Problem, Fail>
    ensures { IfOk result IsValid }
{
    if text.len() > 67_108_864 {
        return Err(Fail::from("too long"));
    }
    match read_problem(alloc, text) {
        Ok(problem) => Ok(problem),
        Err(_) => Err(Fail::from("refused")),
    }
}

/// Whether the context is the pseudo-literal and the literal p.
fn has_p_alone(context: &Entries) -> bool {
    match context.get(1) {
        Some(entry) => context.len() == 2 && is_p(entry),
        None => false,
    }
}

fn is_p(entry: &Entry) -> bool {
    entry.positive && matches!(&entry.atom, Pattern::Of(atom) if atom.pred == 0)
}

/// Whether the record's parts are the model of p and the right child that was given away.
fn is_of_root(record: &Record) -> bool {
    match record.parts.as_slice() {
        [Part::Sat { context }, Part::Gift { path }] => {
            has_p_alone(context) && code_of(*path) == RIGHT
        }
        _ => false,
    }
}

/// Whether the record's one part is a node that was dropped for the key 0.
fn is_dropped(record: &Record) -> bool {
    matches!(record.parts.as_slice(), [Part::Cut { key: 0 }])
}

#[test]
fn a_node_is_dropped(rt: HostRuntime) -> Result<(), Fail> {
    let alloc = rt.alloc();
    let problem = read(alloc, CHOICE)?;
    let bounds = bounds();
    let gate = Holding::new((Moment::Begin, RIGHT), (Moment::Done, ROOT));
    let records = explore_pool(&rt, alloc, &problem, &bounds, 2, 1, &gate)?;
    assert_eq!(rt; (records.len(), gate.met()), (2, 1));
    for record in records.as_slice() {
        let is_right = match code_of(record.path) {
            ROOT => is_of_root(record),
            RIGHT => is_dropped(record),
            _ => false,
        };
        assert!(rt; is_right);
    }
    Ok(())
}
