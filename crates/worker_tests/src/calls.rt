//! Calls of the program with many workers: what is written, and who met at the gate.
use crate::gates::{Holding, Place};
use darwin_cli::run;
use me_io::{MemSink, MemSource};
use std::alloc::{AllocError, Global};
use std::sync::Wait;
use std::test::Fail;
use std::thread::Threads;
use steal_pool::Moment;

const CONTRADICTION: &[u8] = b"cnf(a,axiom,p). cnf(b,negated_conjecture,~p).";

const REFUTATION: &[u8] = b"% SZS status Unsatisfiable for stdin
% SZS output start Refutation for stdin
cnf(i1,plain,~p,instance(2,b)).
cnf(i2,plain,p,instance(1,a)).
% SZS output end Refutation for stdin
";

const CHOICE: &[u8] = b"cnf(a,axiom,p|q).";

const MODEL_OF_P: &[u8] = b"% SZS status Satisfiable for stdin
% SZS output start Model for stdin
% default false
cnf(e1,plain,p,universal).
% SZS output end Model for stdin
";

/// The right child of the root.
const RIGHT: u32 = 3;

/// A call, the place where a worker is held, the place that it waits for, what is written, how many come to the
/// gate, and how many were held until another one came.
struct Call {
    file: &'static [u8],
    workers: &'static str,
    held: Place,
    awaited: Place,
    written: &'static [u8],
    calls: u64,
    met: u64,
}

const CALLS: [Call; 3] = [
    // One worker is this thread alone, and comes to no gate.
    Call {
        file: CONTRADICTION,
        workers: "1",
        held: (Moment::Begin, 1),
        awaited: (Moment::Begin, 1),
        written: REFUTATION,
        calls: 0,
        met: 0,
    },
    // The right branch is exhausted first, and the left one is answered.
    Call {
        file: CHOICE,
        workers: "4",
        held: (Moment::Given, RIGHT),
        awaited: (Moment::Done, RIGHT),
        written: MODEL_OF_P,
        calls: 5,
        met: 1,
    },
    // Another worker takes what the first one gave away.
    Call {
        file: CHOICE,
        workers: "2",
        held: (Moment::Given, RIGHT),
        awaited: (Moment::Begin, RIGHT),
        written: MODEL_OF_P,
        calls: 5,
        met: 1,
    },
];

/// The program's name, and the words after it.
fn words(alloc: Global, more: &[&str]) -> Result<Vec<String>, AllocError> {
    let mut words = Vec::new(alloc);
    words.push(String::from_str(alloc, "darwin")?)?;
    for word in more {
        words.push(String::from_str(alloc, word)?)?;
    }
    Ok(words)
}

/// What a call with these words writes of the file, and its status.
fn written<R: Threads + Wait + Sync>(
    rt: &R,
    alloc: Global,
    words: &Vec<String>,
    file: &[u8],
    gate: &Holding,
) -> Result<(u8, Vec<u8>), AllocError> {
    let mut source = MemSource::new(file.to_vec(alloc)?, 1_000, Vec::new(alloc));
    let mut sink = MemSink::new(alloc, 1_000, Vec::new(alloc));
    let status = run(rt, alloc, words, &mut source, &mut sink, gate);
    Ok((status, sink.bytes().as_slice().to_vec(alloc)?))
}

#[test]
fn workers_meet_and_the_answer_stays(rt: HostRuntime) -> Result<(), Fail> {
    let alloc = rt.alloc();
    for call in &CALLS {
        let gate = Holding::new(call.held, call.awaited);
        let words = words(alloc, &["--workers", call.workers])?;
        let (status, text) = written(&rt, alloc, &words, call.file, &gate)?;
        assert_eq!(rt; (status, text.as_slice()), (0, call.written));
        assert_eq!(rt; (gate.calls(), gate.met()), (call.calls, call.met));
    }
    Ok(())
}

#[test]
fn a_made_problem_is_the_same_for_eight_workers(rt: HostRuntime) -> Result<(), Fail> {
    let alloc = rt.alloc();
    let gate = Holding::new((Moment::Begin, 0), (Moment::Begin, 0));
    let one = words(
        alloc,
        &["--make", "7", "--literals", "25", "--workers", "1"],
    )?;
    let many = words(
        alloc,
        &["--make", "7", "--literals", "25", "--workers", "8"],
    )?;
    let (status, text) = written(&rt, alloc, &one, b"", &gate)?;
    let (other_status, other) = written(&rt, alloc, &many, b"", &gate)?;
    assert_eq!(rt; (status, text.as_slice()), (0, other.as_slice()));
    assert!(rt; other_status == 0 && gate.calls() > 0 && text.len() > 0);
    Ok(())
}
