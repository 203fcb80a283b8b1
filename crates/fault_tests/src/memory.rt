//! Calls that may be refused any allocation.
ghost use Rattle.std.specs.Prelude.{◌≤◌, length};
ghost use Rattle.me_io.specs.declared.source.TheConstants.{MAX_BYTES};
ghost use Rattle.tptp_cnf.specs.Plain.{IsPlain};

use crate::calls::Call;
use cnf_writer::write_problem;
use make_problem::make;
use me_io::MAX_BYTES;
use me_terms::Problem;
use problem_checks::is_plain;
use std::alloc::Global;
use std::test::Fail;
use tptp_cnf::{CnfError, read_problem};

const REFUSED: &[u8] = b"% SZS status MemoryOut for stdin
% reason memory
";

/// The words, the file, and the whole text that is due with status 0.
type Row = (&'static [&'static str], &'static [u8], &'static [u8]);

const ROWS: [Row; 4] = [
    (
        &[],
        b"cnf(c1,axiom,p(X)|q(X)). cnf(c2,axiom,~p(a)). cnf(c3,axiom,~q(b)).",
        b"% SZS status Satisfiable for stdin
% SZS output start Model for stdin
% default false
cnf(e1,plain,~p(a),universal).
cnf(e2,plain,q(a),universal).
cnf(e3,plain,~q(b),universal).
cnf(e4,plain,p(b),universal).
cnf(e5,plain,p(X0),parametric).
% SZS output end Model for stdin
",
    ),
    (
        &[],
        b"cnf(c1,axiom,p(X,Y)|q(X,Y)). cnf(c2,axiom,~p(X,X)|s). cnf(c3,axiom,~q(X,X)|s). cnf(c4,axiom,~s|t). cnf(c5,axiom,~s|~t).",
        b"% SZS status Unsatisfiable for stdin
% SZS output start Refutation for stdin
cnf(i1,plain,~s | ~t,instance(5,c5)).
cnf(i2,plain,~p(c0,c0) | s,instance(2,c2)).
cnf(i3,plain,~s | t,instance(4,c4)).
cnf(i4,plain,~q(c0,c0) | s,instance(3,c3)).
cnf(i5,plain,p(c0,c0) | q(c0,c0),instance(1,c1)).
% SZS output end Refutation for stdin
",
    ),
    (
        &["--depth", "3"],
        b"cnf(c1,axiom,p(a)). cnf(c2,axiom,~p(X)|p(f(X))). cnf(c3,axiom,~p(f(f(a)))).",
        b"% SZS status Unsatisfiable for stdin
% SZS output start Refutation for stdin
cnf(i1,plain,~p(f(f(a))),instance(3,c3)).
cnf(i2,plain,~p(f(a)) | p(f(f(a))),instance(2,c2)).
cnf(i3,plain,~p(a) | p(f(a)),instance(2,c2)).
cnf(i4,plain,p(a),instance(1,c1)).
% SZS output end Refutation for stdin
",
    ),
    (
        &["--workers", "2"],
        b"cnf(c1,axiom,p|q). cnf(c2,axiom,p|~q). cnf(c3,axiom,~p|q). cnf(c4,axiom,~p|~q).",
        b"% SZS status Unsatisfiable for stdin
% SZS output start Refutation for stdin
cnf(i1,plain,~p | ~q,instance(4,c4)).
cnf(i2,plain,~p | q,instance(3,c3)).
cnf(i3,plain,p | ~q,instance(2,c2)).
cnf(i4,plain,p | q,instance(1,c1)).
% SZS output end Refutation for stdin
",
    ),
];

/// Whether a call with this text ends in a way that it may: by it, by want of memory, or by a front of it where
/// the sink failed.
fn is_allowed(status: u8, written: &[u8], text: &[u8]) -> bool {
    match status {
        0 => written == text,
        6 => written.len() < text.len() && text.starts_with(written),
        7 => written == REFUSED,
        _ => false,
    }
}

/// Whether a problem is written as it was read, if memory suffices.
fn is_read_back(alloc: Global, text: &[u8]) -> bool
    requires { length text.now ≤ MAX_BYTES }
{
    match read_problem(alloc, text) {
        Ok(problem) => is_plain(&problem) && is_written_as(alloc, &problem, text),
        Err(error) => matches!(error, CnfError::Memory),
    }
}

fn is_written_as(alloc: Global, problem: &Problem, text: &[u8]) -> bool
    requires { IsPlain problem.now }
{
    match write_problem(alloc, problem) {
        Ok(again) => again.as_slice() == text,
        Err(_) => true,
    }
}

#[test]
fn each_call_answers_or_says_that_memory_is_out(rt: HostRuntime) -> Result<(), Fail> {
    let alloc = rt.alloc();
    for (words, file, text) in &ROWS {
        // (where the test itself gets no memory, nothing was called)
        let call = Call {
            words,
            file,
            failing_read: 0,
            failing_write: 0,
        };
        if let Ok((status, sink)) = call.made(&rt, alloc) {
            let written = sink.bytes().as_slice();
            assert!(rt; is_allowed(status, written, text));
        }
    }
    Ok(())
}

#[test]
fn a_made_problem_is_read_back_or_memory_is_out(rt: HostRuntime) -> Result<(), Fail> {
    let alloc = rt.alloc();
    let Ok(made) = make(alloc, 7, 30, 100) else {
        return Ok(());
    };
    let Ok(text) = write_problem(alloc, &made) else {
        return Ok(());
    };
    assert!(rt; text.len() <= MAX_BYTES && is_read_back(alloc, &text));
    Ok(())
}
