//! Inputs with an answer, and what is said of each.
use answer_check::run_check;
use me_io::{MemSink, MemSource};
use std::alloc::{AllocError, Global};
use std::test::Fail;

/// A problem with the answer behind it, what is written, and the status.
struct Row {
    input: &'static [u8],
    written: &'static [u8],
    status: u8,
}

const ROWS: &[Row] = &[
    // A refutation, and one of which a line is missing.
    Row {
        input: b"cnf(a,axiom,p). cnf(b,negated_conjecture,~p).
% ANSWER
% SZS status Unsatisfiable for contradiction
% SZS output start Refutation for contradiction
cnf(i1,plain,~p,instance(2,b)).
cnf(i2,plain,p,instance(1,a)).
% SZS output end Refutation for contradiction
",
        written: b"% check yes refutation\n",
        status: 0,
    },
    Row {
        input: b"cnf(a,axiom,p). cnf(b,negated_conjecture,~p).
% ANSWER
% SZS status Unsatisfiable for contradiction
% SZS output start Refutation for contradiction
cnf(i1,plain,~p,instance(2,b)).
% SZS output end Refutation for contradiction
",
        written: b"% check no assignment\n",
        status: 8,
    },
    // The atoms that are true, each once, in the order of the lines.
    Row {
        input: b"cnf(a,axiom,p(X)|q(X)). cnf(b,axiom,p(a)). cnf(c,axiom,q(b)).
% ANSWER
% SZS status Unsatisfiable for f
% SZS output start Refutation for f
cnf(i1,plain,q(b),instance(3,c)).
cnf(i2,plain,p(a),instance(2,b)).
cnf(i3,plain,p(b) | q(b),instance(1,a)).
% SZS output end Refutation for f
",
        written: b"% check no assignment\n% true q(b)\n% true p(a)\n",
        status: 8,
    },
    // A number and a label of two clauses.
    Row {
        input: b"cnf(a,axiom,p). cnf(b,negated_conjecture,~p).
% ANSWER
% SZS status Unsatisfiable for contradiction
% SZS output start Refutation for contradiction
cnf(i1,plain,~p,instance(2,a)).
cnf(i2,plain,p,instance(1,a)).
% SZS output end Refutation for contradiction
",
        written: b"% check no line 1\n",
        status: 8,
    },
    // A literal of another sign, one fewer, one more, another instance in a second literal, a variable, a
    // function that the problem has not, and a formula that is left out.
    Row {
        input: b"cnf(a,axiom,p(X)|q(X)). cnf(b,axiom,$true). cnf(c,axiom,r(a,b)).
% ANSWER
% SZS status Unsatisfiable for f
% SZS output start Refutation for f
cnf(i1,plain,p(a) | q(a),instance(1,a)).
cnf(i2,plain,~p(a) | q(a),instance(1,a)).
% SZS output end Refutation for f
",
        written: b"% check no line 2\n",
        status: 8,
    },
    Row {
        input: b"cnf(a,axiom,p(X)|q(X)). cnf(b,axiom,$true). cnf(c,axiom,r(a,b)).
% ANSWER
% SZS status Unsatisfiable for f
% SZS output start Refutation for f
cnf(i1,plain,r(a,b),instance(3,c)).
cnf(i2,plain,p(a),instance(1,a)).
% SZS output end Refutation for f
",
        written: b"% check no line 2\n",
        status: 8,
    },
    Row {
        input: b"cnf(a,axiom,p(X)|q(X)). cnf(b,axiom,$true). cnf(c,axiom,r(a,b)).
% ANSWER
% SZS status Unsatisfiable for f
% SZS output start Refutation for f
cnf(i1,plain,p(a) | q(a) | q(a),instance(1,a)).
% SZS output end Refutation for f
",
        written: b"% check no line 1\n",
        status: 8,
    },
    Row {
        input: b"cnf(a,axiom,p(X)|q(X)). cnf(b,axiom,$true). cnf(c,axiom,r(a,b)).
% ANSWER
% SZS status Unsatisfiable for f
% SZS output start Refutation for f
cnf(i1,plain,p(a) | q(b),instance(1,a)).
% SZS output end Refutation for f
",
        written: b"% check no line 1\n",
        status: 8,
    },
    Row {
        input: b"cnf(a,axiom,p(X)|q(X)). cnf(b,axiom,$true). cnf(c,axiom,r(a,b)).
% ANSWER
% SZS status Unsatisfiable for f
% SZS output start Refutation for f
cnf(i1,plain,p(X0) | q(X0),instance(1,a)).
% SZS output end Refutation for f
",
        written: b"% check no line 1\n",
        status: 8,
    },
    Row {
        input: b"cnf(a,axiom,p(X)|q(X)). cnf(b,axiom,$true). cnf(c,axiom,r(a,b)).
% ANSWER
% SZS status Unsatisfiable for f
% SZS output start Refutation for f
cnf(i1,plain,p(c0) | q(c0),instance(1,a)).
% SZS output end Refutation for f
",
        written: b"% check no line 1\n",
        status: 8,
    },
    Row {
        input: b"cnf(a,axiom,p(X)|q(X)). cnf(b,axiom,$true). cnf(c,axiom,r(a,b)).
% ANSWER
% SZS status Unsatisfiable for f
% SZS output start Refutation for f
cnf(i1,plain,$false,instance(2,b)).
% SZS output end Refutation for f
",
        written: b"% check no line 1\n",
        status: 8,
    },
    // Where the file has no constant, c0 is one.
    Row {
        input: b"cnf(a,axiom,p(X)). cnf(b,axiom,~p(X)).
% ANSWER
% SZS status Unsatisfiable for f
% SZS output start Refutation for f
cnf(i1,plain,~p(c0),instance(2,b)).
cnf(i2,plain,p(c0),instance(1,a)).
% SZS output end Refutation for f
",
        written: b"% check yes refutation\n",
        status: 0,
    },
    // An empty refutation is read, and is none.
    Row {
        input: b"cnf(a,axiom,p).
% ANSWER
% SZS status Unsatisfiable for f
% SZS output start Refutation for f
% SZS output end Refutation for f
",
        written: b"% check no assignment\n",
        status: 8,
    },
    // Models.
    Row {
        input: b"cnf(a,axiom,p(X)|q(X)).
% ANSWER
% SZS status Satisfiable for f
% SZS output start Model for f
% default false
% SZS output end Model for f
",
        written: b"% check no unifier in clause 1\n",
        status: 8,
    },
    Row {
        input: b"cnf(a,axiom,p(X)|q(X)).
% ANSWER
% SZS status Satisfiable for f
% SZS output start Model for f
% default true
% SZS output end Model for f
",
        written: b"% check yes model\n",
        status: 0,
    },
    Row {
        input: b"cnf(a,axiom,p(X)|q(X)).
% ANSWER
% SZS status Satisfiable for f
% SZS output start Model for f
% default false
cnf(e3,plain,p(X0),parametric).
cnf(e7,plain,~p(f(X0)),universal).
cnf(e9,plain,q(f(X0)),universal).
% SZS output end Model for f
",
        written: b"% check yes model\n",
        status: 0,
    },
    // Lines that contradict, whose variables are not numbered by first occurrence, and that are ground and
    // parametric.
    Row {
        input: b"cnf(a,axiom,p(X)|q(X)).
% ANSWER
% SZS status Satisfiable for f
% SZS output start Model for f
% default false
cnf(e3,plain,p(X0),universal).
cnf(e7,plain,~p(a),universal).
% SZS output end Model for f
",
        written: b"% check no line 7\n",
        status: 8,
    },
    Row {
        input: b"cnf(a,axiom,p(X)|q(X)).
% ANSWER
% SZS status Satisfiable for f
% SZS output start Model for f
% default false
cnf(e3,plain,p(X1),universal).
% SZS output end Model for f
",
        written: b"% check no line 3\n",
        status: 8,
    },
    Row {
        input: b"cnf(a,axiom,p(X)|q(X)).
% ANSWER
% SZS status Satisfiable for f
% SZS output start Model for f
% default false
cnf(e4,plain,p(a),parametric).
% SZS output end Model for f
",
        written: b"% check no line 4\n",
        status: 8,
    },
    // Nothing is claimed.
    Row {
        input: b"cnf(a,axiom,p).\n% ANSWER\n% SZS status GaveUp for f\n% reason depth\n",
        written: b"% check none\n",
        status: 10,
    },
    // No answer, no line of one, and a mark that no line feed ends.
    Row {
        input: b"cnf(a,axiom,p). cnf(b,negated_conjecture,~p).",
        written: b"% check answer line 1\n",
        status: 9,
    },
    Row {
        input: b"cnf(a,axiom,p).\n% ANSWER",
        written: b"% check answer line 1\n",
        status: 9,
    },
    Row {
        input: b"",
        written: b"% check answer line 1\n",
        status: 9,
    },
    Row {
        input: b"cnf(a,axiom,p).
% ANSWER
% SZS status Satisfiable for f
% SZS output start Model for f
% ANSWER
",
        written: b"% check answer line 3\n",
        status: 9,
    },
    // A mark is a line that is exactly this one, also in a comment.
    Row {
        input: b"cnf(a,axiom,p).\n% ANSWER \n%ANSWER\n % ANSWER\n% ANSWER\r\n",
        written: b"% check answer line 1\n",
        status: 9,
    },
    Row {
        input: b"cnf(a,axiom,p). /*\n% ANSWER\n*/ cnf(",
        written: b"% SZS status SyntaxError for stdin\n% reason syntax at 16\n",
        status: 2,
    },
    // A problem that is refused.
    Row {
        input: b"cnf(a,axiom,a=b).\n% ANSWER\n% SZS status GaveUp for f\n% reason depth\n",
        written: b"% SZS status Inappropriate for stdin\n% reason equality at 13\n",
        status: 3,
    },
];

/// As many words as that.
fn words(alloc: Global, count: u32) -> Result<Vec<String>, AllocError> {
    let mut words = Vec::new(alloc);
    for _ in 0..count {
        words.push(String::from_str(alloc, "darwin_check")?)?;
    }
    Ok(words)
}

/// What a call with so many words writes of the input, and its status.
fn written(alloc: Global, count: u32, input: &[u8]) -> Result<(u8, Vec<u8>), AllocError> {
    let words = words(alloc, count)?;
    let mut source = MemSource::new(input.to_vec(alloc)?, 1_000, Vec::new(alloc));
    let mut sink = MemSink::new(alloc, 1_000, Vec::new(alloc));
    let status = run_check(alloc, &words, &mut source, &mut sink);
    Ok((status, sink.bytes().as_slice().to_vec(alloc)?))
}

#[test]
fn each_row_is_answered(rt: HostRuntime) -> Result<(), Fail> {
    let alloc = rt.alloc();
    for row in ROWS {
        let (status, text) = written(alloc, 1, row.input)?;
        assert_eq!(rt; (status, text.as_slice()), (row.status, row.written));
    }
    Ok(())
}

#[test]
fn other_words_are_refused(rt: HostRuntime) -> Result<(), Fail> {
    let alloc = rt.alloc();
    for count in 0..2_u32 {
        let (status, text) = written(alloc, 2 * count, b"")?;
        assert_eq!(rt;
            (status, text.as_slice()),
            (
                1,
                b"% SZS status UsageError for stdin\n% reason words\n".as_slice()
            )
        );
    }
    Ok(())
}
