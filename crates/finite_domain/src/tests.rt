//! Problems, and the files that mean what they are flattened to.
use crate::{MAX_SIZE, flatten, is_small};
use me_terms::{Clause, Problem, Signature};
use std::process::Abort;
use std::test::Fail;
use tptp_cnf::read_problem;

/// A problem, a number of elements, and a file that means the flattened problem.
const FLATTENED: &[(&[u8], u32, &[u8])] = &[
    (
        b"cnf(a,axiom,p(a)). cnf(b,axiom,~p(b)).",
        2,
        b"cnf(m1,plain,f0(d1)|f0(d2)).
cnf(m2,plain,f1(d1)|f1(d2)).
cnf(m3,plain,~f0(X)|q0(X)).
cnf(m4,plain,~f1(X)|~q0(X)).",
    ),
    // A term that stands first comes first.
    (
        b"cnf(a,axiom,p(a)|q(f(a))).",
        1,
        b"cnf(m1,plain,f0(d1)).
cnf(m2,plain,f1(X,d1)).
cnf(m3,plain,~f0(X)|~f1(X,Y)|q0(X)|q1(Y)).",
    ),
    // A term comes before its arguments.
    (
        b"cnf(a,axiom,p(f(a))).",
        1,
        b"cnf(m1,plain,f0(X,d1)).
cnf(m2,plain,f1(d1)).
cnf(m3,plain,~f0(A,F)|~f1(A)|q0(F)).",
    ),
    // Equal terms have one variable, and variables are numbered by first occurrence.
    (
        b"cnf(a,axiom,~e(X,f(Y))|e(f(Y),X)|p(f(f(Y)),Y)).",
        1,
        b"cnf(m1,plain,f0(X,d1)).
cnf(m2,plain,f1(d1)).
cnf(m3,plain,~f0(Y,F)|~f0(F,G)|~q0(X,F)|q0(F,X)|q1(G,Y)).",
    ),
    // Where there is no constant, c0 is one.
    (
        b"cnf(a,axiom,p).",
        3,
        b"cnf(m1,plain,f0(d1)|f0(d2)|f0(d3)).
cnf(m2,plain,q0).",
    ),
    (
        b"cnf(a,axiom,$false). cnf(b,axiom,p(g(X,Y,k))).",
        2,
        b"cnf(m1,plain,f0(X,Y,Z,d1)|f0(X,Y,Z,d2)).
cnf(m2,plain,f1(d1)|f1(d2)).
cnf(m3,plain,$false).
cnf(m4,plain,~f0(X,Y,K,G)|~f1(K)|q0(G)).",
    ),
];

fn are_same_symbols(a: &Signature, b: &Signature) -> bool {
    if a.fun_count() != b.fun_count() || a.pred_count() != b.pred_count() {
        return false;
    }
    for f in 0..a.fun_count() {
        match (a.fun(f), b.fun(f)) {
            (Some(mine), Some(theirs)) if *mine == *theirs => {}
            _ => return false,
        }
    }
    for p in 0..a.pred_count() {
        match (a.pred(p), b.pred(p)) {
            (Some(mine), Some(theirs)) if *mine == *theirs => {}
            _ => return false,
        }
    }
    true
}

fn is_same_clause(a: &Clause, b: &Clause) -> bool {
    a.number == b.number && a.label == b.label && a.literals == b.literals
}

fn are_same_clauses(a: &[Clause], b: &[Clause]) -> bool {
    if a.len() != b.len() {
        return false;
    }
    for k in 0..a.len().min(b.len()) {
        if !is_same_clause(&a[k], &b[k]) {
            return false;
        }
    }
    true
}

fn is_same(a: &Problem, b: &Problem) -> bool {
    are_same_clauses(a.clauses.as_slice(), b.clauses.as_slice())
        && are_same_symbols(&a.signature, &b.signature)
        && a.c0 == b.c0
}

#[test]
fn flattens(rt: HostRuntime) {
    for (k, (file, n, flat)) in FLATTENED.iter().enumerate() {
        assert!(rt; 1 <= *n && *n <= MAX_SIZE && file.len() < 1000 && flat.len() < 1000);
        let Ok(problem) = read_problem(rt.alloc(), file) else {
            panic!(rt; "the problem of row {k} is not read");
        };
        let Ok(wanted) = read_problem(rt.alloc(), flat) else {
            panic!(rt; "the file of row {k} is not read");
        };
        assert!(rt; is_small(&problem));
        let Ok(made) = flatten(rt.alloc(), &problem, *n) else {
            panic!(rt; "row {k} needs more memory");
        };
        assert!(rt; is_same(&made, &wanted), "row {k}");
    }
}
