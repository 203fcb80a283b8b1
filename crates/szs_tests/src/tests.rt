//! Texts and what is read from them.
use crate::said::{said_of, said_of_atom};
use std::process::Abort;
use std::test::Fail;

/// Answers, and texts that are none, with what is said of each.
const ANSWERS: &[(&[u8], &[u8])] = &[
    // Whole answers.
    (
        b"% SZS status Unsatisfiable for contradiction
% SZS output start Refutation for contradiction
cnf(i1,plain,~p,instance(2,b)).
cnf(i2,plain,p,instance(1,a)).
% SZS output end Refutation for contradiction
",
        b"refuted\n2 b ~p\n1 a p\n",
    ),
    (
        b"% SZS status Unsatisfiable for f
% SZS output start Refutation for f
cnf(i1,plain,'P'(f(a,\"a\"),X0) | ~q(f(g(a),b)) | q,instance(1048576,007)).
cnf(i2,plain,$false,instance(3,'it\\'s')).
% SZS output end Refutation for f
",
        b"refuted\n1048576 007 'P'(f(a,\"a\"),X0) | ~q(f(g(a),b)) | q\n3 'it\\'s' $false\n",
    ),
    (
        b"% SZS status Unsatisfiable for f
% SZS output start Refutation for f
% SZS output end Refutation for f
",
        b"refuted\n",
    ),
    (
        b"% SZS status Satisfiable for f
% SZS output start Model for f
% default false
cnf(e1,plain,p(a,X0),parametric).
cnf(e65534,plain,~p(X4294967295,b),universal).
% SZS output end Model for f
",
        b"model false\n1 parametric p(a,X0)\n65534 universal ~p(X4294967295,b)\n",
    ),
    (
        b"% SZS status Satisfiable for f
% SZS output start Model for f
% default true
% SZS output end Model for f
",
        b"model true\n",
    ),
    (
        b"% SZS status GaveUp for f\n% reason depth\n",
        b"open depth\n",
    ),
    (
        b"% SZS status GaveUp for f\n% reason weight\n",
        b"open weight\n",
    ),
    (
        b"% SZS status GaveUp for f\n% reason literals\n",
        b"open literals\n",
    ),
    (
        b"% SZS status GaveUp for f\n% reason list\n",
        b"open list\n",
    ),
    // The first line.
    (b"", b"line 1"),
    (b"\n", b"line 1"),
    (b"% SZS status GaveUp for f", b"line 1"),
    (b"% SZS status GaveUp for \n", b"line 1"),
    (b"% SZS status GaveUp for a b\n", b"line 1"),
    (b"% SZS status Theorem for f\n", b"line 1"),
    // Too few lines, and too many.
    (b"% SZS status GaveUp for f\n", b"line 2"),
    (b"% SZS status GaveUp for f\n% reason time\n", b"line 2"),
    (b"% SZS status GaveUp for f\n% reason list", b"line 2"),
    (b"% SZS status GaveUp for f\n% reason list\n\n", b"line 3"),
    (b"% SZS status GaveUp for f\n% reason list\n% ", b"line 3"),
    // Another name.
    (
        b"% SZS status Unsatisfiable for f\n% SZS output start Refutation for g\n",
        b"line 2",
    ),
    (
        b"% SZS status Unsatisfiable for f
% SZS output start Refutation for f
% SZS output end Refutation for g
",
        b"line 3",
    ),
    // Without a default line.
    (
        b"% SZS status Satisfiable for f
% SZS output start Model for f
cnf(e1,plain,p,universal).
",
        b"line 3",
    ),
];

/// Lines behind the first two of a refutation, each with whether it can be the third.
const INSTANCES: &[(&[u8], bool)] = &[
    (b"cnf(i1,plain,p,instance(1,a)).", true),
    (b"cnf(i2,plain,p,instance(1,a)).", false),
    (b"cnf(i01,plain,p,instance(1,a)).", false),
    (b"cnf(e1,plain,p,instance(1,a)).", false),
    (b"cnf(i1,axiom,p,instance(1,a)).", false),
    (b"cnf(i1,plain,p,instance(0,a)).", false),
    (b"cnf(i1,plain,p,instance(1048577,a)).", false),
    (b"cnf(i1,plain,p,instance(01,a)).", false),
    (b"cnf(i1,plain,p,instance(1,A)).", false),
    (b"cnf(i1,plain,p,instance(1,\"a\")).", false),
    (b"cnf(i1,plain,p,instance(1,'a')).", false),
    (b"cnf(i1,plain,p,instance(1,'A')).", true),
    (b"cnf(i1,plain,p,instance(1,'')).", false),
    (b"cnf(i1,plain,p,instance(1,a)). ", false),
    (b"cnf(i1,plain,p,instance(1,a)).\r", false),
    (b"cnf(i1,plain, p,instance(1,a)).", false),
    (b"cnf(i1,plain,/**/p,instance(1,a)).", false),
    (b"cnf(i1,plain,p|q,instance(1,a)).", false),
    (b"cnf(i1,plain,p | q,instance(1,a)).", true),
    (b"cnf(i1,plain,p | ,instance(1,a)).", false),
    (b"cnf(i1,plain,$false | p,instance(1,a)).", false),
    (b"cnf(i1,plain,$true,instance(1,a)).", false),
    (b"cnf(i1,plain,~~p,instance(1,a)).", false),
    (b"cnf(i1,plain,~(p),instance(1,a)).", false),
    (b"cnf(i1,plain,(p),instance(1,a)).", false),
    (b"cnf(i1,plain,p(),instance(1,a)).", false),
    (b"cnf(i1,plain,p(a,instance(1,a)).", false),
    (b"cnf(i1,plain,p(a)),instance(1,a)).", false),
    (b"cnf(i1,plain,p(a b),instance(1,a)).", false),
    (b"cnf(i1,plain,p(a)(b),instance(1,a)).", false),
    (b"cnf(i1,plain,p(X),instance(1,a)).", false),
    (b"cnf(i1,plain,p(X00),instance(1,a)).", false),
    (b"cnf(i1,plain,p(X4294967296),instance(1,a)).", false),
    (b"cnf(i1,plain,p(1),instance(1,a)).", false),
    (b"cnf(i1,plain,p(\"a\"(b)),instance(1,a)).", false),
    (b"cnf(i1,plain,\"a\",instance(1,a)).", false),
    (b"cnf(i1,plain,X0,instance(1,a)).", false),
    (b"cnf(i1,plain,a = b,instance(1,a)).", false),
    (b"cnf(i1,plain,p,instance(1,a)", false),
    (b"cnf(i1,plain,p,instance(1", false),
    (b"cnf(i1,plain,p", false),
    (b"cnf(i1", false),
    (b"", false),
];

/// Texts as atoms, with their own text and the number of functions, or none.
const ATOMS: &[(&[u8], &[u8])] = &[
    (b"p", b"p 0"),
    (b"p(f(X0,a),f(X0,a))", b"p(f(X0,a),f(X0,a)) 2"),
    (b"'P'(\"d\",f,f(f))", b"'P'(\"d\",f,f(f)) 3"),
    (b"", b"none"),
    (b"~p", b"none"),
    (b"p ", b"none"),
    (b"p | q", b"none"),
    (b"p(a", b"none"),
    (b"$true", b"none"),
    (b"'p'", b"none"),
];

#[test]
fn answers_are_read(rt: HostRuntime) -> Result<(), Fail> {
    let alloc = rt.alloc();
    for (text, said) in ANSWERS {
        assert_eq!(rt; said_of(alloc, text)?.as_slice(), *said);
    }
    Ok(())
}

#[test]
fn instances_are_read(rt: HostRuntime) -> Result<(), Fail> {
    let alloc = rt.alloc();
    let head: &[u8] = b"% SZS status Unsatisfiable for f\n% SZS output start Refutation for f\n";
    for (line, is_line) in INSTANCES {
        let mut text = Vec::new(alloc);
        text.extend_from_slice(head)?;
        text.extend_from_slice(line)?;
        text.extend_from_slice(b"\n")?;
        let wanted: &[u8] = if *is_line { b"line 4" } else { b"line 3" };
        assert_eq!(rt; said_of(alloc, text.as_slice())?.as_slice(), wanted);
    }
    Ok(())
}

#[test]
fn atoms_are_read(rt: HostRuntime) -> Result<(), Fail> {
    let alloc = rt.alloc();
    for (text, said) in ATOMS {
        assert_eq!(rt; said_of_atom(alloc, text)?.as_slice(), *said);
    }
    Ok(())
}
