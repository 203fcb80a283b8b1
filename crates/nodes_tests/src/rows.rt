//! Scripts, each with what the first context and its copy print, worked out by hand from the definitions.

/// A script, and the texts that are due of the two.
pub(crate) struct Row {
    pub(crate) script: &'static [u8],
    pub(crate) first: &'static [u8],
    pub(crate) copy: &'static [u8],
}

pub(crate) const ROWS: &[Row] = &[
    // The copy grows, and the first is taken back to its start.
    Row {
        script: b"cnf(a_universal,plain,p). cnf(c_universal,plain,q). cnf(c_show,plain,$false). cnf(b_pop,plain,$false). cnf(b_show,plain,$false). cnf(b_pop,plain,$false).",
        first: b"yes;1:;no;",
        copy: b"3: 1 p 2 q;",
    },
    // The first hides what they share and shows it again, and the copy shows it all along.
    Row {
        script: b"cnf(a_universal,plain,p(a)). cnf(b_universal,plain,p(X)). cnf(c_universal,plain,~q(X)). cnf(b_show,plain,$false). cnf(b_pop,plain,$false). cnf(b_show,plain,$false). cnf(c_show,plain,$false).",
        first: b"3: 2 p(X0);yes;2: 1 p(a);",
        copy: b"3: 1 p(a) 2 ~q(X0);",
    },
    // What is hidden is copied: only the copy takes off the entry that hides.
    Row {
        script: b"cnf(a_universal,plain,p(a)). cnf(a_universal,plain,p(X)). cnf(c_pop,plain,$false). cnf(c_show,plain,$false). cnf(b_show,plain,$false).",
        first: b"3: 2 p(X0);",
        copy: b"yes;2: 1 p(a);",
    },
    // Each extends what they share, and reads its own entries.
    Row {
        script: b"cnf(a_parametric,plain,r(X)). cnf(b_universal,plain,p(a)). cnf(c_universal,plain,q(a)). cnf(b_universal,plain,p(b)). cnf(c_universal,plain,q(b)). cnf(b_universal,plain,p(c)). cnf(c_universal,plain,q(c)). cnf(b_universal,plain,~q(a)). cnf(c_universal,plain,~p(a)). cnf(b_show,plain,$false). cnf(c_show,plain,$false).",
        first: b"6: 1 r(X0) 2 p(a) 3 p(b) 4 p(c) 5 ~q(a);",
        copy: b"6: 1 r(X0) 2 q(a) 3 q(b) 4 q(c) 5 ~p(a);",
    },
];
