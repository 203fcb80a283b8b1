//! Scripts, each with what it prints, worked out by hand from the definitions.

/// A script, and the text that is due.
pub(crate) const ROWS: &[(&[u8], &[u8])] = &[
    // Contexts that grow, hide, show again and shrink.
    (
        b"cnf(universal,plain,p(c)). cnf(parametric,plain,p(X)). cnf(visible,plain,$false). cnf(universal,plain,p(c)). cnf(visible,plain,$false). cnf(universal,plain,p(X)). cnf(visible,plain,$false). cnf(pop,plain,$false). cnf(visible,plain,$false). cnf(pop,plain,$false). cnf(visible,plain,$false). cnf(pop,plain,$false). cnf(pop,plain,$false). cnf(pop,plain,$false).",
        b"0 1 2;0 2 3;0 4;yes;0 2 3;yes;0 1 2;yes;yes;no;",
    ),
    (
        b"cnf(visible,plain,$false). cnf(pop,plain,$false).",
        b"0;no;",
    ),
    (
        b"cnf(universal,plain,p(a)). cnf(universal,plain,~q(X)). cnf(visible,plain,$false).",
        b"0 1 2;",
    ),
    (
        b"cnf(universal,plain,p(a)). cnf(universal,plain,~q(a)). cnf(visible,plain,$false). cnf(universal,plain,p(X)). cnf(visible,plain,$false).",
        b"0 1 2;0 2 3;",
    ),
    (
        b"cnf(universal,plain,p(X)). cnf(universal,plain,~p(a)). cnf(visible,plain,$false).",
        b"contradicts;0 1;",
    ),
    // Contradiction: of a Universal literal, and of a Parametric one.
    (
        b"cnf(universal,plain,p(h(X,Y))). cnf(contradicts,plain,~p(X)).",
        b"yes;no;",
    ),
    (
        b"cnf(universal,plain,p(X)). cnf(contradicts,plain,~p(h(X,Y))).",
        b"yes;yes;",
    ),
    (
        b"cnf(universal,plain,p(h(X,X))). cnf(contradicts,plain,~p(h(a,b))).",
        b"no;no;",
    ),
    (
        b"cnf(parametric,plain,p(h(X,Y))). cnf(contradicts,plain,~p(X)).",
        b"yes;no;",
    ),
    (
        b"cnf(parametric,plain,p(h(X,Y))). cnf(contradicts,plain,~p(h(X,Y))).",
        b"yes;yes;",
    ),
    (
        b"cnf(parametric,plain,p(h(X,Y))). cnf(contradicts,plain,~p(h(X,X))).",
        b"no;no;",
    ),
    (
        b"cnf(parametric,plain,p(X)). cnf(contradicts,plain,p(X)).",
        b"no;no;",
    ),
    (
        b"cnf(parametric,plain,p(X)). cnf(contradicts,plain,~q(X)).",
        b"no;no;",
    ),
    // Truth, and what produces a literal.
    (
        b"cnf(parametric,plain,p(a,X)). cnf(universal,plain,~p(X,b)). cnf(truth,plain,p(a,b)). cnf(truth,plain,p(a,a)). cnf(truth,plain,p(b,a)). cnf(produces,plain,~p(X,b)).",
        b"false by 2;true by 1;false by 0;2;",
    ),
    (
        b"cnf(truth,plain,p(a)). cnf(universal,plain,p(X)). cnf(truth,plain,p(a)).",
        b"false by 0;true by 1;",
    ),
    (
        b"cnf(parametric,plain,p(X,Y)). cnf(parametric,plain,~p(X,X)). cnf(truth,plain,p(a,b)). cnf(truth,plain,p(a,a)).",
        b"true by 1;false by 2;",
    ),
    (
        b"cnf(parametric,plain,p(X,Y)). cnf(universal,plain,p(X,a)). cnf(produces,plain,p(X,b)). cnf(produces,plain,~p(a,a)).",
        b"1;;",
    ),
    // Tuples of entries with which a clause has a unifier, in order, in the context `~v, ~p(a)`.
    (
        b"cnf(universal,plain,~p(a)). cnf(tuples,plain,p(X)|q(X)).",
        b"0 0;1 0;.;",
    ),
    (
        b"cnf(universal,plain,~p(a)). cnf(tuples,plain,p(X)|p(X)).",
        b"0 0;0 1;1 0;1 1;.;",
    ),
    (
        b"cnf(universal,plain,~p(a)). cnf(closing,plain,p(X)|p(X)).",
        b"1 1;.;",
    ),
    (
        b"cnf(universal,plain,~p(a)). cnf(closing,plain,p(X)|q(X)).",
        b".;",
    ),
    (b"cnf(tuples,plain,$false).", b";.;"),
    (
        b"cnf(universal,plain,~p(a)). cnf(asserting,plain,p(X)|q(X)).",
        b"1;.;",
    ),
    (
        b"cnf(universal,plain,~p(a)). cnf(asserting,plain,q(X)|p(X)).",
        b".;",
    ),
    (
        b"cnf(universal,plain,~p(a)). cnf(universal,plain,~p(f(a))). cnf(asserting,plain,p(X)|p(X)|q(X)).",
        b"1 1;.;",
    ),
    (
        b"cnf(universal,plain,~p(a)). cnf(closing,plain,p(b)).",
        b".;",
    ),
    // Tuples with the newest entry as their pivot, at one index after another.
    (
        b"cnf(universal,plain,~p(a)). cnf(pivots,plain,p(X)|p(X)).",
        b"1 0;1 1;.;0 1;.;",
    ),
    (
        b"cnf(universal,plain,~p(a)). cnf(universal,plain,~q(b)). cnf(pivots,plain,p(X)|q(Y)|q(Z)).",
        b".;0 2 0;0 2 2;1 2 0;1 2 2;.;0 0 2;1 0 2;.;",
    ),
    // Whether the first unifier is productive; its tuple and its remainder.
    (
        b"cnf(universal,plain,~p(a)). cnf(productive,plain,p(X)).",
        b"0;0;yes;",
    ),
    (
        b"cnf(universal,plain,~p(a)). cnf(productive,plain,p(a)).",
        b"0;0;no;",
    ),
    (b"cnf(productive,plain,~p(a)).", b"none;"),
    (b"cnf(productive,plain,p(X)|q(X)).", b"0 0;0 1;yes;"),
    // A unifier under which a literal would be too heavy to be written out: all is an instance of `p(X,X)`, and the first
    // literal is no instance of the next entry, or is one.
    (
        b"cnf(parametric,plain,~p(X,X)). cnf(parametric,plain,~p(f(X,a),f(X,a))). cnf(productive_ones,plain,p(f(X40,X41),f(X40,X41))|p(f(X0,X0),X1)|p(f(X1,X1),X2)|p(f(X2,X2),X3)|p(f(X3,X3),X4)|p(f(X4,X4),X5)|p(f(X5,X5),X6)|p(f(X6,X6),X7)|p(f(X7,X7),X8)|p(f(X8,X8),X9)|p(f(X9,X9),X10)|p(f(X10,X10),X11)|p(f(X11,X11),X12)|p(f(X12,X12),X13)|p(f(X13,X13),X14)|p(f(X14,X14),X15)|p(f(X15,X15),X16)|p(f(X16,X16),X17)|p(f(X17,X17),X18)|p(f(X18,X18),X19)|p(f(X19,X19),X20)|p(f(X20,X20),X21)|p(f(X21,X21),X22)|p(f(X22,X22),X23)|p(f(X23,X23),X24)|p(f(X24,X24),X25)|p(f(X25,X25),X26)|p(f(X26,X26),X27)|p(f(X27,X27),X28)|p(f(X28,X28),X29)|p(f(X29,X29),X30)|p(f(X30,X30),X31)|p(f(X31,X31),X32)|p(f(X32,X32),X33)|p(f(X33,X33),X34)|p(f(X34,X34),X35)|p(f(X35,X35),X36)|p(f(X36,X36),X37)|p(f(X37,X37),X38)|p(f(X38,X38),X39)|p(f(X39,X39),X40)).",
        b"yes;",
    ),
    (
        b"cnf(parametric,plain,~p(X,X)). cnf(parametric,plain,~p(f(X,Y),f(X,Y))). cnf(productive_ones,plain,p(f(X40,X41),f(X40,X41))|p(f(X0,X0),X1)|p(f(X1,X1),X2)|p(f(X2,X2),X3)|p(f(X3,X3),X4)|p(f(X4,X4),X5)|p(f(X5,X5),X6)|p(f(X6,X6),X7)|p(f(X7,X7),X8)|p(f(X8,X8),X9)|p(f(X9,X9),X10)|p(f(X10,X10),X11)|p(f(X11,X11),X12)|p(f(X12,X12),X13)|p(f(X13,X13),X14)|p(f(X14,X14),X15)|p(f(X15,X15),X16)|p(f(X16,X16),X17)|p(f(X17,X17),X18)|p(f(X18,X18),X19)|p(f(X19,X19),X20)|p(f(X20,X20),X21)|p(f(X21,X21),X22)|p(f(X22,X22),X23)|p(f(X23,X23),X24)|p(f(X24,X24),X25)|p(f(X25,X25),X26)|p(f(X26,X26),X27)|p(f(X27,X27),X28)|p(f(X28,X28),X29)|p(f(X29,X29),X30)|p(f(X30,X30),X31)|p(f(X31,X31),X32)|p(f(X32,X32),X33)|p(f(X33,X33),X34)|p(f(X34,X34),X35)|p(f(X35,X35),X36)|p(f(X36,X36),X37)|p(f(X37,X37),X38)|p(f(X38,X38),X39)|p(f(X39,X39),X40)).",
        b"no;",
    ),
    // Equations of two atoms of two spaces.
    (
        b"cnf(apart,plain,p(X,f(X))|p(g(Y),Z)). cnf(forms,plain,p(X,f(X))|p(g(Y),Z)).",
        b"yes;p(g(X0),f(g(X0)));p(g(X0),f(g(X0)));",
    ),
    (b"cnf(apart,plain,p(X,f(X))|p(Y,Y)).", b"no;"),
    (
        b"cnf(apart,plain,p(X,b)|p(a,Y)). cnf(forms,plain,p(X,b)|p(a,Y)).",
        b"yes;p(a,b);p(a,b);",
    ),
    (
        b"cnf(apart,plain,p(X,Y)|p(Y,X)). cnf(forms,plain,p(X,Y)|p(Y,X)).",
        b"yes;p(X0,X1);p(X0,X1);",
    ),
    // Equations one after another, what is refused, and what is taken back.
    (
        b"cnf(apart,plain,p(X)|p(a)). cnf(forms,plain,p(X)|p(a)). cnf(undo,plain,$false). cnf(forms,plain,p(X)|p(a)). cnf(apart,plain,p(X)|p(b)). cnf(forms,plain,p(X)|p(b)).",
        b"yes;p(a);p(a);0;p(X0);p(a);yes;p(b);p(b);",
    ),
    (
        b"cnf(apart,plain,p(X,a)|p(c,b)). cnf(forms,plain,p(X,a)|p(c,b)). cnf(undo,plain,$false).",
        b"no;p(X0,a);p(c,b);0;",
    ),
    (
        b"cnf(apart,plain,p(X)|p(f(Y))). cnf(same,plain,p(X)|p(a)). cnf(forms,plain,p(X)|p(X)).",
        b"yes;no;p(f(X0));p(X0);",
    ),
    (
        b"cnf(apart,plain,p(X)|p(f(Y))). cnf(apart,plain,p(X)|p(f(a))). cnf(forms,plain,p(X)|q). cnf(undo,plain,$false). cnf(forms,plain,p(X)|q).",
        b"yes;yes;p(f(a));q;1;p(f(X0));q;",
    ),
    (
        b"cnf(same,plain,e(X,Y,Z,X)|e(X,Y,Z,f(Y))). cnf(same,plain,e(X,Y,Z,Y)|e(X,Y,Z,g(Z))). cnf(same,plain,e(X,Y,Z,Z)|e(X,Y,Z,a)). cnf(forms,plain,e(X,Y,Z,b)|e(X,Y,Z,b)). cnf(undo,plain,$false). cnf(forms,plain,e(X,Y,Z,b)|e(X,Y,Z,b)).",
        b"yes;yes;yes;e(f(g(a)),g(a),a,b);e(X0,X1,X2,b);2;e(f(g(X0)),g(X0),X0,b);e(X0,X1,X2,b);",
    ),
    (
        b"cnf(same,plain,e(X,Y,Z,X)|e(X,Y,Z,f(Y))). cnf(same,plain,e(X,Y,Z,Y)|e(X,Y,Z,g(Z))). cnf(same,plain,e(X,Y,Z,Z)|e(X,Y,Z,X)).",
        b"yes;yes;no;",
    ),
    (
        b"cnf(apart,plain,p(X,Y)|p(f(Z),V)). cnf(measure,plain,p(X,a)). cnf(measure,plain,q(g(a,b))).",
        b"yes;2 4 no;2 4 yes;",
    ),
    // Sizes: the depth, the weight, and whether it is ground.
    (
        b"cnf(size,plain,~p(f(a,X),a)). cnf(size,plain,p). cnf(size,plain,p(X)). cnf(size,plain,p(f(f(a)))).",
        b"2 5 no;0 1 yes;1 2 no;3 4 yes;",
    ),
    // Canonical forms.
    (
        b"cnf(form,plain,q(X,Y)|~p(Y,X)). cnf(form,plain,q(X,Y)|p(Y,f(X),Y)).",
        b"~p(X0,X1);p(X0,f(X1),X0);",
    ),
    // Whether the second atom is an instance of the first, a variant of it, and strictly less general.
    (b"cnf(compare,plain,p(X,Y)|p(Z,Z)).", b"yes;no;yes;"),
    (b"cnf(compare,plain,p(X,Y)|p(Z,W)).", b"yes;yes;no;"),
    (b"cnf(compare,plain,p(X,Y)|p(Y,X)).", b"yes;yes;no;"),
    (b"cnf(compare,plain,p(X,X)|p(a,b)).", b"no;no;no;"),
    (b"cnf(compare,plain,p(X,X)|p(a,a)).", b"yes;no;yes;"),
    (b"cnf(compare,plain,p(a)|p(a)).", b"yes;yes;no;"),
    (b"cnf(compare,plain,p(a)|p(X)).", b"no;no;no;"),
    (b"cnf(compare,plain,p(f(X))|p(f(f(X)))).", b"yes;no;yes;"),
    (b"cnf(compare,plain,p(X)|q(X)).", b"no;no;no;"),
];
