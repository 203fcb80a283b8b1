//! Problems whose search trees have known shapes, and the portions that workers make of them.
//!
//! Each leaf is closed, so nothing is cut.

/// A tree, how many workers walk it, how many turns a path that is given away may have, and the codes of the
/// portions, each as a bit.
pub(crate) type Row = (&'static [u8], u32, u32, u64);

/// One leaf.
const LEAF: &[u8] = b"cnf(c,axiom,p). cnf(c,axiom,~p).";

/// Each left child is a node, down to five turns, and each right child a leaf.
const LEFT: &[u8] = b"
cnf(c,axiom,p1|q1). cnf(c,axiom,~q1|p1).
cnf(c,axiom,p2|q2). cnf(c,axiom,~q2|p2).
cnf(c,axiom,p3|q3). cnf(c,axiom,~q3|p3).
cnf(c,axiom,p4|q4). cnf(c,axiom,~q4|p4).
cnf(c,axiom,p5|q5). cnf(c,axiom,~q5|p5).
cnf(c,axiom,p6|q6). cnf(c,axiom,~q6|p6).
cnf(c,axiom,~p1|~p2|~p3|~p4|~p5|~p6).";

/// Each right child is a node, down to three turns, and each left child a leaf.
const RIGHT: &[u8] = b"
cnf(c,axiom,p1|q1). cnf(c,axiom,~p1|a1). cnf(c,axiom,~p1|~a1).
cnf(c,axiom,p2|q2). cnf(c,axiom,~p2|a2). cnf(c,axiom,~p2|~a2).
cnf(c,axiom,p3|q3). cnf(c,axiom,~p3|a3). cnf(c,axiom,~p3|~a3).
cnf(c,axiom,p4|q4). cnf(c,axiom,~p4|a4). cnf(c,axiom,~p4|~a4).
cnf(c,axiom,~q1|~q2|~q3|~q4).";

/// Each child is a node, down to three turns.
pub(crate) const FULL: &[u8] = b"
cnf(c,axiom, p| q| r| s). cnf(c,axiom, p| q| r|~s). cnf(c,axiom, p| q|~r| s). cnf(c,axiom, p| q|~r|~s).
cnf(c,axiom, p|~q| r| s). cnf(c,axiom, p|~q| r|~s). cnf(c,axiom, p|~q|~r| s). cnf(c,axiom, p|~q|~r|~s).
cnf(c,axiom,~p| q| r| s). cnf(c,axiom,~p| q| r|~s). cnf(c,axiom,~p| q|~r| s). cnf(c,axiom,~p| q|~r|~s).
cnf(c,axiom,~p|~q| r| s). cnf(c,axiom,~p|~q| r|~s). cnf(c,axiom,~p|~q|~r| s). cnf(c,axiom,~p|~q|~r|~s).";

/// The codes of the root, and with it those of the right children of each shape, of at most one turn or of all.
pub(crate) const ROOT: u64 = 1 << 1;

pub(crate) const FIRST: u64 = ROOT | 1 << 3;

const ON_THE_LEFT: u64 = FIRST | 1 << 5 | 1 << 9 | 1 << 17 | 1 << 33;

const ON_THE_RIGHT: u64 = FIRST | 1 << 7 | 1 << 15;

const ALL: u64 = ON_THE_RIGHT | 1 << 5 | 1 << 9 | 1 << 11 | 1 << 13;

/// Each shape with each number of workers and with each share, and each of these two with the other.
pub(crate) const ROWS: [Row; 16] = [
    (LEAF, 1, 0, ROOT),
    (LEAF, 2, 1, ROOT),
    (LEAF, 4, 10, ROOT),
    (LEAF, 64, 16, ROOT),
    (LEFT, 2, 0, ROOT),
    (LEFT, 4, 1, FIRST),
    (LEFT, 64, 10, ON_THE_LEFT),
    (LEFT, 1, 16, ON_THE_LEFT),
    (RIGHT, 4, 0, ROOT),
    (RIGHT, 64, 1, FIRST),
    (RIGHT, 1, 10, ON_THE_RIGHT),
    (RIGHT, 2, 16, ON_THE_RIGHT),
    (FULL, 64, 0, ROOT),
    (FULL, 1, 1, FIRST),
    (FULL, 2, 10, ALL),
    (FULL, 4, 16, ALL),
];
