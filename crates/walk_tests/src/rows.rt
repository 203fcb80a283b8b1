//! Walks of small trees, each with what is due of it, worked out by hand from the definitions.
use crate::keeper::Gifts;

/// A problem, what the search around the walk answers, and the text that is due.
pub(crate) struct Row {
    pub(crate) problem: &'static [u8],
    pub(crate) gifts: Gifts,
    pub(crate) least: Option<u16>,
    pub(crate) found: &'static [u8],
}

/// The search tree is one Split, at p, with two exhausted leaves.
const PAIR: &[u8] = b"cnf(c, axiom, p | q).";

/// The search tree is one Split, at p: its left leaf is closed, and its right one exhausted.
const TRIPLE: &[u8] = b"cnf(c, axiom, p | q). cnf(d, axiom, ~p | q). cnf(e, axiom, ~p | ~q).";

pub(crate) const ROWS: &[Row] = &[
    // The right child is given away.
    Row {
        problem: PAIR,
        gifts: Gifts::Taken,
        least: None,
        found: b"model p;gift 3;taken 3;posted 0;",
    },
    // The exhausted leaf takes in the right child that came back, which is known or has no room.
    Row {
        problem: PAIR,
        gifts: Gifts::Known,
        least: None,
        found: b"model p;posted 0;",
    },
    Row {
        problem: PAIR,
        gifts: Gifts::NoRoom,
        least: None,
        found: b"model p;posted 0;",
    },
    // A smaller key cuts: that of the right child is 32,768.
    Row {
        problem: TRIPLE,
        gifts: Gifts::Known,
        least: Some(0),
        found: b"closed;cut 0;",
    },
    // An equal key cuts nothing: those of the root and of its left child are 0.
    Row {
        problem: PAIR,
        gifts: Gifts::Known,
        least: Some(0),
        found: b"model p;posted 0;",
    },
];
