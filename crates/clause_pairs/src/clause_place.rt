//! Places of a problem's clauses.

/// A place of a clause: the clause by its place in the problem, and the place in it, from 0.
#[derive(Clone, Copy, Debug, PartialEq, Eq)]
pub struct ClausePlace {
    pub clause: u32,
    pub place: u32,
}
