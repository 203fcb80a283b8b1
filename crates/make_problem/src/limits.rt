//! The limits of what is made, and how many literals a clause has.

/// The greatest number of predicates from which is drawn.
pub const MAX_MADE_PREDICATES: u32 = 1000;

/// The greatest number of clauses.
pub const MAX_MADE_CLAUSES: u32 = 100_000;

/// The number of literals of each clause, and of the words that are drawn for it.
pub(crate) const CLAUSE_LITERALS: usize = 3;
