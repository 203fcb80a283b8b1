//! The names of a formula, in a row.
//!
//! The literals of a formula are kept as their names in the order in which they stand, each with the
//! number of its arguments. Once names have numbers, they are nodes.
use tptp_tokens::Token;

/// What a name stands for.
#[derive(Clone, Copy, Debug, PartialEq, Eq)]
pub(crate) enum Role {
    /// The predicate of a literal without a tilde.
    Positive,
    /// The predicate of a literal with a tilde.
    Negative,
    Function,
    Variable,
}

/// A name, which so many arguments follow.
#[derive(Clone, Copy, Debug)]
pub(crate) struct Item<'a> {
    pub(crate) role: Role,
    pub(crate) name: Token<'a>,
    pub(crate) arity: u32,
}

/// A name by its number, which so many arguments follow.
#[derive(Clone, Copy, Debug)]
pub(crate) struct Node {
    pub(crate) role: Role,
    pub(crate) number: u32,
    pub(crate) arity: u32,
}
