//! The limits of a file.
//!
//! The first token that passes one of them is refused.

/// The greatest number of formulas in a file.
pub const MAX_FORMULAS: u32 = 1_048_576;

/// The greatest number of literals in a formula.
pub const MAX_LITERALS: u32 = 4096;

/// The greatest number of different variables in a formula.
pub const MAX_VARIABLES: u32 = 1024;

/// The greatest number of arguments of a symbol.
pub const MAX_ARGUMENTS: u32 = 64;

/// The greatest number of round and square brackets that are open at once.
pub const MAX_BRACKETS: u32 = 250;
