//! What a token is in a file.
//!
//! A token may be the first one of a part of the file, as of a formula, of a literal or of an argument;
//! or it may open or close arguments, or end a formula.

/// What a token is.
#[derive(Clone, Copy, Debug, PartialEq, Eq)]
pub enum Part {
    /// The first token of a formula.
    Formula,
    /// The label of a formula.
    Label,
    /// The role of a formula.
    Role,
    /// The first token of a literal with a tilde.
    Negative,
    /// The first token of a literal without a tilde, and so of its atom.
    Positive,
    /// The first token of the atom behind a tilde.
    Atom,
    /// The first token of the argument of this number, from 1.
    Argument(u32),
    /// The bracket that opens the arguments of the name before it.
    OpenArguments,
    /// The bracket that closes so many arguments.
    CloseArguments(u32),
    /// The full stop of a formula.
    End,
    /// None of these.
    Other,
}
