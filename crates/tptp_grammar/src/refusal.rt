//! Why a file is refused.
//!
//! A token is refused because no file goes on with it, or because it passes a limit. Where no file goes
//! on with it, it may be a token of a language that lies outside of the profile.

/// What a file asks for that lies outside of the profile.
#[derive(Clone, Copy, Debug, PartialEq, Eq)]
pub enum What {
    /// An equation, or a disequation.
    Equality,
    /// A formula of another TPTP language.
    Language,
    /// An include of another file.
    Include,
    /// A number as a term.
    Number,
    /// A defined or a system symbol other than `$true` and `$false`.
    Defined,
    /// The role of a conjecture.
    Conjecture,
    /// Another role outside of the profile.
    Role,
}

/// The limit that a file passes.
#[derive(Clone, Copy, Debug, PartialEq, Eq)]
pub enum Which {
    /// `MAX_FORMULAS` formulas in a file.
    Clauses,
    /// `MAX_LITERALS` literals in a formula.
    Literals,
    /// `MAX_VARIABLES` variables in a formula.
    Variables,
    /// `MAX_ARGUMENTS` arguments of a symbol.
    Arguments,
    /// `MAX_BRACKETS` round and square brackets open at once.
    Nesting,
}

/// Why a token is refused.
#[derive(Clone, Copy, Debug, PartialEq, Eq)]
pub enum Refusal {
    Syntax,
    Inappropriate(What),
    Limit(Which),
}
