//! Clauses whose atoms are numbers.
ghost use Rattle.ground_solver.specs.Standings.{IsTruth};

/// An atom by its number, or its negation.
#[derive(Clone, Copy, PartialEq, Eq)]
pub(crate) struct Signed {
    pub positive: bool,
    pub atom: u32,
}

/// A node of a tree of cases, in which a branch names its atom by its number.
#[derive(Clone, Copy, Drop)]
pub(crate) enum Step {
    Branch(u32),
    Leaf(u32),
}

/// The truth values that are fixed, by atom.
pub(crate) type Values = Vec<Option<bool>>;

/// The truth value of a literal.
#[derive(Clone, Copy, Drop)]
pub(crate) enum Truth {
    True,
    False,
    /// Its atom has no value.
    Unknown,
}

/// The truth value of a literal under those of the atoms.
pub(crate) fn truth_of(values: &[Option<bool>], literal: Signed) -> Truth
    ensures { IsTruth values.now literal result }
{
    match values.get(literal.atom as usize) {
        Some(Some(value)) => {
            if *value == literal.positive {
                Truth::True
            } else {
                Truth::False
            }
        }
        _ => Truth::Unknown,
    }
}
