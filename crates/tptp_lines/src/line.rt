//! The lines of a file.
//!
//! A formula is told by its place in the bytes, and an include by what it names.
use me_terms::{Label, Sequence, Text};

pub type Labels = Sequence<Label>;

/// A line of a file.
#[derive(Drop)]
pub enum Line {
    /// A formula of this name. Its first byte stands at `from`, and its full stop before `to`.
    Formula { label: Label, from: u64, to: u64 },
    /// An include of a file: of all its formulas, or of those with one of the names that it picks.
    Include { file: Text, picks: Option<Labels> },
}

pub type Lines = Sequence<Line>;
