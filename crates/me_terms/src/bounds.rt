//! How far a search goes and from which default it starts, and which bound it met.

/// The greatest bound of depth.
pub const MAX_DEPTH: u32 = 64;

/// The greatest bound of weight.
pub const MAX_WEIGHT: u64 = 100_000;

/// The greatest number of entries of a context.
pub const MAX_ENTRIES: u32 = 65_535;

/// The greatest bound of the weight of a refutation's list.
pub const MAX_LIST: u64 = 50_000_000;

/// The pseudo-literal that a search starts with: what is true of an atom of which no entry speaks.
#[derive(Clone, Copy, Debug, PartialEq, Eq)]
pub enum Start {
    /// Every atom is false by default.
    Negative,
    /// Every atom is true by default.
    Positive,
}

/// The bounds of a search, and its start. Each bound has its range, outside of which no search is begun;
/// either start will do.
#[derive(Clone, Copy, Debug, PartialEq, Eq)]
pub struct Bounds {
    /// The greatest depth of a literal that is added to a context, from 1 to `MAX_DEPTH`.
    pub depth: u32,
    /// The greatest weight of a literal that is added to a context, from 1 to `MAX_WEIGHT`.
    pub weight: u64,
    /// The greatest number of entries of a context, from 1 to `MAX_ENTRIES`. Hidden entries count, and the
    /// pseudo-literal too.
    pub literals: u32,
    /// The greatest weight of a refutation's list of instances, from 1 to `MAX_LIST`.
    pub list: u64,
    /// The pseudo-literal of the first context.
    pub start: Start,
}

/// A bound that a search met.
#[derive(Clone, Copy, Debug, PartialEq, Eq)]
pub enum Bound {
    /// A literal is too deep.
    Depth,
    /// A literal is too heavy.
    Weight,
    /// A context has no room for another entry.
    Literals,
    /// The list of a refutation is too heavy.
    List,
}
