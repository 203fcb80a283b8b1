//! How a walk stands.
//!
//! A visit tells what was done at one node, and a state how a walk goes on to the right.

/// How a walk goes on to the right.
#[derive(Drop)]
pub(crate) enum State {
    /// Nothing keeps it from what follows.
    Going,
    /// A leaf with this key is exhausted: what follows stands right of it and is cut.
    Cutting { key: u16 },
    /// Memory is out, and what follows is not walked.
    Lost,
}

/// What was done at a node.
#[derive(Drop)]
pub(crate) enum Visit {
    /// The branch has an asserted entry more.
    Asserted,
    /// The branch has the entry of the left branch of a Split more.
    Left,
    /// The leaf came to the tally, and is not exhausted.
    Leaf,
    /// The exhausted leaf came to the tally, and its key was posted.
    Exhausted { key: u16 },
    /// This key was told, and is smaller than the node's.
    Cut { key: u16 },
    /// Memory is out.
    Lost,
}
