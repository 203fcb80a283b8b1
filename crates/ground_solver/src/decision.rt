//! What is decided, and how it is shown.
use me_terms::{Atom, Literals, Sequence};

/// The clauses.
pub type GroundList = Sequence<Literals>;

pub type Atoms = Sequence<Atom>;

/// A tree of cases in preorder.
pub type Splits = Sequence<Split>;

/// A node of a tree of cases.
#[derive(Drop)]
pub enum Split {
    /// First comes the tree in which the atom is true, then the one in which it is false.
    Branch { atom: Atom },
    /// The clause at that place has only false literals here.
    Leaf { at: u32 },
}

/// Whether some truth assignment makes all clauses true.
#[derive(Drop)]
pub enum Decision {
    /// One that does: of the atoms of the list these are true, and the others false.
    Model { trues: Atoms },
    /// None does, by these cases.
    Closed { proof: Splits },
}
