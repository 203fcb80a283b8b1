//! What is kept of an equation, so that it can be read and taken back.
//!
//! Its atoms are nodes. Beside them stand how many nodes and links there were before it.

/// The nodes of two atoms that are to be equal.
#[derive(Clone, Copy)]
pub(crate) struct Sides {
    pub(crate) left: usize,
    pub(crate) right: usize,
}

/// An equation that was added: the spaces and nodes of its atoms, and how many nodes and links stood
/// before it.
#[derive(Clone, Copy)]
pub(crate) struct Step {
    pub(crate) left_space: u32,
    pub(crate) left: usize,
    pub(crate) right_space: u32,
    pub(crate) right: usize,
    pub(crate) nodes: usize,
    pub(crate) links: usize,
}
