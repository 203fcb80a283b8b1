//! Nodes: what stands at the top of a term, and where its arguments stand.
//!
//! A node is never changed. Its arguments are numbers of nodes that stand before it.

/// A variable of a space, or a function and the nodes of its arguments.
#[derive(Drop)]
pub(crate) enum Node {
    Var { space: u32, var: u32 },
    App { f: u32, args: Vec<usize> },
}
