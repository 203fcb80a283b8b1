//! Where the branches of a search begin: at the pseudo-literal of a start, over one table of entries.
//!
//! `Roots` is what a pool of workers knows of the table: whose branches go from one thread to another.
#![tactic(auto)]

ghost use Rattle.std.specs.Prelude.{◌≡◌, IfOk};
ghost use Rattle.me_terms.specs.Grown as grown;

use context_nodes::{Branch, Nodes};
use me_terms::{Start, Trunk};
use std::alloc::{AllocError, Global};
use std::sync::Wait;

/// What makes the first branch of a search.
pub trait Roots: Sync {
    /// The branches, which go from one thread to another.
    type Branch: Trunk + Send;

    /// The branch of a start, which is its pseudo-literal alone.
    fn root(&self, alloc: Global, start: Start) -> Result<Self::Branch, AllocError>
        ensures { IfOk result (λ branch. Self.Branch.context branch ≡ grown.start start) };
}

/// Branches over a table that is lent.
#[derive(Drop)]
pub struct LentNodes<'n, R> {
    rt: &'n R,
    nodes: &'n Nodes,
}

impl<'n, R> LentNodes<'n, R> {
    /// Branches over this table, which is extended by `rt`.
    pub fn new(rt: &'n R, nodes: &'n Nodes) -> Self {
        LentNodes { rt, nodes }
    }
}

impl<'n, R: Wait + Sync> Roots for LentNodes<'n, R> {
    type Branch = Branch<'n, R>;

    fn root(&self, alloc: Global, start: Start) -> Result<Branch<'n, R>, AllocError> {
        self.nodes.root(self.rt, alloc, start)
    }
}
