//! Links between nodes that are to be equal, kept in the order in which they came.
//!
//! A node is linked at most once, and only to a node that is not linked then. So following links ends,
//! and the last link can always be taken away.
ghost use Rattle.std.specs.Prelude.{◌≡◌, ℕ, ◌∷◌, [], ◌++◌, ◌<◌, ◌≤◌, ◌≢◌, ◌+◌, OnOk, OnErr, length, slice_index};
ghost use Rattle.me_unify.specs.Linked.{IsForest, Respects, Alike, NONE as NOT_LINKED, Colouring, AreDirected, IsLonger};
ghost use Rattle.me_unify.specs.FlatEnds.{end_of};

use crate::node::Node;
use std::alloc::{AllocError, Global};

/// Which nodes are equal: link k says that `froms[k]` and `tos[k]` are, and `place` says where a node
/// stands in `froms`.
#[derive(Drop)]
pub(crate) struct Links {
    pub(crate) place: Vec<usize>,
    pub(crate) froms: Vec<usize>,
    pub(crate) tos: Vec<usize>,
}

/// The place of a node that is not linked.
pub(crate) const FREE: usize = usize::MAX;

impl Links {
    pub(crate) fn new(alloc: Global) -> Self
        ensures forest { IsForest result }
        ensures none { result.place.items ≡ [] }
        ensures no_link { result.froms.items ≡ [] }
    {
        Links {
            place: Vec::new(alloc),
            froms: Vec::new(alloc),
            tos: Vec::new(alloc),
        }
    }

    /// Makes room for one node more.
    pub(crate) fn grow(&mut self) -> Result<(), AllocError>
        requires forest { IsForest self.old }
        ensures forest { IsForest self.new }
        ensures ok { OnOk result (length self.new.place.items ≡ length self.old.place.items + 1) }
        ensures err { OnErr result (self.new.place.items ≡ self.old.place.items) }
        ensures froms { self.new.froms.items ≡ self.old.froms.items }
        ensures tos { self.new.tos.items ≡ self.old.tos.items }
    {
        self.place.push(FREE)?;
        Ok(())
    }

    /// The last node that a node is linked to.
    pub(crate) fn find(&self, x: usize) -> usize
        requires forest { IsForest self.now }
        requires within { x < length self.now.place.items }
        ensures within { result < length self.now.place.items }
        ensures free { slice_index self.now.place.items result ≡ NOT_LINKED }
        ensures alike { Alike self.now x result }
        ensures last { result ≡ end_of self.now x }
    {
        let mut at = x;
        'walk: loop {
            let k = self.place[at];
            if k == FREE {
                return at;
            }
            at = self.tos[k];
        }
    }

    /// Makes two nodes equal. A variable is linked to what is none.
    pub(crate) fn join(&mut self, nodes: &[Node], x: usize, y: usize) -> Result<(), AllocError>
        requires forest { IsForest self.old }
        requires nodes { length nodes.now ≡ length self.old.place.items }
        requires left { x < length self.old.place.items }
        requires right { y < length self.old.place.items }
        requires directed { AreDirected nodes.now self.old }
        ensures forest { IsForest self.new }
        ensures size { length self.new.place.items ≡ length self.old.place.items }
        ensures directed { AreDirected nodes.now self.new }
        ensures more { IsLonger self.old self.new }
        ensures same { (h : Colouring) → Respects self.old h → h x ≡ h y → Respects self.new h }
        ensures alike { OnOk result (Alike self.new x y) }
        ensures err { OnErr result (self.new.froms.items ≡ self.old.froms.items) }
    {
        let a = self.find(x);
        let b = self.find(y);
        if a == b {
            return Ok(());
        }
        if let Node::Var { space: _, var: _ } = &nodes[a] {
            self.link(a, b)
        } else {
            self.link(b, a)
        }
    }

    /// Links a node that is not linked yet to another that is not.
    pub(crate) fn link(&mut self, a: usize, b: usize) -> Result<(), AllocError>
        requires forest { IsForest self.old }
        requires from { a < length self.old.place.items }
        requires to { b < length self.old.place.items }
        requires apart { a ≢ b }
        requires free { slice_index self.old.place.items a ≡ NOT_LINKED }
        requires free_too { slice_index self.old.place.items b ≡ NOT_LINKED }
        ensures forest { IsForest self.new }
        ensures size { length self.new.place.items ≡ length self.old.place.items }
        ensures err { OnErr result ((self.new.froms.items ≡ self.old.froms.items) × (self.new.tos.items ≡ self.old.tos.items)) }
        ensures more { IsLonger self.old self.new }
        ensures same { (h : Colouring) → Respects self.old h → h a ≡ h b → Respects self.new h }
        ensures alike { OnOk result (Alike self.new a b) }
        ensures froms { OnOk result (self.new.froms.items ≡ self.old.froms.items ++ a ∷ []) }
        ensures tos { OnOk result (self.new.tos.items ≡ self.old.tos.items ++ b ∷ []) }
    {
        self.froms.reserve(1)?;
        self.tos.reserve(1)?;
        let k = self.froms.len();
        self.place[a] = k;
        self.froms.push_reserved(a);
        self.tos.push_reserved(b);
        Ok(())
    }

    /// Takes the last link away.
    pub(crate) fn unlink(&mut self)
        requires forest { IsForest self.old }
        requires some { 0 < length self.old.froms.items }
        ensures forest { IsForest self.new }
        ensures size { length self.new.place.items ≡ length self.old.place.items }
        ensures shorter { length self.new.froms.items + 1 ≡ length self.old.froms.items }
        ensures less { IsLonger self.new self.old }
    {
        let last = self.froms.len() - 1;
        let a = self.froms[last];
        self.place[a] = FREE;
        self.froms.truncate(last);
        self.tos.truncate(last);
    }

    /// Takes away all links but the first `mark`.
    pub(crate) fn undo(&mut self, mark: usize)
        requires forest { IsForest self.old }
        requires within { mark ≤ length self.old.froms.items }
        ensures forest { IsForest self.new }
        ensures size { length self.new.place.items ≡ length self.old.place.items }
        ensures mark { length self.new.froms.items ≡ mark }
        ensures less { IsLonger self.new self.old }
    {
        'links: while self.froms.len() > mark {
            self.unlink();
        }
    }

    /// Forgets all nodes but the first `size`. Those are not linked.
    pub(crate) fn shrink(&mut self, size: usize)
        requires forest { IsForest self.old }
        requires within { size ≤ length self.old.place.items }
        requires from { (k : ℕ) → k < length self.old.froms.items → slice_index self.old.froms.items k < size }
        requires to { (k : ℕ) → k < length self.old.froms.items → slice_index self.old.tos.items k < size }
        ensures forest { IsForest self.new }
        ensures size { length self.new.place.items ≡ size }
        ensures froms { self.new.froms.items ≡ self.old.froms.items }
        ensures tos { self.new.tos.items ≡ self.old.tos.items }
    {
        self.place.truncate(size);
    }
}
