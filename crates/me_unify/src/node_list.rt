//! The nodes of terms, with a look-up of those of variables.
//!
//! A contract sees a list of nodes. Each variable has one node there at most.
ghost use Rattle.std.specs.Prelude.{◌≡◌, ℕ, ◌-◌, ◌<◌, ◌∷◌, [], ◌++◌, ◌^◌, IfSome, OnOk, OnErr, None, Some, length, take, slice_get};
ghost use Rattle.me_unify.specs.Nodes.{IsFresh};
ghost use Rattle.me_unify.specs.Indexed.{found_in, IsNodeNoted, IsForgotten};

use crate::node::Node;
use crate::variable_index::VariableIndex;
use std::alloc::{AllocError, Global};
use std::marker::Model;

/// Nodes by their numbers, from 0.
#[derive(Drop)]
pub(crate) struct NodeList {
    items: Vec<Node>,
    variables: VariableIndex,
}

impl Model for NodeList {
    ghost use Rattle.std.specs.Prelude.{List};
    ghost use Rattle.me_unify.specs.declared.node.Node.{Node};

    ghost Value = { List Node };

    ghost view = { λ n. n.items.items };

    ghost use Rattle.me_unify.specs.Indexed.{IsIndexed, found_in};

    ghost invariant = { λ n. IsIndexed n.items.items (found_in n.variables) };
}

/// Notes where a node stands, if it is that of a variable. Where memory is out all is as before.
fn note(variables: &mut VariableIndex, node: &Node, x: usize) -> Result<(), AllocError>
    ensures ok { OnOk result (IsNodeNoted node.now x (found_in variables.old) (found_in variables.new)) }
    ensures err { OnErr result ((v : ℕ × ℕ) → found_in variables.new v ≡ found_in variables.old v) }
{
    match node {
        Node::Var { space, var } => variables.note(*space, *var, x),
        Node::App { f: _, args: _ } => Ok(()),
    }
}

/// Forgets where a node stood, if it was that of a variable.
fn forget(variables: &mut VariableIndex, node: Node)
    ensures { IsForgotten node (found_in variables.old) (found_in variables.new) }
{
    match node {
        Node::Var { space, var } => variables.forget(space, var),
        Node::App { f: _, args: _ } => {}
    }
}

impl NodeList {
    /// No nodes. It takes no memory; later calls take theirs from `alloc`.
    pub(crate) fn new(alloc: Global) -> Self
        ensures { result ≡ [] }
    {
        NodeList {
            items: Vec::new(alloc),
            variables: VariableIndex::new(alloc),
        }
    }

    /// The number of nodes.
    pub(crate) fn len(&self) -> usize
        ensures { result ≡ length self.now }
    {
        self.items.len()
    }

    /// The nodes in order.
    pub(crate) fn as_slice(&self) -> &[Node]
        ensures { result.now ≡ self.now }
    {
        self.items.as_slice()
    }

    /// The node of that number.
    pub(crate) fn node(&self, x: usize) -> &Node
        requires { x < length self.now }
        ensures { slice_get self.now x ≡ Some result.now }
    {
        &self.items[x]
    }

    /// The node of a variable. None where it has none.
    pub(crate) fn find(&self, space: u32, var: u32) -> Option<usize>
        ensures some { IfSome result (λ x. slice_get self.now x ≡ Some (Node.Var space var)) }
        ensures none { result ≡ None → IsFresh self.now (Node.Var space var) }
    {
        self.variables.find(space, var)
    }

    /// Puts a node at the end. A variable must be new. Where memory is out all is as before.
    pub(crate) fn push(&mut self, node: Node) -> Result<(), AllocError>
        requires fresh { IsFresh self.old node }
        ensures ok { OnOk result (self.new ≡ self.old ++ node ∷ []) }
        ensures err { OnErr result (self.new ≡ self.old) }
    {
        self.items.reserve(1)?;
        let x = self.items.len();
        note(&mut self.variables, &node, x)?;
        self.items.push_reserved(node);
        Ok(())
    }

    /// Takes the last node away.
    fn pop(&mut self)
        ensures { self.new ≡ take (length self.old - 1) self.old }
    {
        if let Some(node) = self.items.pop() {
            forget(&mut self.variables, node);
        }
    }

    /// Takes away all nodes but the first `size`.
    pub(crate) fn truncate(&mut self, size: usize)
        ensures { self.new ≡ take size self.old }
    {
        'nodes: while self.items.len() > size {
            self.pop();
        }
    }
}
