//! The terms of a row of nodes.
//!
//! The row is read from its end: each node takes as many of the terms behind it as it has arguments. So
//! no call goes down into a term, however deep it is.
ghost use Rattle.std.specs.Prelude.{◌≡◌, ◌≤◌, ◌++◌, [], ◌∷◌, map, reverse, take, drop, length, IsTrue, IsFalse, IfOk, IfSome, OnOk};
ghost use Rattle.me_terms.specs.TermViews.{term_value};
ghost use Rattle.me_terms.specs.Terms.{arguments_of};
ghost use Rattle.szs_read.specs.Finds.{FindsTerms};
ghost use Rattle.szs_read.specs.Rows.{nodes_of, TakesMore};

use crate::number::Node;
use me_terms::{Term, Terms};
use std::alloc::{AllocError, Global};

/// Puts a term at the end of the arguments.
fn push(arguments: &mut Terms, term: Term) -> Result<(), AllocError>
    ensures { OnOk result (arguments.new.items ≡ arguments.old.items ++ term_value term ∷ []) }
{
    match arguments.push(term) {
        Ok(()) => Ok(()),
        Err(_) => Err(AllocError),
    }
}

/// Moves the topmost term of the stack, if there is one, to the end of the arguments.
fn move_one(stack: &mut Vec<Term>, arguments: &mut Terms) -> Result<(), AllocError>
    ensures arguments { OnOk result (arguments.new.items ≡ arguments.old.items ++ take 1 (map term_value (reverse stack.old.items))) }
    ensures left { OnOk result (map term_value (reverse stack.new.items) ≡ drop 1 (map term_value (reverse stack.old.items))) }
{
    match stack.pop() {
        Some(term) => push(arguments, term),
        None => Ok(()),
    }
}

/// Takes so many terms off the stack. The topmost is the first argument.
fn taken(alloc: Global, stack: &mut Vec<Term>, count: u32) -> Result<Terms, AllocError>
    ensures arguments { IfOk result (λ arguments. arguments.items ≡ take count (map term_value (reverse stack.old.items))) }
    ensures left { OnOk result (map term_value (reverse stack.new.items) ≡ drop count (map term_value (reverse stack.old.items))) }
{
    let mut arguments = Terms::new(alloc);
    arguments.reserve(u64::from(count))?;
    'arguments: for _argument in 0..count {
        move_one(stack, &mut arguments)?;
    }
    Ok(arguments)
}

/// Puts the term of a node onto the stack. Its arguments are taken off, if there are so many.
fn put(alloc: Global, node: Node, stack: &mut Vec<Term>) -> Result<bool, AllocError>
    ensures nodes { IfOk result (λ fits. IsTrue fits → nodes_of (arguments_of (map term_value (reverse stack.new.items))) ≡ node ∷ nodes_of (arguments_of (map term_value (reverse stack.old.items)))) }
    ensures few { IfOk result (λ fits. IsFalse fits → TakesMore node (length stack.old.items)) }
{
    match node {
        Node::Variable(x) => stack.push(Term::Var(x))?,
        Node::Function { f, arity } => {
            if stack.len() < arity as usize {
                return Ok(false);
            }
            let args = taken(alloc, stack, arity)?;
            stack.push(Term::App { f, args })?;
        }
    }
    Ok(true)
}

/// The terms that the nodes are, in order, if they are so many.
pub(crate) fn build(alloc: Global, nodes: &[Node], count: u32) -> Result<Option<Terms>, AllocError>
    ensures nodes { IfOk result (λ built. IfSome built (λ terms. nodes_of (arguments_of terms.items) ≡ nodes.now)) }
    ensures count { IfOk result (λ built. IfSome built (λ terms. length terms.items ≡ count)) }
    ensures same { IfOk result (FindsTerms nodes.now count) }
{
    let mut stack = Vec::new(alloc);
    let mut left = nodes.len();
    'nodes: while left > 0 {
        left -= 1;
        if !put(alloc, nodes[left], &mut stack)? {
            return Ok(None);
        }
    }
    if stack.len() != count as usize {
        return Ok(None);
    }
    Ok(Some(taken(alloc, &mut stack, count)?))
}
