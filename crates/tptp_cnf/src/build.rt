//! The literals of a row of nodes.
//!
//! The row is read from its end: each node takes as many of the terms behind it as it has arguments. So
//! no call goes down into a term, however deep it is.
ghost use Rattle.std.specs.Prelude.{◌≡◌, ◌++◌, [], ◌∷◌, map, reverse, take, drop, OnOk, IfOk};
ghost use Rattle.me_terms.specs.TermViews.{term_value};
ghost use Rattle.tptp_cnf.specs.Rows.{built as built_of, with_node, literal_with};
ghost use Rattle.tptp_cnf.specs.Views.{stacks};

use crate::item::{Node, Role};
use me_terms::{Atom, Literal, Literals, Term, Terms};
use std::alloc::{AllocError, Global};

/// Puts a term at the end of the arguments.
fn push(arguments: &mut Terms, term: Term) -> Result<(), AllocError>
    ensures { OnOk result (arguments.new.items ≡ arguments.old.items ++ term_value term ∷ []) }
{
    match arguments.push(term) {
        Ok(()) => Ok(()),
        Err(_) => Err(AllocError),
    }
}

/// Moves the topmost term of the stack, if there is one, to the end of the arguments.
fn move_one(terms: &mut Vec<Term>, arguments: &mut Terms) -> Result<(), AllocError>
    ensures arguments { OnOk result (arguments.new.items ≡ arguments.old.items ++ take 1 (map term_value (reverse terms.old.items))) }
    ensures left { OnOk result (map term_value (reverse terms.new.items) ≡ drop 1 (map term_value (reverse terms.old.items))) }
{
    match terms.pop() {
        Some(term) => push(arguments, term),
        None => Ok(()),
    }
}

/// Takes so many terms off the stack. The topmost is the first argument.
fn taken(alloc: Global, terms: &mut Vec<Term>, count: u32) -> Result<Terms, AllocError>
    ensures arguments { IfOk result (λ arguments. arguments.items ≡ take count (map term_value (reverse terms.old.items))) }
    ensures left { OnOk result (map term_value (reverse terms.new.items) ≡ drop count (map term_value (reverse terms.old.items))) }
{
    let mut arguments = Terms::new(alloc);
    arguments.reserve(count as u64)?;
    'arguments: for _argument in 0..count {
        move_one(terms, &mut arguments)?;
    }
    Ok(arguments)
}

/// The literal of a node with this sign, whose arguments are taken off the stack.
fn literal(
    alloc: Global,
    positive: bool,
    node: Node,
    terms: &mut Vec<Term>,
) -> Result<Literal, AllocError>
    ensures literal { IfOk result (λ literal. literal ≡ literal_with positive node (take node.arity (map term_value (reverse terms.old.items)))) }
    ensures left { OnOk result (map term_value (reverse terms.new.items) ≡ drop node.arity (map term_value (reverse terms.old.items))) }
{
    let args = taken(alloc, terms, node.arity)?;
    let atom = Atom {
        pred: node.number,
        args,
    };
    Ok(Literal { positive, atom })
}

/// Puts the term or the literal of a node onto its stack. Its arguments are taken off.
fn put(
    alloc: Global,
    node: Node,
    terms: &mut Vec<Term>,
    literals: &mut Vec<Literal>,
) -> Result<(), AllocError>
    ensures { OnOk result (stacks terms.new literals.new ≡ with_node node (stacks terms.old literals.old)) }
{
    match node.role {
        Role::Variable => terms.push(Term::Var(node.number))?,
        Role::Function => {
            let args = taken(alloc, terms, node.arity)?;
            terms.push(Term::App {
                f: node.number,
                args,
            })?;
        }
        Role::Positive => literals.push(literal(alloc, true, node, terms)?)?,
        Role::Negative => literals.push(literal(alloc, false, node, terms)?)?,
    }
    Ok(())
}

/// Takes the literals off the stack. The topmost is the first.
fn unstacked(alloc: Global, stack: &mut Vec<Literal>) -> Result<Literals, AllocError>
    ensures { IfOk result (λ literals. literals.items ≡ reverse stack.old.items) }
{
    let mut literals = Literals::new(alloc);
    literals.reserve(stack.len() as u64)?;
    'literals: while let Some(literal) = stack.pop() {
        if literals.push(literal).is_err() {
            return Err(AllocError);
        }
    }
    Ok(literals)
}

/// The literals that the nodes are. The stacks are emptied first.
pub(crate) fn built(
    alloc: Global,
    terms: &mut Vec<Term>,
    literals: &mut Vec<Literal>,
    nodes: &[Node],
) -> Result<Literals, AllocError>
    ensures { IfOk result (λ literals. literals.items ≡ (built_of nodes.now).literals) }
{
    terms.clear();
    literals.clear();
    let mut count = nodes.len();
    'nodes: while count > 0 {
        count -= 1;
        put(alloc, nodes[count], terms, literals)?;
    }
    unstacked(alloc, literals)
}
