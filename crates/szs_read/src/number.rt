//! Names by their numbers in the signature.
//!
//! A symbol that the signature has not yet is added. It is a label with a number of arguments, so a name
//! has its number once its arguments have been counted.
ghost use Rattle.std.specs.Prelude.{◌≡◌, ◌+◌, ◌-◌, ◌<◌, ◌^◌, ◌++◌, ℕ, List, [], ◌∷◌, decimal, length, map, Some, IsTrue, IfOk, IfSome};
ghost use Rattle.std.specs.List.{AllByRecursion};
ghost use Rattle.me_terms.specs.Labels.{IsFunctionForm, IsFunctionSymbol, IsPredicateSymbol};
ghost use Rattle.me_terms.specs.Values.{SymbolValue};
ghost use Rattle.tptp_cnf.specs.Meaning.{with_symbols};
ghost use Rattle.tptp_tokens.specs.Tokens.{token_value};
ghost use Rattle.szs_read.specs.Coming.{IfSomeIs, IsAddedAs, renumbered, AreNodesToCome};
ghost use Rattle.szs_read.specs.LineTokens.{variable_token};
ghost use Rattle.me_terms.specs.declared.symbol.Form.TheVariants.{Word};
ghost use Rattle.szs_read.specs.Longer.{IsLonger};
ghost use Rattle.szs_read.specs.RowItems.{IsItem, item_value, symbol_name, node_name};
ghost use Rattle.szs_read.specs.Rows.{AreNumbered, IsPredicateAt};
ghost use Rattle.szs_read.specs.declared.number.Node.TheVariants.{Function};

use crate::row::Item;
use crate::token::{label_of, number_of};
use me_terms::{Form, Label, Signature, Symbol};
use std::alloc::{AllocError, Global};
use tptp_tokens::{Token, TokenKind};

/// A variable, or a function that so many arguments follow.
#[derive(Clone, Copy, Debug, PartialEq, Eq)]
pub(crate) enum Node {
    Variable(u32),
    Function { f: u32, arity: u32 },
}

/// The number of the variable that is written as the token.
fn variable_of(token: &Token<'_>) -> Option<u32>
    ensures { (x : ℕ) → x < 2 ^ 32 → token_value token.now ≡ variable_token x → result ≡ Some x }
{
    match token.text.split_first() {
        Some((b'X', digits)) => number_of(digits),
        _ => None,
    }
}

/// Whether a function with so many arguments may have the label.
fn is_function_label(label: &Label, arity: u32) -> bool
    ensures form { IsTrue result → IsFunctionForm label.now.form arity }
    ensures all { IsFunctionForm label.now.form arity → IsTrue result }
{
    match label.form {
        Form::Word => true,
        Form::Distinct => arity == 0,
        Form::Number => false,
    }
}

/// Whether the label is a word.
fn is_word(label: &Label) -> bool
    ensures form { IsTrue result → label.now.form ≡ Word }
    ensures all { label.now.form ≡ Word → IsTrue result }
{
    match label.form {
        Form::Word => true,
        _ => false,
    }
}

/// The number of the predicate, which is added where it is new.
pub(crate) fn number_predicate(
    alloc: Global,
    signature: &mut Signature,
    item: &Item<'_>,
) -> Result<Option<u32>, AllocError>
    requires item { IsItem item.now }
    requires room { length signature.old.functions + length signature.old.predicates < 2 ^ 32 - 1 }
    ensures number { IfOk result (λ pred. IfSome pred (λ p. IsPredicateAt signature.old.predicates signature.new.predicates p item.now.arity)) }
    ensures added { IfOk result (λ read. (symbol : SymbolValue) → IsPredicateSymbol symbol → item_value item.now ≡ symbol_name symbol → IsAddedAs read symbol signature.old.predicates signature.new.predicates) }
    ensures functions { signature.new.functions ≡ signature.old.functions }
    ensures longer { IsLonger signature.old signature.new 1 0 }
{
    match label_of(alloc, &item.name)? {
        Some(label) if is_word(&label) => Ok(Some(signature.add_pred(Symbol {
            label,
            arity: item.arity,
        })?)),
        _ => Ok(None),
    }
}

/// The number of the function, which is added where it is new.
fn number_function(
    alloc: Global,
    signature: &mut Signature,
    item: &Item<'_>,
) -> Result<Option<u32>, AllocError>
    requires item { IsItem item.now }
    requires room { length signature.old.functions + length signature.old.predicates < 2 ^ 32 - 1 }
    ensures number { IfOk result (λ number. IfSome number (λ f. AreNumbered signature.old.functions signature.new.functions (Function f item.now.arity ∷ []))) }
    ensures added { IfOk result (λ read. (symbol : SymbolValue) → IsFunctionSymbol symbol → item_value item.now ≡ symbol_name symbol → IsAddedAs read symbol signature.old.functions signature.new.functions) }
    ensures predicates { signature.new.predicates ≡ signature.old.predicates }
    ensures longer { IsLonger signature.old signature.new 1 0 }
{
    match label_of(alloc, &item.name)? {
        Some(label) if is_function_label(&label, item.arity) => Ok(Some(signature.add_fun(
            Symbol {
                label,
                arity: item.arity,
            },
        )?)),
        _ => Ok(None),
    }
}

/// The node of the name.
fn number_item(
    alloc: Global,
    signature: &mut Signature,
    item: &Item<'_>,
) -> Result<Option<Node>, AllocError>
    requires item { IsItem item.now }
    requires room { length signature.old.functions + length signature.old.predicates < 2 ^ 32 - 1 }
    ensures number { IfOk result (λ number. IfSome number (λ node. AreNumbered signature.old.functions signature.new.functions (node ∷ []))) }
    ensures node { IfOk result (λ read. (end others : List SymbolValue) (node : Node) → AreNodesToCome signature.old.functions end (node ∷ []) others → item_value item.now ≡ node_name end node → (read ≡ Some (renumbered end node)) × (end ≡ with_symbols signature.new.functions others)) }
    ensures predicates { signature.new.predicates ≡ signature.old.predicates }
    ensures longer { IsLonger signature.old signature.new 1 0 }
{
    match item.name.kind {
        TokenKind::Variable => match variable_of(&item.name) {
            Some(x) => Ok(Some(Node::Variable(x))),
            None => Ok(None),
        },
        _ => match number_function(alloc, signature, item)? {
            Some(f) => Ok(Some(Node::Function {
                f,
                arity: item.arity,
            })),
            None => Ok(None),
        },
    }
}

/// The nodes of the names, in order.
pub(crate) fn number_items(
    alloc: Global,
    signature: &mut Signature,
    items: &[Item<'_>],
) -> Result<Option<Vec<Node>>, AllocError>
    requires items { AllByRecursion IsItem items.now }
    requires room { length signature.old.functions + length signature.old.predicates + length items.now < 2 ^ 32 - 1 }
    ensures numbers { IfOk result (λ numbers. IfSome numbers (λ nodes. AreNumbered signature.old.functions signature.new.functions nodes.items)) }
    ensures nodes { IfOk result (λ read. (end others : List SymbolValue) (nodes : List Node) → AreNodesToCome signature.old.functions end nodes others → map item_value items.now ≡ map (node_name end) nodes → IfSomeIs read (λ found. found.items ≡ map (renumbered end) nodes) × (end ≡ with_symbols signature.new.functions others)) }
    ensures predicates { signature.new.predicates ≡ signature.old.predicates }
    ensures longer { IsLonger signature.old signature.new (length items.now) 0 }
{
    let mut nodes = Vec::new(alloc);
    'items: for item in items {
        match number_item(alloc, signature, item)? {
            Some(node) => nodes.push(node)?,
            None => return Ok(None),
        }
    }
    Ok(Some(nodes))
}
