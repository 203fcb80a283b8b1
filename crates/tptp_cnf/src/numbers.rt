//! Names are numbered by first occurrence.
//!
//! Functions and predicates are numbered over the whole file, each symbol by its label and its number of
//! arguments, and variables over one formula.
ghost use Rattle.std.specs.Prelude.{◌≡◌, ◌+◌, ◌-◌, ◌<◌, ◌^◌, [], ◌∷◌, length, map, OnOk, IfOk};
ghost use Rattle.tptp_grammar.specs.Views.{terminal_of};
ghost use Rattle.tptp_grammar.specs.Limits.{with_variables};
ghost use Rattle.tptp_cnf.specs.Meaning.{text_place};
ghost use Rattle.tptp_cnf.specs.Rows.{label_as, symbol_as, text_of_variable, number_in, with_item, names_of, names_signature, names_after, numbered as numbers_of};
ghost use Rattle.tptp_cnf.specs.Views.{item_value, names};

use crate::item::{Item, Node, Role};
use crate::symbols::Symbols;
use indexmap::IndexSet;
use me_terms::{Form, Label, Symbol, Text};
use std::alloc::{AllocError, Global};
use tptp_tokens::{Token, TokenKind, text_of};

/// The label that the token is as a name.
pub(crate) fn label(alloc: Global, token: &Token<'_>) -> Result<Label, AllocError>
    ensures { IfOk result (λ label. label ≡ label_as (terminal_of token.now)) }
{
    let form = match token.kind {
        TokenKind::LowerWord | TokenKind::SingleQuoted => Form::Word,
        TokenKind::Distinct => Form::Distinct,
        TokenKind::Digits => Form::Number,
        _ => {
            return Ok(Label {
                form: Form::Word,
                text: Text::new(alloc),
            });
        }
    };
    Ok(Label {
        form,
        text: text_of(alloc, token)?,
    })
}

/// The symbol of the name.
pub(crate) fn symbol(alloc: Global, item: &Item<'_>) -> Result<Symbol, AllocError>
    ensures { IfOk result (λ symbol. symbol ≡ symbol_as (item_value item.now)) }
{
    Ok(Symbol {
        label: label(alloc, &item.name)?,
        arity: item.arity,
    })
}

/// The text of a variable.
fn variable_text<'a>(token: &Token<'a>) -> &'a [u8]
    ensures { result.now ≡ text_of_variable (terminal_of token.now) }
{
    match token.kind {
        TokenKind::Variable => token.text,
        _ => b"".as_slice(),
    }
}

/// The number of the variable, which is added where it is new.
fn variable<'a>(variables: &mut IndexSet<&'a [u8]>, text: &'a [u8]) -> Result<u32, AllocError>
    requires { length variables.old.keys < 2 ^ 32 - 1 }
    ensures number { IfOk result (λ n. n ≡ text_place text.now (map (λ x. x.now) variables.new.keys)) }
    ensures added { OnOk result (map (λ x. x.now) variables.new.keys ≡ with_variables (map (λ x. x.now) variables.old.keys) (text.now ∷ [])) }
{
    match variables.insert_full(text) {
        Ok((number, _)) => Ok(number as u32),
        Err(_) => Err(AllocError),
    }
}

/// Takes all variables out.
#[tactic(auto, using(tptp_grammar::proofs::Variables::emptied))]
fn clear(variables: &mut IndexSet<&[u8]>)
    ensures { map (λ x. x.now) variables.new.keys ≡ [] }
{
    if !variables.is_empty() {
        variables.clear();
    }
}

/// The number of the name, which is added where it is new.
fn number<'a>(
    alloc: Global,
    symbols: &mut Symbols<'a>,
    variables: &mut IndexSet<&'a [u8]>,
    item: &Item<'a>,
) -> Result<u32, AllocError>
    requires functions { length symbols.old.functions < 2 ^ 32 - 1 }
    requires predicates { length symbols.old.predicates < 2 ^ 32 - 1 }
    requires variables { length variables.old.keys < 2 ^ 32 - 1 }
    ensures number { IfOk result (λ n. n ≡ number_in (names symbols.new (map (λ x. x.now) variables.new.keys)) (item_value item.now)) }
    ensures added { OnOk result (names symbols.new (map (λ x. x.now) variables.new.keys) ≡ with_item (names symbols.old (map (λ x. x.now) variables.old.keys)) (item_value item.now)) }
{
    match item.role {
        Role::Function => symbols.function(alloc, item),
        Role::Positive | Role::Negative => symbols.predicate(alloc, item),
        Role::Variable => variable(variables, variable_text(&item.name)),
    }
}

/// Puts the names of a formula by their numbers in the place of the nodes, and its variables in the place
/// of those before. New symbols are added.
pub(crate) fn number_all<'a>(
    alloc: Global,
    symbols: &mut Symbols<'a>,
    variables: &mut IndexSet<&'a [u8]>,
    nodes: &mut Vec<Node>,
    items: &[Item<'a>],
) -> Result<(), AllocError>
    requires { length symbols.old.functions + length symbols.old.predicates + length items.now < 2 ^ 32 - 1 }
    ensures nodes { OnOk result (nodes.new.items ≡ numbers_of (names_of symbols.old) (map item_value items.now)) }
    ensures added { OnOk result (symbols.new ≡ names_signature (names_after (names_of symbols.old) (map item_value items.now))) }
{
    clear(variables);
    nodes.clear();
    'items: for item in items {
        let number = number(alloc, symbols, variables, item)?;
        nodes.push(Node {
            role: item.role,
            number,
            arity: item.arity,
        })?;
    }
    Ok(())
}
