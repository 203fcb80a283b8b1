//! The symbols of flattened clauses.
//!
//! The functions are the elements. The predicates are a relation for each function, and behind these a
//! predicate for each that stands in a clause, in the order of first occurrence.
ghost use Rattle.std.specs.Prelude.{◌≡◌, ◌+◌, ◌<◌, ◌≤◌, ◌^◌, [], ◌∷◌, ◌++◌, decimal, eqb, map, length, slice_get, OnOk, IfOk};
ghost use Rattle.std.specs.List.{All, flat_map, IsDistinct};
ghost use Rattle.me_terms.specs.Variables.{first_ones, place_of};
ghost use Rattle.tptp_cnf.specs.Meaning.{word, symbol as symbol_of};
ghost use Rattle.finite_domain.specs.Flat as flat;

use indexmap::IndexSet;
use itoa::Buffer;
use me_terms::{Clause, Form, Label, Literal, Signature, Symbol, Text};
use std::alloc::{AllocError, Global};

/// The word of these bytes and a number in decimal.
pub(crate) fn numbered(alloc: Global, bytes: &[u8], number: u32) -> Result<Label, AllocError>
    ensures { IfOk result (λ label. label ≡ word (bytes.now ++ decimal number)) }
{
    let mut buffer = Buffer::new();
    let mut text = Text::from_slice(bytes, alloc)?;
    text.extend_from_slice(buffer.format(number).as_bytes())?;
    Ok(Label {
        form: Form::Word,
        text,
    })
}

/// The symbol of these bytes and a number in decimal.
fn symbol(alloc: Global, bytes: &[u8], number: u32, arity: u32) -> Result<Symbol, AllocError>
    ensures { IfOk result (λ symbol. symbol ≡ symbol_of (word (bytes.now ++ decimal number)) arity) }
{
    Ok(Symbol {
        label: numbered(alloc, bytes, number)?,
        arity,
    })
}

/// The literals of the clause.
pub(crate) fn literals_of(clause: &Clause) -> &[Literal]
    ensures { result.now ≡ clause.now.literals }
{
    clause.literals.as_slice()
}

/// The number of arguments of the symbol.
pub(crate) fn arity(symbol: &Symbol) -> u32
    ensures { result ≡ symbol.now.arity }
{
    symbol.arity
}

/// Notes the predicates of the literals.
fn note_predicates(order: &mut IndexSet<u32>, literals: &[Literal]) -> Result<(), AllocError>
    ensures { OnOk result (order.new.keys ≡ first_ones order.old.keys (map (λ l. l.atom.pred) literals.now)) }
{
    'literals: for literal in literals {
        if order.insert(literal.atom.pred).is_err() {
            return Err(AllocError);
        }
    }
    Ok(())
}

/// The predicates that stand in the clauses, in the order of first occurrence.
pub(crate) fn predicate_order(
    alloc: Global,
    clauses: &[Clause],
) -> Result<IndexSet<u32>, AllocError>
    ensures order { IfOk result (λ order. order.keys ≡ flat.order_of clauses.now) }
    ensures once { IfOk result (λ order. IsDistinct eqb order.keys) }
{
    let mut order = IndexSet::new(alloc);
    'clauses: for clause in clauses {
        note_predicates(&mut order, literals_of(clause))?;
    }
    // for the proof: each stands once
    let _count = order.len();
    Ok(order)
}

/// The predicate's place among those that stand in the clauses.
pub(crate) fn place(order: &IndexSet<u32>, pred: u32) -> usize
    ensures place { result ≡ place_of pred order.now.keys }
    ensures within { result ≤ length order.now.keys }
{
    match order.get_index_of(&pred) {
        Some(place) => place,
        None => order.len(),
    }
}

/// Adds the elements.
fn add_elements(alloc: Global, n: u32, made: &mut Signature) -> Result<(), AllocError>
    requires none { made.old.functions ≡ [] }
    requires few { n < 2 ^ 31 }
    ensures functions { OnOk result (made.new.functions ≡ flat.elements n) }
    ensures predicates { OnOk result (made.new.predicates ≡ made.old.predicates) }
{
    'elements: for k in 0..n {
        made.add_fun(symbol(alloc, b"d", k + 1, 0)?)?;
    }
    Ok(())
}

/// Adds the relations of the functions.
fn add_relations(
    alloc: Global,
    signature: &Signature,
    made: &mut Signature,
) -> Result<(), AllocError>
    requires none { made.old.predicates ≡ [] }
    requires few { length signature.now.functions < 2 ^ 31 }
    requires arguments { All (λ s. s.arity < 2 ^ 31) signature.now.functions }
    ensures functions { OnOk result (made.new.functions ≡ made.old.functions) }
    ensures predicates { OnOk result (made.new.predicates ≡ flat.relations_from 0 signature.now.functions) }
{
    'functions: for j in 0..signature.fun_count() {
        let Some(function) = signature.fun(j) else {
            unreachable!();
        };
        made.add_pred(symbol(alloc, b"f", j, arity(function) + 1)?)?;
    }
    Ok(())
}

/// The number of arguments of a predicate that there is.
fn arity_of(signature: &Signature, pred: u32) -> u32
    ensures { result ≡ flat.arity_of (slice_get signature.now.predicates pred) }
{
    match signature.pred(pred) {
        Some(predicate) => predicate.arity,
        None => 0,
    }
}

/// Adds the predicates that stand in clauses behind the relations.
fn add_copies(
    alloc: Global,
    signature: &Signature,
    order: &IndexSet<u32>,
    made: &mut Signature,
) -> Result<(), AllocError>
    requires relations { made.old.predicates ≡ flat.relations_from 0 signature.now.functions }
    requires functions { length signature.now.functions < 2 ^ 31 }
    requires few { length order.now.keys < 2 ^ 31 }
    requires known { All (λ p. p < 2 ^ 31) order.now.keys }
    ensures functions { OnOk result (made.new.functions ≡ made.old.functions) }
    ensures predicates { OnOk result (made.new.predicates ≡ made.old.predicates ++ map (flat.copy_of signature.now.predicates) order.now.keys) }
{
    'predicates: for pred in order.as_slice() {
        made.add_pred(symbol(alloc, b"q", *pred, arity_of(signature, *pred))?)?;
    }
    Ok(())
}

/// The symbols over `n` elements.
pub(crate) fn flat_signature(
    alloc: Global,
    signature: &Signature,
    n: u32,
    order: &IndexSet<u32>,
) -> Result<Signature, AllocError>
    requires size { n < 2 ^ 31 }
    requires functions { length signature.now.functions < 2 ^ 31 }
    requires arguments { All (λ s. s.arity < 2 ^ 31) signature.now.functions }
    requires few { length order.now.keys < 2 ^ 31 }
    requires known { All (λ p. p < 2 ^ 31) order.now.keys }
    ensures functions { IfOk result (λ made. made.functions ≡ flat.elements n) }
    ensures predicates { IfOk result (λ made. made.predicates ≡ flat.relations_from 0 signature.now.functions ++ map (flat.copy_of signature.now.predicates) order.now.keys) }
{
    let mut made = Signature::new(alloc);
    add_elements(alloc, n, &mut made)?;
    add_relations(alloc, signature, &mut made)?;
    add_copies(alloc, signature, order, &mut made)?;
    Ok(made)
}
