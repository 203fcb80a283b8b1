//! Literals as they stand in a line.
//!
//! A literal is read from its tokens with no look at how they are joined. So its text may be another than
//! what it was read from, and who reads a line compares.
ghost use Rattle.std.specs.Prelude.{◌≡◌, ◌+◌, ◌-◌, ◌≤◌, ◌<◌, ◌^◌, [], ◌∷◌, length, IfOk, IfSome};
ghost use Rattle.std.specs.List.{AllByRecursion};
ghost use Rattle.szs_read.specs.Finds.{FindsLiteral, FindsLiterals};
ghost use Rattle.szs_read.specs.Longer.{IsLonger};
ghost use Rattle.szs_read.specs.RowItems.{IsItem};
ghost use Rattle.szs_read.specs.Rows.{AreRead};

use crate::build::build;
use crate::list::push;
use crate::number::{number_items, number_predicate};
use crate::row::{Row, Stop, read_row};
use me_terms::{Atom, Literal, Literals, Signature, depth_of};
use std::alloc::{AllocError, Global};
use tptp_tokens::Tokenizer;

/// The literal of the names, if so many brackets may be open in it. New symbols are added.
pub(crate) fn literal_of(
    alloc: Global,
    signature: &mut Signature,
    row: &Row<'_>,
    brackets: u64,
) -> Result<Option<Literal>, AllocError>
    requires items { AllByRecursion IsItem row.now.items.items }
    requires room { length signature.old.functions + length signature.old.predicates + length row.now.items.items < 2 ^ 32 - 1 }
    requires brackets { brackets ≤ 1000 }
    ensures read { IfOk result (λ read. IfSome read (λ literal. AreRead signature.old signature.new brackets (literal ∷ []))) }
    ensures sign { IfOk result (λ read. IfSome read (λ literal. literal.positive ≡ row.now.positive)) }
    ensures longer { IsLonger signature.old signature.new (length row.now.items.items) 0 }
    ensures same { IfOk result (FindsLiteral signature.old signature.new brackets row.now) }
{
    let Some((first, others)) = row.items.split_first() else {
        return Ok(None);
    };
    let Some(pred) = number_predicate(alloc, signature, first)? else {
        return Ok(None);
    };
    let Some(nodes) = number_items(alloc, signature, others)? else {
        return Ok(None);
    };
    let Some(args) = build(alloc, &nodes, first.arity)? else {
        return Ok(None);
    };
    let literal = Literal {
        positive: row.positive,
        atom: Atom { pred, args },
    };
    if depth_of(&literal) > brackets {
        return Ok(None);
    }
    Ok(Some(literal))
}

/// The literals up to the first token that is no bar between two of them, which is taken too. There is
/// none where `$false` stands. New symbols are added.
pub(crate) fn read_literals(
    alloc: Global,
    tokens: &mut Tokenizer<'_>,
    signature: &mut Signature,
    brackets: u64,
) -> Result<Option<Literals>, AllocError>
    requires room { length signature.old.functions + length signature.old.predicates + length tokens.old.bytes < 2 ^ 32 - 1 }
    requires brackets { brackets ≤ 1000 }
    ensures read { IfOk result (λ read. IfSome read (λ literals. AreRead signature.old signature.new brackets literals.items)) }
    ensures longer { IsLonger signature.old signature.new (length tokens.old.bytes) (length tokens.new.bytes) }
    ensures same { IfOk result (FindsLiterals signature.old signature.new brackets tokens.old.bytes tokens.new.bytes) }
{
    let mut literals = Literals::new(alloc);
    'literals: loop {
        let (row, stop) = read_row(alloc, tokens)?;
        if row.items.is_empty() {
            return Ok(Some(literals));
        }
        let Some(literal) = literal_of(alloc, signature, &row, brackets)? else {
            return Ok(None);
        };
        push(&mut literals, literal)?;
        match stop {
            Stop::Bar => {}
            Stop::Other => return Ok(Some(literals)),
        }
    }
}
