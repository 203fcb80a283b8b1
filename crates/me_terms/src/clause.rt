//! Clauses of a problem.
//!
//! A clause keeps the number and the label of its formula in the file, and its literals in order.
use crate::atom::Literals;
use crate::sequence::Sequence;
use crate::symbol::Label;
use std::marker::Model;

/// A clause of a problem. `number` is the place of its formula in the file, from 1, and `label` the
/// formula's name there.
#[derive(Drop)]
pub struct Clause {
    pub number: u32,
    pub label: Label,
    pub literals: Literals,
}

impl Model for Clause {
    ghost use Rattle.std.specs.Coded.{codes};
    ghost use Rattle.me_terms.specs.Terms.{arguments_code};
    ghost use Rattle.me_terms.specs.Values.{ClauseValue};

    ghost Value = { ClauseValue };

    ghost coded = { Prim.hlevel (codes, arguments_code) };

    ghost view = { λ c. record { number = c.number; label = c.label; literals = c.literals.items } };
}

pub type Clauses = Sequence<Clause>;
