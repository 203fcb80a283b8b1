//! What a printed answer claims.
//!
//! A refutation claims that its lines are instances of clauses that no truth assignment satisfies, and a
//! model that its lines are the visible entries of a context.
use me_terms::{Bound, Kind, Label, Literal, Literals, Sequence, Start};
use std::marker::Model;

/// The most round brackets that may be open at once in a line. Those inside quotes don't count.
pub const MAX_OPEN: u64 = 1_000;

/// A line of a refutation: literals, with the number and the label of the formula of which they are to be
/// an instance.
#[derive(Drop)]
pub struct InstanceLine {
    pub number: u32,
    pub label: Label,
    pub literals: Literals,
}

impl Model for InstanceLine {
    ghost use Rattle.std.specs.Coded.{codes};
    ghost use Rattle.me_terms.specs.Terms.{arguments_code};
    ghost use Rattle.szs_read.specs.Values.{InstanceLineValue};

    ghost Value = { InstanceLineValue };

    ghost coded = { Prim.hlevel (codes, arguments_code) };

    ghost view = { λ l. record { number = l.number; label = l.label; literals = l.literals.items } };
}

pub type InstanceLines = Sequence<InstanceLine>;

/// A line of a model: a literal with its kind, and the position at which it stands in the context.
#[derive(Drop)]
pub struct EntryLine {
    pub at: u32,
    pub literal: Literal,
    pub kind: Kind,
}

pub type EntryLines = Sequence<EntryLine>;

/// What an answer claims of a problem.
#[derive(Drop)]
pub enum Claim {
    /// No interpretation makes every clause true, as the lines show.
    Refuted { lines: InstanceLines },
    /// The start's pseudo-literal and the lines give an interpretation that makes every clause true.
    Model { start: Start, lines: EntryLines },
    /// The search met the bound.
    Open { bound: Bound },
}
