//! Entries of a context: literals with a kind, and why they stand there.
//!
//! A context is a list of entries, the first of which is the pseudo-literal. The reason of an entry
//! tells by which rule it came.
use crate::atom::Pattern;
use crate::sequence::Sequence;
use crate::tuple::Tuple;
use std::marker::Model;

/// How an entry speaks of the instances of its atom.
#[derive(Clone, Copy, Debug, PartialEq, Eq)]
pub enum Kind {
    /// It stands for all its instances.
    Universal,
    /// It stands for its instances but for exceptions by more specific entries.
    Parametric,
}

/// By which rule an entry came into its context.
#[derive(Drop)]
pub enum Reason {
    /// It is the pseudo-literal, with which a context begins.
    Pseudo,
    /// It follows from a clause: the literal at `place` of the clause at place `clause` of the problem,
    /// with the entries at the positions of the tuple against the other places.
    Asserted {
        clause: u32,
        place: u32,
        tuple: Tuple,
    },
    /// It was split on, and this is the left branch.
    SplitLeft,
    /// Its complement was split on, and this is the right branch.
    SplitRight,
}

/// A literal of a context. The variables of its atom are numbered 0, 1, .. by first occurrence.
#[derive(Drop)]
pub struct Entry {
    pub positive: bool,
    pub atom: Pattern,
    pub kind: Kind,
    pub reason: Reason,
}

impl Model for Entry {
    ghost use Rattle.std.specs.Coded.{codes};
    ghost use Rattle.me_terms.specs.Terms.{arguments_code};
    ghost use Rattle.me_terms.specs.Values.{EntryValue};

    ghost Value = { EntryValue };

    ghost coded = { Prim.hlevel (codes, arguments_code) };

    ghost use Rattle.me_terms.specs.ReasonViews.{reason_value};

    ghost view = { λ e. record { positive = e.positive; atom = e.atom; kind = e.kind; reason = reason_value e.reason } };
}

pub type Entries = Sequence<Entry>;
