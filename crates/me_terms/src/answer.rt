//! What a search does at a context, and what it answers in the end.
//!
//! A refutation is a list of ground instances, and a model is a context.
use crate::atom::{Literal, Literals};
use crate::bounds::Bound;
use crate::entry::{Entries, Entry, Kind};
use crate::sequence::Sequence;
use crate::tuple::Tuple;
use std::marker::Model;

/// The literals of a clause of a problem under a substitution. `clause` is the clause's place in the
/// problem, from 0.
#[derive(Drop)]
pub struct Instance {
    pub clause: u32,
    pub literals: Literals,
}

impl Model for Instance {
    ghost use Rattle.std.specs.Coded.{codes};
    ghost use Rattle.me_terms.specs.Terms.{arguments_code};
    ghost use Rattle.me_terms.specs.Values.{InstanceValue};

    ghost Value = { InstanceValue };

    ghost coded = { Prim.hlevel (codes, arguments_code) };

    ghost view = { λ i. record { clause = i.clause; literals = i.literals.items } };
}

impl PartialEq for Instance {
    ghost use Rattle.std.specs.Cmp.{partial_equiv_from_equiv};
    ghost use Rattle.me_terms.specs.FirstOccurrences.{same_instance};
    ghost use Rattle.me_terms.specs.InstanceEqualityLaws.{instance_laws};

    ghost eq = { same_instance };

    ghost laws = { partial_equiv_from_equiv instance_laws };

    fn eq(&self, other: &Self) -> bool {
        self.clause == other.clause && self.literals == other.literals
    }
}

impl Eq for Instance {
    ghost use Rattle.me_terms.specs.InstanceEqualityLaws.{instance_laws};

    ghost laws = { instance_laws };
}

pub type Instances = Sequence<Instance>;

/// What is answered to a problem within bounds.
#[derive(Drop)]
pub enum Answer {
    /// No interpretation makes every clause true: no assignment of truth values satisfies the list.
    Unsatisfiable { list: Instances },
    /// The interpretation that the context induces makes every clause true. The context has all its
    /// entries, hidden ones and the pseudo-literal too.
    Satisfiable { context: Entries },
    /// The bound that the search met.
    GaveUp { bound: Bound },
}

/// What a search does next at a context.
#[derive(Drop)]
pub enum Next {
    /// The context is refuted by the clause at that place of the problem and a tuple of positions.
    Close { clause: u32, tuple: Tuple },
    /// The entry follows from a clause and is added.
    Assert { entry: Entry },
    /// The literal is added on the left, and its complement of the same kind on the right.
    Split { literal: Literal, kind: Kind },
    /// Nothing is left to do: the context induces a model.
    Exhausted,
    /// Something is left to do, but a bound stands in the way.
    Bounded { bound: Bound },
}
