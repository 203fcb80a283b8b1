//! Places of literals by a number and a sign.
//!
//! A place that is filed stands at the end of the list of its literal's number and sign, and all other lists
//! stay. The lists of numbers of which nothing was filed are empty. The postings of an inverted index.
ghost use Rattle.std.specs.Prelude.{◌≡◌, ◌<◌, ◌-◌, ◌^◌, Bool, [], ◌∷◌, ◌++◌, length, OnOk};
ghost use Rattle.clause_pairs.specs.Filed.{of_sign, filed, Files, AreAsBefore};

use crate::clause_place::ClausePlace;
use std::alloc::{AllocError, Global};
use std::marker::Model;

/// Places of literals, by their signs.
#[derive(Drop)]
pub(crate) struct BySign {
    positive: Vec<ClausePlace>,
    negative: Vec<ClausePlace>,
}

impl Model for BySign {
    ghost use Rattle.std.specs.Coded.{codes};
    ghost use Rattle.clause_pairs.specs.Filed.{BySignValue};

    ghost Value = { BySignValue };

    ghost coded = { Prim.hlevel (codes) };

    ghost view = { λ b. record { positive = b.positive.items; negative = b.negative.items } };
}

impl BySign {
    /// No places.
    fn new(alloc: Global) -> Self
        ensures { result ≡ record { positive = []; negative = [] } }
    {
        BySign {
            positive: Vec::new(alloc),
            negative: Vec::new(alloc),
        }
    }

    /// Puts a place behind the others of that sign.
    fn put(&mut self, positive: bool, at: ClausePlace) -> Result<(), AllocError>
        ensures here { OnOk result (of_sign positive self.new ≡ of_sign positive self.old ++ at ∷ []) }
        ensures others { OnOk result ((sign : Bool) → ¬ (sign ≡ positive) → of_sign sign self.new ≡ of_sign sign self.old) }
    {
        if positive {
            self.positive.push(at)?;
        } else {
            self.negative.push(at)?;
        }
        Ok(())
    }

    /// The places of that sign.
    fn of(&self, positive: bool) -> &[ClausePlace]
        ensures { result.now ≡ of_sign positive self.now }
    {
        if positive {
            self.positive.as_slice()
        } else {
            self.negative.as_slice()
        }
    }
}

/// Puts empty lists behind the others, up to that number.
fn make_room(alloc: Global, lists: &mut Vec<BySign>, number: usize) -> Result<(), AllocError>
    requires { number < 2 ^ 64 - 1 }
    ensures same { OnOk result (AreAsBefore lists.old.items lists.new.items) }
    ensures room { OnOk result (number < length lists.new.items) }
{
    for _number in lists.len()..number + 1 {
        lists.push(BySign::new(alloc))?;
    }
    Ok(())
}

/// Files a place.
pub(crate) fn file(
    alloc: Global,
    lists: &mut Vec<BySign>,
    number: usize,
    positive: bool,
    at: ClausePlace,
) -> Result<(), AllocError>
    requires { number < 2 ^ 64 - 1 }
    ensures { OnOk result (Files number positive at lists.old.items lists.new.items) }
{
    make_room(alloc, lists, number)?;
    lists[number].put(positive, at)?;
    Ok(())
}

/// The places that were filed under that number and sign.
pub(crate) fn filed_at(lists: &[BySign], number: usize, positive: bool) -> &[ClausePlace]
    ensures { result.now ≡ filed lists.now number positive }
{
    match lists.get(number) {
        Some(list) => list.of(positive),
        None => &[],
    }
}
