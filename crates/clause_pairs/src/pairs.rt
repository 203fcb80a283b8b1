//! The pairs of a problem's clauses with the entries of a context, as entries come and go.
ghost use Rattle.std.specs.Prelude.{◌≡◌, ◌<◌, ◌≤◌, [], ◌∷◌, length, slice_get, Some, map, IfOk, OnOk, OnErr};
ghost use Rattle.me_terms.specs.Values.{EntryValue, ProblemValue};
ghost use Rattle.me_terms.specs.Context.{Context, add};
ghost use Rattle.me_terms.specs.Validity.{IsValid};
ghost use Rattle.me_terms.specs.declared.bounds.TheConstants.{MAX_ENTRIES};
ghost use Rattle.clause_pairs.specs.Pairs.{ArePairs};
ghost use Rattle.clause_pairs.specs.Values.{numbers_of};

use crate::clause_place::ClausePlace;
use crate::index::Index;
use crate::lists::{put_all_at, take_all_at};
use crate::meeting::indexed_against;
use me_terms::{Clause, Entry, Problem};
use std::alloc::{AllocError, Global};
use std::marker::Model;

/// For each place of each clause the positions of the entries that stand against its literal, hidden ones
/// too. The pseudo-literal, at position 0, is in no list: it stands against each literal of the other sign.
#[derive(Drop)]
pub struct Pairs {
    lists: Vec<Vec<Vec<u32>>>,
    entered: Vec<Vec<ClausePlace>>,
    index: Index,
}

impl Model for Pairs {
    ghost use Rattle.std.specs.Coded.{codes};
    ghost use Rattle.me_terms.specs.Terms.{arguments_code};
    ghost use Rattle.clause_pairs.specs.Values.{PairsValue, lists_of, places_of};

    ghost Value = { PairsValue };

    ghost coded = { Prim.hlevel (codes, arguments_code) };

    ghost view = { λ p. record { lists = lists_of p.lists.items; entered = places_of p.entered.items; index = p.index } };
}

/// An empty list for each literal of the clause.
fn empty_lists(alloc: Global, clause: &Clause) -> Result<Vec<Vec<u32>>, AllocError>
    ensures { IfOk result (λ lists. numbers_of lists.items ≡ map (λ l. []) clause.now.literals) }
{
    let mut lists = Vec::new(alloc);
    for _literal in clause.literals.as_slice() {
        lists.push(Vec::new(alloc))?;
    }
    Ok(lists)
}

impl Pairs {
    /// The pairs where the pseudo-literal stands alone.
    pub fn new(alloc: Global, problem: &Problem) -> Result<Self, AllocError>
        requires { IsValid problem.now }
        ensures { IfOk result (λ pairs. (e : EntryValue) → ArePairs problem.now (e ∷ []) pairs) }
    {
        let mut lists = Vec::new(alloc);
        for clause in problem.clauses.as_slice() {
            lists.push(empty_lists(alloc, clause)?)?;
        }
        let none = Vec::new(alloc);
        Ok(Pairs {
            lists,
            entered: vec![in alloc; none]?,
            index: Index::new(alloc, problem)?,
        })
    }

    /// Takes in an entry that comes behind those that were taken in, or changes nothing where memory is out.
    pub fn enter(
        &mut self,
        alloc: Global,
        problem: &Problem,
        entry: &Entry,
    ) -> Result<(), AllocError>
        requires valid { IsValid problem.now }
        requires fits { (context : Context) × ArePairs problem.now context self.old × (0 < length context) × (length context < MAX_ENTRIES) }
        ensures ok { OnOk result ((context : Context) → ArePairs problem.now context self.old → ArePairs problem.now (add context entry.now) self.new) }
        ensures err { OnErr result ((context : Context) → ArePairs problem.now context self.old → ArePairs problem.now context self.new) }
    {
        let places = indexed_against(alloc, problem, entry, &self.index)?;
        self.entered.reserve(1)?;
        let position = self.entered.len() as u32;
        match put_all_at(&mut self.lists, &places, position) {
            Ok(()) => {
                self.entered.push_reserved(places);
                Ok(())
            }
            Err(AllocError) => {
                take_all_at(&mut self.lists, &places, position);
                Err(AllocError)
            }
        }
    }

    /// Takes the last entry off.
    pub fn leave(&mut self)
        requires fits { (problem : ProblemValue) × (context : Context) × (e : EntryValue) × ArePairs problem (add context e) self.old × (0 < length context) × (length context ≤ MAX_ENTRIES) }
        ensures { (problem : ProblemValue) (context : Context) (e : EntryValue) → ArePairs problem (add context e) self.old → 0 < length context → ArePairs problem context self.new }
    {
        let Some(places) = self.entered.pop() else {
            return;
        };
        let position = self.entered.len() as u32;
        take_all_at(&mut self.lists, &places, position);
    }

    /// For each place of the clause the positions of the entries that stand against its literal, rising,
    /// hidden ones too, but for that of the pseudo-literal.
    pub fn of_clause(&self, clause: u32) -> &[Vec<u32>]
        requires { clause < length self.now.lists }
        ensures { slice_get self.now.lists clause ≡ Some (numbers_of result.now) }
    {
        self.lists[clause as usize].as_slice()
    }

    /// The places against whose literals the entry at position `k` stands, which isn't the pseudo-literal.
    pub fn places_of(&self, k: u32) -> &[ClausePlace]
        requires { k < length self.now.entered }
        ensures { slice_get self.now.entered k ≡ Some result.now }
    {
        self.entered[k as usize].as_slice()
    }
}
