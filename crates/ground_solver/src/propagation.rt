//! Unit propagation by two watched literals.
//!
//! What a list of watches says decides only which clauses are looked at, and no answer rests on it.
ghost use Rattle.std.specs.Prelude.{◌≡◌, ℕ, ◌<◌, ◌^◌, length, vec_len, OnOk, IfOk, IfSome};
ghost use Rattle.ground_solver.specs.Standings.{IsRefutedAt};
ghost use Rattle.ground_solver.specs.Underway.{IsUnderway, IsOnward};

use crate::search::Search;
use crate::signed::Signed;
use crate::standing::{Standing, Watched, standing_of, watch};
use std::alloc::{AllocError, Global};
use std::mem;

/// The places of a clause's watched literals.
#[derive(Clone, Copy, Drop)]
struct Pair {
    first: usize,
    second: usize,
}

/// The clauses that watch an atom's literals.
#[derive(Drop)]
struct Watchers {
    positive: Vec<u32>,
    negative: Vec<u32>,
}

/// Which clauses watch which literals.
#[derive(Drop)]
pub(crate) struct Watches {
    alloc: Global,
    by_atom: Vec<Watchers>,
    pairs: Vec<Pair>,
    /// Clauses of less than two literals, which are looked at once.
    short: Vec<u32>,
}

impl Watchers {
    fn of(&mut self, positive: bool) -> &mut Vec<u32> {
        if positive {
            &mut self.positive
        } else {
            &mut self.negative
        }
    }
}

impl Watches {
    /// Each clause watches its first two literals.
    pub fn new(alloc: Global, clauses: &[Vec<Signed>], atoms: u32) -> Result<Self, AllocError>
        requires { length clauses.now < 2 ^ 32 }
    {
        let mut watches = Watches {
            alloc,
            by_atom: Vec::new(alloc),
            pairs: Vec::new(alloc),
            short: Vec::new(alloc),
        };
        for _ in 0..atoms {
            watches.by_atom.push(Watchers {
                positive: Vec::new(alloc),
                negative: Vec::new(alloc),
            })?;
        }
        for place in 0..clauses.len() as u32 {
            watches.enter(&clauses[place as usize], place)?;
        }
        Ok(watches)
    }

    /// A clause is entered at the next place.
    fn enter(&mut self, clause: &[Signed], place: u32) -> Result<(), AllocError> {
        self.pairs.push(Pair {
            first: 0,
            second: 1,
        })?;
        match clause {
            [first, second, ..] => {
                self.add(*first, place)?;
                self.add(*second, place)
            }
            _ => {
                self.short.push(place)?;
                Ok(())
            }
        }
    }

    /// The clause at that place watches the literal too.
    fn add(&mut self, literal: Signed, place: u32) -> Result<(), AllocError> {
        if let Some(watchers) = self.by_atom.get_mut(literal.atom as usize) {
            watchers.of(literal.positive).push(place)?;
        }
        Ok(())
    }

    /// Takes the list of the clauses that watch a literal out.
    fn take(&mut self, literal: Signed) -> Vec<u32> {
        match self.by_atom.get_mut(literal.atom as usize) {
            Some(watchers) => mem::replace(watchers.of(literal.positive), Vec::new(self.alloc)),
            None => Vec::new(self.alloc),
        }
    }

    /// Puts the list of the clauses that watch a literal back.
    fn put(&mut self, literal: Signed, list: Vec<u32>) {
        if let Some(watchers) = self.by_atom.get_mut(literal.atom as usize) {
            *watchers.of(literal.positive) = list;
        }
    }
}

/// What comes of a clause whose watched literal has become false.
#[derive(Clone, Copy, Drop)]
enum Visit {
    /// It watches the literal on.
    Stays,
    /// It watches another literal in its place.
    Moved,
    /// It has only false literals.
    Refuted,
}

impl Watches {
    /// The place of a clause's watched literal that isn't the false one.
    fn other(&self, clause: &[Signed], place: u32, falsified: Signed) -> usize {
        match self.pairs.get(place as usize) {
            Some(pair) => match clause.get(pair.first) {
                Some(first) if *first == falsified => pair.second,
                _ => pair.first,
            },
            None => 0,
        }
    }

    /// The clause watches the literals at these places.
    fn replace(&mut self, place: u32, first: usize, second: usize) {
        if let Some(pair) = self.pairs.get_mut(place as usize) {
            *pair = Pair { first, second };
        }
    }

    /// Looks at the clause at that place, of whose watched literals one has become false.
    fn visit(
        &mut self,
        clauses: &[Vec<Signed>],
        search: &mut Search,
        place: u32,
        falsified: Signed,
    ) -> Result<Visit, AllocError>
        requires underway { (n : ℕ) × IsUnderway clauses.now n search.old }
        ensures onward { OnOk result (IsOnward clauses.now search.old search.new) }
        ensures head { search.new.head ≡ search.old.head }
        ensures refuted { IfOk result (λ visit. visit ≡ Visit.Refuted → IsRefutedAt clauses.now search.new.values.items place) }
    {
        let Some(clause) = clauses.get(place as usize) else {
            return Ok(Visit::Stays);
        };
        let other = self.other(clause, place, falsified);
        if clause.len() <= other {
            return Ok(Visit::Stays);
        }
        match watch(clause, &search.values, other) {
            Watched::Satisfied => Ok(Visit::Stays),
            Watched::Replaced(k) => {
                self.replace(place, other, k);
                self.add(clause[k], place)?;
                Ok(Visit::Moved)
            }
            Watched::Last => {
                search.force_last(clauses, place, other)?;
                Ok(Visit::Stays)
            }
            Watched::Spent => Ok(Visit::Refuted),
        }
    }

    /// Looks at the clause at that place unless one was found before that has only false literals. Whether
    /// the clause watches the literal on.
    fn visit_next(
        &mut self,
        clauses: &[Vec<Signed>],
        search: &mut Search,
        place: u32,
        falsified: Signed,
        found: &mut Option<u32>,
    ) -> Result<bool, AllocError>
        requires underway { (n : ℕ) × IsUnderway clauses.now n search.old }
        requires found { IfSome found.old (λ place. IsRefutedAt clauses.now search.old.values.items place) }
        ensures onward { OnOk result (IsOnward clauses.now search.old search.new) }
        ensures head { search.new.head ≡ search.old.head }
        ensures refuted { OnOk result (IfSome found.new (λ place. IsRefutedAt clauses.now search.new.values.items place)) }
    {
        if found.is_some() {
            return Ok(true);
        }
        match self.visit(clauses, search, place, falsified)? {
            Visit::Stays => Ok(true),
            Visit::Moved => Ok(false),
            Visit::Refuted => {
                *found = Some(place);
                Ok(true)
            }
        }
    }

    /// Looks at all clauses that watch a literal that has become false, up to the first that has only
    /// false literals.
    fn visit_all(
        &mut self,
        clauses: &[Vec<Signed>],
        search: &mut Search,
        falsified: Signed,
    ) -> Result<Option<u32>, AllocError>
        requires underway { (n : ℕ) × IsUnderway clauses.now n search.old }
        ensures onward { OnOk result (IsOnward clauses.now search.old search.new) }
        ensures head { OnOk result (search.new.head ≡ search.old.head) }
        ensures refuted { IfOk result (λ found. IfSome found (λ place. IsRefutedAt clauses.now search.new.values.items place)) }
    {
        let mut watching = self.take(falsified);
        let mut found = None;
        let mut kept = 0;
        'watching: for k in 0..watching.len() {
            let place = watching[k];
            if self.visit_next(clauses, search, place, falsified, &mut found)? {
                put_at(&mut watching, kept, place);
                kept += 1;
            }
        }
        watching.truncate(kept);
        self.put(falsified, watching);
        Ok(found)
    }

    /// Draws what follows from the literals that have become false, up to the first clause that has only
    /// false ones.
    pub fn propagate(
        &mut self,
        clauses: &[Vec<Signed>],
        search: &mut Search,
    ) -> Result<Option<u32>, AllocError>
        requires underway { (n : ℕ) × IsUnderway clauses.now n search.old }
        ensures onward { OnOk result (IsOnward clauses.now search.old search.new) }
        ensures refuted { IfOk result (λ found. IfSome found (λ place. IsRefutedAt clauses.now search.new.values.items place)) }
    {
        'short: while let Some(place) = self.short.pop() {
            if let Some(place) = visit_short(clauses, search, place)? {
                return Ok(Some(place));
            }
        }
        'queue: while search.head < search.trail.len() {
            let falsified = search.trail[search.head].falsified();
            search.head += 1;
            if let Some(place) = self.visit_all(clauses, search, falsified)? {
                return Ok(Some(place));
            }
        }
        Ok(None)
    }
}

/// Writes an item of a list.
fn put_at(list: &mut Vec<u32>, k: usize, item: u32)
    requires { k < vec_len list.old }
    ensures { vec_len list.new ≡ vec_len list.old }
{
    list[k] = item;
}

/// Looks at a clause of less than two literals.
fn visit_short(
    clauses: &[Vec<Signed>],
    search: &mut Search,
    place: u32,
) -> Result<Option<u32>, AllocError>
    requires underway { (n : ℕ) × IsUnderway clauses.now n search.old }
    ensures onward { OnOk result (IsOnward clauses.now search.old search.new) }
    ensures refuted { IfOk result (λ found. IfSome found (λ place. IsRefutedAt clauses.now search.new.values.items place)) }
{
    let Some(clause) = clauses.get(place as usize) else {
        return Ok(None);
    };
    match standing_of(clause, &search.values) {
        Some(Standing::Falsified) => Ok(Some(place)),
        Some(Standing::Forcing(k)) => {
            search.force_last(clauses, place, k)?;
            Ok(None)
        }
        _ => Ok(None),
    }
}
