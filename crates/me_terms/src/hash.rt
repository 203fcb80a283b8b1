//! Hashes of atoms and instances, so that sets can hold them.
//!
//! What is fed are the numbers of symbols and variables, in the order in which they stand.
ghost use Rattle.std.specs.Prelude.{◌≡◌, ◌+◌, ◌≤◌, map, take, drop};
ghost use Rattle.std.specs.List.{fold};
ghost use Rattle.me_terms.specs.TermViews.{term_value};
ghost use Rattle.me_terms.specs.Terms.{arguments_of};
ghost use Rattle.me_terms.specs.Hashed.{term_fed, arguments_fed};
ghost use Rattle.me_terms.specs.Heads.{symbol_of, arguments_in};
ghost use Rattle.me_terms.specs.Variables.{weights};

use crate::answer::Instance;
use crate::atom::Atom;
use crate::lighter_first::{weight_beside, weight_within};
use crate::term::{Rest, Term, Terms};
use std::hash::{Hash, Hasher};

impl Term {
    /// Feeds the term's symbols and variables, by calls as deep as the term.
    #[cycle(feed)]
    fn feed<H: Hasher>(&self, state: &mut H)
        ensures { state.new ≡ fold H.write state.old (term_fed (term_value self.now)) }
    {
        match self {
            Term::Var(x) => state.write_u32(*x),
            Term::App { f, args } => {
                state.write_u32(*f);
                args.feed(state);
            }
        }
    }
}

impl Terms {
    /// Feeds the terms in order. It takes a list of what is still to be fed, and where memory is out it
    /// goes into a term without.
    pub(crate) fn feed_all<H: Hasher>(&self, state: &mut H)
        ensures { state.new ≡ fold H.write state.old (arguments_fed (arguments_of self.now.items)) }
    {
        let mut later: Vec<Rest<'_>> = Vec::new(*self.items.allocator());
        let mut terms = self.as_slice();
        'terms: loop {
            if let Some((first, others)) = terms.split_first() {
                match first {
                    Term::Var(x) => {
                        state.write_u32(*x);
                        terms = others;
                    }
                    Term::App { f, args } => {
                        state.write_u32(*f);
                        if later.push(Rest { terms: others }).is_ok() {
                            terms = args.as_slice();
                        } else {
                            args.feed_without_memory(state);
                            terms = others;
                        }
                    }
                }
            } else {
                let Some(rest) = later.pop() else {
                    return;
                };
                terms = rest.terms;
            }
        }
    }

    /// The same by a walk that takes no memory. Only terms of 2^64 symbols and more, which no memory holds,
    /// are fed by calls as deep as they.
    #[tactic(auto, using(crate::proofs::Parts::all_fed))]
    fn feed_without_memory<H: Hasher>(&self, state: &mut H)
        ensures { state.new ≡ fold H.write state.old (arguments_fed (arguments_of self.now.items)) }
    {
        let terms = self.as_slice();
        match weight_within(terms, u64::MAX) {
            Some(weight) => feed_part(terms, weight, 0, weight, state),
            None => self.feed(state),
        }
    }

    #[cycle(feed)]
    fn feed<H: Hasher>(&self, state: &mut H)
        ensures { state.new ≡ fold H.write state.old (arguments_fed (arguments_of self.now.items)) }
    {
        for item in &self.items {
            item.feed(state);
        }
    }
}

impl Term {
    /// The term's function or variable.
    fn symbol(&self) -> u32
        ensures { result ≡ symbol_of (term_value self.now) }
    {
        match self {
            Term::Var(x) => *x,
            Term::App { f, args: _ } => *f,
        }
    }

    /// The term's arguments. A variable has none.
    fn inside(&self) -> &[Term]
        ensures { arguments_of (map term_value result.now) ≡ arguments_in (term_value self.now) }
    {
        match self {
            Term::Var(_) => &[],
            Term::App { f: _, args } => args.as_slice(),
        }
    }
}

/// Feeds `count` symbols of terms of that weight, from the one at place `from` on. Half of those that stand
/// neither in the arguments of the first term nor behind it alone are fed by a call.
fn feed_part<H: Hasher>(terms: &[Term], weight: u64, from: u64, count: u64, state: &mut H)
    requires weight { weight ≡ weights (arguments_of (map term_value terms.now)) }
    requires within { from + count ≤ weight }
    ensures { state.new ≡ fold H.write state.old (take count (drop from (arguments_fed (arguments_of (map term_value terms.now))))) }
{
    let mut rest = terms;
    let mut total = weight;
    let mut at = from;
    let mut left = count;
    'symbols: while left > 0 {
        let Some((first, others)) = rest.split_first() else {
            unreachable!();
        };
        if at == 0 {
            state.write_u32(first.symbol());
            at = 1;
            left -= 1;
            continue;
        }
        let inside = first.inside();
        let inner = weight_beside(inside, others, total - 1);
        if inner < at {
            rest = others;
            total -= 1 + inner;
            at -= 1 + inner;
        } else if at + left <= 1 + inner {
            rest = inside;
            total = inner;
            at -= 1;
        } else {
            let half = left / 2;
            feed_part(rest, total, at, half, state);
            at += half;
            left -= half;
        }
    }
}

impl Hash for Atom {
    ghost use Rattle.std.proofs.Common.{ap};
    ghost use Rattle.me_terms.specs.Hashed.{atom_fed};
    ghost use Rattle.me_terms.specs.TermEqualityLaws.{same_atom_sound};

    ghost hash_input = { atom_fed };

    ghost respects_eq = { λ a b h. ap atom_fed (same_atom_sound a b h) };

    fn hash<H: Hasher>(&self, state: &mut H) {
        state.write_u32(self.pred);
        self.args.feed_all(state);
    }
}

impl Hash for Instance {
    ghost use Rattle.std.specs.Hash as fed;
    ghost use Rattle.std.specs.Prelude.{◌++◌};
    ghost use Rattle.std.proofs.Common.{ap};
    ghost use Rattle.me_terms.specs.Hashed.{atom_fed};
    ghost use Rattle.me_terms.specs.InstanceEqualityLaws.{instance_sound};

    ghost hash_input = { λ i. fed.u32 i.clause ++ fed.slice (λ l. fed.bool l.positive ++ atom_fed l.atom) i.literals };

    ghost respects_eq = { λ a b h. ap (λ i. fed.u32 i.clause ++ fed.slice (λ l. fed.bool l.positive ++ atom_fed l.atom) i.literals) (instance_sound a b h) };

    fn hash<H: Hasher>(&self, state: &mut H) {
        self.clause.hash(state);
        self.literals.hash(state);
    }
}
