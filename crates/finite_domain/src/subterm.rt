//! Terms of a clause as keys, so that equal terms are one.
//!
//! A key has a reference to its term, and a contract sees it as the term. The whole term is hashed.
ghost use Rattle.std.specs.Prelude.{◌≡◌, ◌++◌};
ghost use Rattle.std.specs.List.{fold};
ghost use Rattle.me_terms.specs.TermViews.{term_value};
ghost use Rattle.me_terms.specs.Terms.{arguments_of};
ghost use Rattle.me_terms.specs.Hashed.{term_fed, arguments_fed};
ghost use Rattle.me_terms.specs.Heads.{symbol_of, arguments_in};
ghost use Rattle.std.specs.Prelude.{map};

use me_terms::{Atom, Term, Terms};
use std::hash::{Hash, Hasher};
use std::marker::Model;

/// A term of a clause.
#[derive(Drop)]
pub(crate) struct Subterm<'a> {
    term: &'a Term,
}

impl<'a> Model for Subterm<'a> {
    ghost use Rattle.me_terms.specs.Terms.{TermValue, term_code};
    ghost use Rattle.me_terms.specs.TermViews.{term_value};

    ghost Value = { TermValue };

    ghost coded = { term_code };

    ghost view = { λ s. term_value s.term.now };
}

impl<'a> Subterm<'a> {
    pub(crate) fn new(term: &'a Term) -> Self
        ensures { result ≡ term_value term.now }
    {
        Subterm { term }
    }

    pub(crate) fn term(&self) -> &'a Term
        ensures { term_value result.now ≡ self.now }
    {
        self.term
    }
}

impl PartialEq for Subterm<'_> {
    ghost use Rattle.std.specs.Cmp.{partial_equiv_from_equiv};
    ghost use Rattle.me_terms.specs.TermEquality.{same_term};
    ghost use Rattle.me_terms.specs.TermEqualityLaws.{term_laws};

    ghost eq = { same_term };

    ghost laws = { partial_equiv_from_equiv term_laws };

    fn eq(&self, other: &Self) -> bool {
        *self.term == *other.term
    }
}

impl Eq for Subterm<'_> {
    ghost use Rattle.me_terms.specs.TermEqualityLaws.{term_laws};

    ghost laws = { term_laws };
}

impl Hash for Subterm<'_> {
    ghost use Rattle.std.proofs.Common.{ap};
    ghost use Rattle.me_terms.specs.Hashed.{term_fed};
    ghost use Rattle.me_terms.specs.TermEqualityLaws.{same_term_sound};

    ghost hash_input = { term_fed };

    ghost respects_eq = { λ a b h. ap term_fed (same_term_sound a b h) };

    fn hash<H: Hasher>(&self, state: &mut H) {
        feed(self.term, state);
    }
}

/// Feeds the term's symbols and variables.
#[cycle(feed)]
fn feed<H: Hasher>(term: &Term, state: &mut H)
    ensures { state.new ≡ fold H.write state.old (term_fed (term_value term.now)) }
{
    match term {
        Term::Var(x) => state.write_u32(*x),
        Term::App { f, args } => {
            state.write_u32(*f);
            feed_all(args, state);
        }
    }
}

#[cycle(feed)]
fn feed_all<H: Hasher>(terms: &Terms, state: &mut H)
    ensures { state.new ≡ fold H.write state.old (arguments_fed (arguments_of terms.now.items)) }
{
    for term in terms.as_slice() {
        feed(term, state);
    }
}

/// The term's function, or a variable's number.
pub(crate) fn symbol(term: &Term) -> u32
    ensures { result ≡ symbol_of (term_value term.now) }
{
    match term {
        Term::Var(x) => *x,
        Term::App { f, args: _ } => *f,
    }
}

/// The term's arguments. A variable has none.
pub(crate) fn arguments(term: &Term) -> &[Term]
    ensures { arguments_of (map term_value result.now) ≡ arguments_in (term_value term.now) }
{
    match term {
        Term::Var(_) => &[],
        Term::App { f: _, args } => args.as_slice(),
    }
}

/// The atom's arguments.
pub(crate) fn atom_arguments(atom: &Atom) -> &[Term]
    ensures { arguments_of (map term_value result.now) ≡ atom.now.args }
{
    atom.args.as_slice()
}
