//! Generality: whether one atom is an instance of another, whether they are variants, and whether one
//! entry covers another.
//!
//! The value of a variable is what stands where the variable first stands, so no memory is taken.
ghost use Rattle.std.specs.Prelude.{◌≡◌, ◌&&◌, eqb, ◌↔◌, IsTrue, option_map};
ghost use Rattle.std.specs.Option.{option_copied};
ghost use Rattle.me_terms.specs.TermViews.{term_value};
ghost use Rattle.me_terms.specs.Terms.{arguments_of};
ghost use Rattle.me_terms.specs.Matchers.{found, found_all, agrees, agree};
ghost use Rattle.me_terms.specs.Substitutions.{Generalizes, IsInstance, IsVariant, IsStrictlyMoreGeneral};
ghost use Rattle.me_terms.specs.Context.{Covers};
ghost use Rattle.me_terms.specs.declared.atom.Pattern.TheVariants as pattern;

use crate::atom::{Atom, Pattern};
use crate::entry::{Entry, Kind};
use crate::term::{Term, Terms};

impl Term {
    /// The part of `special` where this term first has the variable `x`.
    #[cycle(found)]
    fn found<'a>(&self, special: &'a Term, x: u32) -> Option<&'a Term>
        ensures { option_map term_value (option_copied result) ≡ found x (term_value self.now) (term_value special.now) }
    {
        match (self, special) {
            (Term::Var(y), _) => { if *y == x { Some(special) } else { None } }
            (Term::App { f: _, args }, Term::App { f: _, args: others }) => args.found(others, x),
            _ => None,
        }
    }

    /// Whether each variable of this term has its value among the matched arguments.
    #[cycle(agrees)]
    fn agrees(&self, special: &Term, generals: &Terms, specials: &Terms) -> bool
        ensures { result ≡ agrees (λ x. found_all x (arguments_of generals.now.items) (arguments_of specials.now.items)) (term_value self.now) (term_value special.now) }
    {
        match (self, special) {
            (Term::Var(x), _) => match generals.found(specials, *x) {
                Some(value) => *value == *special,
                None => false,
            },
            (Term::App { f, args }, Term::App { f: g, args: others }) => {
                *f == *g && args.agree(others, generals, specials)
            }
            _ => false,
        }
    }
}

impl Terms {
    #[cycle(found)]
    #[tactic(auto, using(crate::proofs::Matchers::found_all_none, crate::proofs::Matchers::found_all_past))]
    pub(crate) fn found<'a>(&self, specials: &'a Terms, x: u32) -> Option<&'a Term>
        ensures { option_map term_value (option_copied result) ≡ found_all x (arguments_of self.now.items) (arguments_of specials.now.items) }
    {
        let mine = &self.items;
        let theirs = &specials.items;
        for i in 0..mine.len().min(theirs.len()) {
            let value = mine[i].found(&theirs[i], x);
            if value.is_some() {
                return value;
            }
        }
        None
    }

    #[cycle(agrees)]
    #[tactic(auto, using(crate::proofs::Matchers::agree_lengths))]
    pub(crate) fn agree(&self, others: &Terms, generals: &Terms, specials: &Terms) -> bool
        ensures { result ≡ agree (λ x. found_all x (arguments_of generals.now.items) (arguments_of specials.now.items)) (arguments_of self.now.items) (arguments_of others.now.items) }
    {
        if self.len() != others.len() {
            return false;
        }
        let mine = &self.items;
        let theirs = &others.items;
        for i in 0..mine.len() {
            if !mine[i].agrees(&theirs[i], generals, specials) {
                return false;
            }
        }
        true
    }
}

/// Whether some substitution takes the general atom to the special one.
#[tactic(auto, using(crate::proofs::Matchers::matches_iff, crate::proofs::Matchers::preds_differ))]
pub fn is_instance(general: &Atom, special: &Atom) -> bool
    ensures { IsTrue result ↔ IsInstance general.now special.now }
{
    general.pred == special.pred
        && general
            .args
            .agree(&special.args, &general.args, &special.args)
}

/// Whether some substitution takes the general one to the special one. The pseudo-atom is above every
/// pattern, and below itself alone.
pub fn generalizes(general: &Pattern, special: &Pattern) -> bool
    ensures { IsTrue result ↔ Generalizes general.now special.now }
{
    match (general, special) {
        (Pattern::Any, _) => true,
        (Pattern::Of(own), Pattern::Of(other)) => is_instance(own, other),
        (Pattern::Of(_), Pattern::Any) => false,
    }
}

/// Whether some substitution takes the general one to the special atom. The pseudo-atom is above every atom.
pub fn matches(general: &Pattern, special: &Atom) -> bool
    ensures { IsTrue result ↔ Generalizes general.now (pattern.Of special.now) }
{
    match general {
        Pattern::Any => true,
        Pattern::Of(atom) => is_instance(atom, special),
    }
}

/// Whether the first entry is Universal and of the other's sign, and generalizes it. Where it stands
/// later in a context, it hides the other.
pub fn covers(universal: &Entry, entry: &Entry) -> bool
    ensures { IsTrue result ↔ Covers universal.now entry.now }
{
    universal.kind == Kind::Universal
        && universal.positive == entry.positive
        && generalizes(&universal.atom, &entry.atom)
}

/// Whether the atoms differ at most in the names of their variables: each is an instance of the other.
pub fn is_variant(a: &Atom, b: &Atom) -> bool
    ensures { IsTrue result ↔ IsVariant (pattern.Of a.now) (pattern.Of b.now) }
{
    is_instance(a, b) && is_instance(b, a)
}

/// Whether the pattern is a variant of the atom. The pseudo-atom is none.
pub fn is_variant_of(a: &Pattern, b: &Atom) -> bool
    ensures { IsTrue result ↔ IsVariant a.now (pattern.Of b.now) }
{
    match a {
        Pattern::Any => false,
        Pattern::Of(own) => is_variant(own, b),
    }
}

/// Whether the atom is an instance of the pattern, and not the other way round.
pub fn strictly_more_general(a: &Pattern, b: &Atom) -> bool
    ensures { IsTrue result ↔ IsStrictlyMoreGeneral a.now (pattern.Of b.now) }
{
    match a {
        Pattern::Any => true,
        Pattern::Of(general) => is_instance(general, b) && !is_instance(b, general),
    }
}
