//! Which atoms are one, whatever their variables stand for: those of the same constants.
//!
//! No memory is taken.
ghost use Rattle.std.specs.Prelude.{◌≡◌, IsTrue};
ghost use Rattle.me_terms.specs.Terms.{arguments_of};
ghost use Rattle.me_terms.specs.TermViews.{term_value};
ghost use Rattle.me_terms.specs.Substitutions.{Substitution, apply_term, apply_arguments, apply_atom};

use me_terms::{Atom, Term, Terms};

/// Whether two terms are one constant.
fn are_one_constant(left: &Term, right: &Term) -> bool
    ensures { IsTrue result → (s r : Substitution) → apply_term s (term_value left.now) ≡ apply_term r (term_value right.now) }
{
    match left {
        Term::Var(_) => false,
        Term::App { f, args } => match right {
            Term::Var(_) => false,
            Term::App { f: g, args: others } => { *f == *g && args.is_empty() && others.is_empty() }
        },
    }
}

/// Whether two lists have the same constants, and nothing else.
fn are_same_constants(left: &Terms, right: &Terms) -> bool
    ensures { IsTrue result → (s r : Substitution) → apply_arguments s (arguments_of left.now.items) ≡ apply_arguments r (arguments_of right.now.items) }
{
    if left.len() != right.len() {
        return false;
    }
    for k in 0..left.len() {
        let Some(one) = left.get(k) else {
            unreachable!();
        };
        let Some(other) = right.get(k) else {
            unreachable!();
        };
        if !are_one_constant(one, other) {
            return false;
        }
    }
    true
}

/// Whether two atoms have one predicate and the same constants, and nothing else.
pub(crate) fn are_same(left: &Atom, right: &Atom) -> bool
    ensures { IsTrue result → (s r : Substitution) → apply_atom s left.now ≡ apply_atom r right.now }
{
    left.pred == right.pred && are_same_constants(&left.args, &right.args)
}
