//! What shows at a first look that no terms make two atoms equal: their symbols, and those of their arguments.
//!
//! An argument that is a variable is looked at where its links end. No node is made, and no memory is taken.
ghost use Rattle.std.specs.Prelude.{◌≡◌, IfSome, IsTrue};
ghost use Rattle.me_terms.specs.Terms.{arguments_of};
ghost use Rattle.me_terms.specs.TermViews.{term_value};
ghost use Rattle.me_terms.specs.Substitutions.{Family, apply_term, apply_arguments};
ghost use Rattle.me_unify.specs.Equations.{equation};
ghost use Rattle.me_unify.specs.Linked.{Respects, Colouring, IsColoured};
ghost use Rattle.me_unify.specs.Marks.{AreApart};
ghost use Rattle.me_unify.specs.Nodes.{IsArena};
ghost use Rattle.me_unify.specs.Tops.{HasTop};

use crate::arena::Arena;
use crate::node::Node;
use me_terms::{Atom, Term, Terms};

/// A function and the number of its arguments.
#[derive(Clone, Copy)]
pub(crate) struct Top {
    pub(crate) f: u32,
    pub(crate) arity: u64,
}

impl Arena {
    /// What stands at the top of a variable's term. None where the links leave it open.
    fn top_of_variable(&self, space: u32, var: u32) -> Option<Top>
        requires arena { IsArena self.now.nodes self.now.links }
        ensures { (t : Family) (h : Colouring) → IsColoured self.now.nodes t h → Respects self.now.links h → IfSome result (λ top. HasTop (t space var) top) }
    {
        let x = self.nodes.find(space, var)?;
        let last = self.links.find(x);
        match self.nodes.node(last) {
            Node::Var { space: _, var: _ } => None,
            Node::App { f, args } => Some(Top {
                f: *f,
                arity: args.len() as u64,
            }),
        }
    }

    /// What stands at the top of a term with the variables of a space. None where the links leave it open.
    fn top(&self, space: u32, term: &Term) -> Option<Top>
        requires arena { IsArena self.now.nodes self.now.links }
        ensures { (t : Family) (h : Colouring) → IsColoured self.now.nodes t h → Respects self.now.links h → IfSome result (λ top. HasTop (apply_term (t space) (term_value term.now)) top) }
    {
        match term {
            Term::Var(x) => self.top_of_variable(space, *x),
            Term::App { f, args } => Some(Top {
                f: *f,
                arity: args.len(),
            }),
        }
    }

    /// Whether different functions stand at the tops of two terms.
    fn differ(&self, ls: u32, left: &Term, rs: u32, right: &Term) -> bool
        requires arena { IsArena self.now.nodes self.now.links }
        ensures { IsTrue result → (t : Family) (h : Colouring) → IsColoured self.now.nodes t h → Respects self.now.links h → ¬ (apply_term (t ls) (term_value left.now) ≡ apply_term (t rs) (term_value right.now)) }
    {
        let Some(one) = self.top(ls, left) else {
            return false;
        };
        match self.top(rs, right) {
            Some(other) => one.f != other.f || one.arity != other.arity,
            None => false,
        }
    }

    /// Whether that is so of two arguments that stand at one place, or not as many stand on both sides.
    fn differ_among(&self, ls: u32, left: &Terms, rs: u32, right: &Terms) -> bool
        requires arena { IsArena self.now.nodes self.now.links }
        ensures { IsTrue result → (t : Family) (h : Colouring) → IsColoured self.now.nodes t h → Respects self.now.links h → ¬ (apply_arguments (t ls) (arguments_of left.now.items) ≡ apply_arguments (t rs) (arguments_of right.now.items)) }
    {
        if left.len() != right.len() {
            return true;
        }
        for k in 0..left.len() {
            let Some(one) = left.get(k) else {
                unreachable!();
            };
            let Some(other) = right.get(k) else {
                unreachable!();
            };
            if self.differ(ls, one, rs, other) {
                return true;
            }
        }
        false
    }

    /// Whether two atoms, each with the variables of its space, show at a first look that nothing makes them
    /// equal.
    pub(crate) fn are_apart(&self, ls: u32, left: &Atom, rs: u32, right: &Atom) -> bool
        requires arena { IsArena self.now.nodes self.now.links }
        ensures { IsTrue result → AreApart self.now.nodes self.now.links (equation ls left.now rs right.now) }
    {
        left.pred != right.pred || self.differ_among(ls, &left.args, rs, &right.args)
    }
}
