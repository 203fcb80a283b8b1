//! What is counted of terms with nothing below their tops, without any node.
//!
//! An argument that is a variable is looked at where its links end. Where an argument's term has arguments
//! itself, nothing is told: then the nodes have to be gone over in an order.
ghost use Rattle.std.specs.Prelude.{◌≡◌, IfSome};
ghost use Rattle.me_terms.specs.Terms.{arguments_of};
ghost use Rattle.me_terms.specs.TermViews.{term_value};
ghost use Rattle.me_terms.specs.Substitutions.{Family, apply_term, apply_arguments};
ghost use Rattle.me_unify.specs.Left.{IsRead};
ghost use Rattle.me_unify.specs.Marks.{IsSolved};
ghost use Rattle.me_unify.specs.Measured.{IsMeasure, AreMeasured};
ghost use Rattle.me_unify.specs.Nodes.{IsArena};

use crate::arena::Arena;
use crate::measure::{CONSTANT, Measure, NOTHING, VARIABLE, both};
use crate::node::Node;
use me_terms::{Term, Terms};

impl Arena {
    /// What is counted of what a variable stands for. None where that has arguments.
    fn flat_variable(&self, space: u32, var: u32) -> Option<Measure>
        requires arena { IsArena self.now.nodes self.now.links }
        requires solution { IsSolved self.now.nodes self.now.links }
        ensures { (u : Family) → IsRead self.now.nodes self.now.links u → IfSome result (λ m. IsMeasure (u space var) m) }
    {
        let Some(x) = self.nodes.find(space, var) else {
            return Some(VARIABLE);
        };
        let last = self.links.find(x);
        match self.nodes.node(last) {
            Node::Var { space: _, var: _ } => Some(VARIABLE),
            Node::App { f: _, args } => {
                if args.is_empty() {
                    Some(CONSTANT)
                } else {
                    None
                }
            }
        }
    }

    /// What is counted of a term with the variables of a space. None where what it stands for has arguments.
    fn flat_term(&self, space: u32, term: &Term) -> Option<Measure>
        requires arena { IsArena self.now.nodes self.now.links }
        requires solution { IsSolved self.now.nodes self.now.links }
        ensures { (u : Family) → IsRead self.now.nodes self.now.links u → IfSome result (λ m. IsMeasure (apply_term (u space) (term_value term.now)) m) }
    {
        match term {
            Term::Var(x) => self.flat_variable(space, *x),
            Term::App { f: _, args } => {
                if args.is_empty() {
                    Some(CONSTANT)
                } else {
                    None
                }
            }
        }
    }

    /// What is counted of terms with the variables of a space. None where one of them stands for a term that
    /// has arguments.
    pub(crate) fn flat_terms(&self, space: u32, terms: &Terms) -> Option<Measure>
        requires arena { IsArena self.now.nodes self.now.links }
        requires solution { IsSolved self.now.nodes self.now.links }
        ensures { (u : Family) → IsRead self.now.nodes self.now.links u → IfSome result (λ m. AreMeasured (apply_arguments (u space) (arguments_of terms.now.items)) m) }
    {
        let mut all = NOTHING;
        for k in 0..terms.len() {
            let Some(term) = terms.get(k) else {
                unreachable!();
            };
            let one = self.flat_term(space, term)?;
            all = both(all, one);
        }
        Some(all)
    }
}
