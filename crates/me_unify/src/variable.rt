//! Whether what a variable stands for is a variable still.
//!
//! No memory is taken.
ghost use Rattle.std.specs.Prelude.{◌≡◌, ◌<◌, length};
ghost use Rattle.me_terms.specs.Remainder.{is_variable as is_variable_term};
ghost use Rattle.me_terms.specs.Substitutions.{Family};
ghost use Rattle.me_unify.specs.Nodes.{IsArena};
ghost use Rattle.me_unify.specs.Marks.{IsSolved};
ghost use Rattle.me_unify.specs.Left.{term_at, IsRead};

use crate::arena::Arena;
use crate::node::Node;

impl Arena {
    /// Whether the term of a node is a variable.
    fn is_left(&self, x: usize) -> bool
        requires arena { IsArena self.now.nodes self.now.links }
        requires solution { IsSolved self.now.nodes self.now.links }
        requires within { x < length self.now.nodes }
        ensures { result ≡ is_variable_term (term_at self.now.nodes self.now.links x) }
    {
        let last = self.links.find(x);
        match self.nodes.node(last) {
            Node::Var { space: _, var: _ } => true,
            Node::App { f: _, args: _ } => false,
        }
    }

    /// Whether a variable stands for a variable.
    pub(crate) fn is_variable(&self, space: u32, var: u32) -> bool
        requires arena { IsArena self.now.nodes self.now.links }
        requires solution { IsSolved self.now.nodes self.now.links }
        ensures { (u : Family) → IsRead self.now.nodes self.now.links u → result ≡ is_variable_term (u space var) }
    {
        match self.nodes.find(space, var) {
            Some(x) => self.is_left(x),
            None => true,
        }
    }
}
