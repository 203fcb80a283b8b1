//! The nodes of the atoms of all equations, and the links between them.
//!
//! A variable of a space has one node. The atoms are copied into nodes once, and never again.
ghost use Rattle.std.specs.Prelude.{◌≡◌, ℕ, ◌<◌, ◌↔◌, OnErr, IfOk, IfSome, IsTrue, false, Some, None, [], length, take, slice_index, slice_get};
ghost use Rattle.me_terms.specs.Substitutions.{Family, apply_term, apply_arguments};
ghost use Rattle.me_terms.specs.Terms.{arguments_of, App as AppTerm};
ghost use Rattle.me_terms.specs.TermViews.{term_value};
ghost use Rattle.me_unify.specs.Linked.{Respects, Colouring, IsColoured, ArgumentsStandBefore, IsLonger, coloured};
ghost use Rattle.me_unify.specs.Nodes.{IsArena, IsFresh, KeepsNodes};
ghost use Rattle.me_unify.specs.Ordered.{HasOrder};
ghost use Rattle.me_unify.specs.Equations.{equation};
ghost use Rattle.me_unify.specs.Measured.{AreMeasured, IsReading};
ghost use Rattle.me_unify.specs.Marks.{IsSolved, IsCutBack, IsMark, IsPosed, AreApart, IsBack};

use crate::links::Links;
use crate::measure::{Measure, measure_all};
use crate::node::Node;
use crate::node_list::NodeList;
use crate::same::are_same;
use crate::step::Sides;
use me_terms::{Atom, Term, Terms};
use std::alloc::{AllocError, Global};

/// The nodes of all equations so far, and which of them are equal.
#[derive(Drop)]
pub(crate) struct Arena {
    pub(crate) nodes: NodeList,
    pub(crate) links: Links,
}

/// A term of which some arguments have nodes: its function, those nodes, and the arguments behind the one
/// that is being copied.
#[derive(Drop)]
pub(crate) struct Adding<'a> {
    f: u32,
    made: Vec<usize>,
    rest: &'a [Term],
}

impl Arena {
    pub(crate) fn new(alloc: Global) -> Arena
        ensures arena { IsArena result.nodes result.links }
        ensures empty { result.nodes ≡ [] }
        ensures none { result.links.froms.items ≡ [] }
    {
        Arena {
            nodes: NodeList::new(alloc),
            links: Links::new(alloc),
        }
    }

    /// Adds a node.
    pub(crate) fn push(&mut self, node: Node) -> Result<usize, AllocError>
        requires arena { IsArena self.old.nodes self.old.links }
        requires room { ArgumentsStandBefore (length self.old.nodes) node }
        requires fresh { IsFresh self.old.nodes node }
        ensures arena { IsArena self.new.nodes self.new.links }
        ensures grown { KeepsNodes self.old.nodes self.new.nodes }
        ensures at { IfOk result (λ x. slice_get self.new.nodes x ≡ Some node) }
        ensures froms { self.new.links.froms.items ≡ self.old.links.froms.items }
        ensures tos { self.new.links.tos.items ≡ self.old.links.tos.items }
    {
        let x = self.nodes.len();
        self.nodes.push(node)?;
        match self.links.grow() {
            Ok(()) => Ok(x),
            Err(error) => {
                self.nodes.truncate(x);
                Err(error)
            }
        }
    }

    /// The node of a variable.
    pub(crate) fn var(&mut self, space: u32, var: u32) -> Result<usize, AllocError>
        requires arena { IsArena self.old.nodes self.old.links }
        ensures arena { IsArena self.new.nodes self.new.links }
        ensures grown { KeepsNodes self.old.nodes self.new.nodes }
        ensures at { IfOk result (λ x. slice_get self.new.nodes x ≡ Some (Node.Var space var)) }
        ensures froms { self.new.links.froms.items ≡ self.old.links.froms.items }
        ensures tos { self.new.links.tos.items ≡ self.old.links.tos.items }
    {
        match self.nodes.find(space, var) {
            Some(x) => Ok(x),
            None => self.push(Node::Var { space, var }),
        }
    }

    /// The two nodes become equal, or the links stay and nothing makes them equal.
    pub(crate) fn equate(&mut self, alloc: Global, x: usize, y: usize) -> Result<bool, AllocError>
        requires arena { IsArena self.old.nodes self.old.links }
        requires left { x < length self.old.nodes }
        requires right { y < length self.old.nodes }
        requires order { HasOrder self.old.nodes self.old.links }
        ensures arena { IsArena self.new.nodes self.new.links }
        ensures nodes { self.new.nodes ≡ self.old.nodes }
        ensures more { IsLonger self.old.links self.new.links }
        ensures settled { IfOk result (λ answer. IsTrue answer → HasOrder self.new.nodes self.new.links) }
        ensures yes { IfOk result (λ answer. IsTrue answer → (t : Family) (h : Colouring) → IsColoured self.old.nodes t h → (Respects self.old.links h × (h x ≡ h y)) ↔ Respects self.new.links h) }
        ensures no { IfOk result (λ answer. answer ≡ false → (t : Family) (h : Colouring) → IsColoured self.old.nodes t h → Respects self.old.links h → ¬ (h x ≡ h y)) }
        ensures back { IfOk result (λ answer. answer ≡ false → IsLonger self.new.links self.old.links) }
        ensures err { OnErr result (IsLonger self.new.links self.old.links) }
    {
        self.links.equate(alloc, self.nodes.as_slice(), x, y)
    }

    /// Nodes whose terms are the given ones, with the variables of a space. It takes a list of its own for
    /// the terms that are not copied to their end.
    pub(crate) fn add_all(
        &mut self,
        alloc: Global,
        space: u32,
        terms: &Terms,
    ) -> Result<Vec<usize>, AllocError>
        requires arena { IsArena self.old.nodes self.old.links }
        ensures arena { IsArena self.new.nodes self.new.links }
        ensures grown { KeepsNodes self.old.nodes self.new.nodes }
        ensures within { IfOk result (λ xs. (i : ℕ) → i < length xs.items → slice_index xs.items i < length self.new.nodes) }
        ensures made { (t : Family) (h : Colouring) → IsColoured self.new.nodes t h → IfOk result (λ xs. coloured h xs.items ≡ apply_arguments (t space) (arguments_of terms.now.items)) }
        ensures froms { self.new.links.froms.items ≡ self.old.links.froms.items }
        ensures tos { self.new.links.tos.items ≡ self.old.links.tos.items }
    {
        let mut above: Vec<Adding<'_>> = Vec::new(alloc);
        let mut rest = terms.as_slice();
        let mut made: Vec<usize> = Vec::with_capacity(alloc, rest.len())?;
        'terms: loop {
            if let Some((first, others)) = rest.split_first() {
                match first {
                    Term::Var(x) => {
                        let node = self.var(space, *x)?;
                        made.push(node)?;
                        rest = others;
                    }
                    Term::App { f, args } => {
                        above.push(Adding {
                            f: *f,
                            made,
                            rest: others,
                        })?;
                        rest = args.as_slice();
                        made = Vec::with_capacity(alloc, rest.len())?;
                    }
                }
            } else {
                let Some(frame) = above.pop() else {
                    return Ok(made);
                };
                let Adding {
                    f,
                    made: before,
                    rest: others,
                } = frame;
                let node = self.push(Node::App { f, args: made })?;
                made = before;
                made.push(node)?;
                rest = others;
            }
        }
    }

    pub(crate) fn add_atom(
        &mut self,
        alloc: Global,
        space: u32,
        atom: &Atom,
    ) -> Result<usize, AllocError>
        requires arena { IsArena self.old.nodes self.old.links }
        ensures arena { IsArena self.new.nodes self.new.links }
        ensures grown { KeepsNodes self.old.nodes self.new.nodes }
        ensures at { IfOk result (λ x. x < length self.new.nodes) }
        ensures made { (t : Family) (h : Colouring) → IsColoured self.new.nodes t h → IfOk result (λ x. h x ≡ AppTerm atom.now.pred (apply_arguments (t space) atom.now.args)) }
        ensures froms { self.new.links.froms.items ≡ self.old.links.froms.items }
        ensures tos { self.new.links.tos.items ≡ self.old.links.tos.items }
    {
        let args = self.add_all(alloc, space, &atom.args)?;
        self.push(Node::App { f: atom.pred, args })
    }

    /// The same as `try_pose`, by a node for each atom.
    fn pose_both(
        &mut self,
        alloc: Global,
        ls: u32,
        left: &Atom,
        rs: u32,
        right: &Atom,
    ) -> Result<Option<Sides>, AllocError>
        requires arena { IsArena self.old.nodes self.old.links }
        requires solution { IsSolved self.old.nodes self.old.links }
        ensures arena { IsArena self.new.nodes self.new.links }
        ensures grown { KeepsNodes self.old.nodes self.new.nodes }
        ensures more { IsLonger self.old.links self.new.links }
        ensures some { IfOk result (λ answer. IfSome answer (λ sides. IsPosed self.old.nodes self.old.links self.new.nodes self.new.links (equation ls left.now rs right.now) sides)) }
        ensures none { IfOk result (λ answer. answer ≡ None → AreApart self.old.nodes self.old.links (equation ls left.now rs right.now)) }
    {
        let left = self.add_atom(alloc, ls, left)?;
        let right = self.add_atom(alloc, rs, right)?;
        let equal = self.equate(alloc, left, right)?;
        if equal {
            Ok(Some(Sides { left, right }))
        } else {
            Ok(None)
        }
    }

    /// The two atoms become equal, each with the variables of its space, and their nodes are the answer.
    /// None where nothing makes them equal. It may leave nodes behind where it gives none.
    pub(crate) fn try_pose(
        &mut self,
        alloc: Global,
        ls: u32,
        left: &Atom,
        rs: u32,
        right: &Atom,
    ) -> Result<Option<Sides>, AllocError>
        requires arena { IsArena self.old.nodes self.old.links }
        requires solution { IsSolved self.old.nodes self.old.links }
        ensures arena { IsArena self.new.nodes self.new.links }
        ensures grown { KeepsNodes self.old.nodes self.new.nodes }
        ensures more { IsLonger self.old.links self.new.links }
        ensures some { IfOk result (λ answer. IfSome answer (λ sides. IsPosed self.old.nodes self.old.links self.new.nodes self.new.links (equation ls left.now rs right.now) sides)) }
        ensures none { IfOk result (λ answer. answer ≡ None → AreApart self.old.nodes self.old.links (equation ls left.now rs right.now)) }
    {
        if !are_same(left, right) {
            return self.pose_both(alloc, ls, left, rs, right);
        }
        let x = self.add_atom(alloc, ls, left)?;
        Ok(Some(Sides { left: x, right: x }))
    }

    /// Takes away all nodes but the first `nodes` and all links but the first `links`.
    pub(crate) fn cut(&mut self, nodes: usize, links: usize)
        requires arena { IsArena self.old.nodes self.old.links }
        requires mark { IsMark self.old.nodes self.old.links nodes links }
        ensures arena { IsArena self.new.nodes self.new.links }
        ensures nodes { self.new.nodes ≡ take nodes self.old.nodes }
        ensures links { IsCutBack self.old.links links self.new.links }
    {
        self.links.undo(links);
        self.links.shrink(nodes);
        self.nodes.truncate(nodes);
    }

    /// As `try_pose`, but where it gives no nodes, and after an error, all is as before.
    pub(crate) fn pose(
        &mut self,
        alloc: Global,
        ls: u32,
        left: &Atom,
        rs: u32,
        right: &Atom,
    ) -> Result<Option<Sides>, AllocError>
        requires arena { IsArena self.old.nodes self.old.links }
        requires solution { IsSolved self.old.nodes self.old.links }
        ensures arena { IsArena self.new.nodes self.new.links }
        ensures some { IfOk result (λ answer. IfSome answer (λ sides. IsPosed self.old.nodes self.old.links self.new.nodes self.new.links (equation ls left.now rs right.now) sides)) }
        ensures none { IfOk result (λ answer. answer ≡ None → AreApart self.old.nodes self.old.links (equation ls left.now rs right.now)) }
        ensures kept { IfOk result (λ answer. answer ≡ None → IsBack self.old.nodes self.old.links self.new.nodes self.new.links) }
        ensures err { OnErr result (IsBack self.old.nodes self.old.links self.new.nodes self.new.links) }
    {
        let nodes = self.nodes.len();
        let links = self.links.froms.len();
        match self.try_pose(alloc, ls, left, rs, right) {
            Ok(Some(sides)) => Ok(Some(sides)),
            Ok(None) => {
                self.cut(nodes, links);
                Ok(None)
            }
            Err(error) => {
                self.cut(nodes, links);
                Err(error)
            }
        }
    }

    /// What is counted of terms with the variables of a space, under the links. It may leave nodes behind.
    pub(crate) fn measure_terms(
        &mut self,
        alloc: Global,
        space: u32,
        terms: &Terms,
    ) -> Result<Measure, AllocError>
        requires arena { IsArena self.old.nodes self.old.links }
        requires solution { IsSolved self.old.nodes self.old.links }
        ensures arena { IsArena self.new.nodes self.new.links }
        ensures grown { KeepsNodes self.old.nodes self.new.nodes }
        ensures measure { IfOk result (λ m. (t : Family) (h : Colouring) → IsColoured self.new.nodes t h → IsReading self.new.nodes self.new.links h → AreMeasured (apply_arguments (t space) (arguments_of terms.now.items)) m) }
        ensures froms { self.new.links.froms.items ≡ self.old.links.froms.items }
        ensures tos { self.new.links.tos.items ≡ self.old.links.tos.items }
    {
        let xs = self.add_all(alloc, space, terms)?;
        let Some(list) = self.links.ordered(alloc, self.nodes.as_slice())? else {
            unreachable!();
        };
        let measures = self.links.measures(alloc, self.nodes.as_slice(), &list)?;
        Ok(measure_all(&measures, &xs))
    }
}
