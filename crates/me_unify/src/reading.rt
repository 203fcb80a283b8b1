//! Literals under the unifier, written out.
//!
//! The walk follows links to a node that is not linked, and goes on into its arguments, in depth with a stack
//! of its own. A variable that is left becomes the number of its place among those that were met so far.
ghost use Rattle.std.specs.Prelude.{◌≡◌, ℕ, ◌<◌, ◌++◌, ◌∷◌, [], List, OnOk, IfOk, length, slice_index};
ghost use Rattle.me_laws.specs.Pairing.{pair};
ghost use Rattle.me_terms.specs.TermViews.{term_value};
ghost use Rattle.me_terms.specs.Terms.{arguments_of};
ghost use Rattle.me_terms.specs.Substitutions.{Family, apply_term, apply_arguments, apply_atom, apply_literal};
ghost use Rattle.me_terms.specs.Variables.{term_variables, variables_of, first_ones, place_of, canonical as canonical_atom};
ghost use Rattle.me_terms.specs.Measures.{canonical_literal};
ghost use Rattle.me_terms.specs.Names.{by_place};
ghost use Rattle.me_unify.specs.Linked.{coloured};
ghost use Rattle.me_unify.specs.Nodes.{IsArena};
ghost use Rattle.me_unify.specs.Marks.{IsSolved};
ghost use Rattle.me_unify.specs.Left.{term_at, IsRead, numbers};

use crate::arena::Arena;
use crate::node::Node;
use indexmap::IndexSet;
use me_terms::{Atom, Literal, Term, Terms};
use std::alloc::{AllocError, Global};

/// The number of a variable of a space, which is the next one where it is new.
fn number(names: &mut IndexSet<(u32, u32)>, space: u32, var: u32) -> Result<u32, AllocError>
    ensures names { OnOk result (numbers names.new.keys ≡ first_ones (numbers names.old.keys) (pair space var ∷ [])) }
    ensures number { IfOk result (λ n. (later : List ℕ) → n ≡ place_of (pair space var) (numbers names.new.keys ++ later)) }
{
    let Ok((place, _)) = names.insert_full((space, var)) else {
        return Err(AllocError);
    };
    if place > u32::MAX as usize {
        return Err(AllocError);
    }
    Ok(place as u32)
}

/// A term of which some arguments are written: its function, those arguments, and the nodes of those behind
/// the one that is being written.
#[derive(Drop)]
pub(crate) struct Writing<'a> {
    f: u32,
    made: Terms,
    rest: &'a [usize],
}

impl Arena {
    /// The term of a node.
    fn write_node(
        &self,
        alloc: Global,
        names: &mut IndexSet<(u32, u32)>,
        x: usize,
    ) -> Result<Term, AllocError>
        requires arena { IsArena self.now.nodes self.now.links }
        requires solution { IsSolved self.now.nodes self.now.links }
        requires within { x < length self.now.nodes }
        ensures names { OnOk result (numbers names.new.keys ≡ first_ones (numbers names.old.keys) (term_variables (term_at self.now.nodes self.now.links x))) }
        ensures term { IfOk result (λ form. (later : List ℕ) → term_value form ≡ apply_term (by_place (numbers names.new.keys ++ later)) (term_at self.now.nodes self.now.links x)) }
    {
        let last = self.links.find(x);
        match self.nodes.node(last) {
            Node::Var { space, var } => Ok(Term::Var(number(names, *space, *var)?)),
            Node::App { f, args } => Ok(Term::App {
                f: *f,
                args: self.write_nodes(alloc, names, args)?,
            }),
        }
    }

    /// The terms of nodes. It takes a list of its own for the terms that are not written to their end.
    fn write_nodes(
        &self,
        alloc: Global,
        names: &mut IndexSet<(u32, u32)>,
        xs: &[usize],
    ) -> Result<Terms, AllocError>
        requires arena { IsArena self.now.nodes self.now.links }
        requires solution { IsSolved self.now.nodes self.now.links }
        requires within { (i : ℕ) → i < length xs.now → slice_index xs.now i < length self.now.nodes }
        ensures names { OnOk result (numbers names.new.keys ≡ first_ones (numbers names.old.keys) (variables_of (coloured (term_at self.now.nodes self.now.links) xs.now))) }
        ensures terms { IfOk result (λ form. (later : List ℕ) → arguments_of form.items ≡ apply_arguments (by_place (numbers names.new.keys ++ later)) (coloured (term_at self.now.nodes self.now.links) xs.now)) }
    {
        let mut above: Vec<Writing<'_>> = Vec::new(alloc);
        let mut rest = xs;
        let mut made = Terms::with_capacity(alloc, xs.len() as u64)?;
        'nodes: loop {
            if let Some((first, others)) = rest.split_first() {
                let last = self.links.find(*first);
                match self.nodes.node(last) {
                    Node::Var { space, var } => {
                        let x = number(names, *space, *var)?;
                        if made.push(Term::Var(x)).is_err() {
                            return Err(AllocError);
                        }
                        rest = others;
                    }
                    Node::App { f, args } => {
                        above.push(Writing {
                            f: *f,
                            made,
                            rest: others,
                        })?;
                        made = Terms::with_capacity(alloc, args.len() as u64)?;
                        rest = args.as_slice();
                    }
                }
            } else {
                let Some(frame) = above.pop() else {
                    return Ok(made);
                };
                let Writing {
                    f,
                    made: before,
                    rest: others,
                } = frame;
                let args = made;
                made = before;
                if made.push(Term::App { f, args }).is_err() {
                    return Err(AllocError);
                }
                rest = others;
            }
        }
    }

    /// What a variable of a space stands for.
    fn write_variable(
        &self,
        alloc: Global,
        names: &mut IndexSet<(u32, u32)>,
        space: u32,
        var: u32,
    ) -> Result<Term, AllocError>
        requires arena { IsArena self.now.nodes self.now.links }
        requires solution { IsSolved self.now.nodes self.now.links }
        ensures names { (u : Family) → IsRead self.now.nodes self.now.links u → OnOk result (numbers names.new.keys ≡ first_ones (numbers names.old.keys) (term_variables (u space var))) }
        ensures term { (u : Family) → IsRead self.now.nodes self.now.links u → IfOk result (λ form. (later : List ℕ) → term_value form ≡ apply_term (by_place (numbers names.new.keys ++ later)) (u space var)) }
    {
        match self.nodes.find(space, var) {
            Some(x) => self.write_node(alloc, names, x),
            None => Ok(Term::Var(number(names, space, var)?)),
        }
    }

    /// A term with the variables of a space.
    #[cycle(write_term)]
    fn write_term(
        &self,
        alloc: Global,
        names: &mut IndexSet<(u32, u32)>,
        space: u32,
        term: &Term,
    ) -> Result<Term, AllocError>
        requires arena { IsArena self.now.nodes self.now.links }
        requires solution { IsSolved self.now.nodes self.now.links }
        ensures names { (u : Family) → IsRead self.now.nodes self.now.links u → OnOk result (numbers names.new.keys ≡ first_ones (numbers names.old.keys) (term_variables (apply_term (u space) (term_value term.now)))) }
        ensures term { (u : Family) → IsRead self.now.nodes self.now.links u → IfOk result (λ form. (later : List ℕ) → term_value form ≡ apply_term (by_place (numbers names.new.keys ++ later)) (apply_term (u space) (term_value term.now))) }
    {
        match term {
            Term::Var(x) => self.write_variable(alloc, names, space, *x),
            Term::App { f, args } => Ok(Term::App {
                f: *f,
                args: self.write_terms(alloc, names, space, args)?,
            }),
        }
    }

    #[cycle(write_term)]
    fn write_terms(
        &self,
        alloc: Global,
        names: &mut IndexSet<(u32, u32)>,
        space: u32,
        terms: &Terms,
    ) -> Result<Terms, AllocError>
        requires arena { IsArena self.now.nodes self.now.links }
        requires solution { IsSolved self.now.nodes self.now.links }
        ensures names { (u : Family) → IsRead self.now.nodes self.now.links u → OnOk result (numbers names.new.keys ≡ first_ones (numbers names.old.keys) (variables_of (apply_arguments (u space) (arguments_of terms.now.items)))) }
        ensures terms { (u : Family) → IsRead self.now.nodes self.now.links u → IfOk result (λ form. (later : List ℕ) → arguments_of form.items ≡ apply_arguments (by_place (numbers names.new.keys ++ later)) (apply_arguments (u space) (arguments_of terms.now.items))) }
    {
        let mut made = Terms::with_capacity(alloc, terms.len())?;
        for k in 0..terms.len() {
            let Some(term) = terms.get(k) else {
                unreachable!();
            };
            let form = self.write_term(alloc, names, space, term)?;
            let Ok(()) = made.push(form) else {
                return Err(AllocError);
            };
        }
        Ok(made)
    }

    fn write_atom(
        &self,
        alloc: Global,
        names: &mut IndexSet<(u32, u32)>,
        space: u32,
        atom: &Atom,
    ) -> Result<Atom, AllocError>
        requires arena { IsArena self.now.nodes self.now.links }
        requires solution { IsSolved self.now.nodes self.now.links }
        requires first { names.old.keys ≡ [] }
        ensures { IfOk result (λ form. (u : Family) → IsRead self.now.nodes self.now.links u → form ≡ canonical_atom (apply_atom (u space) atom.now)) }
    {
        Ok(Atom {
            pred: atom.pred,
            args: self.write_terms(alloc, names, space, &atom.args)?,
        })
    }

    /// The canonical form of a literal with the variables of a space.
    pub(crate) fn write_literal(
        &self,
        alloc: Global,
        space: u32,
        lit: &Literal,
    ) -> Result<Literal, AllocError>
        requires arena { IsArena self.now.nodes self.now.links }
        requires solution { IsSolved self.now.nodes self.now.links }
        ensures { IfOk result (λ form. (u : Family) → IsRead self.now.nodes self.now.links u → form ≡ canonical_literal (apply_literal (u space) lit.now)) }
    {
        let mut names = IndexSet::new(alloc);
        Ok(Literal {
            positive: lit.positive,
            atom: self.write_atom(alloc, &mut names, space, &lit.atom)?,
        })
    }
}
