//! Variables that are free under equations, set equal to constants.
//!
//! Each gets the constant of a number of its own, as long as there are numbers, so that variables which
//! differ get constants which differ.
ghost use Rattle.std.specs.Prelude.{◌≡◌, ◌<◌, ◌-◌, ◌^◌, length, IfOk, OnOk};
ghost use Rattle.me_terms.specs.TermViews.{term_value};
ghost use Rattle.context_unifier.specs.Frozen.{unary as unary_atom, StaysFrozen};

use me_terms::{Atom, Literal, Pattern, Term, Terms, Tuple, View};
use me_unify::Bindings;
use std::alloc::{AllocError, Global};

/// Bindings, and the number of the constant that the next free variable becomes.
#[derive(Drop)]
pub(crate) struct Freezing {
    alloc: Global,
    pub(crate) bindings: Bindings,
    pub(crate) next: u32,
}

/// The atom of one term.
fn unary(alloc: Global, term: Term) -> Result<Atom, AllocError>
    ensures { IfOk result (λ a. a ≡ unary_atom (term_value term)) }
{
    let mut args = Terms::new(alloc);
    match args.push(term) {
        Ok(()) => Ok(Atom { pred: 0, args }),
        Err(_) => Err(AllocError),
    }
}

impl Freezing {
    /// Bindings of which nothing is frozen yet.
    pub(crate) fn new(alloc: Global, bindings: Bindings, first: u32) -> Self
        ensures bindings { result.bindings ≡ bindings }
        ensures next { result.next ≡ first }
    {
        Freezing {
            alloc,
            bindings,
            next: first,
        }
    }

    /// Freezes a variable of a space where it is free still.
    fn freeze(&mut self, space: u32, x: u32) -> Result<(), AllocError>
        requires { space < 2 ^ 32 - 1 }
        ensures { OnOk result (StaysFrozen self.old.bindings self.old.next self.new.bindings self.new.next) }
    {
        if self.next == u32::MAX || !self.bindings.is_variable(space, x) {
            return Ok(());
        }
        let variable = unary(self.alloc, Term::Var(x))?;
        let args = Terms::new(self.alloc);
        let constant = unary(self.alloc, Term::App { f: self.next, args })?;
        if !self.bindings.unify(space, &variable, 0, &constant)? {
            return Ok(());
        }
        self.next += 1;
        Ok(())
    }

    /// Freezes the variables of a term.
    #[cycle(terms)]
    fn freeze_term(&mut self, space: u32, term: &Term) -> Result<(), AllocError>
        requires { space < 2 ^ 32 - 1 }
        ensures { OnOk result (StaysFrozen self.old.bindings self.old.next self.new.bindings self.new.next) }
    {
        match term {
            Term::Var(x) => self.freeze(space, *x),
            Term::App { f: _, args } => self.freeze_terms(space, args),
        }
    }

    #[cycle(terms)]
    fn freeze_terms(&mut self, space: u32, terms: &Terms) -> Result<(), AllocError>
        requires { space < 2 ^ 32 - 1 }
        ensures { OnOk result (StaysFrozen self.old.bindings self.old.next self.new.bindings self.new.next) }
    {
        for k in 0..terms.len() {
            let Some(term) = terms.get(k) else {
                unreachable!();
            };
            self.freeze_term(space, term)?;
        }
        Ok(())
    }

    /// Freezes the variables of literals, which are those of space 0.
    pub(crate) fn freeze_literals(&mut self, literals: &[Literal]) -> Result<(), AllocError>
        ensures { OnOk result (StaysFrozen self.old.bindings self.old.next self.new.bindings self.new.next) }
    {
        for literal in literals {
            self.freeze_terms(0, &literal.atom.args)?;
        }
        Ok(())
    }

    /// Freezes the variables of the entry at a position.
    fn freeze_position<V: View>(&mut self, view: &V, space: u32, k: u32) -> Result<(), AllocError>
        requires { space < 2 ^ 32 - 1 }
        ensures { OnOk result (StaysFrozen self.old.bindings self.old.next self.new.bindings self.new.next) }
    {
        let Some(entry) = view.entry(k) else {
            return Ok(());
        };
        match &entry.atom {
            Pattern::Any => Ok(()),
            Pattern::Of(atom) => self.freeze_terms(space, &atom.args),
        }
    }

    /// Freezes the variables of the entries at the positions of a tuple, each in the space of its place.
    pub(crate) fn freeze_entries<V: View>(
        &mut self,
        view: &V,
        tuple: &Tuple,
    ) -> Result<(), AllocError>
        requires few { length tuple.now.items < 2 ^ 32 - 1 }
        ensures { OnOk result (StaysFrozen self.old.bindings self.old.next self.new.bindings self.new.next) }
    {
        for place in 0..tuple.len() {
            let Some(k) = tuple.get(place) else {
                unreachable!();
            };
            self.freeze_position(view, place as u32 + 1, *k)?;
        }
        Ok(())
    }
}
