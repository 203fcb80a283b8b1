//! Deep copies.
//!
//! A copy equals what it copies; of a list's room nothing is said. `Term`, `Terms` and `Tuple` have such
//! a call of their own.
ghost use Rattle.std.specs.Prelude.{◌≡◌, IfOk};

use crate::answer::Instance;
use crate::atom::{Atom, Literal, Pattern};
use crate::clause::Clause;
use crate::entry::{Entry, Reason};
use crate::sequence::Sequence;
use crate::symbol::{Label, Symbol};
use std::alloc::{AllocError, Global};

/// What can be copied deeply.
pub trait Again: Drop {
    /// An equal value.
    fn again(&self, alloc: Global) -> Result<Self, AllocError>
        ensures { IfOk result (λ copy. copy ≡ self.now) };
}

impl Again for u8 {
    fn again(&self, _alloc: Global) -> Result<Self, AllocError> {
        Ok(*self)
    }
}

impl Again for u32 {
    fn again(&self, _alloc: Global) -> Result<Self, AllocError> {
        Ok(*self)
    }
}

impl Again for Atom {
    fn again(&self, alloc: Global) -> Result<Self, AllocError> {
        Ok(Atom {
            pred: self.pred,
            args: self.args.again(alloc)?,
        })
    }
}

impl Again for Literal {
    fn again(&self, alloc: Global) -> Result<Self, AllocError> {
        Ok(Literal {
            positive: self.positive,
            atom: self.atom.again(alloc)?,
        })
    }
}

impl Again for Pattern {
    fn again(&self, alloc: Global) -> Result<Self, AllocError> {
        match self {
            Pattern::Any => Ok(Pattern::Any),
            Pattern::Of(atom) => Ok(Pattern::Of(atom.again(alloc)?)),
        }
    }
}

impl Again for Label {
    fn again(&self, alloc: Global) -> Result<Self, AllocError> {
        Ok(Label {
            form: self.form,
            text: self.text.again(alloc)?,
        })
    }
}

impl Again for Symbol {
    fn again(&self, alloc: Global) -> Result<Self, AllocError> {
        Ok(Symbol {
            label: self.label.again(alloc)?,
            arity: self.arity,
        })
    }
}

impl Again for Clause {
    fn again(&self, alloc: Global) -> Result<Self, AllocError> {
        Ok(Clause {
            number: self.number,
            label: self.label.again(alloc)?,
            literals: self.literals.again(alloc)?,
        })
    }
}

impl Reason {
    ghost use Rattle.me_terms.specs.ReasonViews.{reason_value};

    /// An equal reason.
    pub fn again(&self, alloc: Global) -> Result<Self, AllocError>
        ensures { IfOk result (λ copy. reason_value copy ≡ reason_value self.now) }
    {
        match self {
            Reason::Pseudo => Ok(Reason::Pseudo),
            Reason::Asserted {
                clause,
                place,
                tuple,
            } => Ok(Reason::Asserted {
                clause: *clause,
                place: *place,
                tuple: tuple.again(alloc)?,
            }),
            Reason::SplitLeft => Ok(Reason::SplitLeft),
            Reason::SplitRight => Ok(Reason::SplitRight),
        }
    }
}

impl Again for Entry {
    fn again(&self, alloc: Global) -> Result<Self, AllocError> {
        Ok(Entry {
            positive: self.positive,
            atom: self.atom.again(alloc)?,
            kind: self.kind,
            reason: self.reason.again(alloc)?,
        })
    }
}

impl Again for Instance {
    fn again(&self, alloc: Global) -> Result<Self, AllocError> {
        Ok(Instance {
            clause: self.clause,
            literals: self.literals.again(alloc)?,
        })
    }
}

impl<T: Again> Sequence<T> {
    /// An equal list: the items are copied in order.
    pub fn again(&self, alloc: Global) -> Result<Self, AllocError>
        ensures { IfOk result (λ copy. copy.items ≡ self.now.items) }
    {
        let mut copy = Sequence::new(alloc);
        copy.reserve(self.len())?;
        for item in self.as_slice() {
            let item = item.again(alloc)?;
            if copy.push(item).is_err() {
                return Err(AllocError);
            }
        }
        Ok(copy)
    }
}
