//! The search for the least Close.
ghost use Rattle.std.specs.Prelude.{◌<◌, ◌-◌, ◌^◌, Some, None, length, IfOk, IfSome, IfNone};
ghost use Rattle.me_terms.specs.Close.{HasClose};
ghost use Rattle.me_terms.specs.Order.{IsLeastClose};
ghost use Rattle.tuple_search.specs.Enumeration.{remainder_limit, IsNextTuple, IsLastTuple};
ghost use Rattle.next_rule.specs.FewPlaces.{HasFewPlaces};

use crate::search::Search;
use me_terms::{Clause, Tuple, View};
use std::alloc::AllocError;
use tuple_search::{Cursor, Limits};

/// A clause, by its place in the problem, and a tuple of positions.
#[derive(Drop)]
pub(crate) struct Closing {
    pub(crate) clause: u32,
    pub(crate) tuple: Tuple,
}

impl<'a, V: View> Search<'a, V> {
    /// The first tuple with which the clause has a unifier without a remainder.
    fn closing_tuple(&self, clause: &Clause) -> Result<Option<Tuple>, AllocError>
        requires { length clause.now.literals < 2 ^ 32 - 1 }
        ensures some { IfOk result (λ r. IfSome r (λ t. IsNextTuple (V.context self.now.view.now) clause.now.literals None (remainder_limit (Some 0)) None t.items)) }
        ensures none { IfOk result (λ r. IfNone r (IsLastTuple (V.context self.now.view.now) clause.now.literals None (remainder_limit (Some 0)) None)) }
    {
        let limits = Limits::of_remainder(Some(0));
        let mut cursor = Cursor::new(self.alloc, &clause.literals, None, limits, self.view);
        if !cursor.advance()? {
            return Ok(None);
        }
        let tuple = cursor.tuple().again(self.alloc)?;
        Ok(Some(tuple))
    }

    /// The least Close, if there is one.
    pub(crate) fn closing(&self) -> Result<Option<Closing>, AllocError>
        requires { HasFewPlaces self.now.problem.now }
        ensures some { IfOk result (λ r. IfSome r (λ least. IsLeastClose self.now.problem.now (V.context self.now.view.now) least.clause least.tuple.items)) }
        ensures none { IfOk result (λ r. IfNone r (HasClose self.now.problem.now (V.context self.now.view.now) → ⊥)) }
    {
        let problem = self.problem;
        for (c, clause) in problem.clauses.as_slice().iter().enumerate() {
            if let Some(tuple) = self.closing_tuple(clause)? {
                return Ok(Some(Closing {
                    clause: c as u32,
                    tuple,
                }));
            }
        }
        Ok(None)
    }
}
