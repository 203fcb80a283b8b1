//! How many literals a list may have.
ghost use Rattle.std.specs.Prelude.{◌<◌, ◌-◌, ◌^◌, ◌↔◌, IsTrue};
ghost use Rattle.ground_solver.specs.Assignments.{clauses_of};
ghost use Rattle.ground_solver.specs.Named.{literal_count};

use crate::decision::GroundList;

/// A list has fewer literals than this.
const LIMIT: u64 = 4_294_967_295;

/// Whether the list is one that can be decided: it has fewer than 2^32 - 1 literals.
pub fn is_within_limit(list: &GroundList) -> bool
    ensures { IsTrue result ↔ (literal_count (clauses_of list.now.items) < 2 ^ 32 - 1) }
{
    let mut total = 0_u64;
    for literals in list.as_slice() {
        let more = literals.len();
        if more >= LIMIT - total {
            return false;
        }
        total += more;
    }
    true
}
