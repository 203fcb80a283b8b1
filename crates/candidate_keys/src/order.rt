//! The order of lists of numbers.
ghost use Rattle.std.specs.Prelude.{◌≡◌, IsTrue, ◌↔◌};
ghost use Rattle.me_terms.specs.Order.{Precedes};

/// Whether the first list stands at or before the second one lexicographically.
pub fn list_precedes(list: &[u32], other: &[u32]) -> bool
    ensures { IsTrue result ↔ Precedes list.now other.now }
{
    for k in 0..list.len() {
        if k >= other.len() || list[k] > other[k] {
            return false;
        }
        if list[k] < other[k] {
            return true;
        }
    }
    true
}
