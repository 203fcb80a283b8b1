//! What a leaf's list shows, as the contract of a function without a body.
ghost use Rattle.ground_refutation.specs.LeafRefuted.{LeafIsRefuted};

/// Under each valuation that agrees with the splits on its branch, a leaf's list has an instance whose
/// literals are all false.
pub fn leaf_is_refuted()
    ensures { LeafIsRefuted }
{}
