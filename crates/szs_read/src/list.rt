//! Lists that grow, or say that memory is out.
ghost use Rattle.std.specs.Prelude.{◌≡◌, [], ◌∷◌, ◌++◌, OnOk};

use me_terms::Sequence;
use std::alloc::AllocError;

/// Puts an item at the end.
pub(crate) fn push<T: Drop>(list: &mut Sequence<T>, item: T) -> Result<(), AllocError>
    ensures { OnOk result (list.new.items ≡ list.old.items ++ item ∷ []) }
{
    match list.push(item) {
        Ok(()) => Ok(()),
        Err(_) => Err(AllocError),
    }
}
