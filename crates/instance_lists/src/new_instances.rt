//! Which instances of a list are new beside another one.
//!
//! They are found by a set of the instances that stand before them.
ghost use Rattle.std.specs.Prelude.{◌≡◌, IfOk};
ghost use Rattle.instance_lists.specs.News.{news, kept_by_marks, stands_in};

use me_terms::{Instance, Instances};
use std::alloc::{AllocError, Global};
use std::collections::HashSet;

/// Whether each instance of `more` is new: it stands neither in `list` nor earlier in `more`.
pub(crate) fn find_new(
    alloc: Global,
    list: &[Instance],
    more: &[Instance],
) -> Result<Vec<bool>, AllocError>
    ensures { IfOk result (λ marks. marks.items ≡ news list.now more.now) }
{
    let mut known = HashSet::with_capacity(alloc, list.len())?;
    for instance in list {
        known.insert(instance)?;
    }
    let mut marks = Vec::new(alloc);
    for instance in more {
        let is_new = known.insert(instance)?;
        marks.push(is_new)?;
    }
    Ok(marks)
}

/// The instances whose mark is true.
pub(crate) fn keep_marked(
    alloc: Global,
    list: Instances,
    marks: &[bool],
) -> Result<Instances, AllocError>
    ensures { IfOk result (λ kept. kept.items ≡ kept_by_marks marks.now list.items) }
{
    let mut kept = Instances::new(alloc);
    for (instance, is_marked) in list.into_vec().into_iter().zip(marks) {
        if *is_marked && kept.push(instance).is_err() {
            return Err(AllocError);
        }
    }
    Ok(kept)
}
