//! What a search goes over.

use me_terms::{Bounds, Problem, View};
use std::alloc::Global;

/// A problem and a context, and the bounds.
pub(crate) struct Search<'a, V: View> {
    pub(crate) alloc: Global,
    pub(crate) problem: &'a Problem,
    pub(crate) view: &'a V,
    pub(crate) bounds: &'a Bounds,
}

impl<'a, V: View> Drop for Search<'a, V> {
    fn drop(self) {
        let Search {
            alloc: _,
            problem: _,
            view: _,
            bounds: _,
        } = self;
    }
}
