//! The first entries of a context, as a context of their own.
//!
//! The context may be longer, so what of them is visible is told by what is kept of their own hiding.
ghost use Rattle.std.specs.Prelude.{◌≡◌, ◌<◌, ◌≤◌, length, take, slice_get};
ghost use Rattle.std.specs.Option.{option_copied};
ghost use Rattle.entry_hiding.specs.Hiding.{IsHidingOf};

use entry_hiding::{EntryList, Hiding};
use me_terms::{Entry, View};
use std::marker::Model;

/// The first `len` entries of a context, as a list.
#[derive(Drop)]
pub struct Front<'a, V: View> {
    view: &'a V,
    len: u32,
}

impl<'a, V: View> Model for Front<'a, V> {
    ghost use Rattle.std.specs.Prelude.{List, ◌≤◌, take, length};
    ghost use Rattle.std.specs.Coded.{codes};
    ghost use Rattle.me_terms.specs.Terms.{arguments_code};
    ghost use Rattle.me_terms.specs.Values.{EntryValue};

    ghost Value = { List EntryValue };

    ghost coded = { Prim.hlevel (codes, arguments_code) };

    ghost view = { λ f. take f.len (V.context f.view.now) };

    ghost invariant = { λ f. f.len ≤ length (V.context f.view.now) };
}

impl<'a, V: View> Front<'a, V> {
    pub fn new(view: &'a V, len: u32) -> Self
        requires { len ≤ length (V.context view.now) }
        ensures { result ≡ take len (V.context view.now) }
    {
        Front { view, len }
    }

    /// The entry at position `k`, from 0.
    fn at(&self, k: u32) -> Option<&Entry>
        ensures { option_copied result ≡ slice_get self.now k }
    {
        if k >= self.len {
            return None;
        }
        let view = self.view;
        view.entry(k)
    }
}

impl<'a, V: View> EntryList for Front<'a, V> {
    ghost entries = { λ f. f };

    fn entry_at(&self, k: usize) -> Option<&Entry> {
        if k >= self.len as usize {
            return None;
        }
        self.at(k as u32)
    }
}

/// The first entries of a context, with what is visible among them.
#[derive(Drop)]
pub struct Prefix<'a, V: View> {
    front: Front<'a, V>,
    hiding: &'a Hiding,
}

impl<'a, V: View> Model for Prefix<'a, V> {
    ghost use Rattle.std.specs.Prelude.{List, ◌≤◌, length};
    ghost use Rattle.std.specs.Coded.{codes};
    ghost use Rattle.me_terms.specs.Terms.{arguments_code};
    ghost use Rattle.me_terms.specs.Values.{EntryValue};
    ghost use Rattle.me_terms.specs.Context.{IsContext};
    ghost use Rattle.me_terms.specs.declared.bounds.TheConstants.{MAX_ENTRIES};
    ghost use Rattle.entry_hiding.specs.Hiding.{IsHidingOf};

    ghost Value = { List EntryValue };

    ghost coded = { Prim.hlevel (codes, arguments_code) };

    ghost view = { λ p. p.front };

    ghost invariant = { λ p. IsHidingOf p.front p.hiding.now × IsContext p.front × (length p.front ≤ MAX_ENTRIES) };
}

impl<'a, V: View> Prefix<'a, V> {
    pub fn new(view: &'a V, len: u32, hiding: &'a Hiding) -> Self
        requires some { 0 < len }
        requires within { len ≤ length (V.context view.now) }
        requires hiding { IsHidingOf (take len (V.context view.now)) hiding.now }
        ensures { result ≡ take len (V.context view.now) }
    {
        let _entries = view.len();
        Prefix {
            front: Front::new(view, len),
            hiding,
        }
    }
}

impl<'a, V: View> View for Prefix<'a, V> {
    ghost context = { λ p. p };

    fn len(&self) -> u32 {
        self.front.len
    }

    fn entry(&self, k: u32) -> Option<&Entry> {
        self.front.at(k)
    }

    fn visible(&self, k: u32) -> bool {
        self.hiding.shows(k)
    }
}
