//! What is kept of hiding, beside a list of entries that stands elsewhere.
//!
//! For each entry the first later one that hides it is kept, and for each one the earlier ones that it was
//! the first to hide. Whether an entry is visible is told in constant time, and an entry that is taken off
//! shows again just what it hid.
ghost use Rattle.std.specs.Prelude.{◌≡◌, ◌<◌, [], ◌∷◌, ◌++◌, length, vec_len, vec_capacity, ◌↔◌, OnOk, OnErr, IfOk, IsTrue, map};
ghost use Rattle.me_terms.specs.Values.{EntryValue};
ghost use Rattle.me_terms.specs.Context.{Context, IsVisible, add};
ghost use Rattle.me_terms.specs.declared.bounds.TheConstants.{MAX_ENTRIES};
ghost use Rattle.entry_hiding.specs.Hiding.{IsHidingOf};
ghost use Rattle.entry_hiding.specs.Views.{items_of};

use crate::entry_list::EntryList;
use crate::marking::{is_shown, mark, newly_hidden};
use me_terms::{Again, Entry, Places};
use std::alloc::{AllocError, Global};
use std::marker::Model;

/// By which later entry each entry of a list is hidden first, and which ones each was the first to hide.
#[derive(Drop)]
pub struct Hiding {
    hidden_by: Vec<Option<u32>>,
    hides: Vec<Places>,
}

impl Model for Hiding {
    ghost use Rattle.std.specs.Coded.{codes};
    ghost use Rattle.entry_hiding.specs.Values.{HidingValue};
    ghost use Rattle.entry_hiding.specs.Views.{items_of};

    ghost Value = { HidingValue };

    ghost coded = { Prim.hlevel (codes) };

    ghost view = { λ h. record { hidden_by = h.hidden_by.items; hides = items_of h.hides.items } };
}

/// Room for one more item in each list, or nothing is changed where memory is out.
fn make_room(hidden_by: &mut Vec<Option<u32>>, hides: &mut Vec<Places>) -> Result<(), AllocError>
    ensures hidden_by { hidden_by.new.items ≡ hidden_by.old.items }
    ensures hides { hides.new.items ≡ hides.old.items }
    ensures room { OnOk result ((vec_len hidden_by.new < vec_capacity hidden_by.new)
        × (vec_len hides.new < vec_capacity hides.new)) }
{
    hidden_by.reserve(1)?;
    hides.reserve(1)?;
    Ok(())
}

/// Takes the last item off.
fn take_last<T>(items: &mut Vec<T>) -> T
    requires { 0 < length items.old.items }
    ensures { items.old.items ≡ items.new.items ++ result ∷ [] }
{
    match items.pop() {
        Some(last) => last,
        None => unreachable!(),
    }
}

/// Copies of the lists of positions.
fn copy_lists(alloc: Global, lists: &[Places]) -> Result<Vec<Places>, AllocError>
    ensures { IfOk result (λ copy. items_of copy.items ≡ items_of lists.now) }
{
    let mut copy = Vec::new(alloc);
    for list in lists {
        copy.push(list.again(alloc)?)?;
    }
    Ok(copy)
}

impl Hiding {
    /// Where one entry stands alone. Later calls that need memory take it from `alloc`.
    pub fn start(alloc: Global) -> Result<Self, AllocError>
        ensures { IfOk result (λ h. (e : EntryValue) → IsHidingOf (e ∷ []) h) }
    {
        Ok(Hiding {
            hidden_by: vec![in alloc; None]?,
            hides: vec![in alloc; Places::new(alloc)]?,
        })
    }

    /// Notes that an entry comes behind these, or changes nothing where memory is out.
    pub fn add<L: EntryList>(&mut self, entries: &L, e: &Entry) -> Result<(), AllocError>
        requires fits { IsHidingOf (L.entries entries.now) self.old }
        requires room { length (L.entries entries.now) < MAX_ENTRIES }
        ensures ok { OnOk result (IsHidingOf (add (L.entries entries.now) e.now) self.new) }
        ensures err { OnErr result (self.new ≡ self.old) }
    {
        let alloc = *self.hidden_by.allocator();
        let places = newly_hidden(alloc, entries, &self.hidden_by, e)?;
        make_room(&mut self.hidden_by, &mut self.hides)?;
        let position = self.hidden_by.len() as u32;
        mark(&mut self.hidden_by, places.as_slice(), Some(position));
        self.hidden_by.push_reserved(None);
        self.hides.push_reserved(places);
        Ok(())
    }

    /// Notes that the last entry is taken off: what it hid is visible again.
    pub fn pop(&mut self)
        requires fits { (context : Context) × (e : EntryValue) × IsHidingOf (add context e) self.old }
        ensures { (context : Context) (e : EntryValue) → IsHidingOf (add context e) self.old → IsHidingOf context self.new }
    {
        let _by = take_last(&mut self.hidden_by);
        let places = take_last(&mut self.hides);
        mark(&mut self.hidden_by, places.as_slice(), None);
    }

    /// Whether an entry stands at position `k` and no later one hides it.
    pub fn shows(&self, k: u32) -> bool
        ensures { (context : Context) → IsHidingOf context self.now → IsTrue result ↔ ((e : EntryValue) × IsVisible context k e) }
    {
        is_shown(&self.hidden_by, k)
    }

    /// An equal copy.
    pub fn again(&self, alloc: Global) -> Result<Self, AllocError>
        ensures { IfOk result (λ copy. copy ≡ self.now) }
    {
        Ok(Hiding {
            hidden_by: self.hidden_by.as_slice().to_vec(alloc)?,
            hides: copy_lists(alloc, &self.hides)?,
        })
    }
}
