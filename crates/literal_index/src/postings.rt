//! Lists of the positions at which keys stand.
//!
//! A contract sees the list of keys, one for each position or none, as they are put to its end and taken off.
//! For each key the positions where it stands are kept as a rising list. An inverted index.
ghost use Rattle.std.specs.Prelude.{◌≡◌, ◌<◌, ◌-◌, ◌^◌, ℕ, [], ◌∷◌, ◌++◌, None, Some, length, take, true, OnOk, OnErr};
ghost use Rattle.literal_index.specs.Postings.{positions, listed, PutsTo, PutsKey, TakesFrom, TakesKey, IsSame, HasNoList};

use indexmap::IndexMap;
use std::alloc::{AllocError, Global};
use std::marker::Model;

/// The keys by position, and for each key its positions. A key that stands nowhere has no list.
#[derive(Drop)]
pub(crate) struct Postings {
    keys: Vec<Option<u64>>,
    lists: IndexMap<u64, Vec<u32>>,
}

impl Model for Postings {
    ghost use Rattle.std.specs.Prelude.{List, Option, ℕ};
    ghost use Rattle.literal_index.specs.Postings.{AreListed};

    ghost Value = { List (Option ℕ) };

    ghost view = { λ p. p.keys.items };

    ghost invariant = { λ p. AreListed p.keys.items p.lists.entries };
}

/// Puts a position to the list of a key that has none yet.
fn put_first(lists: &mut IndexMap<u64, Vec<u32>>, key: u64, k: u32) -> Result<(), AllocError>
    requires { HasNoList key lists.old.entries }
    ensures ok { OnOk result (PutsTo key k lists.old.entries lists.new.entries) }
    ensures err { OnErr result (IsSame lists.old.entries lists.new.entries) }
{
    let alloc = *lists.allocator();
    let list = vec![in alloc; k]?;
    match lists.insert(key, list) {
        Ok(_) => Ok(()),
        Err(_) => Err(AllocError),
    }
}

/// Puts a position to the list of the key, or changes nothing where memory is out.
fn put(lists: &mut IndexMap<u64, Vec<u32>>, key: u64, k: u32) -> Result<(), AllocError>
    ensures ok { OnOk result (PutsTo key k lists.old.entries lists.new.entries) }
    ensures err { OnErr result (IsSame lists.old.entries lists.new.entries) }
{
    match lists.get_mut(&key) {
        Some(list) => {
            list.push(k)?;
            Ok(())
        }
        None => put_first(lists, key, k),
    }
}

/// Puts a position to the list of the key, if there is one, or changes nothing where memory is out.
fn put_key(lists: &mut IndexMap<u64, Vec<u32>>, key: Option<u64>, k: u32) -> Result<(), AllocError>
    ensures ok { OnOk result (PutsKey key k lists.old.entries lists.new.entries) }
    ensures err { OnErr result (IsSame lists.old.entries lists.new.entries) }
{
    match key {
        Some(key) => put(lists, key, k),
        None => Ok(()),
    }
}

/// Takes the last position off the list of the key. True where the list has none now.
fn take_last(lists: &mut IndexMap<u64, Vec<u32>>, key: u64) -> bool
    ensures taken { TakesFrom key lists.old.entries lists.new.entries }
    ensures empty { result ≡ true → listed lists.new.entries key ≡ [] }
{
    match lists.get_mut(&key) {
        Some(list) => {
            let _last = list.pop();
            list.is_empty()
        }
        None => false,
    }
}

/// Takes the last position off the list of the key, and the list away where it has none left.
fn take(lists: &mut IndexMap<u64, Vec<u32>>, key: u64)
    ensures { TakesFrom key lists.old.entries lists.new.entries }
{
    if take_last(lists, key) {
        let _list = lists.swap_remove(&key);
    }
}

/// Takes the last position off the list of the key, if there is one.
fn take_key(lists: &mut IndexMap<u64, Vec<u32>>, key: Option<u64>)
    ensures { TakesKey key lists.old.entries lists.new.entries }
{
    if let Some(key) = key {
        take(lists, key);
    }
}

impl Postings {
    /// No keys. Later calls that need memory take it from `alloc`.
    pub(crate) fn new(alloc: Global) -> Self
        ensures { result ≡ [] }
    {
        Postings {
            keys: Vec::new(alloc),
            lists: IndexMap::new(alloc),
        }
    }

    /// Puts a key, or none, to the end, or changes nothing where memory is out.
    pub(crate) fn push(&mut self, key: Option<u64>) -> Result<(), AllocError>
        requires { length self.old < 2 ^ 32 }
        ensures ok { OnOk result (self.new ≡ self.old ++ key ∷ []) }
        ensures err { OnErr result (self.new ≡ self.old) }
    {
        self.keys.reserve(1)?;
        let k = self.keys.len() as u32;
        put_key(&mut self.lists, key, k)?;
        self.keys.push_reserved(key);
        Ok(())
    }

    /// Takes the last key off, if there is one.
    pub(crate) fn pop(&mut self)
        ensures { self.new ≡ take (length self.old - 1) self.old }
    {
        if let Some(key) = self.keys.pop() {
            take_key(&mut self.lists, key);
        }
    }

    /// The positions at which the key stands, rising.
    pub(crate) fn at(&self, key: u64) -> &[u32]
        ensures { result.now ≡ positions key self.now }
    {
        match self.lists.get(&key) {
            Some(list) => list.as_slice(),
            None => &[],
        }
    }
}
