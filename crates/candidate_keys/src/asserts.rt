//! Asserts that were found, of which the least is asked for.
ghost use Rattle.std.specs.Prelude.{◌≡◌, ◌<◌, [], ◌∷◌, ◌++◌, length, slice_get, Some, IfSome, IfNone, OnOk, OnErr};
ghost use Rattle.std.specs.List.{remove};
ghost use Rattle.candidate_keys.specs.Keys.{IsLeastAt, IsEarlier};

use crate::assert_key::AssertKey;
use std::alloc::{AllocError, Global};
use std::marker::Model;

/// Keys of Asserts. Those that are Asserts no more are taken out when they are the least.
#[derive(Drop)]
pub struct Asserts {
    keys: Vec<AssertKey>,
}

impl Model for Asserts {
    ghost use Rattle.std.specs.Prelude.{List};
    ghost use Rattle.std.specs.Coded.{codes};
    ghost use Rattle.candidate_keys.specs.Keys.{AssertKeyValue};

    ghost Value = { List AssertKeyValue };

    ghost coded = { Prim.hlevel (codes) };

    ghost view = { λ a. a.keys.items };
}

/// The place of the one of two keys that comes first.
fn earlier(keys: &[AssertKey], i: usize, k: usize) -> usize
    requires first { i < length keys.now }
    requires second { k < length keys.now }
    ensures { IsEarlier keys.now i k result }
{
    if keys[i].precedes(&keys[k]) {
        return i;
    }
    k
}

/// Where the least key stands, if there is one.
fn least_of(keys: &[AssertKey]) -> Option<usize>
    ensures within { IfSome result (λ k. k < length keys.now) }
    ensures least { IfSome result (λ k. IsLeastAt keys.now k) }
    ensures none { IfNone result (keys.now ≡ []) }
{
    if keys.is_empty() {
        return None;
    }
    let mut least = 0;
    for k in 1..keys.len() {
        least = earlier(keys, least, k);
    }
    Some(least)
}

impl Asserts {
    /// None. Later calls that need memory take it from `alloc`.
    pub fn new(alloc: Global) -> Self
        ensures { result ≡ [] }
    {
        Asserts {
            keys: Vec::new(alloc),
        }
    }

    /// Puts the key to the others, or changes nothing where memory is out.
    pub fn add(&mut self, key: AssertKey) -> Result<(), AllocError>
        ensures ok { OnOk result (self.new ≡ self.old ++ key ∷ []) }
        ensures err { OnErr result (self.new ≡ self.old) }
    {
        self.keys.push(key)?;
        Ok(())
    }

    /// Takes all keys out.
    pub fn clear(&mut self)
        ensures { self.new ≡ [] }
    {
        self.keys.clear();
    }

    /// Where the least key stands, if there is one.
    pub fn least(&self) -> Option<usize>
        ensures within { IfSome result (λ k. k < length self.now) }
        ensures least { IfSome result (λ k. IsLeastAt self.now k) }
        ensures none { IfNone result (self.now ≡ []) }
    {
        least_of(&self.keys)
    }

    /// The key that stands there.
    pub fn at(&self, k: usize) -> &AssertKey
        requires { k < length self.now }
        ensures { slice_get self.now k ≡ Some result.now }
    {
        &self.keys[k]
    }

    /// Takes out the key that stands there.
    pub fn take(&mut self, k: usize)
        requires { k < length self.old }
        ensures { self.new ≡ remove self.old k }
    {
        let _key = self.keys.remove(k);
    }
}
