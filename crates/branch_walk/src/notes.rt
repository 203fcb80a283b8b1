//! Keys that are noted for proofs alone.
ghost use Rattle.std.specs.Prelude.{◌≡◌, ℕ, List, [], ◌∷◌, ◌++◌};
ghost use Rattle.std.specs.Coded.{coded_list, coded_ℕ};
ghost use Rattle.std.specs.Borrow.{ftrue};

use std::marker::Model;

/// A list of keys that takes no memory: no code reads it.
#[derive(Drop)]
pub struct Notes {
    pub ghost keys: { List ℕ } by { coded_list coded_ℕ },
}

impl Model for Notes {
    ghost also_owns = { λ _. ftrue };
}

impl Notes {
    /// No key is noted.
    pub fn blank() -> Self
        ensures { result.keys ≡ [] }
    {
        Notes {}
    }

    /// With a key more.
    pub fn noted(self, _key: u16) -> Self
        ensures { result.keys ≡ self.keys ++ _key ∷ [] }
    {
        let Notes {} = self;
        Notes {}
    }
}
