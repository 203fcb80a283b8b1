//! The index of a context's entries.
ghost use Rattle.std.specs.Prelude.{◌≡◌, ◌<◌, Bool, [], ◌∷◌, length, IfOk, OnOk, OnErr};
ghost use Rattle.me_terms.specs.Values.{EntryValue};
ghost use Rattle.me_terms.specs.Context.{Context, add, pseudo};
ghost use Rattle.me_terms.specs.declared.bounds.TheConstants.{MAX_ENTRIES};
ghost use Rattle.literal_index.specs.Postings.{positions};
ghost use Rattle.literal_index.specs.Index.{code_of as code_of_atom, IsIndex};

use crate::keys::{code_key_of, code_of, general_key_of};
use crate::postings::Postings;
use me_terms::{Atom, Entry};
use std::alloc::{AllocError, Global};
use std::marker::Model;

/// The positions of entries by their atoms' codes, and those of Universal ones that may be more general than
/// other atoms by their predicates.
#[derive(Drop)]
pub struct Index {
    atoms: Postings,
    general: Postings,
}

impl Model for Index {
    ghost use Rattle.std.specs.Coded.{codes};
    ghost use Rattle.literal_index.specs.Index.{IndexValue};

    ghost Value = { IndexValue };

    ghost coded = { Prim.hlevel (codes) };

    ghost view = { λ i. record { atoms = i.atoms; general = i.general } };
}

impl Index {
    /// The index where the pseudo-literal stands alone.
    pub fn new(alloc: Global) -> Result<Self, AllocError>
        ensures { IfOk result (λ index. (positive : Bool) → IsIndex (pseudo positive ∷ []) index) }
    {
        let mut atoms = Postings::new(alloc);
        let mut general = Postings::new(alloc);
        atoms.push(None)?;
        general.push(None)?;
        Ok(Index { atoms, general })
    }

    /// Takes in an entry that comes behind those that were taken in, or changes nothing where memory is out.
    pub fn enter(&mut self, entry: &Entry) -> Result<(), AllocError>
        requires fits { (context : Context) × IsIndex context self.old × (length context < MAX_ENTRIES) }
        ensures ok { OnOk result ((context : Context) → IsIndex context self.old → IsIndex (add context entry.now) self.new) }
        ensures err { OnErr result (self.new ≡ self.old) }
    {
        let general = general_key_of(entry);
        self.atoms.push(code_key_of(entry))?;
        match self.general.push(general) {
            Ok(()) => Ok(()),
            Err(AllocError) => {
                self.atoms.pop();
                Err(AllocError)
            }
        }
    }

    /// Takes the last entry off.
    pub fn leave(&mut self)
        ensures { (context : Context) (e : EntryValue) → IsIndex (add context e) self.old → IsIndex context self.new }
    {
        self.atoms.pop();
        self.general.pop();
    }

    /// The positions of the entries whose atoms have the code of this one, rising, hidden ones too: all that
    /// have this very atom, and by chance another one.
    pub fn of_atom(&self, atom: &Atom) -> &[u32]
        ensures { result.now ≡ positions (code_of_atom atom.now) self.now.atoms }
    {
        self.atoms.at(code_of(atom))
    }

    /// The positions of the Universal entries of the predicate of which not all arguments are constants,
    /// rising, hidden ones too.
    pub fn general(&self, pred: u32) -> &[u32]
        ensures { result.now ≡ positions pred self.now.general }
    {
        self.general.at(u64::from(pred))
    }
}
