//! The names of a chain of files.
//!
//! A chain begins with the main file, and each other file is included by the one before it.
ghost use Rattle.std.specs.Prelude.{◌≡◌, [], ◌∷◌, ◌++◌, IfOk, OnOk};
ghost use Rattle.std.specs.List.{list_any};
ghost use Rattle.std.specs.Str.{bytes_eq};
ghost use Rattle.tptp_include.specs.Views.{names_of};

use me_terms::{Sequence, Text};
use std::alloc::{AllocError, Global};

pub type Names = Sequence<Text>;

/// Puts an equal name at the end.
fn push(alloc: Global, names: &mut Names, name: &Text) -> Result<(), AllocError>
    ensures { OnOk result (names_of names.new ≡ names_of names.old ++ name.now.items ∷ []) }
{
    match names.push(name.again(alloc)?) {
        Ok(()) => Ok(()),
        Err(_) => Err(AllocError),
    }
}

/// Equal names.
pub(crate) fn again(alloc: Global, names: &Names) -> Result<Names, AllocError>
    ensures { IfOk result (λ copy. names_of copy ≡ names_of names.now) }
{
    let mut copy = Names::new(alloc);
    'names: for name in names.as_slice() {
        push(alloc, &mut copy, name)?;
    }
    Ok(copy)
}

/// The names, and one more at the end.
pub(crate) fn longer(alloc: Global, names: &Names, name: &Text) -> Result<Names, AllocError>
    ensures { IfOk result (λ longer. names_of longer ≡ names_of names.now ++ name.now.items ∷ []) }
{
    let mut longer = again(alloc, names)?;
    push(alloc, &mut longer, name)?;
    Ok(longer)
}

/// Whether one of the texts is this.
fn has(texts: &[Text], text: &[u8]) -> bool
    ensures { result ≡ list_any (λ other. bytes_eq text.now other.items) texts.now }
{
    texts.iter().any(|other| text == other.as_slice())
}

/// Whether one of the names is this.
#[tactic(auto, using(crate::proofs::Naming::any_name))]
pub(crate) fn contains(names: &Names, name: &Text) -> bool
    ensures { result ≡ list_any (bytes_eq name.now.items) (names_of names.now) }
{
    has(names.as_slice(), name.as_slice())
}
