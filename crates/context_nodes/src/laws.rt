//! What branches over one table leave of each other.
//!
//! Each law makes one call beside another branch and an entry that was read, and says that both are as before.
ghost use Rattle.std.specs.Prelude.{◌≡◌, ◌<◌, length, OnOk, OnErr};
ghost use Rattle.me_terms.specs.Context.{IsLiteralEntry, add};
ghost use Rattle.me_terms.specs.Contradictory.{Contradicts};
ghost use Rattle.me_terms.specs.declared.bounds.TheConstants.{MAX_ENTRIES};

use crate::branch::Branch;
use me_terms::{Entry, Refused};
use std::sync::Wait;

/// Extends one branch beside another: the other is as before, and so is an entry that was read.
pub fn extend_beside<'n, R: Wait>(
    one: &mut Branch<'n, R>,
    other: Branch<'n, R>,
    read: &'n Entry,
    e: Entry,
) -> (Result<(), Refused>, Branch<'n, R>, &'n Entry)
    requires literal { IsLiteralEntry e }
    requires apart { ¬ Contradicts one.old e.positive e.kind e.atom }
    requires room { length one.old < MAX_ENTRIES }
    ensures ok { OnOk result.0 (one.new ≡ add one.old e) }
    ensures err { OnErr result.0 (one.new ≡ one.old) }
    ensures other { result.1 ≡ other.entry }
    ensures read { result.2.now ≡ read.now }
{
    (one.extend(e), other, read)
}

/// Takes the last entry of one branch off beside another: the other is as before, and so is an entry that
/// was read.
pub fn pop_beside<'n, R>(
    one: &mut Branch<'n, R>,
    other: Branch<'n, R>,
    read: &'n Entry,
) -> (bool, Branch<'n, R>, &'n Entry)
    ensures other { result.1 ≡ other.entry }
    ensures read { result.2.now ≡ read.now }
{
    (one.pop(), other, read)
}
