//! Paths: the turns that lead from the root of a search tree to a node.
//!
//! A contract sees a path as the list of its turns, a turn to the right as true. Codes tell paths apart,
//! and keys order leaves from left to right.
ghost use Rattle.std.specs.Prelude.{◌≡◌, ◌<◌, ◌≤◌, ◌^◌, ◌+◌, ◌*◌, [], ◌∷◌, ◌++◌, true, false, length, MatchOption, IsTrue, ◌↔◌, ◌⊎◌};
ghost use Rattle.branch_core.specs.Core.{EndsRight};
ghost use Rattle.branch_core.specs.Paths.{Turns, turns_of, code, key, IsLeftOf, ProperlyBegins};

use std::marker::Model;

/// At most 16 turns from the root to a node.
#[derive(Clone, Copy)]
pub struct Path {
    /// The number of turns, at most 16.
    pub len: u8,
    /// The turns in the lowest `len` bits, the first turn highest and right as 1, and 0 elsewhere.
    pub bits: u16,
}

impl Model for Path {
    ghost use Rattle.std.specs.Coded.{codes};
    ghost use Rattle.branch_core.specs.Paths.{Turns, turns_of};

    ghost Value = { Turns };

    ghost coded = { Prim.hlevel codes };

    ghost use Rattle.std.specs.Prelude.{◌<◌, ◌≤◌, ◌^◌, length};
    ghost use Rattle.branch_core.specs.Paths.{code_from};
    ghost use Rattle.branch_core.specs.PathLaws.{length_turns, bits_turns};

    ghost view = { λ p. turns_of p.len p.bits };

    ghost invariant = { λ p. (p.len ≤ 16) × (p.bits < 2 ^ p.len) };

    ghost inverse = { λ turns. record { len = length turns; bits = code_from 0 turns } };

    ghost inverse_ok = { λ p h. λ i. record { len = length_turns p.len p.bits i; bits = bits_turns p.len p.bits h.1 i } };
}

impl Path {
    /// The path without a turn.
    pub fn root() -> Self
        ensures { result ≡ [] }
    {
        Path { len: 0, bits: 0 }
    }

    /// The path of the left child, or None exactly where there are 16 turns already.
    pub fn left(self) -> Option<Self>
        ensures { MatchOption result (length self ≡ 16) (λ p. p ≡ self ++ false ∷ []) }
    {
        if self.len == 16 {
            None
        } else {
            Some(Path {
                len: self.len + 1,
                bits: self.bits * 2,
            })
        }
    }

    /// The path of the right child, or None exactly where there are 16 turns already.
    pub fn right(self) -> Option<Self>
        ensures { MatchOption result (length self ≡ 16) (λ p. p ≡ self ++ true ∷ []) }
    {
        if self.len == 16 {
            None
        } else {
            Some(Path {
                len: self.len + 1,
                bits: self.bits * 2 + 1,
            })
        }
    }
}

/// The code of a path: 1 for the root, and 2h and 2h + 1 for the children of the path with code h.
pub fn code_of(p: Path) -> u32
    ensures { result ≡ code p }
{
    (1u32 << p.len) + u32::from(p.bits)
}

/// The key of a path: its turns as bits from the top of 16, right as 1 and zeros after.
pub fn key_of(p: Path) -> u16
    ensures { result ≡ key p }
{
    if p.len == 0 {
        0
    } else {
        p.bits << (16 - p.len)
    }
}

/// The first n turns.
fn first_turns(p: Path, n: u8) -> Path
    requires { n ≤ length p }
    ensures { (rest : Turns) × (length result ≡ n) × (p ≡ result ++ rest) }
{
    if n == 0 {
        Path::root()
    } else {
        Path {
            len: n,
            bits: p.bits >> (p.len - n),
        }
    }
}

/// The smaller number of turns.
fn shorter(a: Path, b: Path) -> u8
    ensures first { result ≤ length a }
    ensures second { result ≤ length b }
    ensures either { (result ≡ length a) ⊎ (result ≡ length b) }
{
    if a.len < b.len { a.len } else { b.len }
}

/// Whether both differ at a first common turn and `a` goes right there.
pub fn is_right_of(a: Path, b: Path) -> bool
    ensures { IsTrue result ↔ IsLeftOf b a }
{
    let common = shorter(a, b);
    let x = first_turns(a, common);
    let y = first_turns(b, common);
    y.bits < x.bits
}

/// The number of turns.
pub(crate) fn turn_count(p: Path) -> u8
    ensures { result ≡ length p }
{
    p.len
}

/// Whether `longer` begins with the turns of `shorter` and has more.
pub(crate) fn properly_begins(shorter: Path, longer: Path) -> bool
    ensures { IsTrue result ↔ ProperlyBegins shorter longer }
{
    let turns = turn_count(shorter);
    turns < turn_count(longer) && first_turns(longer, turns).bits == shorter.bits
}

/// Whether the last turn is one to the right.
pub(crate) fn ends_right(p: Path) -> bool
    ensures { IsTrue result ↔ EndsRight p }
{
    p.bits % 2 == 1
}
