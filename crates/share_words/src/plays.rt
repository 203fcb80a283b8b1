//! What is known with a seat, the rule of the words, and what each step tells.
//!
//! All of it is for proofs: no value of these types is made. The rule is an invariant of the words and of
//! all seats, as of a transition system, which each step by one seat keeps.
use atomic_table::{Join, Play, Split, TableRule};
use branch_core::Path;
use std::collections::LinkedList;
use std::marker::{Brand, PhantomData};

/// What is known with a seat.
pub struct SeatView {
    /// Whether another seat took it in.
    pub spent: bool,
    pub number: u32,
    /// How many seats were made from it. That of another seat than seat 0 is 0.
    pub forks: u32,
    /// The numbers of the seats that it took in.
    pub gathered: LinkedList<u32>,
    pub offered: LinkedList<Path>,
    pub raised: LinkedList<Path>,
    pub taken: LinkedList<Path>,
    pub ended: LinkedList<Path>,
    pub posted: LinkedList<u16>,
    pub looked: LinkedList<u64>,
}

/// The rule of the words, told the share.
pub struct ByTheLists;

impl TableRule<(), SeatView, u32> for ByTheLists {
    ghost use Rattle.share_words.specs.Views.{first_view};
    ghost use Rattle.share_words.specs.Kept.{Kept};

    ghost holds = { Kept };

    ghost first = { λ _. first_view };
}

/// The share of the words that a step is on. A step sees numbers alone, so the type names it.
pub trait Shared {
    ghost use Rattle.std.specs.Prelude.{ℕ};

    ghost share: { ℕ };
}

impl Shared for Brand {
    ghost share = { 0 };
}

/// The path that a step is for, and the share of the words.
pub trait Named {
    ghost use Rattle.std.specs.Prelude.{ℕ};
    ghost use Rattle.branch_core.specs.Paths.{Turns};

    ghost share: { ℕ };

    ghost path: { Turns };
}

impl Named for Brand {
    ghost use Rattle.std.specs.Prelude.{[]};

    ghost share = { 0 };

    ghost path = { [] };
}

/// The path that is given away, the one below which it stands, and the share of the words.
pub trait Gift {
    ghost use Rattle.std.specs.Prelude.{ℕ};
    ghost use Rattle.branch_core.specs.Paths.{Turns};

    ghost share: { ℕ };

    ghost parent: { Turns };

    ghost path: { Turns };
}

impl Gift for Brand {
    ghost use Rattle.std.specs.Prelude.{[]};

    ghost share = { 0 };

    ghost parent = { [] };

    ghost path = { [] };
}

/// A path is given away.
pub struct Offers<P: Gift> {
    of: PhantomData<P>,
}

impl<P: Gift> Play<(), SeatView> for Offers<P> {
    ghost use Rattle.share_words.specs.Steps.{WhenOffered};

    ghost then = { WhenOffered P.share P.parent P.path };
}

/// A path is taken.
pub struct Takes<P: Named> {
    of: PhantomData<P>,
}

impl<P: Named> Play<(), SeatView> for Takes<P> {
    ghost use Rattle.share_words.specs.Steps.{WhenTaken};

    ghost then = { WhenTaken P.share P.path };
}

/// A path that was given away is alive.
pub struct Raises<P: Named> {
    of: PhantomData<P>,
}

impl<P: Named> Play<(), SeatView> for Raises<P> {
    ghost use Rattle.share_words.specs.Steps.{WhenRaised};

    ghost then = { WhenRaised P.path };
}

/// A path that was taken is alive no more.
pub struct Ends<P: Named> {
    of: PhantomData<P>,
}

impl<P: Named> Play<(), SeatView> for Ends<P> {
    ghost use Rattle.share_words.specs.Steps.{WhenEnded};

    ghost then = { WhenEnded P.share P.path };
}

/// A key is told.
pub struct Posts<P: Shared> {
    of: PhantomData<P>,
}

impl<P: Shared> Play<(), SeatView> for Posts<P> {
    ghost use Rattle.share_words.specs.Steps.{WhenPosted};

    ghost then = { WhenPosted P.share };
}

/// The least key is looked at.
pub struct Looks<P: Shared> {
    of: PhantomData<P>,
}

impl<P: Shared> Play<(), SeatView> for Looks<P> {
    ghost use Rattle.share_words.specs.Steps.{WhenLooked};

    ghost then = { WhenLooked P.share };
}

/// The number of those alive is looked at.
pub struct Lives;

impl Play<(), SeatView> for Lives {
    ghost use Rattle.share_words.specs.Steps.{WhenAlive};

    ghost then = { WhenAlive };
}

/// Seat 0 makes a seat.
pub struct Fork;

impl Split<SeatView> for Fork {
    ghost use Rattle.std.specs.Prelude.{◌+◌};
    ghost use Rattle.share_words.specs.Views.{new_view, with_fork};

    ghost left = { with_fork };

    ghost right = { λ v. new_view (v.forks + 1) };
}

/// Seat 0 takes a seat in.
pub struct Gathering;

impl Join<SeatView> for Gathering {
    ghost use Rattle.share_words.specs.Views.{together, blank};

    ghost both = { together };

    ghost spent = { blank };
}
