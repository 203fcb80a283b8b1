//! The words, and a worker's steps on them: each is one atomic step on one word.
//!
//! A path's word goes from 0 to 1 and from 1 to 2 by compare and exchange, so of all who try one gives the
//! path away and one takes it. The living are counted, as in the detection of termination by a counter, and
//! the least key is kept by fetch and minimum.
ghost use Rattle.std.specs.Prelude.{List, ◌≡◌, ◌+◌, ◌<◌, ◌≤◌, ◌++◌, ◌∷◌, [], ◌^◌, ◌↔◌, ◌⊎◌, IsTrue, length, IfOk};
ghost use Rattle.branch_core.specs.Core as core;
ghost use Rattle.branch_core.specs.Parts.{PartValue};
ghost use Rattle.branch_core.specs.Paths.{Turns, key};
ghost use Rattle.share_words.specs.Answers.{is_offered, is_taken, ShowsOld, ShowsShut, added_if};
ghost use Rattle.share_words.specs.Counts.{path_count};
ghost use Rattle.share_words.specs.Happens.{Happened};
ghost use Rattle.share_words.specs.Lessons.{IsBelow, Learns, OwnLists, least_of};
ghost use Rattle.share_words.specs.Rule.{at_root, no_key};
ghost use Rattle.share_words.specs.Seats.{seat_of, CanRaise, Holds, HoldsSome, MayGive, GatheredAll, with_gathered};
ghost use Rattle.share_words.specs.Views.{new_view};

use crate::answer::{Offer, Take};
use crate::plays::{
    ByTheLists, Ends, Fork, Gathering, Gift, Lives, Looks, Named, Offers, Posts, Raises, SeatView,
    Shared, Takes,
};
use atomic_table::{Seat, Table};
use branch_core::{Path, code_of};
use std::alloc::{AllocError, Global};
use std::marker::{Brand, Model};

/// What `look` answers where no key was posted.
pub const NO_KEY: u64 = 65_536;

/// The words of one search.
#[derive(Drop)]
pub struct Words {
    table: Table<(), SeatView, u32, ByTheLists, Global>,
    share: u32,
}

impl Model for Words {
    ghost use Rattle.std.specs.Coded.{codes};
    ghost use Rattle.atomic_table.specs.Seated.{table_id_coded};
    ghost use Rattle.share_words.specs.Seats.{WordsValue};

    ghost Value = { WordsValue };

    ghost coded = { Prim.hlevel (codes, table_id_coded) };

    ghost use Rattle.std.specs.Prelude.{◌≡◌, ◌≤◌};
    ghost use Rattle.share_words.specs.Rule.{words_of};

    ghost view = { λ w. record { id = w.table.shared.table_id; share = w.share } };

    ghost invariant = { λ w. (w.table.shared.key ≡ w.share) × (w.table.shared.table_id.words ≡ words_of w.share) × (w.share ≤ 16) };
}

/// A worker's right to step on the words, and what was done with it.
#[derive(Drop)]
pub struct WorkerSeat {
    seat: Seat<(), SeatView>,
}

impl Model for WorkerSeat {
    ghost use Rattle.std.specs.Coded.{codes};
    ghost use Rattle.atomic_table.specs.Seated.{table_id_coded};
    ghost use Rattle.share_words.specs.Seats.{WorkerSeatValue};

    ghost Value = { WorkerSeatValue };

    ghost coded = { Prim.hlevel (codes, table_id_coded) };

    ghost use Rattle.std.specs.Prelude.{◌≡◌, [], false};
    ghost use Rattle.share_words.specs.Seats.{seat_of};

    ghost view = { λ s. seat_of s.seat.table_id s.seat.me.0 };

    ghost invariant = { λ s. (s.seat.me.1 ≡ []) × (s.seat.me.0.spent ≡ false) };
}

impl Words {
    /// The words before any step, and seat 0. Paths of at most `share` turns can be given away.
    pub fn new(alloc: Global, share: u32) -> Result<(Self, WorkerSeat), AllocError>
        requires { share ≤ 16 }
        ensures share { IfOk result (λ r. r.0.share ≡ share) }
        ensures seat { IfOk result (λ r. r.1 ≡ seat_of r.0.id (new_view 0)) }
    {
        let mut words = Vec::from_elem(alloc, 0, (1usize << (share + 1)) + 1)?;
        words[0] = NO_KEY;
        words[1] = 1;
        words[2] = 1;
        let (table, seat) = Table::of_words(alloc, words.as_slice(), &share)?;
        Ok((Words { table, share }, WorkerSeat { seat }))
    }

    /// Gives a path away below one that the seat holds, unless somebody has.
    pub fn offer(&self, s: &mut WorkerSeat, parent: Path, path: Path) -> Offer
        requires words { s.old.words ≡ self.now.id }
        requires held { Holds s.old parent }
        requires path { MayGive self.now.share parent path }
        ensures seat { s.new ≡ record s.old { offered = added_if (is_offered result) s.old.offered path } }
        ensures word { ShowsOld result }
        ensures can_raise { IsTrue (is_offered result) → CanRaise s.new path }
        ensures own { GatheredAll s.old → IsTrue (is_offered result) ↔ ((path_count path s.old.offered ≡ 0) × (path_count path s.old.taken ≡ 0)) }
        ensures event { IsTrue (is_offered result) → Happened self.now.share (core.Offer s.old.number parent path) s.old s.new }
    {
        self.offer_as::<Brand>(s, parent, path)
    }

    fn offer_as<P: Gift>(&self, s: &mut WorkerSeat, parent: Path, path: Path) -> Offer
        requires words { s.old.words ≡ self.now.id }
        requires named { (parent ≡ P.parent) × (path ≡ P.path) × (self.now.share ≡ P.share) }
        requires held { Holds s.old parent }
        requires path { MayGive self.now.share parent path }
        ensures seat { s.new ≡ record s.old { offered = added_if (is_offered result) s.old.offered path } }
        ensures word { ShowsOld result }
        ensures can_raise { IsTrue (is_offered result) → CanRaise s.new path }
        ensures own { GatheredAll s.old → IsTrue (is_offered result) ↔ ((path_count path s.old.offered ≡ 0) × (path_count path s.old.taken ≡ 0)) }
        ensures event { IsTrue (is_offered result) → Happened self.now.share (core.Offer s.old.number parent path) s.old s.new }
    {
        let at = code_of(path) as usize + 1;
        let word = self
            .table
            .shared
            .compare_exchange::<Offers<P>>(&mut s.seat, at, 0, 1);
        if word == 0 {
            Offer::Offered
        } else {
            Offer::NotNew { word }
        }
    }

    /// Takes a path that was given away, unless somebody has.
    pub fn take(&self, s: &mut WorkerSeat, path: Path) -> Take
        requires words { s.old.words ≡ self.now.id }
        requires short { length path ≤ self.now.share }
        ensures seat { s.new ≡ record s.old { taken = added_if (is_taken result) s.old.taken path } }
        ensures word { ShowsShut result }
        ensures holds { IsTrue (is_taken result) → Holds s.new path }
        ensures own { GatheredAll s.old → IsTrue (is_taken result) ↔ ((0 < at_root path + path_count path s.old.offered) × (path_count path s.old.taken ≡ 0)) }
        ensures event { IsTrue (is_taken result) → Happened self.now.share (core.Take s.old.number path) s.old s.new }
    {
        self.take_as::<Brand>(s, path)
    }

    fn take_as<P: Named>(&self, s: &mut WorkerSeat, path: Path) -> Take
        requires words { s.old.words ≡ self.now.id }
        requires named { (path ≡ P.path) × (self.now.share ≡ P.share) }
        requires short { length path ≤ self.now.share }
        ensures seat { s.new ≡ record s.old { taken = added_if (is_taken result) s.old.taken path } }
        ensures word { ShowsShut result }
        ensures holds { IsTrue (is_taken result) → Holds s.new path }
        ensures own { GatheredAll s.old → IsTrue (is_taken result) ↔ ((0 < at_root path + path_count path s.old.offered) × (path_count path s.old.taken ≡ 0)) }
        ensures event { IsTrue (is_taken result) → Happened self.now.share (core.Take s.old.number path) s.old s.new }
    {
        let at = code_of(path) as usize + 1;
        let word = self
            .table
            .shared
            .compare_exchange::<Takes<P>>(&mut s.seat, at, 1, 2);
        if word == 1 {
            Take::Taken
        } else {
            Take::NotOpen { word }
        }
    }

    /// A path that the seat gave away is alive. It comes before anybody is told of the path.
    pub fn raise(&self, s: &mut WorkerSeat, path: Path)
        requires words { s.old.words ≡ self.now.id }
        requires offered { CanRaise s.old path }
        requires busy { HoldsSome s.old }
        ensures { s.new ≡ record s.old { raised = s.old.raised ++ path ∷ [] } }
    {
        self.raise_as::<Brand>(s, path);
    }

    fn raise_as<P: Named>(&self, s: &mut WorkerSeat, path: Path)
        requires words { s.old.words ≡ self.now.id }
        requires path { path ≡ P.path }
        requires offered { CanRaise s.old path }
        ensures { s.new ≡ record s.old { raised = s.old.raised ++ path ∷ [] } }
    {
        self.table.shared.fetch_add::<Raises<P>>(&mut s.seat, 1, 1);
    }

    /// A path that the seat took is alive no more.
    pub fn end(&self, s: &mut WorkerSeat, path: Path)
        requires words { s.old.words ≡ self.now.id }
        requires held { Holds s.old path }
        ensures seat { s.new ≡ record s.old { ended = s.old.ended ++ path ∷ [] } }
        ensures event { (parts : List PartValue) → Happened self.now.share (core.End s.old.number path parts) s.old s.new }
    {
        self.end_as::<Brand>(s, path);
    }

    fn end_as<P: Named>(&self, s: &mut WorkerSeat, path: Path)
        requires words { s.old.words ≡ self.now.id }
        requires named { (path ≡ P.path) × (self.now.share ≡ P.share) }
        requires held { Holds s.old path }
        ensures seat { s.new ≡ record s.old { ended = s.old.ended ++ path ∷ [] } }
        ensures event { (parts : List PartValue) → Happened self.now.share (core.End s.old.number path parts) s.old s.new }
    {
        self.table.shared.fetch_sub::<Ends<P>>(&mut s.seat, 1, 1);
    }

    /// How many are alive: one, and one more for each that was raised, less those that ended, modulo 2^64.
    pub fn live(&self, s: &mut WorkerSeat) -> u64
        requires words { s.old.words ≡ self.now.id }
        ensures seat { s.new ≡ s.old }
        ensures lists { OwnLists s.old }
        ensures own { GatheredAll s.old → Learns s.old result }
    {
        self.table.shared.load::<Lives>(&mut s.seat, 1)
    }

    /// Tells the key of an exhausted leaf, and answers the least word before.
    pub fn post(&self, s: &mut WorkerSeat, key: u16) -> u64
        requires words { s.old.words ≡ self.now.id }
        ensures seat { s.new ≡ record s.old { posted = s.old.posted ++ key ∷ [] } }
        ensures capped { result ≤ no_key }
        ensures below { IsBelow result s.old.posted }
        ensures own { GatheredAll s.old → result ≡ least_of s.old.posted }
        ensures event { Happened self.now.share (core.Post s.old.number key) s.old s.new }
    {
        self.post_as::<Brand>(s, key)
    }

    fn post_as<P: Shared>(&self, s: &mut WorkerSeat, key: u16) -> u64
        requires words { s.old.words ≡ self.now.id }
        requires named { self.now.share ≡ P.share }
        ensures seat { s.new ≡ record s.old { posted = s.old.posted ++ key ∷ [] } }
        ensures capped { result ≤ no_key }
        ensures below { IsBelow result s.old.posted }
        ensures own { GatheredAll s.old → result ≡ least_of s.old.posted }
        ensures event { Happened self.now.share (core.Post s.old.number key) s.old s.new }
    {
        self.table
            .shared
            .fetch_min::<Posts<P>>(&mut s.seat, 0, u64::from(key))
    }

    /// The least key that was posted, or `NO_KEY`.
    pub fn look(&self, s: &mut WorkerSeat) -> u64
        requires words { s.old.words ≡ self.now.id }
        ensures seat { s.new ≡ record s.old { looked = s.old.looked ++ result ∷ [] } }
        ensures capped { result ≤ no_key }
        ensures below { IsBelow result s.old.posted }
        ensures own { GatheredAll s.old → result ≡ least_of s.old.posted }
        ensures event { (node : Turns) → result < key node → Happened self.now.share (core.Cut s.old.number node result) s.old s.new }
    {
        self.look_as::<Brand>(s)
    }

    fn look_as<P: Shared>(&self, s: &mut WorkerSeat) -> u64
        requires words { s.old.words ≡ self.now.id }
        requires named { self.now.share ≡ P.share }
        ensures seat { s.new ≡ record s.old { looked = s.old.looked ++ result ∷ [] } }
        ensures capped { result ≤ no_key }
        ensures below { IsBelow result s.old.posted }
        ensures own { GatheredAll s.old → result ≡ least_of s.old.posted }
        ensures event { (node : Turns) → result < key node → Happened self.now.share (core.Cut s.old.number node result) s.old s.new }
    {
        self.table.shared.load::<Looks<P>>(&mut s.seat, 0)
    }

    /// A new seat, with the next number, that has done nothing.
    pub fn fork_seat(&self, s: &mut WorkerSeat) -> WorkerSeat
        requires words { s.old.words ≡ self.now.id }
        requires first { s.old.number ≡ 0 }
        requires few { s.old.forks + 1 < 2 ^ 32 }
        ensures old { s.new ≡ record s.old { forks = s.old.forks + 1 } }
        ensures new { result ≡ seat_of self.now.id (new_view (s.old.forks + 1)) }
    {
        let seat = self.table.shared.split_seat::<Fork>(&mut s.seat);
        WorkerSeat { seat }
    }

    /// Seat 0 takes in what was done with another seat.
    pub fn gather(&self, into: &mut WorkerSeat, from: WorkerSeat)
        requires words { (into.old.words ≡ self.now.id) × (from.words ≡ self.now.id) }
        requires first { into.old.number ≡ 0 }
        ensures { into.new ≡ with_gathered into.old from }
    {
        let WorkerSeat { seat } = from;
        self.table
            .shared
            .join_seat::<Gathering>(&mut into.seat, seat);
    }
}
