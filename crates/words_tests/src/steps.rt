//! What a worker does in one go: it gives a path away and raises it, or asks whether all is done.
ghost use Rattle.std.specs.Prelude.{◌≡◌, ◌+◌, IsTrue};
ghost use Rattle.branch_core.specs.Paths.{Turns};
ghost use Rattle.share_words.specs.Counts.{path_count};
ghost use Rattle.share_words.specs.Rule.{at_root};
ghost use Rattle.share_words.specs.Seats.{GatheredAll, Holds, MayGive, with_gathered};
ghost use Rattle.words_tests.specs.Work.{HasGiven};

use branch_core::Path;
use share_words::{Offer, Words, WorkerSeat};

/// Gives a path away and raises it, so that between two calls each path that was given away is raised.
pub fn give(words: &Words, s: &mut WorkerSeat, parent: Path, path: Path) -> Offer
    requires words { s.old.words ≡ words.now.id }
    requires held { Holds s.old parent }
    requires path { MayGive words.now.share parent path }
    requires even { s.old.raised ≡ s.old.offered }
    ensures { HasGiven s.old s.new }
{
    let answer = words.offer(s, parent, path);
    if let Offer::Offered = answer {
        words.raise(s, path);
    }
    answer
}

/// Whether nobody is alive, asked by seat 0 after it took in each seat. Then it took and ended the root
/// and each path that was given away, each once.
pub fn is_done(words: &Words, s: &mut WorkerSeat) -> bool
    requires words { s.old.words ≡ words.now.id }
    requires all { GatheredAll s.old }
    requires even { s.old.raised ≡ s.old.offered }
    ensures seat { s.new ≡ s.old }
    ensures taken { IsTrue result → (path : Turns) → path_count path s.old.taken ≡ at_root path + path_count path s.old.offered }
    ensures ended { IsTrue result → (path : Turns) → path_count path s.old.ended ≡ at_root path + path_count path s.old.offered }
{
    words.live(s) == 0
}

/// Seat 0 takes in the last seat, and asks whether all is done.
pub fn finish(words: &Words, s: &mut WorkerSeat, last: WorkerSeat) -> bool
    requires words { (s.old.words ≡ words.now.id) × (last.words ≡ words.now.id) }
    requires all { GatheredAll (with_gathered s.old last) }
    requires even { (s.old.raised ≡ s.old.offered) × (last.raised ≡ last.offered) }
    ensures seat { s.new ≡ with_gathered s.old last }
    ensures taken { IsTrue result → (path : Turns) → path_count path s.new.taken ≡ at_root path + path_count path s.new.offered }
    ensures ended { IsTrue result → (path : Turns) → path_count path s.new.ended ≡ at_root path + path_count path s.new.offered }
{
    words.gather(s, last);
    is_done(words, s)
}
