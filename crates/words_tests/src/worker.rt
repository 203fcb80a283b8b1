//! A worker that takes paths, gives away what stands below them, and ends them.
ghost use Rattle.std.specs.Prelude.{◌≡◌, ◌+◌, ◌≤◌, length};
ghost use Rattle.branch_core.specs.Runs.{Begins};
ghost use Rattle.share_words.specs.Seats.{Holds};
ghost use Rattle.words_tests.specs.Work.{HasGiven, HasWorked, CanWork};

use crate::steps::give;
use branch_core::{Path, code_of};
use rand_core::{Rng, SeedableRng};
use rand_pcg::Pcg32;
use share_words::{Take, Words, WorkerSeat};
use std::alloc::{AllocError, Global};
use std::thread;

/// After so many rounds a worker stops by itself.
const ROUNDS: u32 = 1_000_000;

/// The path with this code, cut to `share` turns, and how many turns more it may have.
pub fn path_of(share: u8, code: u32) -> (Path, u8)
    ensures { length result.0 + result.1 ≡ share }
{
    if code <= 1 {
        return (Path::root(), share);
    }
    let (path, room) = path_of(share, code / 2);
    let next = if code % 2 == 1 {
        path.right()
    } else {
        path.left()
    };
    match next {
        Some(next) if room > 0 => (next, room - 1),
        _ => (path, room),
    }
}

/// Goes down from `path` by these turns, and gives away each right child below the parent on the way.
fn give_along(words: &Words, s: &mut WorkerSeat, parent: Path, path: Path, room: u8, turns: u16)
    requires words { s.old.words ≡ words.now.id }
    requires held { Holds s.old parent }
    requires below { Begins parent path }
    requires room { length path + room ≤ words.now.share }
    requires even { s.old.raised ≡ s.old.offered }
    ensures { HasGiven s.old s.new }
{
    if room == 0 {
        return;
    }
    if turns % 2 == 1 {
        if let Some(right) = path.right() {
            give(words, s, parent, right);
            give_along(words, s, parent, right, room - 1, turns / 2);
        }
    } else if let Some(left) = path.left() {
        give_along(words, s, parent, left, room - 1, turns / 2);
    }
}

/// Gives away the right children of the path and of what stands left below it.
fn give_children(words: &Words, s: &mut WorkerSeat, parent: Path, path: Path, room: u8)
    requires words { s.old.words ≡ words.now.id }
    requires held { Holds s.old parent }
    requires below { Begins parent path }
    requires room { length path + room ≤ words.now.share }
    requires even { s.old.raised ≡ s.old.offered }
    ensures { HasGiven s.old s.new }
{
    if room == 0 {
        return;
    }
    if let Some(right) = path.right() {
        give(words, s, parent, right);
    }
    if let Some(left) = path.left() {
        give_children(words, s, parent, left, room - 1);
    }
}

/// Takes the path where it is there to be taken, gives away what stands below it, first along the turns,
/// and ends it. Answers whether it was there.
pub fn work_on(words: &Words, s: &mut WorkerSeat, path: Path, room: u8, turns: u16) -> bool
    requires words { s.old.words ≡ words.now.id }
    requires room { length path + room ≤ words.now.share }
    requires even { s.old.raised ≡ s.old.offered }
    requires idle { s.old.ended ≡ s.old.taken }
    ensures { HasWorked s.old s.new }
{
    let Take::Taken = words.take(s, path) else {
        return false;
    };
    give_along(words, s, path, path, room, turns);
    give_children(words, s, path, path, room);
    words.end(s, path);
    true
}

/// Tries each code up to the mask, which is a power of two less one, once, in the order of an odd stride.
/// Notes the codes of the paths that it took.
fn go_round(
    words: &Words,
    s: &mut WorkerSeat,
    share: u8,
    mask: u32,
    generator: &mut Pcg32,
    taken: &mut Vec<u32>,
) -> Result<(), AllocError>
    requires ready { CanWork words.now share s.old }
    ensures { HasWorked s.old s.new }
{
    let start = generator.next_u32();
    let stride = generator.next_u32() | 1;
    'codes: for k in 0..=mask {
        let code = start.wrapping_add(k.wrapping_mul(stride)) & mask;
        let turns = (generator.next_u32() >> 16) as u16;
        let (path, room) = path_of(share, code);
        if work_on(words, s, path, room, turns) {
            taken.push(code_of(path))?;
        }
    }
    Ok(())
}

/// Goes round, in orders that are drawn from the seed, until nobody is alive. Hands back the seat and the
/// codes of the paths that it took.
pub fn work_through(
    words: &Words,
    seat: WorkerSeat,
    share: u8,
    mask: u32,
    seed: u64,
    alloc: Global,
) -> (WorkerSeat, Result<Vec<u32>, AllocError>)
    requires ready { CanWork words.now share seat }
    ensures { HasWorked seat result.0 }
{
    let mut s = seat;
    let mut taken = Vec::new(alloc);
    let mut generator = Pcg32::seed_from_u64(seed);
    'rounds: for _round in 0..ROUNDS {
        if go_round(words, &mut s, share, mask, &mut generator, &mut taken).is_err() {
            return (s, Err(AllocError));
        }
        if words.live(&mut s) == 0 {
            break;
        }
        thread::yield_now();
    }
    (s, Ok(taken))
}
