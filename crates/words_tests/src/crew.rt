//! Four workers in threads of their own, whose seats are gathered once all have stopped.
ghost use Rattle.std.specs.Prelude.{◌≤◌};
ghost use denote.Param.Send.{IsSync};
ghost use Rattle.words_tests.specs.Work.{HasWorked, CanWork};

use crate::steps::finish;
use crate::worker::work_through;
use share_words::{Words, WorkerSeat};
use std::alloc::{AllocError, Global};
use std::thread;
use std::thread::Threads;

/// What a worker hands back: its seat, and the codes of the paths that it took.
type Back = (WorkerSeat, Result<Vec<u32>, AllocError>);

/// What two workers share: how many turns a path may have, which codes there are, and a seed.
#[derive(Clone, Copy)]
struct Task {
    share: u8,
    mask: u32,
    seed: u64,
}

/// Two workers side by side.
fn both<R: Threads + Sync>(
    rt: &R,
    alloc: Global,
    words: &Words,
    task: Task,
    first: WorkerSeat,
    second: WorkerSeat,
) -> (Back, Back)
    requires sync { IsSync R.row }
    requires first { CanWork words.now task.share first }
    requires second { CanWork words.now task.share second }
    ensures first { HasWorked first result.0.0 }
    ensures second { HasWorked second result.1.0 }
{
    let Task { share, mask, seed } = task;
    thread::join(
        rt,
        move ||
            requires { CanWork words.now share first }
            ensures { HasWorked first result.0 }
        { work_through(words, first, share, mask, seed, alloc) },
        move ||
            requires { CanWork words.now share second }
            ensures { HasWorked second result.0 }
        { work_through(words, second, share, mask, seed ^ 1, alloc) },
    )
}

/// Appends the codes.
fn append(all: &mut Vec<u32>, codes: Result<Vec<u32>, AllocError>) -> Result<(), AllocError> {
    for code in codes? {
        all.push(code)?;
    }
    Ok(())
}

/// Four workers give away, take and end all paths of the share, in orders that are drawn from the seed.
/// Answers the codes of the paths that were taken, and whether nobody was alive once all seats were
/// gathered.
pub fn all_paths<R: Threads + Sync>(
    rt: &R,
    alloc: Global,
    share: u8,
    mask: u32,
    seed: u64,
) -> Result<(Vec<u32>, bool), AllocError>
    requires sync { IsSync R.row }
    requires share { share ≤ 16 }
{
    let (words, mut lead) = Words::new(alloc, u32::from(share))?;
    let second = words.fork_seat(&mut lead);
    let third = words.fork_seat(&mut lead);
    let fourth = words.fork_seat(&mut lead);
    let mine = Task { share, mask, seed };
    let theirs = Task {
        share,
        mask,
        seed: seed ^ 2,
    };
    let shared = &words;
    let (front, rear) = thread::join(
        rt,
        move ||
            requires first { CanWork shared.now mine.share lead }
            requires second { CanWork shared.now mine.share second }
            ensures { HasWorked lead result.0.0 × HasWorked second result.1.0 }
        { both(rt, alloc, shared, mine, lead, second) },
        move ||
            requires first { CanWork shared.now theirs.share third }
            requires second { CanWork shared.now theirs.share fourth }
            ensures { HasWorked third result.0.0 × HasWorked fourth result.1.0 }
        { both(rt, alloc, shared, theirs, third, fourth) },
    );
    let ((mut lead, first_codes), (second, second_codes)) = front;
    let ((third, third_codes), (fourth, fourth_codes)) = rear;
    words.gather(&mut lead, second);
    words.gather(&mut lead, third);
    let done = finish(&words, &mut lead, fourth);
    let mut all = Vec::new(alloc);
    append(&mut all, first_codes)?;
    append(&mut all, second_codes)?;
    append(&mut all, third_codes)?;
    append(&mut all, fourth_codes)?;
    Ok((all, done))
}
