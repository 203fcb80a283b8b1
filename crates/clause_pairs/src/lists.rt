//! The lists of positions, one for each place of each clause, as a position is put to some of them and taken
//! off again.
ghost use Rattle.std.specs.Prelude.{◌≡◌, ◌<◌, ℕ, List, [], ◌∷◌, ◌++◌, length, take, OnOk, OnErr};
ghost use Rattle.std.specs.List.{All};
ghost use Rattle.clause_pairs.specs.Lists.{ends_with as ends, put_to, without, put, put_all, HasPlace};
ghost use Rattle.clause_pairs.specs.Values.{numbers_of, lists_of};

use crate::clause_place::ClausePlace;
use std::alloc::AllocError;

/// Whether the number is the last one.
fn ends_with(list: &[u32], k: u32) -> bool
    ensures { result ≡ ends k list.now }
{
    match list.last() {
        Some(last) => *last == k,
        None => false,
    }
}

/// Puts the number at the end, unless it stands there.
fn put_number(list: &mut Vec<u32>, k: u32) -> Result<(), AllocError>
    ensures ok { OnOk result (list.new.items ≡ put_to k list.old.items) }
    ensures err { OnErr result (list.new.items ≡ list.old.items) }
{
    if ends_with(list, k) {
        return Ok(());
    }
    list.push(k)?;
    Ok(())
}

/// Takes the number off, if it stands at the end.
fn take_number(list: &mut Vec<u32>, k: u32)
    ensures { list.new.items ≡ without k list.old.items }
{
    if ends_with(list, k) {
        let _last = list.pop();
    }
}

/// Puts the number to the list of that place.
fn put_at(lists: &mut Vec<Vec<Vec<u32>>>, at: ClausePlace, k: u32) -> Result<(), AllocError>
    requires { HasPlace (lists_of lists.old.items) at }
    ensures ok { OnOk result (lists_of lists.new.items ≡ put (put_to k) (lists_of lists.old.items) at) }
    ensures err { OnErr result (lists_of lists.new.items ≡ lists_of lists.old.items) }
{
    let places = &mut lists[at.clause as usize];
    put_number(&mut places[at.place as usize], k)
}

/// Takes the number off the list of that place.
fn take_at(lists: &mut Vec<Vec<Vec<u32>>>, at: ClausePlace, k: u32)
    requires { HasPlace (lists_of lists.old.items) at }
    ensures { lists_of lists.new.items ≡ put (without k) (lists_of lists.old.items) at }
{
    let places = &mut lists[at.clause as usize];
    take_number(&mut places[at.place as usize], k);
}

/// Puts the number to the lists of these places. Where memory is out, some of them have it.
pub(crate) fn put_all_at(
    lists: &mut Vec<Vec<Vec<u32>>>,
    places: &[ClausePlace],
    k: u32,
) -> Result<(), AllocError>
    requires { All (HasPlace (lists_of lists.old.items)) places.now }
    ensures ok { OnOk result (lists_of lists.new.items ≡ put_all (put_to k) (lists_of lists.old.items) places.now) }
    ensures err { OnErr result ((n : ℕ) × (lists_of lists.new.items ≡ put_all (put_to k) (lists_of lists.old.items) (take n places.now))) }
{
    for at in places {
        put_at(lists, *at, k)?;
    }
    Ok(())
}

/// Takes the number off the lists of these places that have it at the end.
pub(crate) fn take_all_at(lists: &mut Vec<Vec<Vec<u32>>>, places: &[ClausePlace], k: u32)
    requires { All (HasPlace (lists_of lists.old.items)) places.now }
    ensures { lists_of lists.new.items ≡ put_all (without k) (lists_of lists.old.items) places.now }
{
    for at in places {
        take_at(lists, *at, k);
    }
}
