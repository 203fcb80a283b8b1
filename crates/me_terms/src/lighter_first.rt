//! Walks over terms that take no memory, and calls no deeper than a number has binary digits.
//!
//! Of a term's arguments and the terms behind it the lighter part is gone into by a call, and the walk goes
//! on with the other. Which is the lighter is found by turns, within limits that grow up to half of what is
//! left of the walk's own limit: the smaller half of a search in depth.
ghost use Rattle.std.specs.Prelude.{◌≡◌, ◌&&◌, ◌+◌, ◌<◌, ◌≤◌, IfSome, IsNone, map};
ghost use Rattle.me_terms.specs.TermViews.{term_value};
ghost use Rattle.me_terms.specs.Terms.{arguments_of};
ghost use Rattle.me_terms.specs.TermEquality.{same_term, same_arguments};
ghost use Rattle.me_terms.specs.Variables.{weights};
ghost use Rattle.me_terms.specs.Measures.{GREATEST_U64};

use crate::term::{Pair, Term};

/// The limit of the next turn. It grows so fast that little is gone over again.
fn next_limit(most: u64) -> u64
    requires { most < GREATEST_U64 }
    ensures { most < result }
{
    most.saturating_mul(16).saturating_add(1)
}

/// The weight of terms that are weighed, and the terms that are still to be weighed.
#[derive(Clone, Copy)]
pub(crate) struct Weighed<'a> {
    pub(crate) weight: u64,
    pub(crate) rest: &'a [Term],
}

/// The sum of the terms' weights, if it is at most `limit`.
#[cycle(weight_within)]
pub(crate) fn weight_within(terms: &[Term], limit: u64) -> Option<u64>
    ensures exact { IfSome result (λ weight. weight ≡ weights (arguments_of (map term_value terms.now))) }
    ensures light { IfSome result (λ weight. weight ≤ limit) }
    ensures heavy { IsNone result → limit < weights (arguments_of (map term_value terms.now)) }
{
    let mut rest = terms;
    let mut weight = 0_u64;
    'terms: while let Some((first, others)) = rest.split_first() {
        if weight == limit {
            return None;
        }
        weight += 1;
        match first {
            Term::Var(_) => rest = others,
            Term::App { f: _, args } => {
                let weighed = lighter(args.as_slice(), others, limit - weight)?;
                weight += weighed.weight;
                rest = weighed.rest;
            }
        }
    }
    Some(weight)
}

/// The lighter of two lists weighed, or one of about that weight, and the other list; or None where both
/// together weigh more than `limit`.
#[cycle(weight_within)]
fn lighter<'a>(one: &'a [Term], other: &'a [Term], limit: u64) -> Option<Weighed<'a>>
    ensures exact { IfSome result (λ l. l.weight + weights (arguments_of (map term_value l.rest.now)) ≡ weights (arguments_of (map term_value one.now)) + weights (arguments_of (map term_value other.now))) }
    ensures light { IfSome result (λ l. l.weight ≤ limit) }
    ensures heavy { IsNone result → limit < weights (arguments_of (map term_value one.now)) + weights (arguments_of (map term_value other.now)) }
{
    let half = limit / 2;
    let mut most = 0_u64;
    'limits: loop {
        if let Some(weight) = weight_within(one, most) {
            return Some(Weighed {
                weight,
                rest: other,
            });
        }
        if let Some(weight) = weight_within(other, most) {
            return Some(Weighed { weight, rest: one });
        }
        if most == half {
            return None;
        }
        most = half.min(next_limit(most));
    }
}

/// The weight of one of two lists, which weigh so much together.
pub(crate) fn weight_beside(one: &[Term], other: &[Term], both: u64) -> u64
    requires { both ≡ weights (arguments_of (map term_value one.now)) + weights (arguments_of (map term_value other.now)) }
    ensures { result ≡ weights (arguments_of (map term_value one.now)) }
{
    let mut most = 0_u64;
    'limits: loop {
        if let Some(weight) = weight_within(one, most) {
            return weight;
        }
        if let Some(weight) = weight_within(other, most) {
            return both - weight;
        }
        most = next_limit(most);
    }
}

/// Whether two lists are alike, and how many symbols of each were looked at.
#[derive(Clone, Copy)]
pub(crate) struct Alike {
    pub(crate) alike: bool,
    pub(crate) count: u64,
}

/// Whether one of two pairs of lists is alike, how many symbols of each were looked at, and the other pair.
#[derive(Clone, Copy)]
pub(crate) struct Half<'a> {
    pub(crate) alike: bool,
    pub(crate) count: u64,
    pub(crate) left: Pair<'a>,
}

/// Whether two lists have terms that are written alike, in order, where at most `limit` symbols of each tell.
#[cycle(alike_within)]
pub(crate) fn alike_within(lists: Pair<'_>, limit: u64) -> Option<Alike>
    ensures alike { IfSome result (λ found. found.alike ≡ same_arguments (arguments_of (map term_value lists.entry.rest.now)) (arguments_of (map term_value lists.entry.others.now))) }
    ensures light { IfSome result (λ found. found.count ≤ limit) }
{
    let mut left = lists;
    let mut count = 0_u64;
    'pairs: loop {
        let Some((first, rest)) = left.rest.split_first() else {
            let alike = left.others.is_empty();
            return Some(Alike { alike, count });
        };
        let Some((second, others)) = left.others.split_first() else {
            return Some(Alike {
                alike: false,
                count,
            });
        };
        if count == limit {
            return None;
        }
        count += 1;
        match (first, second) {
            (Term::Var(x), Term::Var(y)) => {
                if *x != *y {
                    return Some(Alike {
                        alike: false,
                        count,
                    });
                }
                left = Pair { rest, others };
            }
            (Term::App { f, args: inner }, Term::App { f: g, args: outer }) => {
                if *f != *g {
                    return Some(Alike {
                        alike: false,
                        count,
                    });
                }
                let inside = Pair {
                    rest: inner.as_slice(),
                    others: outer.as_slice(),
                };
                let half = half_alike(inside, Pair { rest, others }, limit - count)?;
                count += half.count;
                if !half.alike {
                    return Some(Alike {
                        alike: false,
                        count,
                    });
                }
                left = half.left;
            }
            _ => {
                return Some(Alike {
                    alike: false,
                    count,
                });
            }
        }
    }
}

/// Whether the lighter of two pairs of lists is alike, or one of about that weight, and the other pair.
#[cycle(alike_within)]
fn half_alike<'a>(one: Pair<'a>, other: Pair<'a>, limit: u64) -> Option<Half<'a>>
    ensures alike { IfSome result (λ half. (half.alike && same_arguments (arguments_of (map term_value half.left.rest.now)) (arguments_of (map term_value half.left.others.now))) ≡ (same_arguments (arguments_of (map term_value one.entry.rest.now)) (arguments_of (map term_value one.entry.others.now)) && same_arguments (arguments_of (map term_value other.entry.rest.now)) (arguments_of (map term_value other.entry.others.now)))) }
    ensures light { IfSome result (λ half. half.count ≤ limit) }
{
    let half = limit / 2;
    let mut most = 0_u64;
    'limits: loop {
        if let Some(Alike { alike, count }) = alike_within(one, most) {
            return Some(Half {
                alike,
                count,
                left: other,
            });
        }
        if let Some(Alike { alike, count }) = alike_within(other, most) {
            return Some(Half {
                alike,
                count,
                left: one,
            });
        }
        if most == half {
            return None;
        }
        most = half.min(next_limit(most));
    }
}
