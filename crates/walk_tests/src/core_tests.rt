//! The core and the assembly of small records.
ghost use Rattle.std.specs.Prelude.{◌≡◌, ◌<◌, ◌++◌, [], ◌∷◌, true, length, map, IfOk, OnOk};
ghost use Rattle.me_terms.specs.Measures.{GREATEST_U64};
ghost use Rattle.branch_core.specs.Parts.{Gift};
ghost use Rattle.branch_core.specs.PartViews.{part_value};
ghost use Rattle.walk_tests.specs.ThreeRecords.{IsPlainPart, three_records};

use branch_core::{
    Core, Event, Listed, Part, Parts, Path, PathState, Record, Records, assemble, code_of,
    is_right_of, key_of,
};
use me_terms::{Answer, Atom, Bound, Entries, Instance, Instances, Literal, Literals, Terms};
use std::alloc::{AllocError, Global};
use std::test::Fail;

#[test]
fn a_path_is_taken_once(rt: HostRuntime) -> Result<(), Fail> {
    let mut core = Core::new(rt.alloc(), 10)?;
    let root = Path::root();
    assert!(rt; core.step(Event::Take { by: 0, path: root }).is_ok());
    match core.step(Event::Take { by: 1, path: root }) {
        Ok(()) => assert!(rt; false),
        Err(why) => assert!(rt; matches!(why.state, PathState::Held { by: 0 })),
    }
    Ok(())
}

/// Whether the event is refused at an offered path, while no key is posted.
fn is_refused_at_offered(core: &mut Core, event: Event) -> bool {
    match core.step(event) {
        Ok(()) => false,
        Err(why) => matches!(why.state, PathState::Offered) && why.least.is_none(),
    }
}

#[test]
fn what_is_not_held_is_not_given_away_or_ended(rt: HostRuntime) -> Result<(), Fail> {
    let mut core = Core::new(rt.alloc(), 1)?;
    let root = Path::root();
    let offer = Event::Offer {
        by: 0,
        parent: root,
        path: right_of(root),
    };
    assert!(rt; is_refused_at_offered(&mut core, offer));
    let end = Event::End {
        by: 0,
        path: root,
        parts: Parts::new(rt.alloc()),
    };
    assert!(rt; is_refused_at_offered(&mut core, end));
    Ok(())
}

/// The least key that the refusal of a Cut at the root by this key carries.
fn least_at_cut(core: &mut Core, least: u16) -> Option<u16> {
    let cut = Event::Cut {
        by: 0,
        node: Path::root(),
        least,
    };
    match core.step(cut) {
        Ok(()) => None,
        Err(why) => why.least,
    }
}

#[test]
fn a_node_is_not_cut_by_a_key_that_is_no_smaller(rt: HostRuntime) -> Result<(), Fail> {
    let mut core = Core::new(rt.alloc(), 1)?;
    assert!(rt; least_at_cut(&mut core, 0).is_none());
    assert!(rt; core.step(Event::Post { by: 0, key: 5 }).is_ok());
    assert_eq!(rt; least_at_cut(&mut core, 5), Some(5));
    Ok(())
}

/// Whether the worker 0, who took the root, may give the right child away.
fn gives_right(alloc: Global, share: u32) -> Result<bool, AllocError>
    requires { share < 17 }
{
    let mut core = Core::new(alloc, share)?;
    let parent = Path::root();
    let taken = core
        .step(Event::Take {
            by: 0,
            path: parent,
        })
        .is_ok();
    let path = right_of(parent);
    Ok(
        taken
            && core
                .step(Event::Offer {
                    by: 0,
                    parent,
                    path,
                })
                .is_ok(),
    )
}

/// The right child, or the path itself where there are 16 turns.
fn right_of(path: Path) -> Path
    ensures { length path < 16 → result ≡ path ++ true ∷ [] }
{
    match path.right() {
        Some(right) => right,
        None => path,
    }
}

#[test]
fn paths_of_few_turns_are_given_away(rt: HostRuntime) -> Result<(), Fail> {
    assert!(rt; !gives_right(rt.alloc(), 0)?);
    assert!(rt; gives_right(rt.alloc(), 16)?);
    Ok(())
}

#[test]
fn a_right_child_has_its_numbers(rt: HostRuntime) -> Result<(), Fail> {
    let left = Path::root().left().ok_or("16 turns")?;
    let right = Path::root().right().ok_or("16 turns")?;
    assert!(rt; code_of(left) == 2 && code_of(right) == 3);
    assert!(rt; key_of(left) == 0 && key_of(right) == 32_768);
    assert!(rt; is_right_of(right, left) && !is_right_of(left, right));
    Ok(())
}

/// Puts the part at the end.
fn add(parts: &mut Parts, part: Part) -> Result<(), AllocError>
    ensures { OnOk result (parts.new.items ≡ parts.old.items ++ part ∷ []) }
{
    match parts.push(part) {
        Ok(()) => Ok(()),
        Err(_) => Err(AllocError),
    }
}

/// Puts a record of the path with its own part at the end, and the gift after its part.
fn keep(
    alloc: Global,
    records: &mut Records,
    path: Path,
    own: Part,
    gift: Path,
) -> Result<(), AllocError>
    ensures { OnOk result (records.new.items ≡ records.old.items ++ record { path = path; parts = part_value own ∷ Gift gift ∷ [] } ∷ []) }
{
    let mut parts = Parts::new(alloc);
    add(&mut parts, own)?;
    add(&mut parts, Part::Gift { path: gift })?;
    put(records, path, parts)
}

/// Puts a record of the path with its own part at the end.
fn keep_alone(alloc: Global, records: &mut Records, path: Path, own: Part) -> Result<(), AllocError>
    ensures { OnOk result (records.new.items ≡ records.old.items ++ record { path = path; parts = part_value own ∷ [] } ∷ []) }
{
    let mut parts = Parts::new(alloc);
    add(&mut parts, own)?;
    put(records, path, parts)
}

fn put(records: &mut Records, path: Path, parts: Parts) -> Result<(), AllocError>
    ensures { OnOk result (records.new.items ≡ records.old.items ++ record { path = path; parts = map part_value parts.items } ∷ []) }
{
    match records.push(Record { path, parts }) {
        Ok(()) => Ok(()),
        Err(_) => Err(AllocError),
    }
}

/// The records of the root, its right child and that one's right child, each of which gives the next away.
fn three(alloc: Global, first: Part, second: Part, third: Part) -> Result<Records, AllocError>
    ensures { IfOk result (λ rs. rs.items ≡ three_records (part_value first) (part_value second) (part_value third)) }
{
    let child = right_of(Path::root());
    let grandchild = right_of(child);
    let mut records = Records::new(alloc);
    keep(alloc, &mut records, Path::root(), first, child)?;
    keep(alloc, &mut records, child, second, grandchild)?;
    keep_alone(alloc, &mut records, grandchild, third)?;
    Ok(records)
}

/// What the three records answer.
fn answer(
    alloc: Global,
    first: Part,
    second: Part,
    third: Part,
    list_bound: u64,
) -> Result<Answer, AllocError>
    requires first { IsPlainPart (part_value first) }
    requires second { IsPlainPart (part_value second) }
    requires third { IsPlainPart (part_value third) }
    requires bound { list_bound < GREATEST_U64 }
{
    let records = three(alloc, first, second, third)?;
    assemble(alloc, &records, list_bound)
}

/// A part with an exhausted leaf.
fn sat(alloc: Global) -> Part
    ensures { IsPlainPart (part_value result) }
{
    Part::Sat {
        context: Entries::new(alloc),
    }
}

/// A part whose leaves list one instance of weight 1.
fn closed(alloc: Global, clause: u32) -> Result<Part, AllocError>
    ensures { IfOk result (λ part. IsPlainPart (part_value part)) }
{
    let mut literals = Literals::new(alloc);
    let atom = Atom {
        pred: clause,
        args: Terms::new(alloc),
    };
    if literals
        .push(Literal {
            positive: true,
            atom,
        })
        .is_err()
    {
        return Err(AllocError);
    }
    let mut list = Instances::new(alloc);
    if list.push(Instance { clause, literals }).is_err() {
        return Err(AllocError);
    }
    Ok(Part::Closed {
        listed: Listed::Whole { list },
    })
}

#[test]
fn want_of_memory_counts_left_of_a_model(rt: HostRuntime) -> Result<(), Fail> {
    let alloc = rt.alloc();
    let found = answer(alloc, sat(alloc), Part::NoMemory, Part::NoMemory, 10);
    assert!(rt; matches!(found, Ok(Answer::Satisfiable { context: _ })));
    let lost = answer(alloc, closed(alloc, 0)?, Part::NoMemory, sat(alloc), 10);
    assert!(rt; lost.is_err());
    Ok(())
}

#[test]
fn a_model_is_found_two_gifts_deep(rt: HostRuntime) -> Result<(), Fail> {
    let alloc = rt.alloc();
    let met = Part::Bounded {
        bound: Bound::Depth,
    };
    let found = answer(alloc, closed(alloc, 0)?, met, sat(alloc), 10);
    assert!(rt; matches!(found, Ok(Answer::Satisfiable { context: _ })));
    Ok(())
}

/// What two instances answer, the first of which is listed twice.
fn listed(alloc: Global, list_bound: u64) -> Result<Answer, AllocError>
    requires { list_bound < GREATEST_U64 }
{
    let first = closed(alloc, 0)?;
    let second = closed(alloc, 1)?;
    let third = closed(alloc, 0)?;
    answer(alloc, first, second, third, list_bound)
}

#[test]
fn a_list_may_weigh_the_bound(rt: HostRuntime) -> Result<(), Fail> {
    match listed(rt.alloc(), 2)? {
        Answer::Unsatisfiable { list } => assert!(rt; list.len() == 2),
        _ => assert!(rt; false),
    }
    let refused = listed(rt.alloc(), 1)?;
    assert!(rt; matches!(refused, Answer::GaveUp { bound: Bound::List }));
    Ok(())
}
