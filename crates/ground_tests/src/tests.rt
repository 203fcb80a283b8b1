//! Lists with the model that they have, or the proof that they have none.
use crate::lists::{model_of, proof_of};
use std::alloc::Global;
use std::process::Abort;
use std::test::Fail;

/// The list has this model.
fn expect_model(
    rt: &impl Abort,
    alloc: Global,
    clauses: &[&[i32]],
    trues: &[u32],
) -> Result<(), Fail> {
    match model_of(alloc, clauses)? {
        Some(found) => assert_eq!(rt; found.as_slice(), trues),
        None => assert!(rt; false),
    }
    Ok(())
}

/// The list has no model.
fn expect_closed(rt: &impl Abort, alloc: Global, clauses: &[&[i32]]) -> Result<(), Fail> {
    assert!(rt; proof_of(alloc, clauses)?.is_some());
    Ok(())
}

#[test]
fn lists_with_one_model(rt: HostRuntime) -> Result<(), Fail> {
    let alloc = rt.alloc();
    expect_model(&rt, alloc, &[], &[])?;
    expect_model(&rt, alloc, &[&[1]], &[1])?;
    expect_model(&rt, alloc, &[&[-1]], &[])?;
    expect_model(&rt, alloc, &[&[2], &[-2, 1], &[-1, 3]], &[2, 1, 3])?;
    let but_one: &[&[i32]] = &[
        &[1, 2, 3],
        &[1, 2, -3],
        &[1, -2, 3],
        &[1, -2, -3],
        &[-1, 2, 3],
        &[-1, -2, 3],
        &[-1, -2, -3],
    ];
    expect_model(&rt, alloc, but_one, &[1, 3])
}

#[test]
fn lists_without_a_model(rt: HostRuntime) -> Result<(), Fail> {
    let alloc = rt.alloc();
    expect_closed(&rt, alloc, &[&[1], &[-1, 2], &[-2]])?;
    expect_closed(&rt, alloc, &[&[1, 1], &[-1, -1]])?;
    expect_closed(&rt, alloc, &[&[1, 2], &[1, -2], &[-1, 2], &[-1, -2]])?;
    // Three pigeons in two holes.
    let pigeons: &[&[i32]] = &[
        &[1, 2],
        &[3, 4],
        &[5, 6],
        &[-1, -3],
        &[-1, -5],
        &[-3, -5],
        &[-2, -4],
        &[-2, -6],
        &[-4, -6],
    ];
    expect_closed(&rt, alloc, pigeons)
}

#[test]
fn proofs_in_preorder(rt: HostRuntime) -> Result<(), Fail> {
    let alloc = rt.alloc();
    match proof_of(alloc, &[&[1], &[]])? {
        Some(nodes) => assert_eq!(rt; nodes.as_slice(), [(false, 1)].as_slice()),
        None => assert!(rt; false),
    }
    match proof_of(alloc, &[&[1], &[-1]])? {
        Some(nodes) => {
            assert_eq!(rt;
                nodes.as_slice(),
                [(true, 1), (false, 1), (false, 0)].as_slice()
            )
        }
        None => assert!(rt; false),
    }
    Ok(())
}
