//! Walks of portions of small search trees, over a context and over a branch of a table.
ghost use Rattle.std.specs.Prelude.{◌≡◌};
ghost use Rattle.me_terms.specs.Grown.{start};
ghost use Rattle.me_terms.specs.Validity.{IsLawful, IsValid};

use crate::keeper::Keeper;
use crate::problems::read;
use crate::record_text::{push_kept, text_of};
use crate::rows::{ROWS, Row};
use crate::walking::walk;
use context_nodes::Nodes;
use me_context::Context;
use me_terms::{Bounds, Problem, Start, Trunk};
use std::alloc::{AllocError, Global};
use std::test::Fail;

fn bounds() -> Bounds
    ensures { IsLawful result }
{
    Bounds {
        depth: 3,
        weight: 9,
        literals: 9,
        list: 9,
        start: Start::Negative,
    }
}

/// What a walk from the root finds, and what the search around it took and was told.
fn found<T: Trunk>(
    alloc: Global,
    row: &Row,
    problem: &Problem,
    bounds: &Bounds,
    root: T,
) -> Result<Vec<u8>, AllocError>
    requires valid { IsValid problem.now }
    requires bounds { IsLawful bounds.now }
    requires root { T.context root ≡ start bounds.now.start }
{
    let mut keeper = Keeper::new(row.gifts, row.least);
    let record = walk(alloc, problem, bounds, root, &mut keeper)?;
    let mut text = text_of(alloc, &problem.signature, &record)?;
    push_kept(&mut text, &keeper)?;
    Ok(text)
}

#[test]
fn portions_have_the_parts_that_are_due(rt: HostRuntime) -> Result<(), Fail> {
    let alloc = rt.alloc();
    let bounds = bounds();
    let nodes = Nodes::new(alloc)?;
    for row in ROWS {
        let problem = read(alloc, row.problem)?;
        let owned = Context::new(alloc, bounds.start)?;
        let text = found(alloc, row, &problem, &bounds, owned)?;
        assert_eq!(rt; text.as_slice(), row.found);
        let lent = nodes.root(&rt, alloc, bounds.start)?;
        let text = found(alloc, row, &problem, &bounds, lent)?;
        assert_eq!(rt; text.as_slice(), row.found);
    }
    Ok(())
}
