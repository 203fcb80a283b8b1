//! Records put together to the one answer.
//!
//! The parts of each gift's record are put in the gift's place, and then the parts decide the answer.
ghost use Rattle.std.specs.Prelude.{◌≡◌, ◌<◌, ◌++◌, List, IfOk, OnOk, IsErr, MatchOption};
ghost use Rattle.me_terms.specs.AnswerViews.{answer_value};
ghost use Rattle.me_terms.specs.Measures.{GREATEST_U64};
ghost use Rattle.branch_core.specs.Assemble.{CanAssemble, AnswersWhole, RecordsLackMemory, HasRecord, ArePartsOf};
ghost use Rattle.branch_core.specs.Parts.{PartValue};
ghost use Rattle.branch_core.specs.PartViews.{part_values};
ghost use Rattle.branch_core.specs.RecordIndex.{IsIndex};
ghost use Rattle.branch_core.specs.RunLaws.{ClosedRunsKeepWhole, OrderlyRunsAreRight};
ghost use Rattle.branch_core.specs.Whole.{IsIn};

use crate::deciding::answer_of;
use crate::part::{Part, Record, Records};
use crate::path::{Path, code_of};
use me_terms::Answer;
use std::alloc::{AllocError, Global};
use std::collections::HashMap;

/// The answer of whole records. Memory is out where a part NoMemory stands left of the first Sat, or
/// anywhere where there is no Sat.
pub fn assemble(alloc: Global, records: &Records, list_bound: u64) -> Result<Answer, AllocError>
    requires whole { CanAssemble records.now.items }
    requires bound { list_bound < GREATEST_U64 }
    ensures answers { IfOk result (λ answer. AnswersWhole records.now.items list_bound (answer_value answer)) }
    ensures lacking { RecordsLackMemory records.now.items → IsErr result }
    // The records that a closed orderly run of the core keeps are whole; in an orderly run each path is
    // taken at most once, and no first exhausted leaf is cut.
    ensures kept { ClosedRunsKeepWhole }
    ensures spared { OrderlyRunsAreRight }
{
    let records = records.as_slice();
    let places = places_of(alloc, records)?;
    let mut parts = Vec::new(alloc);
    fill(records, &places, Path::root(), &mut parts)?;
    answer_of(alloc, &parts, list_bound)
}

/// Puts the parts of the path's record at the end, with those of each gift's record in the gift's place.
fn fill<'a>(
    records: &'a [Record],
    places: &HashMap<u32, usize>,
    path: Path,
    parts: &mut Vec<&'a Part>,
) -> Result<(), AllocError>
    requires whole { CanAssemble records.now }
    requires index { IsIndex records.now places.now }
    requires known { HasRecord records.now path }
    ensures { OnOk result ((filled : List PartValue) × ArePartsOf records.now path filled × (part_values parts.new.items ≡ part_values parts.old.items ++ filled)) }
{
    let Some(record) = find_record(records, places, path) else {
        unreachable!();
    };
    for part in record.parts.as_slice() {
        match part {
            Part::Gift { path } => {
                prove!(path.len <= 16);
                fill(records, places, *path, parts)?;
            }
            _ => parts.push(part)?,
        }
    }
    Ok(())
}

/// Where the record of each path stands, by the path's code.
fn places_of(alloc: Global, records: &[Record]) -> Result<HashMap<u32, usize>, AllocError>
    ensures { IfOk result (λ places. IsIndex records.now places) }
{
    let mut places = HashMap::with_capacity(alloc, records.len())?;
    for (place, record) in records.iter().enumerate() {
        places.insert(code_of(record.path), place)?;
    }
    Ok(places)
}

/// The record of the path, or None where there is none.
fn find_record<'a>(
    records: &'a [Record],
    places: &HashMap<u32, usize>,
    path: Path,
) -> Option<&'a Record>
    requires { IsIndex records.now places.now }
    ensures { MatchOption result (¬ HasRecord records.now path) (λ found. IsIn found.now records.now × (found.now.path ≡ path)) }
{
    match places.get(&code_of(path)) {
        Some(place) => records.get(*place),
        None => None,
    }
}
